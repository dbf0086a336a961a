//! Reads a table of documents from standard input, and prints each that its command answers otherwise, and how many there are.
#![tactic(auto)]

use document_rows::{text_of, wrong_texts};
use par_io::{StdSource, read_all};
use std::io;
use std::io::Write;
use std::process::ExitCode;

/// The greatest length of a table in bytes.
const TABLE_LIMIT: usize = 1_048_576;

fn main(rt: HostRuntime) -> ExitCode {
    let alloc = rt.alloc();
    let mut source = StdSource::new(rt.reader());
    let Ok(table) = read_all(alloc, &mut source, TABLE_LIMIT) else {
        return ExitCode::FAILURE;
    };
    let Ok(table) = text_of(alloc, table.as_slice()) else {
        return ExitCode::FAILURE;
    };
    let Ok(text) = wrong_texts(&rt, alloc, table.as_str()) else {
        return ExitCode::FAILURE;
    };
    if io::writer(&rt).write_all(text.as_bytes()).is_err() {
        return ExitCode::FAILURE;
    }
    ExitCode::SUCCESS
}
