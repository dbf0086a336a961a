//! Reads rows of documents from standard input, and prints each that the command `graph` answers otherwise, and how many rows there are.
#![tactic(auto)]

use document_rows::{BASE, Trouble, text_of, wrong_row};
use par_io::{StdSource, read_all};
use std::alloc::Global;
use std::io;
use std::io::Write;
use std::process::ExitCode;
use std::thread::Threads;

/// The greatest length of a table in bytes.
const TABLE_LIMIT: usize = 1_048_576;

// A row, and not a heading or nothing.
fn is_row(line: &str) -> bool {
    !line.is_empty() && !line.starts_with('#')
}

// The rows that are answered otherwise, each with its answer, and the count of all rows.
fn told<R: Threads + Sync>(rt: &R, alloc: Global, table: &str) -> Result<String, Trouble> {
    let mut text = String::new(alloc);
    let mut count = 0u64;
    for line in table.lines() {
        if is_row(line) {
            text.push_str(wrong_row(rt, alloc, "graph", BASE, line)?.as_str())?;
            count = count.wrapping_add(1);
        }
    }
    let end = format!(in alloc; "rows {count}\n")?;
    text.push_str(end.as_str())?;
    Ok(text)
}

fn main(rt: HostRuntime) -> ExitCode {
    let alloc = rt.alloc();
    let mut source = StdSource::new(rt.reader());
    let Ok(table) = read_all(alloc, &mut source, TABLE_LIMIT) else {
        return ExitCode::FAILURE;
    };
    let Ok(table) = text_of(alloc, table.as_slice()) else {
        return ExitCode::FAILURE;
    };
    let Ok(text) = told(&rt, alloc, table.as_str()) else {
        return ExitCode::FAILURE;
    };
    if io::writer(&rt).write_all(text.as_bytes()).is_err() {
        return ExitCode::FAILURE;
    }
    ExitCode::SUCCESS
}
