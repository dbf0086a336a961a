//! Tables of documents with what a command answers to them.
//!
//! A section is a line `== WORDS: TITLE`, a document, a line `--`, and what the command of the words says of the document and then writes.
//! There may be several WORDS with `, ` between; each of them is answered so.
//! What is before the first section is no part of a table. In a document, `<N times PIECE>` is as in rows.

use crate::rows::expanded;
use crate::{Trouble, answer};
use std::alloc::Global;
use std::thread::Threads;

#[derive(Clone, Copy)]
struct Section<'a> {
    head: &'a str,
    document: &'a str,
    wanted: &'a str,
}

fn section_of(text: &str) -> Option<Section<'_>> {
    let (head, rest) = text.split_once("\n")?;
    let (document, wanted) = rest.split_once("\n--\n")?;
    Some(Section {
        head,
        document,
        wanted,
    })
}

// What the command of these words says and then writes.
fn answered<R: Threads + Sync>(
    rt: &R,
    alloc: Global,
    words: &str,
    document: &str,
) -> Result<String, Trouble> {
    let document = expanded(alloc, document)?;
    let said = answer(rt, alloc, words, document.as_bytes())?;
    Ok(format!(in alloc; "{}{}", said.line, said.text)?)
}

// The section with the first answer that isn't the wanted one, if there is one.
fn wrong_section<R: Threads + Sync>(rt: &R, alloc: Global, text: &str) -> Result<String, Trouble> {
    let Some(section) = section_of(text) else {
        return Ok(format!(in alloc; "no section: {text}\n")?);
    };
    let commands = section
        .head
        .split_once(": ")
        .map_or(section.head, |parts| parts.0);
    for words in commands.split(", ") {
        let text = answered(rt, alloc, words, section.document)?;
        if text.as_str().strip_suffix("\n") != Some(section.wanted) {
            return Ok(format!(in alloc; "{}, by {words}\n{text}", section.head)?);
        }
    }
    Ok(String::new(alloc))
}

/// The sections that their commands answer otherwise, each with its answer, and how many there are.
pub fn wrong_texts<R: Threads + Sync>(
    rt: &R,
    alloc: Global,
    table: &str,
) -> Result<String, Trouble> {
    let mut text = String::new(alloc);
    let mut count = 0u64;
    for section in table.split("\n== ").skip(1) {
        let section = section.strip_suffix("\n").unwrap_or(section);
        text.push_str(wrong_section(rt, alloc, section)?.as_str())?;
        count = count.wrapping_add(1);
    }
    text.push_str(format!(in alloc; "sections {count}\n")?.as_str())?;
    Ok(text)
}
