//! Tables of documents with the line that refuses them, one row a line.
//!
//! A row is `OLD -> NEW => FAULT`: in a document the first OLD is replaced by NEW, and the document has FAULT then.
//! NEW may be `nothing`, and FAULT `accepted`. Several replacements, in turn, have ` && ` between them.
//! In NEW, `<N times PIECE>` stands for so many pieces with commas between, in which # is the count before them.
//! For the quotation marks of JSON a row writes '.

use crate::{Trouble, answer};
use std::alloc::{AllocError, Global};
use std::thread::Threads;

/// JSON of a text with ' for its quotation marks.
pub fn json(alloc: Global, text: &str) -> Result<String, AllocError> {
    text.replace(alloc, "'", "\"")
}

/// The text with its first `old` replaced, which it has.
pub fn replaced(alloc: Global, text: &str, old: &str, new: &str) -> Result<String, Trouble> {
    let Some((before, after)) = text.split_once(old) else {
        return Err(Trouble::NotThere);
    };
    Ok(format!(in alloc; "{before}{new}{after}")?)
}

fn repeated(alloc: Global, count: u32, piece: &str) -> Result<String, AllocError> {
    let mut text = String::new(alloc);
    let mut comma = "";
    for i in 0..count {
        let number = format!(in alloc; "{i}")?;
        text.push_str(comma)?;
        text.push_str(piece.replace(alloc, "#", number.as_str())?.as_str())?;
        comma = ",";
    }
    Ok(text)
}

// The count and the piece of a repetition, and what stands behind it.
fn repetition(text: &str) -> Option<(u32, &str, &str)> {
    let (inner, after) = text.split_once(">")?;
    let (count, piece) = inner.split_once(" times ")?;
    match count.parse::<u32>() {
        Ok(count) => Some((count, piece, after)),
        Err(_) => None,
    }
}

/// The text with its last repetition written out.
pub fn expanded(alloc: Global, text: &str) -> Result<String, AllocError> {
    if let Some((before, rest)) = text.rsplit_once("<")
        && let Some((count, piece, after)) = repetition(rest)
    {
        let pieces = repeated(alloc, count, piece)?;
        return format!(in alloc; "{before}{pieces}{after}");
    }
    String::from_str(alloc, text)
}

// The text with one replacement of a row.
fn edited_once(alloc: Global, text: &str, edit: &str) -> Result<String, Trouble> {
    let Some((old, new)) = edit.split_once(" -> ") else {
        return Err(Trouble::Row);
    };
    let new = if new == "nothing" { "" } else { new };
    let inner = expanded(alloc, new)?;
    let whole = expanded(alloc, inner.as_str())?;
    replaced(alloc, text, old, whole.as_str())
}

/// The text with the replacements of a row.
pub fn edited(alloc: Global, text: &str, edits: &str) -> Result<String, Trouble> {
    let mut text = String::from_str(alloc, text)?;
    for edit in edits.split(" && ") {
        text = edited_once(alloc, text.as_str(), edit)?;
    }
    Ok(text)
}

// The line of a document with this fault, which is none where it is accepted.
fn line_with(alloc: Global, fault: &str) -> Result<String, AllocError> {
    if fault == "accepted" {
        Ok(String::new(alloc))
    } else {
        format!(in alloc; "parblock: refused: {fault}\n")
    }
}

// What the command says of the document of a row, or why there is none.
fn said<R: Threads + Sync>(
    rt: &R,
    alloc: Global,
    command: &str,
    text: &str,
    edits: &str,
) -> Result<String, Trouble> {
    match edited(alloc, text, edits) {
        Ok(document) => {
            let document = json(alloc, document.as_str())?;
            Ok(answer(rt, alloc, command, document.as_bytes())?.line)
        }
        Err(Trouble::NotThere) => Ok(String::from_str(alloc, "what it replaces is not there\n")?),
        Err(Trouble::Row) => Ok(String::from_str(alloc, "it replaces nothing\n")?),
        Err(trouble) => Err(trouble),
    }
}

/// The first row that the command answers by another line, or that has no document, with what is said instead; nothing where each row is answered as it says.
pub fn wrong_row<R: Threads + Sync>(
    rt: &R,
    alloc: Global,
    command: &str,
    text: &str,
    rows: &str,
) -> Result<String, Trouble> {
    for row in rows.lines() {
        let Some((edits, fault)) = row.split_once(" => ") else {
            return Ok(format!(in alloc; "no row: {row}")?);
        };
        let line = said(rt, alloc, command, text, edits)?;
        if line.as_str() != line_with(alloc, fault)?.as_str() {
            return Ok(format!(in alloc; "{row}: {line}")?);
        }
    }
    Ok(String::new(alloc))
}
