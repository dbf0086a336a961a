//! Sources and sinks in small pieces, and the number and line of each status.

use super::*;
use par_top::{DocFault, Status, status_code};

/// What a run writes of the transfer document.
pub const TRANSFER_TEXT: &str =
    "blocks 1\npeer p1 completed 1\nblock 1 736451c8f7eecfcc365addef3327c516f9701079c13dbfe32ef9e21eb649ed19\ntxn 1 bank transfer commit a=6 b=4\nstate 2\nvalue a 6\nvalue b 4\nmessages 2\nidle 0\n";

const OVERFLOW_TEXT: &str =
    "blocks 1\npeer p1 completed 1\nblock 1 736451c8f7eecfcc365addef3327c516f9701079c13dbfe32ef9e21eb649ed19\ntxn 1 bank transfer abort overflow\nstate 2\nvalue a 10\nvalue b 4611686018427387903\nmessages 2\nidle 0\n";

const REQUEST: &str =
    "{\"client\":\"c1\",\"app\":\"bank\",\"op\":\"transfer\",\"args\":[\"a\",\"b\",4],\"reads\":[\"a\",\"b\"],\"writes\":[\"a\",\"b\"]}";

const EMPTY_TEXT: &str = "blocks 0\npeer p1 completed 0\nstate 1\nvalue a 10\nmessages 0\nidle 0\n";

fn words_of(alloc: Global, line: &str) -> Result<Vec<String>, AllocError> {
    let mut words = Vec::new(alloc);
    for word in line.split_whitespace() {
        words.push(String::from_str(alloc, word)?)?;
    }
    Ok(words)
}

/// What is said and written over memory in pieces of 100 and 16 bytes, which fails in the calls that are listed.
pub fn in_pieces<R: Threads + Sync>(
    rt: &R,
    alloc: Global,
    line: &str,
    document: &str,
    failing: (&[u32], &[u32]),
) -> Result<Said, Fail> {
    let mut sink = MemSink::new(alloc, 16, 20_000, failing.1)?;
    into_sink(rt, alloc, line, document, failing.0, &mut sink)
}

/// What is said and written where memory is read in pieces of 100 bytes, which fails in the calls that are listed.
pub fn into_sink<R: Threads + Sync>(
    rt: &R,
    alloc: Global,
    line: &str,
    document: &str,
    failing: &[u32],
    sink: &mut MemSink<'_>,
) -> Result<Said, Fail> {
    let words = words_of(alloc, line)?;
    let mut source = MemSource::new(document.as_bytes(), 100, failing);
    let status = run(rt, alloc, words.as_slice(), &mut source, sink, &FreeGate);
    let line = status_line(alloc, &status)?;
    Ok(Said {
        text: text_of(alloc, sink.bytes())?,
        line: text_of(alloc, line.as_slice())?,
    })
}

// A document gives its text, in pieces that the source and the sink choose.
#[test]
fn pieces(rt: HostRuntime) -> Result<(), Fail> {
    let alloc = rt.alloc();
    let full = replaced(alloc, TRANSFER, "[\"b\",0]", "[\"b\",4611686018427387903]")?;
    let empty = replaced(alloc, TRANSFER, REQUEST, "")?;
    for (document, text) in [
        (TRANSFER, TRANSFER_TEXT),
        (full.as_str(), OVERFLOW_TEXT),
        (empty.as_str(), EMPTY_TEXT),
    ] {
        let said = in_pieces(&rt, alloc, "run", document, (&[], &[]))?;
        assert_eq!(rt; said.line.as_str(), "", "{document}");
        assert_eq!(rt; said.text.as_str(), text, "{document}");
    }
    Ok(())
}

// Each status has its number.
#[test]
fn numbers(rt: HostRuntime) {
    for (status, number) in [
        (Status::Ok, 0),
        (Status::Usage, 2),
        (Status::Refused(DocFault::NotJson), 3),
        (Status::OutOfMemory, 4),
        (Status::ReadFault, 5),
        (Status::WriteFault, 6),
    ] {
        assert_eq!(rt; status_code(&status), number);
    }
}

// The lines that no other test sees.
#[test]
fn lines(rt: HostRuntime) -> Result<(), Fail> {
    let line = status_line(rt.alloc(), &Status::Ok)?;
    assert_eq!(rt; line.as_slice(), b"".as_slice());
    let line = status_line(rt.alloc(), &Status::OutOfMemory)?;
    assert_eq!(rt; line.as_slice(), b"parblock: out of memory\n".as_slice());
    Ok(())
}
