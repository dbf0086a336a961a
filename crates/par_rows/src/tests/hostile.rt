//! Documents that are none and devices that fail: each case has its one answer, and its one text written so far.

use super::bytes::nested;
use super::devices::{TRANSFER_TEXT, in_pieces, into_sink};
use super::*;

// The line that `run` says of these bytes, with nothing written.
fn refusal<R: Threads + Sync>(rt: &R, alloc: Global, bytes: &[u8]) -> Result<String, Fail> {
    let said = answer(rt, alloc, "run", bytes)?;
    if !said.text.as_str().is_empty() {
        return Err("a refusal after a written byte".into());
    }
    Ok(said.line)
}

// No proper part from the front of a document is JSON.
#[test]
fn parts_from_the_front(rt: HostRuntime) -> Result<(), Fail> {
    let bytes = TRANSFER.as_bytes();
    for length in 0..bytes.len() {
        let line = refusal(&rt, rt.alloc(), &bytes[..length])?;
        assert_eq!(rt;
            line.as_str(),
            "parblock: refused: not json\n",
            "{length} bytes"
        );
    }
    let said = answer(&rt, rt.alloc(), "run", bytes)?;
    assert_eq!(rt; said.line.as_str(), "");
    assert_eq!(rt; said.text.as_str(), TRANSFER_TEXT);
    Ok(())
}

// The transfer document with a byte that is no UTF-8 in a name.
#[test]
fn a_byte_of_a_name(rt: HostRuntime) -> Result<(), Fail> {
    let mut bytes = Vec::new(rt.alloc());
    for byte in TRANSFER.as_bytes() {
        bytes.push(if *byte == b'k' { 255 } else { *byte })?;
    }
    let line = refusal(&rt, rt.alloc(), bytes.as_slice())?;
    assert_eq!(rt; line.as_str(), "parblock: refused: not json\n");
    Ok(())
}

// Arrays alone: one deeper is no JSON.
#[test]
fn the_greatest_depth(rt: HostRuntime) -> Result<(), Fail> {
    for (depth, wanted) in [
        (127, "parblock: refused: field .\n"),
        (128, "parblock: refused: not json\n"),
    ] {
        let text = nested(rt.alloc(), "[", "", "]", depth)?;
        let line = refusal(&rt, rt.alloc(), text.as_str().as_bytes())?;
        assert_eq!(rt; line.as_str(), wanted, "{depth} deep");
    }
    Ok(())
}

// The transfer document with one thing that it may not have.
#[test]
fn one_thing_too_many(rt: HostRuntime) -> Result<(), Fail> {
    for (edit, wanted) in [
        (
            "op transfer(from:record,to:record,n:number){from=from-n;to=to+n;} -> op f(r:record){r=(((((((((((((((((((((((((((((((((",
            "parblock: refused: contract 0 limit 49\n",
        ),
        (
            "{\"version\" -> {\"zz\":0,\"version\"",
            "parblock: refused: field zz\n",
        ),
        (
            "{\"do\":\"all\"} -> <9 times {\"do\":\"all\"}>",
            "parblock: refused: limit all 8\n",
        ),
    ] {
        let document = edited(rt.alloc(), TRANSFER, edit)?;
        let line = refusal(&rt, rt.alloc(), document.as_str().as_bytes())?;
        assert_eq!(rt; line.as_str(), wanted, "{edit}");
    }
    Ok(())
}

// The document comes in five pieces and an end: whichever of the six calls fails, nothing is written.
#[test]
fn each_read_fails(rt: HostRuntime) -> Result<(), Fail> {
    for call in 1..=6u32 {
        let said = in_pieces(&rt, rt.alloc(), "run", TRANSFER, (&[call], &[]))?;
        assert_eq!(rt; said.line.as_str(), "parblock: read fault\n", "call {call}");
        assert_eq!(rt; said.text.as_str(), "", "call {call}");
    }
    let said = in_pieces(&rt, rt.alloc(), "run", TRANSFER, (&[7], &[]))?;
    assert_eq!(rt; said.line.as_str(), "");
    assert_eq!(rt; said.text.as_str(), TRANSFER_TEXT);
    Ok(())
}

// The text goes out in twelve pieces: whichever fails, the pieces before it were written, and no more.
#[test]
fn each_write_fails(rt: HostRuntime) -> Result<(), Fail> {
    for (call, written) in [
        (1, 0),
        (2, 16),
        (3, 32),
        (4, 48),
        (5, 64),
        (6, 80),
        (7, 96),
        (8, 112),
        (9, 128),
        (10, 144),
        (11, 160),
        (12, 176),
    ] {
        let said = in_pieces(&rt, rt.alloc(), "run", TRANSFER, (&[], &[call]))?;
        assert_eq!(rt;
            said.line.as_str(),
            "parblock: write fault\n",
            "call {call}"
        );
        assert_eq!(rt; said.text.as_str().len(), written, "call {call}");
        assert!(rt;
            TRANSFER_TEXT.starts_with(said.text.as_str()),
            "call {call}"
        );
    }
    let said = in_pieces(&rt, rt.alloc(), "run", TRANSFER, (&[], &[13]))?;
    assert_eq!(rt; said.line.as_str(), "");
    assert_eq!(rt; said.text.as_str(), TRANSFER_TEXT);
    Ok(())
}

// A sink that may take nothing of a byte fails at once.
#[test]
fn nothing_is_taken(rt: HostRuntime) -> Result<(), Fail> {
    let mut sink = MemSink::new(rt.alloc(), 0, 20_000, &[])?;
    let said = into_sink(&rt, rt.alloc(), "run", TRANSFER, &[], &mut sink)?;
    assert_eq!(rt; said.line.as_str(), "parblock: write fault\n");
    assert_eq!(rt; said.text.as_str(), "");
    Ok(())
}
