//! Sources and sinks in pieces, failing in mid-stream.

use par_io::{
    Failed, MemSink, MemSource, ReadFail, StdSink, StdSource, SureSink, SureSource, read_all,
    write_all,
};
use std::test::Fail;

/// A text of 250 bytes, in pieces of 100: three calls give bytes, and the fourth reports the end.
#[test]
fn reads_in_pieces(rt: HostRuntime) -> Result<(), Fail> {
    let alloc = rt.alloc();
    let text = [7u8; 250];
    let rows: [(&[u32], usize, Option<ReadFail>); 9] = [
        (&[], 250, None),
        (&[], 249, Some(ReadFail::TooLong)),
        (&[], 0, Some(ReadFail::TooLong)),
        (&[2], 250, Some(ReadFail::Fault)),
        (&[2], 99, Some(ReadFail::TooLong)),
        (&[2], 100, Some(ReadFail::Fault)),
        (&[4], 250, Some(ReadFail::Fault)),
        (&[5], 250, None),
        (&[9, 1], 0, Some(ReadFail::Fault)),
    ];
    for (row, (failing, limit, fail)) in rows.into_iter().enumerate() {
        let mut source = MemSource::new(&text, 100, failing);
        match read_all(alloc, &mut source, limit) {
            Ok(bytes) => {
                assert_eq!(rt; fail, None, "row {row}");
                assert_eq!(rt; bytes.as_slice(), text.as_slice(), "row {row}");
            }
            Err(cause) => assert_eq!(rt; fail, Some(cause), "row {row}"),
        }
    }
    Ok(())
}

/// The same text into a sink: the piece, the room, the failing calls, and how much was written in the end.
#[test]
fn writes_in_pieces(rt: HostRuntime) -> Result<(), Fail> {
    let alloc = rt.alloc();
    let text = [7u8; 250];
    let rows: [(usize, usize, &[u32], usize); 8] = [
        (100, 250, &[], 250),
        (100, 249, &[], 200),
        (100, 250, &[2], 100),
        (100, 250, &[1], 0),
        (100, 250, &[4], 250),
        (300, 250, &[], 250),
        (300, 249, &[], 0),
        (0, 250, &[], 0),
    ];
    for (row, (piece, room, failing, count)) in rows.into_iter().enumerate() {
        let mut sink = MemSink::new(alloc, piece, room, failing).map_err(|_| "memory")?;
        let written = write_all(&mut sink, &text);
        assert_eq!(rt; written.is_ok(), count == 250, "row {row}");
        assert_eq!(rt; sink.bytes().len(), count, "row {row}");
    }
    Ok(())
}

/// The sure ones pass on a text that is longer than one read.
#[test]
fn sure_ends(rt: HostRuntime) -> Result<(), Fail> {
    let text = [5u8; 5000];
    let mut source = SureSource::new(&text);
    let bytes = read_all(rt.alloc(), &mut source, 5000).map_err(|_| "read")?;
    assert_eq!(rt; bytes.as_slice(), text.as_slice());
    let mut sink = SureSink::new();
    assert_eq!(rt; write_all(&mut sink, bytes.as_slice()), Ok(()));
    Ok(())
}

/// Std's readers and writers over memory; one that is full takes nothing, which is a failure.
#[test]
fn adapts_std(rt: HostRuntime) -> Result<(), Fail> {
    let alloc = rt.alloc();
    let mut source = StdSource::new(b"hello".as_slice());
    let bytes = read_all(alloc, &mut source, 5).map_err(|_| "read")?;
    assert_eq!(rt; bytes.as_slice(), b"hello".as_slice());
    let mut held = Vec::new(alloc);
    assert_eq!(rt; write_all(&mut StdSink::new(&mut held), b"hello"), Ok(()));
    assert_eq!(rt; held.as_slice(), b"hello".as_slice());
    let mut small = [0u8; 3];
    assert_eq!(rt;
        write_all(&mut StdSink::new(small.as_mut_slice()), b"hello"),
        Err(Failed)
    );
    assert_eq!(rt; small.as_slice(), b"hel".as_slice());
    Ok(())
}
