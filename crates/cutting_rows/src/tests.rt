//! The cuts and the rejects of worked rows, with ample memory.

mod bank;
mod stream;

use Step::{Ask, Config, Mark};
use bank::stream_table;
use block_cutter::admit;
use std::test::Fail;
use stream::{Step, request, shape, streamed};
use txn_types::Reject;

// Each stream is these steps so many times; a configuration's block is none.
#[test]
fn streams_are_cut(rt: HostRuntime) -> Result<(), Fail> {
    let alloc = rt.alloc();
    let table = stream_table(alloc)?;
    let x = Ask(None);
    let all = 1048576;
    let marks = [Mark, Mark, x, Mark, Mark, x, Mark];
    for (times, steps, bytes, blocks) in [
        (256, [x].as_slice(), all, [Some(256)].as_slice()),
        (257, &[x], all, &[Some(256), Some(1)]),
        (52, &[x], 2048, &[Some(51), Some(1)]),
        (1, &marks, all, &[Some(1), Some(1)]),
        (1, &[x, Config, x], all, &[Some(1), None, Some(1)]),
    ] {
        let found = streamed(alloc, &table, times, steps, bytes)?;
        assert_eq!(rt; shape(alloc, &found)?.as_slice(), blocks, "{times} times");
    }
    Ok(())
}

// Each reason to reject a request, in order.
#[test]
fn requests_are_rejected(rt: HostRuntime) -> Result<(), Fail> {
    let alloc = rt.alloc();
    let table = stream_table(alloc)?;
    let reasons = [
        Reject::UnknownApp,
        Reject::ClientNotAllowed,
        Reject::UnknownOp,
        Reject::ArgCount,
        Reject::ArgKind,
        Reject::SetTooLarge,
    ];
    for why in reasons {
        let answer = admit(&table, &request(alloc, &table, Some(why))?);
        assert!(rt; matches!(answer, Err(found) if found == why), "{why:?}");
    }
    let steps = reasons.map(|why| Ask(Some(why)));
    let found = streamed(alloc, &table, 1, &steps, 2048)?;
    assert_eq!(rt; found.bodies.len(), 0);
    let mut numbers = Vec::new(alloc);
    for rejected in found.rejected.as_slice() {
        numbers.push((rejected.item, rejected.why))?;
    }
    let expected = [
        (0, Reject::UnknownApp),
        (1, Reject::ClientNotAllowed),
        (2, Reject::UnknownOp),
        (3, Reject::ArgCount),
        (4, Reject::ArgKind),
        (5, Reject::SetTooLarge),
    ];
    assert_eq!(rt; numbers.as_slice(), expected.as_slice());
    Ok(())
}
