//! `soak`: its summary in each form of its words, over a source that is left alone and a sink that fails.

use super::devices::in_pieces;
use super::*;

// Both summaries were worked out by a program in another language that was written from docs/FORMAT.md and shares no code with this one: draws, bytes and hashes of blocks, dependent pairs, a serial run, and the messages of four peers.

const ONE: &str =
    "soak 1 1\nblocks 1\nedges 0\ncommits 1\naborts 0\nsum 256000\nmessages 5\ntip 617a72063a4396b0187d35dfe764cc383020f3d3ae484bc374fed9ee2ae81f56\n";

const FORTY: &str =
    "soak 3 40\nblocks 1\nedges 12\ncommits 40\naborts 0\nsum 256000\nmessages 25\ntip 0019f8fc940518f9c8c169367a8388ece39dae20a3e4d39610bcddf07165ae28\n";

#[test]
fn summaries(rt: HostRuntime) -> Result<(), Fail> {
    for (line, text) in [
        ("soak --seed 1 --txns 1", ONE),
        ("soak --txns=1 --workers 16 --seed=1", ONE),
        ("soak --seed 3 --txns 40 --workers=1", FORTY),
        ("soak --workers 16 --txns 40 --seed 3", FORTY),
    ] {
        let said = in_pieces(&rt, rt.alloc(), line, TRANSFER, (&[1], &[]))?;
        assert_eq!(rt; said.line.as_str(), "", "{line}");
        assert_eq!(rt; said.text.as_str(), text, "{line}");
    }
    Ok(())
}

#[test]
fn a_failing_sink(rt: HostRuntime) -> Result<(), Fail> {
    let said = in_pieces(
        &rt,
        rt.alloc(),
        "soak --seed 1 --txns 1",
        TRANSFER,
        (&[], &[3]),
    )?;
    assert_eq!(rt; said.line.as_str(), "parblock: write fault\n");
    assert_eq!(rt; said.text.as_str(), "soak 1 1\nblocks 1\nedges 0\ncommit");
    Ok(())
}
