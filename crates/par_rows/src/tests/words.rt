//! Command words: options in each form, and words that are no command.

use super::devices::{TRANSFER_TEXT, in_pieces};
use super::*;

// Words that are no command.
#[test]
fn bad_words(rt: HostRuntime) -> Result<(), Fail> {
    for line in [
        "",
        "run --workers 0",
        "run --workers 17",
        "run --workers",
        "run --workers 2 --workers 2",
        "run --workers 02",
        "run --",
        "live",
        "soak",
        "soak --seed 1",
        "soak --txns 1",
        "soak --seed 1 --txns 0",
        "soak --seed 1 --txns 4097",
        "soak --seed 65536 --txns 1",
        "soak --seed 01 --txns 1",
        "soak --seed 00 --txns 1",
        "soak --seed -1 --txns 1",
        "soak --seed 1 --txns=01",
        "soak --seed= --txns 1",
        "soak --seed --txns 1",
        "soak --seed 1 --txns 1 --seed 1",
        "soak --seed 1 --txns=1 --txns 1",
        "soak --seed 1 --txns 1 --workers 17",
        "soak --seed 1 --txns 1 --workers",
        "soak --seed 1 --txns 1 --trace",
        "soak --seed 1 --txns 1 --evidence",
        "soak --seed 1 --txns 1 1",
        "run --seed 1 --txns 1",
        "run --seed 1",
        "graph --seed 1",
        "Run",
        "run run",
        "run graph",
        "graph graph",
        "graph --trace",
        "graph --evidence",
        "--trace run",
        "run --trace --trace",
        "run --trace=x",
        "run --evidence=x",
        "run --evidence --evidence",
        "run --evidence --trace --evidence",
        "run --evid",
        "run --trace --workers=1 --workers 2",
        "run --workers --trace",
        "run --workers=",
        "run --workers +2",
        "run --workers=-2",
        "run --workers 1.0",
        "run --work 2",
        "run -w 2",
        "run -",
        "run -h",
        "run --help",
        "run --version",
    ] {
        let said = in_pieces(&rt, rt.alloc(), line, TRANSFER, (&[1], &[1]))?;
        assert_eq!(rt; said.line.as_str(), "parblock: usage\n", "{line}");
        assert_eq!(rt; said.text.as_str(), "", "{line}");
    }
    Ok(())
}

// What ran is printed behind the text where it is asked for, and the number of workers changes nothing else.
#[test]
fn options(rt: HostRuntime) -> Result<(), Fail> {
    let alloc = rt.alloc();
    let traced = format!(in alloc; "{TRANSFER_TEXT}burst p1 1 1\nspan 1 1 0 1\n")?;
    for (line, text) in [
        ("run --workers 1 --trace", traced.as_str()),
        ("run --workers=16 --trace", traced.as_str()),
        ("run --trace --workers 1", traced.as_str()),
        ("run --trace", traced.as_str()),
        ("run --trace --evidence", traced.as_str()),
        ("run --evidence --workers 1 --trace", traced.as_str()),
        ("run --evidence", TRANSFER_TEXT),
        ("run --workers=1", TRANSFER_TEXT),
        ("run --workers 16", TRANSFER_TEXT),
    ] {
        let said = in_pieces(&rt, alloc, line, TRANSFER, (&[], &[]))?;
        assert_eq!(rt; said.line.as_str(), "", "{line}");
        assert_eq!(rt; said.text.as_str(), text, "{line}");
    }
    Ok(())
}
