//! Bytes that are no JSON, and what JSON leaves open.

use super::*;

// A text is one JSON value, and the root is an object.
#[test]
fn json_values(rt: HostRuntime) -> Result<(), Fail> {
    let wrong = wrong_row(&rt, rt.alloc(), "graph", "DOCUMENT", JSON_VALUES)?;
    assert_eq!(rt; wrong.as_str(), "");
    Ok(())
}

const JSON_VALUES: &str = "DOCUMENT -> nothing => not json
DOCUMENT ->   => not json
DOCUMENT -> [] => field .
DOCUMENT ->  \t[] \t => field .
DOCUMENT -> null => field .
DOCUMENT -> 'version' => field .
DOCUMENT -> {} => field version
DOCUMENT -> {} {} => not json
DOCUMENT -> [], => not json
DOCUMENT -> [1,] => not json
DOCUMENT -> {'a':1,} => not json
DOCUMENT -> {a:1} => not json
DOCUMENT -> {'a' 1} => not json
DOCUMENT -> [tru] => not json
DOCUMENT -> [True] => not json
DOCUMENT -> /**/[] => not json
DOCUMENT -> []\0 => not json
DOCUMENT -> \u{feff}[] => not json
DOCUMENT -> \u{a0}[] => not json";

// Strings with escapes, and numbers as JSON has them.
#[test]
fn json_strings_and_numbers(rt: HostRuntime) -> Result<(), Fail> {
    let wrong = wrong_row(
        &rt,
        rt.alloc(),
        "graph",
        "DOCUMENT",
        JSON_STRINGS_AND_NUMBERS,
    )?;
    assert_eq!(rt; wrong.as_str(), "");
    Ok(())
}

const JSON_STRINGS_AND_NUMBERS: &str = "DOCUMENT -> ['\\u00e9\\n\\/'] => field .
DOCUMENT -> ['\\ud83d\\ude00'] => field .
DOCUMENT -> ['\\ud83d'] => not json
DOCUMENT -> ['\\ude00'] => not json
DOCUMENT -> ['\\u12'] => not json
DOCUMENT -> ['\\x'] => not json
DOCUMENT -> ['\t'] => not json
DOCUMENT -> ['a => not json
DOCUMENT -> [-0,0.5,1e-400,1E+2] => field .
DOCUMENT -> [01] => not json
DOCUMENT -> [+1] => not json
DOCUMENT -> [1.] => not json
DOCUMENT -> [.5] => not json
DOCUMENT -> [1e] => not json
DOCUMENT -> [-] => not json
DOCUMENT -> [0x1] => not json
DOCUMENT -> [NaN] => not json
DOCUMENT -> [1e400] => not json
DOCUMENT -> [-1e400] => not json";

// The empty key of the root is printed as nothing.
#[test]
fn the_empty_key(rt: HostRuntime) -> Result<(), Fail> {
    let text = edited(rt.alloc(), BASE, "{'version' -> {'a':1,'':1,'version'")?;
    let line = line_of_json(&rt, rt.alloc(), text.as_str())?;
    assert_eq!(rt; line.as_str(), "parblock: refused: field \n");
    Ok(())
}

/// A text inside so many pairs of brackets.
pub fn nested(
    alloc: Global,
    open: &str,
    inner: &str,
    close: &str,
    depth: usize,
) -> Result<String, AllocError> {
    let before = open.repeat(alloc, depth)?;
    let after = close.repeat(alloc, depth)?;
    format!(in alloc; "{before}{inner}{after}")
}

// Arrays and objects nest 127 deep and no deeper.
#[test]
fn depths(rt: HostRuntime) -> Result<(), Fail> {
    for (open, inner, close, depth, wanted) in [
        ("[", "", "]", 127, "parblock: refused: field .\n"),
        ("[", "", "]", 128, "parblock: refused: not json\n"),
        ("[", "'[[{{'", "]", 127, "parblock: refused: field .\n"),
        ("{'a':", "1", "}", 127, "parblock: refused: field version\n"),
        ("{'a':", "1", "}", 128, "parblock: refused: not json\n"),
        ("[{'a':", "1", "}]", 10000, "parblock: refused: not json\n"),
    ] {
        let text = nested(rt.alloc(), open, inner, close, depth)?;
        let line = line_of_json(&rt, rt.alloc(), text.as_str())?;
        assert_eq!(rt; line.as_str(), wanted, "{depth} times {open}");
    }
    Ok(())
}

// Bytes are UTF-8, in strings too.
#[test]
fn bytes_of_strings(rt: HostRuntime) -> Result<(), Fail> {
    for (bytes, wanted) in [
        (
            b"\"\x7f\xc3\xa9\xf0\x9f\x98\x80\"".as_slice(),
            "parblock: refused: field .\n",
        ),
        (b"\"\xff\"".as_slice(), "parblock: refused: not json\n"),
        (b"\"\xc3\"".as_slice(), "parblock: refused: not json\n"),
        (b"\"\xc0\x80\"".as_slice(), "parblock: refused: not json\n"),
        (
            b"\"\xed\xa0\x80\"".as_slice(),
            "parblock: refused: not json\n",
        ),
        (
            b"\"\xf4\x90\x80\x80\"".as_slice(),
            "parblock: refused: not json\n",
        ),
        (b"[]\xff".as_slice(), "parblock: refused: not json\n"),
    ] {
        let line = line_of(&rt, rt.alloc(), bytes)?;
        let length = bytes.len();
        assert_eq!(rt; line.as_str(), wanted, "{length} bytes");
    }
    Ok(())
}
