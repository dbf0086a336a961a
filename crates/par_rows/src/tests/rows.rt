//! How rows are named.

use super::*;

// A row is no pass where its document can't be made: it replaces what isn't there, or nothing, or has no fault.
#[test]
fn rows_without_documents(rt: HostRuntime) -> Result<(), Fail> {
    for row in [
        "'zz' -> 'version' => accepted",
        "'kind':'full' -> 'kind':'raw' && 'full' -> 'raw' => accepted",
        "'version' => accepted",
        "'version':1 -> 'version':1",
    ] {
        let wrong = wrong_row(&rt, rt.alloc(), "graph", BASE, row)?;
        assert!(rt; !wrong.is_empty(), "{row}");
    }
    Ok(())
}

// A section is no pass where it has another text, or none.
#[test]
fn sections_without_their_texts(rt: HostRuntime) -> Result<(), Fail> {
    let right = "\n== graph: the root\n[]\n--\nparblock: refused: field .\n";
    assert_eq!(rt;
        wrong_texts(&rt, rt.alloc(), right)?.as_str(),
        "sections 1\n"
    );
    for table in [
        "\n== graph: the root\n[]\n--\nparblock: refused: not json\n",
        "\n== graph: the root\n[]\n--\nparblock: refused: field .\n\n",
        "\n== graph: the root\n[]\n",
    ] {
        let wrong = wrong_texts(&rt, rt.alloc(), table)?;
        assert_ne!(rt; wrong.as_str(), "sections 1\n", "{table}");
    }
    Ok(())
}
