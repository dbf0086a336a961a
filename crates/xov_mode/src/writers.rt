// Which position wrote a record first.

ghost use Rattle.std.specs.Prelude.{◌≡◌, ◌==◌, ℕ, [], ◌∷◌, if◌then◌else◌, Some, None, OnOk};
ghost use Rattle.xov_mode.specs.Verdicts.{gives};
ghost use Rattle.xov_mode.specs.Writers.{earlier, earliest, or_else, writer_of};

use keyed_lists::KeyedLists;
use std::alloc::Global;
use txn_types::OutOfMemory;

/// Records with the positions that wrote them, the first one in front.
pub(crate) type Writers = KeyedLists<u16, u16>;

fn writer_of(writers: &Writers, r: u16) -> Option<u16>
    ensures { result ≡ writer_of writers.now r }
{
    writers.at(&r).first().copied()
}

fn earlier(a: Option<u16>, b: Option<u16>) -> Option<u16>
    ensures { result ≡ earlier a b }
{
    match (a, b) {
        (None, b) => b,
        (Some(u), None) => Some(u),
        (Some(u), Some(v)) => Some(u.min(v)),
    }
}

/// The first position that wrote one of these records.
pub(crate) fn earliest(writers: &Writers, reads: &[u16]) -> Option<u16>
    ensures { result ≡ earliest writers.now reads.now }
{
    match reads {
        [] => None,
        [r, reads @ ..] => earlier(writer_of(writers, *r), earliest(writers, reads)),
    }
}

fn put_writer(writers: &mut Writers, alloc: Global, r: u16, place: u16) -> Result<(), OutOfMemory>
    ensures { OnOk result ((q : ℕ) → writer_of writers.new q ≡ or_else (writer_of writers.old q) (if r == q then Some place else None)) }
{
    writers.push(alloc, r, place)
}

/// Puts the position at each record that has a value.
pub(crate) fn put_writers(
    writers: &mut Writers,
    alloc: Global,
    place: u16,
    writes: &[u16],
    entries: &[Option<u64>],
) -> Result<(), OutOfMemory>
    ensures { OnOk result ((q : ℕ) → writer_of writers.new q ≡ or_else (writer_of writers.old q) (if gives writes.now entries.now (q ∷ []) then Some place else None)) }
{
    let [r, writes @ ..] = writes else {
        return Ok(());
    };
    match entries {
        [] => Ok(()),
        [None, entries @ ..] => put_writers(writers, alloc, place, writes, entries),
        [Some(_), entries @ ..] => {
            put_writer(writers, alloc, *r, place)?;
            put_writers(writers, alloc, place, writes, entries)
        }
    }
}
