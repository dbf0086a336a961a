//! The entry whose content first reaches a count.

ghost use Rattle.std.specs.Prelude.{◌≡◌, ◌&&◌, Bool, true, Contains, IfSome, count_by, option_copied, reverse};
ghost use Rattle.std.specs.Option.{option_map};
ghost use Rattle.node_defs.specs.Counting.{first_to_reach};
ghost use Rattle.counting_laws.specs.Contents.{contents};

/// Which entries count, and what they carry.
pub trait Tally {
    type Entry;

    type Content: PartialEq;

    ghost counts: { Self → Self.Entry → Bool };

    ghost content: { Self.Entry → Self.Content };

    /// Whether it counts.
    fn counts(&self, entry: &Self::Entry) -> bool
        ensures { result ≡ counts self.now entry.now };

    /// What it carries.
    fn content<'a>(&self, entry: &'a Self::Entry) -> &'a Self::Content
        ensures { result.now ≡ content entry.now };
}

fn count_same<T: Tally>(tally: &T, entry: &T::Entry, entries: &[T::Entry]) -> usize
    ensures { result
        ≡ count_by (λ e. T.counts tally.now e && T.Content.eq (T.content entry.now) (T.content e)) entries.now }
{
    entries
        .iter()
        .filter(|e| tally.counts(e) && *tally.content(entry) == *tally.content(e))
        .count()
}

/// The entry that counts and was the first to carry a content so many times, where entries are in the order in which they came.
pub fn first_to_reach<'a, T: Tally>(
    tally: &T,
    count: u8,
    entries: &'a [T::Entry],
) -> Option<&'a T::Entry>
    ensures reached { option_map T.content (option_copied result)
        ≡ first_to_reach T.Content.eq count (contents T.content (T.counts tally.now) (reverse entries.now)) }
    ensures counted { IfSome result (λ e. T.counts tally.now e.now ≡ true) }
    ensures held { IfSome result (λ e. Contains entries.now e.now) }
{
    for i in 0..entries.len() {
        let entry = &entries[i];
        if tally.counts(entry) {
            let same = count_same(tally, entry, &entries[..i + 1]);
            if same == usize::from(count) {
                return Some(entry);
            }
        }
    }
    None
}
