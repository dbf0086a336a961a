//! The walk back from a reader to the nearest earlier writer that wrote the record.
ghost use Rattle.std.specs.Prelude.{◌≡◌, ◌<◌, length, slice_index};
ghost use Rattle.version_slots.specs.Places.{place_in};

/// Where the record is in the list.
pub(crate) fn place_of(writes: &[u16], r: u16) -> Option<usize>
    ensures { result ≡ place_in writes.now r }
{
    for j in 0..writes.len() {
        if writes[j] == r {
            return Some(j);
        }
    }
    None
}
