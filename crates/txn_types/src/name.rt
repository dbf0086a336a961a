//! Names.

ghost use Rattle.std.specs.Prelude.{◌≡◌, ◌≤◌, ◌<◌, ◌↔◌, length, IsTrue, MatchOption};
ghost use Rattle.std.specs.List.{All};
ghost use Rattle.std.specs.Ordering.{nat_cmp};
ghost use Rattle.std.specs.Cmp.Lexicographic.{slice_cmp};
ghost use Rattle.txn_types.specs.Names.{IsName, IsLower, IsNameByte, BeginsLower};

use crate::{FixedList, GrowingList};
use std::cmp::Ordering;
use std::marker::Model;

/// A name: 1 to 32 bytes, a lower-case ASCII letter and then lower-case ASCII letters, digits or `_`.
#[derive(PartialEq, Eq, Drop)]
pub struct Name {
    bytes: FixedList<u8, 32>,
}

/// A list of names.
pub type Names = GrowingList<Name>;

impl Model for Name {
    ghost use Rattle.std.specs.Prelude.{List, ℕ};
    ghost use Rattle.txn_types.specs.Names.{IsName};

    ghost Value = { List ℕ };

    ghost view = { λ name. name.bytes };

    ghost invariant = { λ name. IsName name.bytes };

    ghost inverse = { λ bytes. record { bytes = bytes } };
}

fn is_lower(byte: u8) -> bool
    ensures { IsTrue result ↔ IsLower byte }
{
    b'a' <= byte && byte <= b'z'
}

fn begins_lower(bytes: &[u8]) -> bool
    ensures { IsTrue result ↔ BeginsLower bytes.now }
{
    match bytes {
        [] => false,
        [first, ..] => is_lower(*first),
    }
}

fn is_name_byte(byte: u8) -> bool
    ensures { IsTrue result ↔ IsNameByte byte }
{
    is_lower(byte) || b'0' <= byte && byte <= b'9' || byte == b'_'
}

fn are_name_bytes(bytes: &[u8]) -> bool
    ensures { IsTrue result ↔ All IsNameByte bytes.now }
{
    bytes.iter().all(|byte| is_name_byte(*byte))
}

fn is_name(bytes: &[u8]) -> bool
    ensures { IsTrue result ↔ IsName bytes.now }
{
    bytes.len() <= 32 && begins_lower(bytes) && are_name_bytes(bytes)
}

impl Name {
    /// The name with these bytes, or none where they are no name.
    pub fn new(bytes: &[u8]) -> Option<Name>
        ensures { MatchOption result (¬ IsName bytes.now) (λ name. IsName bytes.now × (name ≡ bytes.now)) }
    {
        if !is_name(bytes) {
            return None;
        }
        let mut copied = FixedList::empty();
        copied.add_all(bytes);
        Some(Name { bytes: copied })
    }

    pub fn as_slice(&self) -> &[u8]
        ensures bytes { result.now ≡ self.now }
        ensures name { IsName self.now }
    {
        self.bytes.as_slice()
    }

    pub fn copy(&self) -> Name
        ensures { result ≡ self.now }
    {
        Name {
            bytes: self.bytes.copy(),
        }
    }

    /// The order of the bytes.
    pub fn compare(&self, other: &Name) -> Ordering
        ensures { result ≡ slice_cmp nat_cmp self.now other.now }
    {
        self.as_slice().cmp(other.as_slice())
    }
}
