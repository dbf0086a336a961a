//! Names in byte order.

ghost use Rattle.std.specs.Prelude.{◌≡◌, ◌≤◌, [], Some, None, length, IfOk, IfErr, OnOk, OnErr};
ghost use Rattle.std.specs.List.{insert};
ghost use Rattle.doc_forms.specs.Tables.{place_of, place_below};
ghost use Rattle.doc_forms.specs.Sorted.{IsInOrder, IsGap, gap_of, order};

use crate::references::NamedTable;
use std::alloc::Global;
use std::cmp::Ordering;
use std::marker::Model;
use txn_types::{Name, Names, OutOfMemory};

fn compare(name: &Name, text: &[u8]) -> Ordering
    ensures { result ≡ order name.now text.now }
{
    name.as_slice().cmp(text)
}

/// Names in byte order, each once.
#[derive(Drop)]
pub struct SortedNames {
    items: Names,
}

impl Model for SortedNames {
    ghost use Rattle.std.specs.Prelude.{ℕ, List};
    ghost use Rattle.doc_forms.specs.Sorted.{IsInOrder};

    ghost Value = { List (List ℕ) };

    ghost view = { λ s. s.items };

    ghost invariant = { λ s. IsInOrder s.items };
}

impl SortedNames {
    pub fn new(alloc: Global) -> SortedNames
        ensures { result ≡ [] }
    {
        SortedNames {
            items: Names::new(alloc),
        }
    }

    pub fn len(&self) -> usize
        ensures { result ≡ length self.now }
    {
        self.items.len()
    }

    /// The names as a list.
    pub fn into_names(self) -> Names
        ensures names { result ≡ self }
        ensures order { IsInOrder self }
    {
        self.items
    }

    /// Where a name is, or where it would go.
    pub fn search(&self, text: &[u8]) -> Result<usize, usize>
        ensures found { IfOk result (λ i. place_of self.now text.now ≡ Some i) }
        ensures absent { IfErr result (λ i. (place_of self.now text.now ≡ None) × (i ≡ gap_of self.now text.now) × IsGap self.now text.now i) }
    {
        self.items.as_slice().binary_search_by(
            |other|
                ensures { result ≡ order other.now text.entry.now }
            { compare(other, text) },
        )
    }

    /// Puts a new name at its position.
    pub fn insert(&mut self, i: usize, name: Name) -> Result<(), OutOfMemory>
        requires { IsGap self.now name i }
        ensures ok { OnOk result (self.new ≡ insert self.old i name) }
        ensures err { OnErr result (self.new ≡ self.old) }
    {
        self.items.insert(i, name)
    }
}

/// Names in byte order, whose positions are numbers of 16 bits.
impl NamedTable for SortedNames {
    type Target = u16;

    ghost lookup = { λ names. place_below 65536 names };

    #[tactic(auto, unfolding(crate::specs::Tables::place_below))]
    fn find(&self, text: &[u8]) -> Option<u16> {
        match self.search(text) {
            Ok(place) => u16::try_from(place).ok(),
            Err(_) => None,
        }
    }
}
