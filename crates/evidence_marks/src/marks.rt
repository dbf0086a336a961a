//! Lists of marks, in rising order.

ghost use Rattle.std.specs.Prelude.{◌≡◌, [], OnOk, OnErr};
ghost use Rattle.std.specs.List.Sorted.{IsStrictlySortedBy};
ghost use Rattle.evidence_marks.specs.Marks.{IsMarkedWith, MarksUnless};

use std::alloc::Global;
use std::cmp::Ord;
use std::marker::Model;
use txn_types::{GrowingList, OutOfMemory};

/// Marks in rising order, each once, seen by contracts as their list.
#[derive(Drop)]
pub struct Marks<M: Ord> {
    marks: GrowingList<M>,
}

impl<M: Ord> Model for Marks<M> {
    ghost use Rattle.std.specs.Prelude.{List};
    ghost use Rattle.std.specs.Coded.{coded_list};
    ghost use Rattle.std.specs.List.Sorted.{IsStrictlySortedBy};

    ghost Value = { List M };

    ghost coded = { coded_list M.code };

    ghost view = { λ it. it.marks };

    ghost invariant = { λ it. IsStrictlySortedBy M.cmp it.marks };
}

impl<M: Ord> Marks<M> {
    /// No marks.
    pub fn new(alloc: Global) -> Self
        ensures { result ≡ [] }
    {
        Marks {
            marks: GrowingList::new(alloc),
        }
    }

    pub fn as_slice(&self) -> &[M]
        ensures marks { result.now ≡ self.now }
        ensures rising { IsStrictlySortedBy M.cmp self.now }
    {
        self.marks.as_slice()
    }
}

impl<M: Ord + Drop> Marks<M> {
    /// Puts a mark at its position, unless it is there.
    pub fn put(&mut self, mark: M) -> Result<(), OutOfMemory>
        ensures ok { OnOk result (IsMarkedWith M.cmp self.old mark self.new) }
        ensures err { OnErr result (self.new ≡ self.old) }
    {
        if let Err(place) = self.marks.as_slice().binary_search(&mark) {
            self.marks.insert(place, mark)?;
        }
        Ok(())
    }

    /// Puts a mark at its position, unless the same was said.
    pub fn put_unless(&mut self, same: bool, mark: M) -> Result<(), OutOfMemory>
        ensures ok { OnOk result (MarksUnless M.cmp same self.old mark self.new) }
        ensures err { OnErr result (self.new ≡ self.old) }
    {
        if same {
            return Ok(());
        }
        self.put(mark)
    }
}
