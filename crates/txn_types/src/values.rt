//! The values of records, and the greatest numbers.

ghost use Rattle.std.specs.Prelude.{◌≡◌, ◌≤◌, ◌<◌, [], ◌∷◌, ◌++◌, length, slice_set, OnOk, OnErr, IfOk, MatchOption};
ghost use Rattle.std.specs.List.{All};
ghost use Rattle.txn_types.specs.Values.{IsValue, AreValues};

use crate::{Copies, GrowingList, OutOfMemory};
use std::alloc::Global;
use std::marker::Model;

/// The largest value of a record, 2^62 - 1.
pub const MAX: u64 = 4_611_686_018_427_387_903;

/// The largest number of a block: 4,096 transactions and 256 configurations, each alone, and one after.
pub const MAX_NUMBER: u64 = 4353;

/// The most messages that faulty nodes say.
pub const MAX_FALSE: u32 = 1024;

/// The largest product of repeat counts that are inside one another.
pub const MAX_TURNS: u64 = 1024;

/// One number up to `MAX` for each record of a table.
#[derive(Drop)]
pub struct Values {
    items: GrowingList<u64>,
}

impl Model for Values {
    ghost use Rattle.std.specs.Prelude.{List, ℕ};
    ghost use Rattle.txn_types.specs.Values.{AreValues};

    ghost Value = { List ℕ };

    ghost view = { λ values. values.items };

    ghost invariant = { λ values. AreValues values.items };
}

impl Values {
    /// An empty list, which takes its memory from `alloc` as it grows.
    pub fn new(alloc: Global) -> Values
        ensures { result ≡ [] }
    {
        Values {
            items: GrowingList::new(alloc),
        }
    }

    pub fn as_slice(&self) -> &[u64]
        ensures items { result.now ≡ self.now }
        ensures values { AreValues self.now }
    {
        self.items.as_slice()
    }

    /// Puts a value at the end.
    pub fn push(&mut self, x: u64) -> Result<(), OutOfMemory>
        requires { IsValue x }
        ensures ok { OnOk result (self.new ≡ self.old ++ x ∷ []) }
        ensures err { OnErr result (self.new ≡ self.old) }
    {
        self.items.push(x)
    }

    /// Takes the last value out.
    pub fn pop(&mut self) -> Option<u64>
        ensures { MatchOption result ((self.old ≡ []) × (self.new ≡ [])) (λ last. self.old ≡ self.new ++ last ∷ []) }
    {
        self.items.pop()
    }

    /// Puts a value in place of value `i`.
    pub fn set(&mut self, i: usize, x: u64)
        requires place { i < length self.old }
        requires value { IsValue x }
        ensures { self.new ≡ slice_set self.old i x }
    {
        self.items.set(i, x);
    }
}

impl Copies for Values {
    fn copy(&self, alloc: Global) -> Result<Values, OutOfMemory> {
        Ok(Values {
            items: self.items.copy(alloc)?,
        })
    }
}
