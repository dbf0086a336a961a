//! Strictly rising lists of a fixed size.

ghost use Rattle.std.specs.Prelude.{◌≡◌, ◌≤◌, ◌<◌, ℕ, [], ◌∷◌, ◌++◌, length, map};
ghost use Rattle.txn_types.specs.Rising.{IsRising};

use crate::FixedList;
use std::marker::Model;

/// What has a position in an order.
pub trait Ranked: Copy + Default {
    /// Its position.
    ghost rank: { Self → ℕ };
}

impl Ranked for u8 {
    ghost rank = { λ x. x };
}

impl Ranked for u16 {
    ghost rank = { λ x. x };
}

/// A strictly rising list of at most `N` items that takes no memory, seen by contracts as the list of its items.
#[derive(PartialEq, Eq, Drop)]
pub struct RisingList<T: Ranked, const N: usize> {
    items: FixedList<T, N>,
}

impl<T: Ranked, const N: usize> Model for RisingList<T, N> {
    ghost use Rattle.std.specs.Prelude.{◌≤◌, List, length, map};
    ghost use Rattle.std.specs.Coded.{coded_list};
    ghost use Rattle.txn_types.specs.Rising.{IsRising};

    ghost Value = { List T };

    ghost coded = { coded_list T.code };

    ghost view = { λ it. it.items };

    ghost invariant = { λ it. IsRising (map T.rank it.items) };

    ghost inverse = { λ items. record { items = items } };
}

impl<T: Ranked, const N: usize> RisingList<T, N> {
    pub fn empty() -> Self
        ensures { result ≡ [] }
    {
        RisingList {
            items: FixedList::empty(),
        }
    }

    pub fn as_slice(&self) -> &[T]
        ensures items { result.now ≡ self.now }
        ensures room { length self.now ≤ N }
        ensures rising { IsRising (map T.rank self.now) }
    {
        self.items.as_slice()
    }

    /// The list of these items.
    pub fn of(items: &[T]) -> Self
        requires room { length items.now ≤ N }
        requires rising { IsRising (map T.rank items.now) }
        ensures { result ≡ items.now }
    {
        let mut list = FixedList::empty();
        list.add_all(items);
        RisingList { items: list }
    }

    /// Puts an item at the end.
    pub fn add(&mut self, x: T)
        requires room { length self.old < N }
        requires rising { IsRising (map T.rank (self.old ++ x ∷ [])) }
        ensures { self.new ≡ self.old ++ x ∷ [] }
    {
        self.items.add(x);
    }

    pub fn copy(&self) -> Self
        ensures { result ≡ self.now }
    {
        RisingList {
            items: self.items.copy(),
        }
    }
}
