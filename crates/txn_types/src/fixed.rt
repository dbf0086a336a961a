//! Lists of a fixed size.

ghost use Rattle.std.specs.Prelude.{◌≡◌, ◌≤◌, ◌<◌, ◌+◌, [], ◌∷◌, ◌++◌, length};

use arrayvec::ArrayVec;
use std::marker::Model;

/// A list of at most `N` items that takes no memory, seen by contracts as the list of its items.
#[derive(PartialEq, Eq, Drop)]
pub struct FixedList<T, const N: usize> {
    items: ArrayVec<T, N>,
}

impl<T, const N: usize> Model for FixedList<T, N> {
    ghost use Rattle.std.specs.Prelude.{◌≤◌, List, length};
    ghost use Rattle.std.specs.Coded.{coded_list};

    ghost Value = { List T };

    ghost coded = { coded_list T.code };

    ghost view = { λ it. it.items.items };

    ghost inverse = { λ items. record { items = record { items = items } } };
}

impl<T: Copy + Default, const N: usize> FixedList<T, N> {
    pub fn empty() -> Self
        ensures { result ≡ [] }
    {
        FixedList {
            items: ArrayVec::new(),
        }
    }

    pub fn as_slice(&self) -> &[T]
        ensures items { result.now ≡ self.now }
        ensures room { length self.now ≤ N }
    {
        self.items.as_slice()
    }

    /// Puts an item at the end.
    pub fn add(&mut self, x: T)
        requires { length self.old < N }
        ensures { self.new ≡ self.old ++ x ∷ [] }
    {
        self.items.push(x);
    }

    /// Puts all these items at the end, in order.
    pub fn add_all(&mut self, xs: &[T])
        requires { length self.old + length xs.now ≤ N }
        ensures { self.new ≡ self.old ++ xs.now }
    {
        self.items.try_extend_from_slice(xs).unwrap();
    }

    pub fn copy(&self) -> Self
        ensures { result ≡ self.now }
    {
        let mut copied = FixedList::empty();
        copied.add_all(self.as_slice());
        copied
    }
}
