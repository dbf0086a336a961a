//! Lists by key, in an ordered map.

ghost use Rattle.std.specs.Prelude.{◌≡◌, [], OnOk, OnErr};
ghost use Rattle.std.specs.Ordering.{eq_by_cmp};
ghost use Rattle.keyed_lists.specs.Keyed.{IsPushed, list_at};

use growing_list::{GrowingList, OutOfMemory};
use std::alloc::Global;
use std::cmp::Ord;
use std::collections::BTreeMap;
use std::marker::Model;

/// Lists, each at a key, seen by contracts as the keys with their lists, in the keys' order.
#[derive(Drop)]
pub struct KeyedLists<K: Ord, T> {
    lists: BTreeMap<K, GrowingList<T>>,
}

impl<K: Ord, T> Model for KeyedLists<K, T> {
    ghost use Rattle.std.specs.Prelude.{List};
    ghost use Rattle.std.specs.Coded.{coded_list, coded×};

    ghost Value = { List (K × List T) };

    ghost coded = { coded_list (coded× K.code (coded_list T.code)) };

    ghost view = { λ it. it.lists.entries };
}

impl<K: Ord, T> KeyedLists<K, T> {
    /// No lists.
    pub fn new(alloc: Global) -> Self
        ensures { result ≡ [] }
    {
        KeyedLists {
            lists: BTreeMap::new(alloc),
        }
    }

    /// The list at a key, or nothing where there is none.
    pub fn at(&self, key: &K) -> &[T]
        ensures { result.now ≡ list_at (eq_by_cmp K.cmp key.now) self.now }
    {
        match self.lists.get(key) {
            Some(list) => list.as_slice(),
            None => &[],
        }
    }
}

impl<K: Ord + Drop, T: Drop> KeyedLists<K, T> {
    /// Puts an item at the end of the list at a key.
    pub fn push(&mut self, alloc: Global, key: K, item: T) -> Result<(), OutOfMemory>
        ensures ok { OnOk result (IsPushed K.cmp self.old key item self.new) }
        ensures err { OnErr result (self.new ≡ self.old) }
    {
        if let Some(list) = self.lists.get_mut(&key) {
            list.push(item)?;
            return Ok(());
        }
        let mut list = GrowingList::new(alloc);
        list.push(item)?;
        self.lists.insert(key, list)?;
        Ok(())
    }
}
