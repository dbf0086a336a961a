//! The ledger: blocks with their outcomes, each linked to the one before.

ghost use Rattle.std.specs.Prelude.{◌≡◌, ◌≤◌, ◌<◌, ◌+◌, ◌^◌, ◌++◌, [], ◌∷◌, length, map, slice_get, Some, OnOk, OnErr};
ghost use Rattle.oxii_defs.specs.BlockBytes.{block_hash};
ghost use Rattle.oxii_defs.specs.Lawful.{IsLawfulBlock};
ghost use Rattle.oxii_defs.specs.State.{State};
ghost use Rattle.oxii_defs.specs.Table as meant;
ghost use Rattle.node_defs.specs.Accepted.{tip};
ghost use Rattle.node_defs.specs.Programs.{rules_of};
ghost use Rattle.txn_core.specs.MeantTable.{table_of};
ghost use Rattle.hash_ledger.specs.Ledgers.{AllFit, AreHashed, completed_of, tip_of};

use crate::{Entry, block_hash};
use std::alloc::Global;
use std::marker::Model;
use txn_core::Table;
use txn_types::{Block, GrowingList, OutOfMemory, Outcomes};

/// Blocks numbered from 1 with their outcomes and hashes, seen by contracts as the list of its entries. Each entry's previous hash is the hash of the entry before, and that of the first is 32 zero bytes.
#[derive(Drop)]
pub struct Ledger {
    entries: GrowingList<Entry>,
}

impl Model for Ledger {
    ghost use Rattle.std.specs.Prelude.{List};
    ghost use Rattle.oxii_defs.specs.Chain.{no_hash};
    ghost use Rattle.hash_ledger.specs.declared.entry.Entry.{Entry};
    ghost use Rattle.hash_ledger.specs.Ledgers.{AreLinked};

    ghost Value = { List Entry };

    ghost view = { λ ledger. ledger.entries };

    ghost invariant = { λ ledger. AreLinked 1 no_hash ledger.entries };
}

impl Ledger {
    ghost use Rattle.oxii_defs.specs.Chain.{no_hash};
    ghost use Rattle.hash_ledger.specs.Ledgers.{AreLinked};

    /// A ledger with no block, which takes its memory from `alloc` as it grows.
    pub fn new(alloc: Global) -> Ledger
        ensures { result ≡ [] }
    {
        Ledger {
            entries: GrowingList::new(alloc),
        }
    }

    /// How many blocks it has. Each is linked to the one before.
    pub fn len(&self) -> u64
        ensures len { result ≡ length self.now }
        ensures room { result < 2 ^ 63 }
        ensures linked { AreLinked 1 no_hash self.now }
    {
        self.entries.as_slice().len() as u64
    }

    /// The hash of the last block, or 32 zero bytes.
    pub fn tip(&self) -> [u8; 32]
        ensures tip { result ≡ tip_of self.now }
        // What the rules of a document say of these blocks.
        ensures hashed { (table : meant.Table) (genesis : State) → AreHashed table self.now →
            result ≡ tip (rules_of table genesis) (completed_of self.now) }
    {
        match self.entries.as_slice() {
            [] => [0; 32],
            [.., last] => last.hash,
        }
    }

    /// Puts the next block at the end, with the outcomes of its transactions.
    pub fn append(
        &mut self,
        _alloc: Global,
        table: &Table,
        block: Block,
        outcomes: Outcomes,
    ) -> Result<(), OutOfMemory>
        requires lawful { IsLawfulBlock (table_of table.now) block }
        requires number { block.number ≡ length self.old + 1 }
        requires linked { block.prev ≡ tip_of self.old }
        requires outcomes { AllFit block.txns outcomes }
        ensures ok { OnOk result (self.new ≡ self.old ++ record { block = block; outcomes = outcomes; hash = block_hash (table_of table.now) block } ∷ []) }
        ensures hashed { OnOk result (AreHashed (table_of table.now) self.old → AreHashed (table_of table.now) self.new) }
        ensures err { OnErr result (self.new ≡ self.old) }
    {
        let hash = block_hash(table, &block);
        self.entries.push(Entry {
            block,
            outcomes,
            hash,
        })
    }

    fn entry(&self, i: u64) -> &Entry
        requires { i < length self.now }
        ensures { slice_get self.now i ≡ Some result.now }
    {
        &self.entries.as_slice()[i as usize]
    }

    /// Block `i + 1`.
    pub fn block(&self, i: u64) -> &Block
        requires { i < length self.now }
        ensures { slice_get (map (λ e. e.block) self.now) i ≡ Some result.now }
    {
        &self.entry(i).block
    }

    /// The outcomes of block `i + 1`.
    pub fn outcomes(&self, i: u64) -> &Outcomes
        requires { i < length self.now }
        ensures { slice_get (map (λ e. e.outcomes) self.now) i ≡ Some result.now }
    {
        &self.entry(i).outcomes
    }

    /// The hash of block `i + 1`.
    pub fn hash(&self, i: u64) -> [u8; 32]
        requires { i < length self.now }
        ensures hash { slice_get (map (λ e. e.hash) self.now) i ≡ Some result }
        ensures hashed { (table : meant.Table) → AreHashed table self.now →
            slice_get (map (λ e. block_hash table e.block) self.now) i ≡ Some result }
    {
        self.entry(i).hash
    }
}
