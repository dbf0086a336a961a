// The transactions before a position, and which of them the one at it depends on.

ghost use Rattle.std.specs.Prelude.{◌≡◌, ◌≤◌, ◌<◌, ◌+◌, ◌/◌, ◌%◌, ℕ, true, [], ◌∷◌, length, drop, MatchOption, IfSome};
ghost use Rattle.std.specs.List.{slice_index_or};
ghost use Rattle.std.specs.Int.{bit_at};
ghost use Rattle.std.specs.Iterator.{YieldsFirst, item_count};
ghost use Rattle.oxii_defs.specs.Dependency.{depends, preds_from, graph_of};
ghost use Rattle.txn_types.specs.declared.txn.Txn.{Txn};
ghost use Rattle.txn_core.specs.Touching.{AreNamed, IsEntered};

use crate::graph::depends;
use crate::touches::Touches;
use std::marker::Model;
use txn_types::{Kind, Txn};

/// The transactions of a block before a position, found by the records that they read and write.
#[derive(Drop)]
pub struct Earlier<'a> {
    txns: &'a [Txn],
    count: u16,
    touches: Touches,
}

impl<'a> Model for Earlier<'a> {
    ghost use Rattle.std.specs.Prelude.{◌≤◌, length};
    ghost use Rattle.txn_core.specs.Touching.{Part, AreEntered};

    ghost Value = { Part };

    ghost view = { λ e. record { txns = e.txns.now; count = e.count } };

    ghost invariant = { λ e. (length e.txns.now ≤ 256) × (e.count ≤ length e.txns.now) × AreEntered e.touches.readers.words e.touches.writers.words e.count e.txns.now };
}

impl<'a> Earlier<'a> {
    /// Those before the first position.
    pub fn new(txns: &'a [Txn]) -> Earlier<'a>
        requires { length txns.now ≤ 256 }
        ensures txns { result.txns ≡ txns.now }
        ensures count { result.count ≡ 0 }
    {
        Earlier {
            txns,
            count: 0,
            touches: Touches::none(),
        }
    }

    /// Those before the next position.
    pub fn step(&mut self)
        requires { self.old.count < length self.old.txns }
        ensures txns { self.new.txns ≡ self.old.txns }
        ensures count { self.new.count ≡ self.old.count + 1 }
    {
        let txns = self.txns;
        self.touches.enter(self.count, &txns[self.count as usize]);
        self.count += 1;
    }

    /// The positions that the transaction at the position depends on.
    pub fn preds(&self, kind: Kind) -> PredsOf<'a>
        requires { self.now.count < length self.now.txns }
        ensures { result ≡ slice_index_or (graph_of kind self.now.txns) self.now.count [] }
    {
        let count = self.count as usize;
        let later = &self.txns[count];
        PredsOf {
            kind,
            earlier: &self.txns[..count],
            later,
            named: named(&self.touches, kind, later),
            next: 0,
        }
    }
}

// The positions that a transaction may depend on.
fn named(touches: &Touches, kind: Kind, later: &Txn) -> [u64; 4]
    ensures { (p : ℕ) (earlier : Txn) → p < 256 → IsEntered touches.now.readers.words touches.now.writers.words p earlier
        → depends kind earlier later.now ≡ true → bit_at (slice_index_or result (p / 64) 0) (p % 64) ≡ 1 }
{
    [
        touches.word(kind, later, 0),
        touches.word(kind, later, 1),
        touches.word(kind, later, 2),
        touches.word(kind, later, 3),
    ]
}

/// The positions that a transaction depends on, rising. Contracts see those that are still to come.
#[derive(Drop)]
pub struct PredsOf<'a> {
    kind: Kind,
    earlier: &'a [Txn],
    later: &'a Txn,
    named: [u64; 4],
    next: u16,
}

impl<'a> Model for PredsOf<'a> {
    ghost use Rattle.std.specs.Prelude.{◌≤◌, ℕ, List, length, drop};
    ghost use Rattle.oxii_defs.specs.Dependency.{preds_from};
    ghost use Rattle.txn_core.specs.Touching.{AreNamed};

    ghost Value = { List ℕ };

    ghost view = { λ p. preds_from p.kind p.later.now p.next (drop p.next p.earlier.now) };

    ghost invariant = { λ p. (length p.earlier.now ≤ 256) × (p.next ≤ length p.earlier.now) × AreNamed p.kind p.later.now p.earlier.now p.named };
}

impl<'a> Iterator for PredsOf<'a> {
    type Item = u16;

    ghost next_gives = { YieldsFirst (λ rest. rest) };

    ghost remaining = { item_count (λ rest. rest) };

    fn next(&mut self) -> Option<u16> {
        let found = first_from(self.kind, &self.named, self.earlier, self.later, self.next)?;
        self.next = found + 1;
        Some(found)
    }
}

// The first position from `start` on that the later transaction depends on.
fn first_from(kind: Kind, words: &[u64; 4], earlier: &[Txn], later: &Txn, start: u16) -> Option<u16>
    requires few { length earlier.now ≤ 256 }
    requires start { start ≤ length earlier.now }
    requires named { AreNamed kind later.now earlier.now words.now }
    ensures found { MatchOption result (preds_from kind later.now start (drop start earlier.now) ≡ [])
        (λ found. preds_from kind later.now start (drop start earlier.now) ≡ found ∷ preds_from kind later.now (found + 1) (drop (found + 1) earlier.now)) }
    ensures position { IfSome result (λ found. found < length earlier.now) }
    ensures room { IfSome result (λ found. found < 256) }
{
    let mut next = start;
    while (next as usize) < earlier.len() {
        let place = skip(words, next);
        if (place as usize) < earlier.len() && depends(kind, &earlier[place as usize], later) {
            return Some(place);
        }
        next = place + 1;
    }
    None
}

// The next position that is marked, or the first of the next word.
fn skip(words: &[u64; 4], from: u16) -> u16
    requires { from < 256 }
    ensures later { from ≤ result }
    ensures room { result ≤ 256 }
    ensures passed { (p : ℕ) → from ≤ p → p < result → bit_at (slice_index_or words.now (p / 64) 0) (p % 64) ≡ 0 }
{
    from / 64 * 64 + first_bit(words[(from / 64) as usize], from % 64)
}

// The first bit from `from` on that is set, or the word's end.
fn first_bit(word: u64, from: u16) -> u16
    requires { from < 64 }
    ensures later { from ≤ result }
    ensures room { result ≤ 64 }
    ensures passed { (b : ℕ) → from ≤ b → b < result → bit_at word b ≡ 0 }
{
    let rest = word >> from;
    if rest == 0 {
        return 64;
    }
    from + rest.trailing_zeros() as u16
}
