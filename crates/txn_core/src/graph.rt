// The dependency graph of a block.

ghost use Rattle.std.specs.Prelude.{◌≡◌, ◌≢◌, ◌==◌, ◌<◌, ◌≤◌, ◌↔◌, ℕ, List, [], length, take, drop, IsTrue, IsNone, IfSome, IfOk};
ghost use Rattle.std.specs.List.{All, list_any, slice_index_or};
ghost use Rattle.txn_types.specs.Rising.{IsRising};
ghost use Rattle.oxii_defs.specs.State.{contains};
ghost use Rattle.oxii_defs.specs.Dependency.{meets, depends, preds_from, graph_of};

use crate::earlier::{Earlier, PredsOf};
use std::alloc::Global;
use std::marker::Model;
use txn_types::{Block, Copies, GrowingList, Kind, OutOfMemory, Preds, Recs, Txn};

/// A kind, and for each of at most 256 positions the positions that it depends on: strictly rising, and earlier ones only.
#[derive(Drop)]
pub struct Graph {
    kind: Kind,
    lists: Preds,
}

impl Model for Graph {
    ghost use Rattle.txn_core.specs.Graphs.{Shape, ArePreds};

    ghost Value = { Shape };

    ghost view = { λ graph. record { kind = graph.kind; preds = graph.lists } };

    ghost invariant = { λ graph. ArePreds graph.lists };
}

impl Graph {
    ghost use Rattle.txn_core.specs.Graphs.{ArePreds};

    /// The graph with these lists.
    pub fn new(kind: Kind, lists: Preds) -> Graph
        requires { ArePreds lists }
        ensures kind { result.kind ≡ kind }
        ensures lists { result.preds ≡ lists }
    {
        Graph { kind, lists }
    }

    /// The graph with these lists, or none where they are not the block's.
    pub fn checked(block: &Block, kind: Kind, preds: Preds) -> Option<Graph>
        requires { length block.now.txns ≤ 256 }
        ensures none { IsNone result ↔ (preds ≢ graph_of kind block.now.txns) }
        ensures kind { IfSome result (λ graph. graph.kind ≡ kind) }
        ensures lists { IfSome result (λ graph. graph.preds ≡ graph_of kind block.now.txns) }
    {
        if !is_graph(kind, block.txns.as_slice(), preds.as_slice()) {
            return None;
        }
        Some(Graph { kind, lists: preds })
    }

    pub fn kind(&self) -> Kind
        ensures { result ≡ self.now.kind }
    {
        self.kind
    }

    /// How many positions it has.
    pub fn len(&self) -> u16
        ensures positions { result ≡ length self.now.preds }
        ensures room { result ≤ 256 }
    {
        self.lists.len() as u16
    }

    /// The positions that position `t` depends on.
    pub fn preds(&self, t: u16) -> &[u16]
        requires { t < length self.now.preds }
        ensures list { result.now ≡ slice_index_or self.now.preds t [] }
        ensures rising { IsRising result.now }
        ensures earlier { All (λ p. p < t) result.now }
    {
        self.lists.as_slice()[t as usize].as_slice()
    }

    /// Whether position `t` depends on position `s`.
    pub fn has_pred(&self, t: u16, s: u16) -> bool
        requires { t < length self.now.preds }
        ensures pred { result ≡ contains (slice_index_or self.now.preds t []) s }
    {
        self.preds(t).binary_search(&s).is_ok()
    }

    /// A copy of the lists, as a NEWBLOCK carries them.
    pub fn lists(&self, alloc: Global) -> Result<Preds, OutOfMemory>
        ensures { IfOk result (λ lists. lists ≡ self.now.preds) }
    {
        self.lists.copy(alloc)
    }
}

impl Copies for Graph {
    fn copy(&self, alloc: Global) -> Result<Graph, OutOfMemory> {
        Ok(Graph {
            kind: self.kind,
            lists: self.lists.copy(alloc)?,
        })
    }
}

/// Whether the later one of two transactions of a block depends on the earlier one.
pub fn depends(kind: Kind, earlier: &Txn, later: &Txn) -> bool
    ensures { result ≡ depends kind earlier.now later.now }
{
    match kind {
        Kind::Full => {
            have_common(&earlier.reads, &later.writes)
                || have_common(&earlier.writes, &later.reads)
                || have_common(&earlier.writes, &later.writes)
        }
        Kind::Raw => have_common(&earlier.writes, &later.reads),
    }
}

#[tactic(auto, using(crate::proofs::GraphLemmas::meets_any))]
fn have_common(xs: &Recs, ys: &Recs) -> bool
    ensures { result ≡ meets xs.now ys.now }
{
    meet(xs.as_slice(), ys.as_slice())
}

fn meet(xs: &[u16], ys: &[u16]) -> bool
    ensures { result ≡ list_any (λ x. contains ys.now x) xs.now }
{
    xs.iter().any(|x| stands_in(*x, ys))
}

fn stands_in(x: u16, ys: &[u16]) -> bool
    ensures { result ≡ contains ys.now x }
{
    let [first, rest @ ..] = ys else {
        return false;
    };
    x == *first || stands_in(x, rest)
}

// Whether these are the graph's lists.
fn is_graph(kind: Kind, txns: &[Txn], lists: &[GrowingList<u16>]) -> bool
    requires { length txns.now ≤ 256 }
    ensures { IsTrue result ↔ (lists.now ≡ graph_of kind txns.now) }
{
    if lists.len() != txns.len() {
        return false;
    }
    let mut earlier = Earlier::new(txns);
    for preds in lists {
        if !are_left(earlier.preds(kind), preds.as_slice()) {
            return false;
        }
        earlier.step();
    }
    true
}

// Whether these are the positions that are still to come.
fn are_left(mut found: PredsOf, preds: &[u16]) -> bool
    ensures { IsTrue result ↔ (preds.now ≡ found.entry) }
{
    let [first, rest @ ..] = preds else {
        return found.next().is_none();
    };
    found.next() == Some(*first) && are_left(found, rest)
}
