// The positions that depend on a position, one after the other.

ghost use Rattle.std.specs.Prelude.{◌≡◌, ◌≤◌, ◌<◌, [], ◌∷◌, ◌+◌, length, drop, MatchOption, IfSome};
ghost use Rattle.std.specs.List.{slice_index_or};
ghost use Rattle.std.specs.Iterator.{YieldsFirst, item_count};
ghost use Rattle.oxii_defs.specs.State.{contains};
ghost use Rattle.dep_graph.specs.Successors.{successors_from, successors_of};

use std::marker::Model;
use txn_core::Graph;

/// The positions that depend on a position, rising. Contracts see those that are still to come.
#[derive(Drop)]
pub struct Successors<'a> {
    graph: &'a Graph,
    t: u16,
    next: u16,
}

impl<'a> Model for Successors<'a> {
    ghost use Rattle.std.specs.Prelude.{◌≤◌, ℕ, List, length, drop};
    ghost use Rattle.dep_graph.specs.Successors.{successors_from};

    ghost Value = { List ℕ };

    ghost view = { λ s. successors_from s.t s.next (drop s.next s.graph.now.preds) };

    ghost invariant = { λ s. s.next ≤ length s.graph.now.preds };
}

impl<'a> Successors<'a> {
    /// All that depend on `t`.
    pub fn new(graph: &'a Graph, t: u16) -> Successors<'a>
        ensures { result ≡ successors_of graph.now t }
    {
        Successors { graph, t, next: 0 }
    }
}

impl<'a> Iterator for Successors<'a> {
    type Item = u16;

    ghost next_gives = { YieldsFirst (λ rest. rest) };

    ghost remaining = { item_count (λ rest. rest) };

    fn next(&mut self) -> Option<u16> {
        let found = first_from(self.graph, self.t, self.next)?;
        self.next = found + 1;
        Some(found)
    }
}

// The first position from `start` on that depends on `t`.
fn first_from(graph: &Graph, t: u16, start: u16) -> Option<u16>
    requires { start ≤ length graph.now.preds }
    ensures found { MatchOption result (successors_from t start (drop start graph.now.preds) ≡ [])
        (λ found. successors_from t start (drop start graph.now.preds) ≡ found ∷ successors_from t (found + 1) (drop (found + 1) graph.now.preds)) }
    ensures position { IfSome result (λ found. found < length graph.now.preds) }
    ensures room { IfSome result (λ found. found < 256) }
{
    for j in start..graph.len() {
        if is_after(graph, t, j) {
            return Some(j);
        }
    }
    None
}

// Whether `j` depends on `t`.
pub(crate) fn is_after(graph: &Graph, t: u16, j: u16) -> bool
    requires { j < length graph.now.preds }
    ensures { result ≡ contains (slice_index_or graph.now.preds j []) t }
{
    graph.has_pred(j, t)
}
