// Whether all that a position depends on is known.

ghost use Rattle.std.specs.Prelude.{◌≡◌, ◌≤◌, ◌<◌, length, take, is_some, get_or, None};
ghost use Rattle.std.specs.List.{All, list_all};
ghost use Rattle.known_defs.specs.Known.{txn_at, knows_all};
ghost use Rattle.txn_core.specs.Graphs.{IsGraphOf};

use txn_core::Graph;
use txn_types::{Block, Outcome};

/// Whether each position that `t` depends on is among the known ones.
pub fn knows_preds(block: &Block, graph: &Graph, t: u16, known: &[Option<Outcome>]) -> bool
    requires position { t < length graph.now.preds }
    requires graph { IsGraphOf block.now.txns graph.now }
    requires earlier { t ≤ length known.now }
    ensures { result ≡ knows_all graph.now.kind (txn_at block.now.txns t) block.now.txns (take t known.now) }
{
    are_known(graph.preds(t), known)
}

fn are_known(positions: &[u16], known: &[Option<Outcome>]) -> bool
    requires { All (λ p. p < length known.now) positions.now }
    ensures { result ≡ list_all (λ p. is_some (get_or known.now p None)) positions.now }
{
    positions.iter().all(|p| is_known(known, *p))
}

fn is_known(known: &[Option<Outcome>], position: u16) -> bool
    requires { position < length known.now }
    ensures { result ≡ is_some (get_or known.now position None) }
{
    known[position as usize].is_some()
}
