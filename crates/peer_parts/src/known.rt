//! One position learnt.

ghost use Rattle.std.specs.Prelude.{◌≡◌, ◌<◌, length};
ghost use Rattle.peer_parts.specs.Found.{learned};

use txn_types::{Known, Outcome};

pub fn copy_of(outcome: &Option<Outcome>) -> Option<Outcome>
    ensures { result ≡ outcome.now }
{
    match outcome {
        Some(outcome) => Some(outcome.copy()),
        None => None,
    }
}

/// Learns a position, if it isn't known and there is an outcome for it.
pub fn learn(known: &mut Known, t: u16, found: Option<Outcome>)
    requires { t < length known.old }
    ensures { known.new ≡ learned known.old t found }
{
    if known.as_slice()[t as usize].is_none() && found.is_some() {
        known.set(t as usize, found);
    }
}
