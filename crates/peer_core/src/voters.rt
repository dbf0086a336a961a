//! The peers, as those whose votes count.

ghost use Rattle.std.specs.Prelude.{◌≡◌, ◌≤◌};
ghost use Rattle.node_defs.specs.World.{count_from};

use txn_types::PeerSet;

/// The first so many peers.
pub fn all_peers(n: u8) -> PeerSet
    requires { n ≤ 16 }
    ensures { result ≡ count_from 0 n }
{
    let mut all = PeerSet::empty();
    for p in 0..n {
        all.add(p);
    }
    all
}
