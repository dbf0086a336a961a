//! Nodes that are named faulty.

ghost use Rattle.std.specs.Prelude.{◌≡◌};
ghost use Rattle.node_defs.specs.Same.{same_node};
ghost use Rattle.node_laws.specs.Named.{is_named};

use txn_types::{Node, NodeSet};

fn is_same(a: Node, b: Node) -> bool
    ensures { result ≡ same_node a b }
{
    match a {
        Node::Peer(p) => match b {
            Node::Peer(q) => p == q,
            Node::Orderer(_) => false,
        },
        Node::Orderer(o) => match b {
            Node::Peer(_) => false,
            Node::Orderer(q) => o == q,
        },
    }
}

/// Whether a node is among the faulty ones.
pub fn is_named(faulty: &NodeSet, node: Node) -> bool
    ensures { result ≡ is_named faulty.now node }
{
    faulty.as_slice().iter().any(|x| is_same(node, *x))
}
