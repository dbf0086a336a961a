//! What events speak of: nodes by their names, and the items of the stream.

ghost use Rattle.std.specs.Prelude.{◌≡◌};
ghost use Rattle.serde_json.specs.View.{members_view};
ghost use Rattle.doc_forms.specs.Answers.{Gives};
ghost use Rattle.doc_schedule.specs.Tables.{is_among, faulty_named, faulty_at};

use doc_forms::{DocFault, NamedTable, NodeNames, at, member, reference};
use serde_json::{Map, Value};
use std::alloc::Global;
use txn_types::{Node, NodeSet};

/// What a stream item is to a block.
#[derive(Clone, Copy, Drop)]
pub enum ItemRole {
    /// A mark or a rejected request.
    Barred,
    Call,
    Config,
}

/// The names, the faulty nodes and the stream that events speak of.
#[derive(Clone, Copy, Drop)]
pub struct ScheduleTables<'t> {
    pub nodes: NodeNames<'t>,
    pub faulty: &'t NodeSet,
    pub roles: &'t [ItemRole],
}

fn is_among(nodes: &[Node], node: Node) -> bool
    ensures { result ≡ is_among nodes.now node }
{
    nodes.iter().any(|other| node == *other)
}

/// The faulty nodes by their names.
#[derive(Clone, Copy, Drop)]
struct FaultyNodes<'t> {
    nodes: NodeNames<'t>,
    faulty: &'t NodeSet,
}

impl<'t> NamedTable for FaultyNodes<'t> {
    type Target = Node;

    ghost lookup = { λ t. faulty_named t.nodes.orderers.now t.nodes.peers.now t.faulty.now };

    #[tactic(auto, unfolding(crate::specs::Tables::faulty_named))]
    fn find(&self, text: &[u8]) -> Option<Node> {
        let node = self.nodes.find(text)?;
        if is_among(self.faulty.as_slice(), node) {
            Some(node)
        } else {
            None
        }
    }
}

/// The faulty node that an event names.
#[tactic(auto, unfolding(crate::specs::Tables::faulty_at))]
pub fn faulty_at(
    alloc: Global,
    tables: &ScheduleTables,
    members: &Map<String, Value>,
) -> Result<Node, DocFault>
    ensures { Gives (λ node. node) result (faulty_at tables.now.nodes.orderers.now tables.now.nodes.peers.now tables.now.faulty.now (members_view members.now.entries)) }
{
    let faulty = FaultyNodes {
        nodes: tables.nodes,
        faulty: tables.faulty,
    };
    at(
        alloc,
        "from",
        reference(alloc, &faulty, member(members, "from")),
    )
}
