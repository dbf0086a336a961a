//! The faulty nodes.

ghost use Rattle.serde_json.specs.View.{members_view};
ghost use Rattle.doc_forms.specs.Answers.{Gives};
ghost use Rattle.doc_tables.specs.Faulty.{faulty};

use doc_forms::{DocFault, NewReference, NodeNames, Which, list_at};
use serde_json::{Map, Value};
use std::alloc::Global;
use txn_types::{GrowingList, Node, NodeSet};

#[tactic(auto, unfolding(crate::specs::Faulty::faulty))]
fn faulty_list(
    alloc: Global,
    nodes: &NodeNames,
    members: &Map<String, Value>,
) -> Result<GrowingList<Node>, DocFault>
    ensures { Gives (λ s. s) result (faulty nodes.now.orderers.now nodes.now.peers.now (members_view members.now.entries)) }
{
    list_at(
        alloc,
        members,
        "faulty",
        0,
        32,
        Which::Faulty,
        &NewReference { table: nodes },
        GrowingList::new(alloc),
    )
}

/// The nodes that may fail, each once.
#[tactic(auto, using(crate::proofs::FaultyMeant::faulty_fit))]
pub fn read_faulty(
    alloc: Global,
    nodes: &NodeNames,
    members: &Map<String, Value>,
) -> Result<NodeSet, DocFault>
    ensures { Gives (λ s. s) result (faulty nodes.now.orderers.now nodes.now.peers.now (members_view members.now.entries)) }
{
    let list = faulty_list(alloc, nodes, members)?;
    Ok(NodeSet::of(list.as_slice()))
}
