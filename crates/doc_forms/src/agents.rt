//! Agents, and how many of them have to agree.

ghost use Rattle.std.specs.Prelude.{◌≤◌, codes};
ghost use Rattle.serde_json.specs.View.{members_view};
ghost use Rattle.doc_forms.specs.declared.fault.Which.TheVariants.{Tau};
ghost use Rattle.doc_forms.specs.Answers.{Gives};
ghost use Rattle.doc_forms.specs.Forms.{number_at};
ghost use Rattle.doc_forms.specs.Agents.{agents_at, agents_and_tau};

use crate::fault::{DocFault, Which};
use crate::references::NewReference;
use crate::turns::{list_at, number_at};
use serde_json::{Map, Value};
use std::alloc::Global;
use txn_types::{GrowingList, Names, PeerSet};

/// Agents, and how many of them have to agree.
#[derive(Drop)]
pub struct AgentsAndTau {
    pub agents: PeerSet,
    pub tau: u8,
}

#[tactic(auto, unfolding(crate::specs::Agents::agents_at))]
fn agent_list(
    alloc: Global,
    peers: &Names,
    members: &Map<String, Value>,
) -> Result<GrowingList<u8>, DocFault>
    ensures { Gives (λ agents. agents) result (agents_at peers.now (members_view members.now.entries)) }
{
    list_at(
        alloc,
        members,
        "agents",
        1,
        16,
        Which::Agents,
        &NewReference { table: peers },
        GrowingList::new(alloc),
    )
}

#[tactic(auto, using(crate::proofs::AgentsMeant::agents_fit))]
fn agents_at(
    alloc: Global,
    peers: &Names,
    members: &Map<String, Value>,
) -> Result<PeerSet, DocFault>
    ensures { Gives (λ agents. agents) result (agents_at peers.now (members_view members.now.entries)) }
{
    let list = agent_list(alloc, peers, members)?;
    Ok(PeerSet::of(list.as_slice()))
}

#[tactic(auto, using(crate::proofs::AgentsMeant::tau_fits))]
fn tau_at(alloc: Global, count: usize, members: &Map<String, Value>) -> Result<u8, DocFault>
    requires { count ≤ 16 }
    ensures { Gives (λ n. n) result (number_at (codes "tau") 1 count Tau (members_view members.now.entries)) }
{
    let n = number_at(alloc, members, "tau", 1, count as u64, Which::Tau)?;
    Ok(n as u8)
}

/// The agents, who are among the peers, and how many of them have to agree.
#[tactic(auto, unfolding(crate::specs::Agents::agents_and_tau))]
pub fn read_agents_and_tau(
    alloc: Global,
    peers: &Names,
    members: &Map<String, Value>,
) -> Result<AgentsAndTau, DocFault>
    ensures { Gives (λ who. who) result (agents_and_tau peers.now (members_view members.now.entries)) }
{
    let agents = agents_at(alloc, peers, members)?;
    let tau = tau_at(alloc, agents.as_slice().len(), members)?;
    Ok(AgentsAndTau { agents, tau })
}
