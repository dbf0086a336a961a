//! The lines of evidence: who was seen to say two different things.

ghost use Rattle.std.specs.Prelude.{◌≡◌, ◌++◌, OnOk};
ghost use Rattle.std.specs.List.{flat_map};
ghost use Rattle.txn_core.specs.MeantTable.{table_of};
ghost use Rattle.report_text.specs.EvidenceText.{agent_line, evidence_lines, orderer_line, orderer_name};

use crate::burst::push_peer_name;
use crate::lines::push_number;
use evidence_marks::{AgentMark, Evidence, OrdererMark};
use txn_core::Table;
use txn_types::{OutOfMemory, Text};

// The name of an orderer, and nothing for a number that is no orderer's.
fn push_orderer_name(text: &mut Text, table: &Table, orderer: u8) -> Result<(), OutOfMemory>
    ensures { OnOk result (text.new ≡ text.old ++ orderer_name (table_of table.now) orderer) }
{
    match table.orderers.as_slice().get(usize::from(orderer)) {
        None => Ok(()),
        Some(name) => text.append(name.as_slice()),
    }
}

// The line `evidence PEER orderer NAME N`.
fn push_orderer(
    text: &mut Text,
    table: &Table,
    peer: u8,
    mark: &OrdererMark,
) -> Result<(), OutOfMemory>
    ensures { OnOk result (text.new ≡ text.old ++ orderer_line (table_of table.now) peer mark.now) }
{
    text.append(b"evidence ")?;
    push_peer_name(text, table, peer)?;
    text.append(b" orderer ")?;
    push_orderer_name(text, table, mark.orderer)?;
    text.append(b" ")?;
    push_number(text, mark.n)?;
    text.append(b"\n")
}

fn push_orderers(
    text: &mut Text,
    table: &Table,
    peer: u8,
    marks: &[OrdererMark],
) -> Result<(), OutOfMemory>
    ensures { OnOk result (text.new ≡ text.old ++ flat_map (orderer_line (table_of table.now) peer) marks.now) }
{
    for mark in marks {
        push_orderer(text, table, peer, mark)?;
    }
    Ok(())
}

// The line `evidence PEER agent NAME N I`.
fn push_agent(text: &mut Text, table: &Table, peer: u8, mark: &AgentMark) -> Result<(), OutOfMemory>
    ensures { OnOk result (text.new ≡ text.old ++ agent_line (table_of table.now) peer mark.now) }
{
    text.append(b"evidence ")?;
    push_peer_name(text, table, peer)?;
    text.append(b" agent ")?;
    push_peer_name(text, table, mark.agent)?;
    text.append(b" ")?;
    push_number(text, mark.n)?;
    text.append(b" ")?;
    push_number(text, u64::from(mark.t) + 1)?;
    text.append(b"\n")
}

fn push_agents(
    text: &mut Text,
    table: &Table,
    peer: u8,
    marks: &[AgentMark],
) -> Result<(), OutOfMemory>
    ensures { OnOk result (text.new ≡ text.old ++ flat_map (agent_line (table_of table.now) peer) marks.now) }
{
    for mark in marks {
        push_agent(text, table, peer, mark)?;
    }
    Ok(())
}

/// The lines of orderers, and then those of agents.
pub fn push_evidence(
    text: &mut Text,
    table: &Table,
    peer: u8,
    evidence: &Evidence<'_>,
) -> Result<(), OutOfMemory>
    ensures { OnOk result (text.new ≡ text.old ++ evidence_lines (table_of table.now) peer evidence.now.orderers.now evidence.now.agents.now) }
{
    push_orderers(text, table, peer, evidence.orderers.as_slice())?;
    push_agents(text, table, peer, evidence.agents.as_slice())
}
