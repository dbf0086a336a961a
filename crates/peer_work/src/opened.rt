//! The block in work.

ghost use Rattle.std.specs.Prelude.{◌≡◌, ◌<◌, ◌≤◌, ◌+◌, ℕ, List, [], Option, Some, None, length, replicate, IfOk, IfSome};
ghost use Rattle.std.specs.List.{All};
ghost use Rattle.std.specs.Option.{option_map};
ghost use Rattle.oxii_defs.specs.Lawful.{IsLawfulTable, IsLawfulBlock};
ghost use Rattle.txn_core.specs.MeantTable.{table_of};
ghost use Rattle.oxii_defs.specs.State.{contains};
ghost use Rattle.node_defs.specs.Log.{Log};
ghost use Rattle.node_defs.specs.Rules.{Rules};
ghost use Rattle.node_defs.specs.Accepted.{accepted};
ghost use Rattle.newblock_quorum.specs.Entries.{blocks_of};
ghost use Rattle.newblock_quorum.specs.Newblocks.{InboxStandsFor};
ghost use Rattle.hash_ledger.specs.Ledgers.{tip_of};
ghost use Rattle.peer_parts.specs.Owning.{IsOwn};
ghost use Rattle.peer_parts.specs.InForce.{IsForce};
ghost use Rattle.peer_parts.specs.Judging.{AppsFit};
ghost use Rattle.peer_work.specs.declared.opened.Opened.{Opened};
ghost use Rattle.peer_work.specs.Openings.{IsWellOpened, IsFresh};

use board_work::Own;
use commit_batches::Holder;
use hash_ledger::Ledger;
use newblock_quorum::{Inbox, Ready};
use peer_parts::Force;
use std::alloc::Global;
use txn_core::{Graph, Table};
use txn_types::{Block, Copies, Known, OutOfMemory};
use vote_book::has_peer;

/// A block that is accepted and not completed: its graph, which positions are this peer's, what is known of each, and what is held back.
#[derive(Drop)]
pub struct Opened {
    pub block: Block,
    pub graph: Graph,
    pub own: Own,
    pub known: Known,
    pub held: Holder,
}

fn nones(alloc: Global, n: usize) -> Result<Known, OutOfMemory>
    ensures { IfOk result (λ all. all ≡ replicate n None) }
{
    let mut all = Known::new(alloc);
    for i in 0..n {
        all.push(None)?;
    }
    Ok(all)
}

fn is_own(force: &Force, me: u8, app: u8) -> bool
    requires { app < length force.now }
    ensures { (r : Rules) → IsForce r force.now → result ≡ contains (r.agents app) me }
{
    has_peer(force.agents(app), me)
}

fn own_of(alloc: Global, force: &Force, me: u8, block: &Block) -> Result<Own, OutOfMemory>
    requires { AppsFit block.now.txns (length force.now) }
    ensures long { IfOk result (λ own. length own ≡ length block.now.txns) }
    ensures own { IfOk result (λ own. (r : Rules) → IsForce r force.now → IsOwn r me block.now.txns own) }
{
    let mut own = Own::new(alloc);
    for t in 0..block.txns.len() {
        own.push(is_own(force, me, block.txns.as_slice()[t].app))?;
    }
    Ok(own)
}

fn open(
    alloc: Global,
    force: &Force,
    me: u8,
    block: &Block,
    graph: &Graph,
) -> Result<Opened, OutOfMemory>
    requires { AppsFit block.now.txns (length force.now) }
    ensures block { IfOk result (λ o. o.block ≡ block.now) }
    ensures graph { IfOk result (λ o. o.graph ≡ graph.now) }
    ensures fresh { IfOk result IsFresh }
    ensures own { IfOk result (λ o. (r : Rules) → IsForce r force.now → IsOwn r me o.block.txns o.own) }
{
    let own = own_of(alloc, force, me, block)?;
    let known = nones(alloc, block.txns.len())?;
    Ok(Opened {
        block: block.copy(alloc)?,
        graph: graph.copy(alloc)?,
        own,
        known,
        held: Holder::new(alloc),
    })
}

/// The block that is ready after the ledger, newly in work.
fn take_up(
    alloc: Global,
    table: &Table,
    force: &Force,
    me: u8,
    inbox: &Inbox,
    ledger: &Ledger,
) -> Result<Option<Opened>, OutOfMemory>
    requires kind { inbox.now.kind ≡ table.now.kind }
    requires blocks { All (IsLawfulBlock (table_of table.now)) (blocks_of inbox.now.entries) }
    requires force { length force.now ≡ length table.now.apps }
    ensures well { IfOk result (λ r. IfSome r (IsWellOpened (table_of table.now) ledger.now)) }
    ensures fresh { IfOk result (λ r. IfSome r IsFresh) }
    ensures ready { IfOk result (λ r. (rules : Rules) (L : Log) → InboxStandsFor inbox.now rules L → option_map (λ o. o.block) r ≡ accepted rules (length ledger.now + 1) (tip_of ledger.now) L) }
    ensures own { IfOk result (λ r. IfSome r (λ o. (rules : Rules) → IsForce rules force.now → IsOwn rules me o.block.txns o.own)) }
{
    let n = ledger.len() + 1;
    let tip = ledger.tip();
    let Some(Ready { block, graph }) = inbox.ready(n, &tip) else {
        return Ok(None);
    };
    let opened = open(alloc, force, me, block, graph)?;
    Ok(Some(opened))
}

/// The block in work, as it was or newly taken up.
pub fn next_work(
    alloc: Global,
    table: &Table,
    force: &Force,
    me: u8,
    inbox: &Inbox,
    ledger: &Ledger,
    work: Option<Opened>,
) -> Result<Option<Opened>, OutOfMemory>
    requires kind { inbox.now.kind ≡ table.now.kind }
    requires blocks { All (IsLawfulBlock (table_of table.now)) (blocks_of inbox.now.entries) }
    requires force { length force.now ≡ length table.now.apps }
    requires well { IfSome work (IsWellOpened (table_of table.now) ledger.now) }
    ensures well { IfOk result (λ r. IfSome r (IsWellOpened (table_of table.now) ledger.now)) }
    ensures kept { (o : Opened) → work ≡ Some o → IfOk result (λ r. r ≡ Some o) }
    ensures fresh { work ≡ None → IfOk result (λ r. IfSome r IsFresh) }
    ensures ready { work ≡ None → IfOk result (λ r. (rules : Rules) (L : Log) → InboxStandsFor inbox.now rules L → option_map (λ o. o.block) r ≡ accepted rules (length ledger.now + 1) (tip_of ledger.now) L) }
    ensures own { work ≡ None → IfOk result (λ r. IfSome r (λ o. (rules : Rules) → IsForce rules force.now → IsOwn rules me o.block.txns o.own)) }
{
    match work {
        Some(opened) => Ok(Some(opened)),
        None => {
            let opened = take_up(alloc, table, force, me, inbox, ledger)?;
            Ok(opened)
        }
    }
}
