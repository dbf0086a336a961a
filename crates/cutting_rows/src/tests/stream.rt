//! Streams of transfers, marks and configurations.

ghost use Rattle.std.specs.Prelude.{◌≡◌, ◌≤◌, ◌<◌, [], ◌∷◌, length, IfOk, IfSome};
ghost use Rattle.std.specs.List.{All};
ghost use Rattle.oxii_defs.specs.Lawful.{IsLawfulTable, IsLawfulConfig};
ghost use Rattle.node_defs.specs.LawfulItems.{IsRequestArg, IsRequestSet, IsLawfulRequest, IsLawfulItem};
ghost use Rattle.txn_core.specs.MeantTable.{table_of};

use block_cutter::{Cut, cut};
use std::alloc::Global;
use std::test::Fail;
use txn_core::Table;
use txn_types::{
    Arg, Config, CutLimits, Item, ItemList, MAX, Name, PeerSet, RecordList, Reject, Request,
    RequestArgs,
};

/// A transfer from a to b, changed so that it is rejected where a reason is given; a mark; or a configuration of the first application, run by the second peer.
#[derive(Clone, Copy)]
pub enum Step {
    Ask(Option<Reject>),
    Mark,
    Config,
}

fn known(table: &Table, arg: Arg) -> Option<Arg>
    ensures { IfSome result (IsRequestArg (table_of table.now)) }
{
    let fits = match arg {
        Arg::Rec(record) => (record as usize) < table.records.len(),
        Arg::Num(number) => number <= MAX,
    };
    if fits { Some(arg) } else { None }
}

fn args(alloc: Global, table: &Table, args: &[Arg]) -> Result<RequestArgs, Fail>
    ensures { IfOk result (All (IsRequestArg (table_of table.now))) }
{
    let mut all = RequestArgs::new(alloc);
    for arg in args {
        all.push(known(table, *arg).ok_or("an unknown record")?)?;
    }
    Ok(all)
}

fn first_records(alloc: Global, table: &Table, count: u16) -> Result<RecordList, Fail>
    ensures { IfOk result (IsRequestSet (table_of table.now)) }
{
    if table.records.len() < count as usize {
        return Err(Fail::new("an unknown record"));
    }
    let mut all = RecordList::new(alloc);
    for number in 0..count {
        all.push(number)?;
    }
    Ok(all)
}

fn word(is_wrong: bool, wrong: &[u8], right: &[u8]) -> Result<Name, Fail> {
    let bytes = if is_wrong { wrong } else { right };
    Ok(Name::new(bytes).ok_or("no name")?)
}

// A transfer, with what makes it rejected for a reason.
pub fn request(alloc: Global, table: &Table, wrong: Option<Reject>) -> Result<Request, Fail>
    ensures { IfOk result (IsLawfulRequest (table_of table.now)) }
{
    let writes = if wrong == Some(Reject::SetTooLarge) {
        17
    } else {
        2
    };
    Ok(Request {
        client: word(wrong == Some(Reject::ClientNotAllowed), b"c9", b"c1")?,
        app: word(wrong == Some(Reject::UnknownApp), b"nope", b"bank")?,
        op: word(wrong == Some(Reject::UnknownOp), b"nope", b"transfer")?,
        args: wrong_args(alloc, table, wrong)?,
        reads: first_records(alloc, table, 2)?,
        writes: first_records(alloc, table, writes)?,
    })
}

fn wrong_args(alloc: Global, table: &Table, wrong: Option<Reject>) -> Result<RequestArgs, Fail>
    ensures { IfOk result (All (IsRequestArg (table_of table.now))) }
{
    match wrong {
        Some(Reject::ArgCount) => args(alloc, table, &[Arg::Rec(0)]),
        Some(Reject::ArgKind) => args(alloc, table, &[Arg::Num(5), Arg::Num(5), Arg::Num(5)]),
        _ => args(alloc, table, &[Arg::Rec(0), Arg::Rec(1), Arg::Num(4)]),
    }
}

fn second_peer() -> PeerSet
    ensures { result ≡ 1 ∷ [] }
{
    let mut peers = PeerSet::empty();
    peers.add(1);
    peers
}

fn config(table: &Table) -> Option<Config>
    ensures { IfSome result (IsLawfulConfig (table_of table.now)) }
{
    if table.apps.len() == 0 || table.peers.len() < 2 {
        return None;
    }
    Some(Config {
        app: 0,
        agents: second_peer(),
        tau: 1,
    })
}

fn item(alloc: Global, table: &Table, step: Step) -> Result<Item, Fail>
    ensures { IfOk result (IsLawfulItem (table_of table.now)) }
{
    match step {
        Step::Ask(wrong) => Ok(Item::Ask(request(alloc, table, wrong)?)),
        Step::Mark => Ok(Item::Mark),
        Step::Config => Ok(Item::Config(config(table).ok_or("no application")?)),
    }
}

fn add_steps(
    alloc: Global,
    table: &Table,
    steps: &[Step],
    mut items: ItemList,
) -> Result<ItemList, Fail>
    requires { All (IsLawfulItem (table_of table.now)) items }
    ensures { IfOk result (All (IsLawfulItem (table_of table.now))) }
{
    for step in steps {
        items.push(item(alloc, table, *step)?)?;
    }
    Ok(items)
}

fn items(alloc: Global, table: &Table, times: u16, steps: &[Step]) -> Result<ItemList, Fail>
    ensures { IfOk result (All (IsLawfulItem (table_of table.now))) }
{
    let mut items = ItemList::new(alloc);
    for _ in 0..times {
        items = add_steps(alloc, table, steps, items)?;
    }
    Ok(items)
}

/// What these steps, so many times, come to, with blocks of up to 256 transactions and so many bytes.
pub fn streamed(
    alloc: Global,
    table: &Table,
    times: u16,
    steps: &[Step],
    bytes: u32,
) -> Result<Cut, Fail>
    requires { IsLawfulTable (table_of table.now) }
{
    let items = items(alloc, table, times, steps)?;
    if items.len() > 8192 || bytes < 2048 || bytes > 1048576 {
        return Err(Fail::new("out of range"));
    }
    Ok(cut(
        alloc,
        table,
        items.as_slice(),
        &CutLimits { txns: 256, bytes },
    )?)
}

/// For each block its count of transactions, or none for a configuration.
pub fn shape(alloc: Global, cut: &Cut) -> Result<Vec<Option<usize>>, Fail> {
    let mut blocks = Vec::new(alloc);
    for body in cut.bodies.as_slice() {
        blocks.push(if body.config.is_none() {
            Some(body.txns.len())
        } else {
            None
        })?;
    }
    Ok(blocks)
}
