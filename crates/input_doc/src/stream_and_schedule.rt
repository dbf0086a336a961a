//! What happens in a document: the stream, the faulty nodes and the schedule.

ghost use Rattle.std.specs.Prelude.{◌≡◌, map, IfOk};
ghost use Rattle.std.specs.List.{All};
ghost use Rattle.serde_json.specs.View.{members_view};
ghost use Rattle.oxii_defs.specs.Lawful.{IsLawfulTable};
ghost use Rattle.node_defs.specs.Admission.{piece_of};
ghost use Rattle.node_defs.specs.LawfulItems.{IsLawfulItem};
ghost use Rattle.txn_core.specs.MeantTable.{app_of, table_of};
ghost use Rattle.doc_tables.specs.AppsMeaning.{app_names};
ghost use Rattle.doc_schedule.specs.Tables.{role_of};
ghost use Rattle.doc_forms.specs.Answers.{Gives};
ghost use Rattle.input_doc.specs.Reading.{items_for, roles_of, only_root_keys, faulty_schedule};
ghost use Rattle.input_doc.specs.Held.{tables_of};

use crate::tables::Tables;
use block_cutter::admit;
use doc_forms::{DocFault, NodeNames, only};
use doc_schedule::{ItemRole, ScheduleTables, read_schedule};
use doc_stream::{StreamTables, read_stream};
use doc_tables::read_faulty;
use serde_json::{Map, Value};
use std::alloc::Global;
use txn_core::{App, Table};
use txn_types::{Events, GrowingList, Item, ItemList, Names, NodeSet, OutOfMemory};

fn app_names(alloc: Global, apps: &[App]) -> Result<Names, OutOfMemory>
    ensures { IfOk result (λ names. names ≡ app_names (map app_of apps.now)) }
{
    let mut names = Names::new(alloc);
    for app in apps {
        names.push(app.name.copy())?;
    }
    Ok(names)
}

/// The items of the stream.
#[tactic(auto, unfolding(crate::specs::Reading::items_for))]
pub fn read_items(
    alloc: Global,
    tables: &Tables,
    members: &Map<String, Value>,
) -> Result<ItemList, DocFault>
    ensures { Gives (λ items. items) result (items_for (tables_of tables.now).table (members_view members.now.entries)) }
{
    let apps = app_names(alloc, tables.apps.as_slice())?;
    let names = StreamTables {
        records: tables.records.names(),
        apps: &apps,
        peers: &tables.nodes.peers,
    };
    read_stream(alloc, &names, members)
}

fn role_of(table: &Table, item: &Item) -> ItemRole
    requires table { IsLawfulTable (table_of table.now) }
    requires item { IsLawfulItem (table_of table.now) item.now }
    ensures { result ≡ role_of (piece_of (table_of table.now) item.now) }
{
    match item {
        Item::Ask(request) => match admit(table, request) {
            Ok(_) => ItemRole::Call,
            Err(_) => ItemRole::Barred,
        },
        Item::Mark => ItemRole::Barred,
        Item::Config(_) => ItemRole::Config,
    }
}

// What each item is to a block.
fn roles_of(
    alloc: Global,
    table: &Table,
    items: &[Item],
) -> Result<GrowingList<ItemRole>, OutOfMemory>
    requires table { IsLawfulTable (table_of table.now) }
    requires items { All (IsLawfulItem (table_of table.now)) items.now }
    ensures { IfOk result (λ roles. roles ≡ roles_of (table_of table.now) items.now) }
{
    let mut roles = GrowingList::new(alloc);
    for item in items {
        roles.push(role_of(table, item))?;
    }
    Ok(roles)
}

/// The faulty nodes and the schedule.
#[derive(Drop)]
pub struct FaultySchedule {
    pub faulty: NodeSet,
    pub schedule: Events,
}

#[tactic(auto, unfolding(crate::specs::Reading::only_root_keys))]
fn only_root_keys(alloc: Global, members: &Map<String, Value>) -> Result<(), DocFault>
    ensures { Gives (λ u. u) result (only_root_keys (members_view members.now.entries)) }
{
    only(
        alloc,
        &[
            "version", "kind", "cut", "records", "orderers", "quorum", "peers", "apps", "stream",
            "faulty", "schedule",
        ],
        members,
    )
}

/// The last keys of a document; it has no other.
#[tactic(auto, unfolding(crate::specs::Reading::faulty_schedule))]
pub fn read_faulty_schedule(
    alloc: Global,
    table: &Table,
    items: &[Item],
    members: &Map<String, Value>,
) -> Result<FaultySchedule, DocFault>
    requires table { IsLawfulTable (table_of table.now) }
    requires items { All (IsLawfulItem (table_of table.now)) items.now }
    ensures { Gives (λ f. f) result (faulty_schedule (table_of table.now) items.now (members_view members.now.entries)) }
{
    let nodes = NodeNames {
        orderers: &table.orderers,
        peers: &table.peers,
    };
    let faulty = read_faulty(alloc, &nodes, members)?;
    let roles = roles_of(alloc, table, items)?;
    let names = ScheduleTables {
        nodes,
        faulty: &faulty,
        roles: roles.as_slice(),
    };
    let schedule = read_schedule(alloc, &names, members)?;
    only_root_keys(alloc, members)?;
    Ok(FaultySchedule { faulty, schedule })
}
