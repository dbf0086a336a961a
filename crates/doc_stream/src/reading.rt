//! The stream, item by item.

ghost use Rattle.std.specs.Prelude.{◌≡◌};
ghost use Rattle.serde_json.specs.View.{view, members_view};
ghost use Rattle.doc_forms.specs.Answers.{Gives};
ghost use Rattle.doc_stream.specs.Stream.{no_items_yet, add_request, add_config, add_object, add_text, next_item, stream};

use crate::configs::read_config;
use crate::requests::read_request;
use doc_forms::{DocFault, SortedNames, Turn, Which, field_fault, list_at, member};
use serde_json::{Map, Value};
use std::alloc::Global;
use txn_types::{Item, ItemList, Names};

/// The names that a stream refers to: of records in byte order, of applications and of peers in table order.
#[derive(Clone, Copy, Drop)]
pub struct StreamTables<'t> {
    pub records: &'t SortedNames,
    pub apps: &'t Names,
    pub peers: &'t Names,
}

/// What the items so far made: themselves, and how many are requests and configurations.
#[derive(Drop)]
pub struct Made {
    pub items: ItemList,
    pub requests: u32,
    pub configs: u32,
}

#[tactic(auto, unfolding(crate::specs::Stream::add_request))]
fn add_request(
    alloc: Global,
    records: &SortedNames,
    mut made: Made,
    members: &Map<String, Value>,
) -> Result<Made, DocFault>
    ensures { Gives (λ m. m) result (add_request records.now made (members_view members.now.entries)) }
{
    if made.requests >= 4096 {
        return Err(DocFault::Limit {
            which: Which::Transactions,
            limit: 4096,
        });
    }
    let request = read_request(alloc, records, members)?;
    made.items.push(Item::Ask(request))?;
    made.requests += 1;
    Ok(made)
}

#[tactic(auto, unfolding(crate::specs::Stream::add_config))]
fn add_config(
    alloc: Global,
    apps: &Names,
    peers: &Names,
    mut made: Made,
    members: &Map<String, Value>,
) -> Result<Made, DocFault>
    ensures { Gives (λ m. m) result (add_config apps.now peers.now made (members_view members.now.entries)) }
{
    if made.configs >= 256 {
        return Err(DocFault::Limit {
            which: Which::Configs,
            limit: 256,
        });
    }
    let config = read_config(alloc, apps, peers, members)?;
    made.items.push(Item::Config(config))?;
    made.configs += 1;
    Ok(made)
}

#[tactic(auto, unfolding(crate::specs::Stream::add_object))]
fn add_object(
    alloc: Global,
    tables: &StreamTables,
    made: Made,
    members: &Map<String, Value>,
) -> Result<Made, DocFault>
    ensures { Gives (λ m. m) result (add_object tables.now.records.now tables.now.apps.now tables.now.peers.now made (members_view members.now.entries)) }
{
    match member(members, "config") {
        Some(_) => add_config(alloc, tables.apps, tables.peers, made, members),
        None => add_request(alloc, tables.records, made, members),
    }
}

#[tactic(auto, unfolding(crate::specs::Stream::add_text))]
fn add_text(alloc: Global, mut made: Made, text: &str) -> Result<Made, DocFault>
    ensures { Gives (λ m. m) result (add_text made text.now) }
{
    if text == "cut" {
        made.items.push(Item::Mark)?;
        Ok(made)
    } else {
        Err(field_fault(alloc))
    }
}

impl<'t> Turn for StreamTables<'t> {
    type State = Made;

    ghost check = { λ tables. next_item tables.records.now tables.apps.now tables.peers.now };

    #[tactic(auto, unfolding(crate::specs::Stream::next_item))]
    fn turn(&self, alloc: Global, done: Made, item: &Value) -> Result<Made, DocFault> {
        if let Some(text) = item.as_str() {
            return add_text(alloc, done, text);
        }
        match item.as_object() {
            Some(members) => add_object(alloc, self, done, members),
            None => Err(field_fault(alloc)),
        }
    }
}

/// The items of the stream.
#[tactic(auto, unfolding(crate::specs::Stream::stream))]
pub fn read_stream(
    alloc: Global,
    tables: &StreamTables,
    members: &Map<String, Value>,
) -> Result<ItemList, DocFault>
    ensures { Gives (λ items. items) result (stream tables.now.records.now tables.now.apps.now tables.now.peers.now (members_view members.now.entries)) }
{
    let made = list_at(
        alloc,
        members,
        "stream",
        0,
        8192,
        Which::Items,
        tables,
        Made {
            items: ItemList::new(alloc),
            requests: 0,
            configs: 0,
        },
    )?;
    Ok(made.items)
}
