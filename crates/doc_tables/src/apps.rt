//! The applications.

ghost use Rattle.std.specs.Prelude.{◌≡◌, ◌≤◌, ◌<◌, ◌^◌, [], Err, length, map, codes};
ghost use Rattle.std.specs.List.{list_any};
ghost use Rattle.std.specs.Str.{bytes_eq};
ghost use Rattle.serde_json.specs.View.{view, items_view, members_view};
ghost use Rattle.txn_core.specs.Meant.{op_of};
ghost use Rattle.txn_core.specs.MeantTable.{app_of};
ghost use Rattle.contract_text.specs.Verdict.{GivesVerdict, verdict};
ghost use Rattle.contract_text.specs.TextFaults.{Verdict};
ghost use Rattle.doc_forms.specs.declared.fault.Which.TheVariants.{Clients};
ghost use Rattle.doc_forms.specs.Check.{Fails};
ghost use Rattle.doc_forms.specs.Answers.{Gives};
ghost use Rattle.doc_forms.specs.Forms.{seen, is_listed, each, list_at};
ghost use Rattle.doc_forms.specs.Tables.{new_name};
ghost use Rattle.doc_tables.specs.Apps.{unused, unused_at, ops_told, text_read, contract, contract_at, only_app_keys, application, app_in, next_app, apps_in, apps};
ghost use Rattle.doc_tables.specs.AppsMeaning.{app_names};

use contract_text::{TextFault, read_contract};
use doc_forms::{
    DocFault, NewName, Which, at, at_item, double_fault, field_fault, list_at, list_in, member,
    name, object, only, read_agents_and_tau,
};
use serde_json::{Map, Value};
use std::alloc::Global;
use txn_core::{App, Apps, Ops};
use txn_types::{Name, Names};

fn some_is_named(apps: &[App], text: &[u8]) -> bool
    ensures { result ≡ list_any (λ app. bytes_eq app.name text.now) apps.now }
{
    apps.iter().any(|app| app.name.as_slice() == text)
}

/// Whether an application has this name.
fn is_taken(before: &[App], text: &[u8]) -> bool
    ensures { result ≡ is_listed (app_names (map app_of before.now)) text.now }
{
    some_is_named(before, text)
}

/// A name that no application before it has.
#[tactic(auto, unfolding(crate::specs::Apps::unused))]
fn unused(alloc: Global, before: &[App], value: Option<&Value>) -> Result<Name, DocFault>
    ensures { Gives (λ text. text) result (unused (map app_of before.now) (seen value.entry)) }
{
    let text = name(alloc, value)?;
    if is_taken(before, text.as_slice()) {
        return Err(double_fault(alloc));
    }
    Ok(text)
}

#[tactic(auto, unfolding(crate::specs::Apps::unused_at))]
fn unused_at(
    alloc: Global,
    key: &str,
    before: &[App],
    members: &Map<String, Value>,
) -> Result<Name, DocFault>
    ensures { Gives (λ text. text) result (unused_at key.now (map app_of before.now) (members_view members.now.entries)) }
{
    at(alloc, key, unused(alloc, before, member(members, key)))
}

/// The fault of an application's contract.
fn contract_fault(app: u32, fault: TextFault) -> DocFault
    ensures { (v : Verdict) → GivesVerdict (Err fault) v → Fails result (ops_told app v) }
{
    match fault {
        TextFault::OutOfMemory => DocFault::OutOfMemory,
        fault => DocFault::Contract { app, fault },
    }
}

/// The operations of a text of at most 65,536 bytes.
#[tactic(auto, unfolding(crate::specs::Apps::text_read))]
fn text_read(alloc: Global, app: u32, text: &str) -> Result<Ops, DocFault>
    ensures { Gives (λ ops. map op_of ops) result (text_read verdict app text.now) }
{
    if text.len() > 65536 {
        return Err(DocFault::Limit {
            which: Which::Contract,
            limit: 65536,
        });
    }
    match read_contract(alloc, text) {
        Ok(contract) => Ok(contract.ops),
        Err(fault) => Err(contract_fault(app, fault)),
    }
}

/// The operations of the contract of the application with this index.
#[tactic(auto, unfolding(crate::specs::Apps::contract))]
fn contract(alloc: Global, app: u32, value: Option<&Value>) -> Result<Ops, DocFault>
    ensures { Gives (λ ops. map op_of ops) result (contract verdict app (seen value.entry)) }
{
    let Some(value) = value else {
        return Err(field_fault(alloc));
    };
    let Some(text) = value.as_str() else {
        return Err(field_fault(alloc));
    };
    text_read(alloc, app, text)
}

#[tactic(auto, unfolding(crate::specs::Apps::contract_at))]
fn contract_at(
    alloc: Global,
    key: &str,
    app: u32,
    members: &Map<String, Value>,
) -> Result<Ops, DocFault>
    ensures { Gives (λ ops. map op_of ops) result (contract_at verdict key.now app (members_view members.now.entries)) }
{
    at(alloc, key, contract(alloc, app, member(members, key)))
}

fn clients_at(alloc: Global, members: &Map<String, Value>) -> Result<Names, DocFault>
    ensures { Gives (λ names. names) result (list_at (codes "clients") 0 64 Clients (new_name []) [] (members_view members.now.entries)) }
{
    list_at(
        alloc,
        members,
        "clients",
        0,
        64,
        Which::Clients,
        &NewName { taken: &[] },
        Names::new(alloc),
    )
}

#[tactic(auto, unfolding(crate::specs::Apps::only_app_keys))]
fn only_app_keys(alloc: Global, members: &Map<String, Value>) -> Result<(), DocFault>
    ensures { Gives (λ u. u) result (only_app_keys (members_view members.now.entries)) }
{
    only(
        alloc,
        &["name", "agents", "tau", "clients", "contract"],
        members,
    )
}

/// An application after those before it.
#[tactic(auto, unfolding(crate::specs::Apps::application))]
fn application(
    alloc: Global,
    peers: &Names,
    before: &[App],
    members: &Map<String, Value>,
) -> Result<App, DocFault>
    requires { length before.now < 2 ^ 32 }
    ensures { Gives app_of result (application verdict peers.now (map app_of before.now) (members_view members.now.entries)) }
{
    let name = unused_at(alloc, "name", before, members)?;
    let who = read_agents_and_tau(alloc, peers, members)?;
    let clients = clients_at(alloc, members)?;
    let ops = contract_at(alloc, "contract", before.len() as u32, members)?;
    only_app_keys(alloc, members)?;
    Ok(App {
        name,
        agents: who.agents,
        tau: who.tau,
        clients,
        ops,
    })
}

/// The application that an item is.
#[tactic(auto, unfolding(crate::specs::Apps::app_in))]
fn app_in(alloc: Global, peers: &Names, before: &[App], item: &Value) -> Result<App, DocFault>
    requires { length before.now < 2 ^ 32 }
    ensures { Gives app_of result (app_in verdict peers.now (map app_of before.now) (view item.now)) }
{
    let members = object(alloc, Some(item))?;
    application(alloc, peers, before, members)
}

/// The applications, one after another.
fn each_app(alloc: Global, peers: &Names, list: &[Value]) -> Result<Apps, DocFault>
    requires { length list.now ≤ 16 }
    ensures { Gives (λ done. map app_of done) result (each (next_app verdict peers.now) 0 [] (items_view list.now)) }
{
    let mut done = Apps::new(alloc);
    let mut i = 0u32;
    for item in list {
        let app = at_item(i, app_in(alloc, peers, done.as_slice(), item))?;
        done.push(app)?;
        i += 1;
    }
    Ok(done)
}

#[tactic(auto, unfolding(crate::specs::Apps::apps_in, doc_forms::specs::Forms::items))]
fn apps_in(alloc: Global, peers: &Names, value: Option<&Value>) -> Result<Apps, DocFault>
    ensures { Gives (λ list. map app_of list) result (apps_in verdict peers.now (seen value.entry)) }
{
    let list = list_in(alloc, 1, 16, Which::Apps, value)?;
    each_app(alloc, peers, list.as_slice())
}

/// The applications, whose agents are among the peers.
#[tactic(auto, unfolding(crate::specs::Apps::apps))]
pub fn read_apps(
    alloc: Global,
    peers: &Names,
    members: &Map<String, Value>,
) -> Result<Apps, DocFault>
    ensures { Gives (λ list. map app_of list) result (apps verdict peers.now (members_view members.now.entries)) }
{
    at(
        alloc,
        "apps",
        apps_in(alloc, peers, member(members, "apps")),
    )
}
