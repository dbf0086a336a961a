//! The table of a document: records, orderers, quorum, peers and applications.

ghost use Rattle.std.specs.Prelude.{◌≡◌, [], IfOk};
ghost use Rattle.serde_json.specs.View.{members_view};
ghost use Rattle.txn_core.specs.MeantTable.{table_of};
ghost use Rattle.contract_text.specs.Verdict.{verdict};
ghost use Rattle.doc_forms.specs.Answers.{Gives};
ghost use Rattle.doc_forms.specs.Forms.{list_at};
ghost use Rattle.doc_forms.specs.Tables.{new_name};
ghost use Rattle.input_doc.specs.Reading.{nodes, tables};
ghost use Rattle.input_doc.specs.Held.{tables_of};

use doc_forms::{DocFault, NewName, Which, list_at, number_at};
use doc_tables::{Records, read_apps, read_records};
use serde_json::{Map, Value};
use std::alloc::Global;
use txn_core::{Apps, Table};
use txn_types::{Kind, Names, OutOfMemory, Values};

/// The orderers and the peers, and how many NEWBLOCKs of the former make a quorum.
#[derive(Drop)]
pub struct DocNodes {
    pub orderers: Names,
    pub quorum: u8,
    pub peers: Names,
}

/// What the table is made of, with the records still sorted for look-ups.
#[derive(Drop)]
pub struct Tables {
    pub kind: Kind,
    pub records: Records,
    pub nodes: DocNodes,
    pub apps: Apps,
}

impl Tables {
    /// The table, and the value of each record at the start.
    pub fn into_table(self, alloc: Global) -> Result<(Table, Values), OutOfMemory>
        ensures table { IfOk result (λ parts. table_of parts.0 ≡ (tables_of self).table) }
        ensures genesis { IfOk result (λ parts. parts.1 ≡ (tables_of self).genesis) }
    {
        let Tables {
            kind,
            records,
            nodes,
            apps,
        } = self;
        let (records, genesis) = records.into_parts(alloc)?;
        let table = Table {
            kind,
            records,
            orderers: nodes.orderers,
            quorum: nodes.quorum,
            peers: nodes.peers,
            apps,
        };
        Ok((table, genesis))
    }
}

fn names_at(
    alloc: Global,
    members: &Map<String, Value>,
    key: &str,
    which: Which,
    taken: &Names,
) -> Result<Names, DocFault>
    ensures { Gives (λ names. names) result (list_at key.now 1 16 which (new_name taken.now) [] (members_view members.now.entries)) }
{
    let turn = NewName {
        taken: taken.as_slice(),
    };
    list_at(alloc, members, key, 1, 16, which, &turn, Names::new(alloc))
}

#[tactic(auto, using(crate::proofs::Sizes::quorum_fits), unfolding(crate::specs::Reading::nodes))]
fn read_nodes(alloc: Global, members: &Map<String, Value>) -> Result<DocNodes, DocFault>
    ensures { Gives (λ n. n) result (nodes (members_view members.now.entries)) }
{
    let orderers = names_at(
        alloc,
        members,
        "orderers",
        Which::Orderers,
        &Names::new(alloc),
    )?;
    let count = orderers.len() as u64;
    let quorum = number_at(alloc, members, "quorum", 1, count, Which::Quorum)?;
    let peers = names_at(alloc, members, "peers", Which::Peers, &orderers)?;
    Ok(DocNodes {
        orderers,
        quorum: quorum as u8,
        peers,
    })
}

/// The keys from `records` to `apps`.
#[tactic(auto, unfolding(crate::specs::Reading::tables))]
pub fn read_tables(
    alloc: Global,
    kind: Kind,
    members: &Map<String, Value>,
) -> Result<Tables, DocFault>
    ensures { Gives tables_of result (tables verdict kind (members_view members.now.entries)) }
{
    let records = read_records(alloc, members)?;
    let nodes = read_nodes(alloc, members)?;
    let apps = read_apps(alloc, &nodes.peers, members)?;
    Ok(Tables {
        kind,
        records,
        nodes,
        apps,
    })
}
