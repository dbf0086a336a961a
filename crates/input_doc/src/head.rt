//! What is first in a document: its version, the kind of graphs, and how the stream is cut.

ghost use Rattle.std.specs.Prelude.{◌≡◌};
ghost use Rattle.serde_json.specs.View.{members_view};
ghost use Rattle.doc_forms.specs.Answers.{Gives};
ghost use Rattle.doc_forms.specs.Forms.{seen};
ghost use Rattle.input_doc.specs.Head.{version, version_at, kind_named, kind, graph_kind_at, cut, cut_at};
ghost use Rattle.input_doc.specs.Reading.{first_keys};

use doc_forms::{DocFault, Which, at, field_fault, member, number_at, object, only};
use serde_json::{Map, Value};
use std::alloc::Global;
use txn_types::{CutLimits, Kind};

#[tactic(auto, unfolding(crate::specs::Head::version))]
fn version(alloc: Global, value: Option<&Value>) -> Result<(), DocFault>
    ensures { Gives (λ u. u) result (version (seen value.entry)) }
{
    let Some(value) = value else {
        return Err(field_fault(alloc));
    };
    let Some(n) = value.as_u64() else {
        return Err(field_fault(alloc));
    };
    if n == 1 {
        Ok(())
    } else {
        Err(field_fault(alloc))
    }
}

fn version_at(alloc: Global, members: &Map<String, Value>, key: &str) -> Result<(), DocFault>
    ensures { Gives (λ u. u) result (version_at key.now (members_view members.now.entries)) }
{
    at(alloc, key, version(alloc, member(members, key)))
}

#[tactic(auto, unfolding(crate::specs::Head::kind_named))]
fn kind_named(text: &str) -> Option<Kind>
    ensures { result ≡ kind_named text.now }
{
    if text == "full" {
        Some(Kind::Full)
    } else if text == "raw" {
        Some(Kind::Raw)
    } else {
        None
    }
}

#[tactic(auto, unfolding(crate::specs::Head::kind))]
fn kind(alloc: Global, value: Option<&Value>) -> Result<Kind, DocFault>
    ensures { Gives (λ k. k) result (kind (seen value.entry)) }
{
    let Some(value) = value else {
        return Err(field_fault(alloc));
    };
    let Some(text) = value.as_str() else {
        return Err(field_fault(alloc));
    };
    match kind_named(text) {
        Some(kind) => Ok(kind),
        None => Err(field_fault(alloc)),
    }
}

fn graph_kind_at(alloc: Global, members: &Map<String, Value>, key: &str) -> Result<Kind, DocFault>
    ensures { Gives (λ k. k) result (graph_kind_at key.now (members_view members.now.entries)) }
{
    at(alloc, key, kind(alloc, member(members, key)))
}

#[tactic(auto, using(doc_forms::proofs::Meant::number_at_bound), unfolding(crate::specs::Head::cut))]
fn cut(alloc: Global, value: Option<&Value>) -> Result<CutLimits, DocFault>
    ensures { Gives (λ limits. limits) result (cut (seen value.entry)) }
{
    let members = object(alloc, value)?;
    let txns = number_at(alloc, members, "txns", 1, 256, Which::Cut)?;
    let bytes = number_at(alloc, members, "bytes", 2048, 1_048_576, Which::Cut)?;
    only(alloc, &["txns", "bytes"], members)?;
    Ok(CutLimits {
        txns: txns as u16,
        bytes: bytes as u32,
    })
}

fn cut_at(alloc: Global, members: &Map<String, Value>, key: &str) -> Result<CutLimits, DocFault>
    ensures { Gives (λ limits. limits) result (cut_at key.now (members_view members.now.entries)) }
{
    at(alloc, key, cut(alloc, member(members, key)))
}

/// The kind of graphs, and how the stream is cut.
#[derive(Clone, Copy)]
pub struct Head {
    pub kind: Kind,
    pub limits: CutLimits,
}

/// The first three keys of a document.
#[tactic(auto, unfolding(crate::specs::Reading::first_keys))]
pub fn read_head(alloc: Global, members: &Map<String, Value>) -> Result<Head, DocFault>
    ensures { Gives (λ h. h) result (first_keys (members_view members.now.entries)) }
{
    version_at(alloc, members, "version")?;
    let kind = graph_kind_at(alloc, members, "kind")?;
    let limits = cut_at(alloc, members, "cut")?;
    Ok(Head { kind, limits })
}
