//! The forms of values, each checked where it is.

ghost use Rattle.std.specs.Prelude.{◌≡◌, ◌≤◌, [], Some, vec_len, IfOk, OnOk, IsErrAnd, MatchResult};
ghost use Rattle.serde_json.specs.Find.{get_member};
ghost use Rattle.serde_json.specs.View.{view, items_view, members_view};
ghost use Rattle.doc_forms.specs.declared.fault.Step.TheVariants.{Key, Index};
ghost use Rattle.doc_forms.specs.Answers.{Gives, IsRaised};
ghost use Rattle.doc_forms.specs.Forms.{seen, number_in, name, list_in, object};

use crate::fault::{DocFault, Path, Step, Which};
use serde_json::{Map, Value};
use std::alloc::Global;
use txn_types::{Name, OutOfMemory, Text};

// The fault, seen from one step further up.
fn raise(step: Step, fault: DocFault) -> DocFault
    ensures { IsRaised step fault result }
{
    match fault {
        DocFault::Field { mut path } => match path.push_front(step) {
            Ok(()) => DocFault::Field { path },
            Err(_) => DocFault::OutOfMemory,
        },
        DocFault::Name { mut path } => match path.push_front(step) {
            Ok(()) => DocFault::Name { path },
            Err(_) => DocFault::OutOfMemory,
        },
        DocFault::Double { mut path } => match path.push_front(step) {
            Ok(()) => DocFault::Double { path },
            Err(_) => DocFault::OutOfMemory,
        },
        DocFault::Contract { app, fault } => DocFault::Contract { app, fault },
        DocFault::Limit { which, limit } => DocFault::Limit { which, limit },
        DocFault::NotJson => DocFault::NotJson,
        DocFault::OutOfMemory => DocFault::OutOfMemory,
    }
}

/// Another kind of value than the form asks for, here.
pub fn field_fault(alloc: Global) -> DocFault
    ensures { result ≡ DocFault.Field [] }
{
    DocFault::Field {
        path: Path::new(alloc),
    }
}

/// No name, or the name of nothing, here.
pub fn name_fault(alloc: Global) -> DocFault
    ensures { result ≡ DocFault.Name [] }
{
    DocFault::Name {
        path: Path::new(alloc),
    }
}

/// A name that is taken, here.
pub fn double_fault(alloc: Global) -> DocFault
    ensures { result ≡ DocFault.Double [] }
{
    DocFault::Double {
        path: Path::new(alloc),
    }
}

/// A whole number in a range.
#[tactic(auto, unfolding(crate::specs::Forms::number_in))]
pub fn number_in(
    alloc: Global,
    low: u64,
    high: u64,
    which: Which,
    value: Option<&Value>,
) -> Result<u64, DocFault>
    ensures { Gives (λ n. n) result (number_in low high which (seen value.entry)) }
{
    let Some(value) = value else {
        return Err(field_fault(alloc));
    };
    let Some(n) = value.as_u64() else {
        return Err(field_fault(alloc));
    };
    if low <= n && n <= high {
        Ok(n)
    } else {
        Err(DocFault::Limit { which, limit: high })
    }
}

fn key_text(alloc: Global, key: &str) -> Result<Text, OutOfMemory>
    ensures { IfOk result (λ text. text ≡ key.now) }
{
    let mut text = Text::new(alloc);
    text.append(key.as_bytes())?;
    Ok(text)
}

/// The outcome of a check of what is at a key.
pub fn at<T: Drop>(alloc: Global, key: &str, checked: Result<T, DocFault>) -> Result<T, DocFault>
    ensures { MatchResult checked (λ x. result ≡ Ok x) (λ f. IsErrAnd result (IsRaised (Key key.now) f)) }
{
    match checked {
        Ok(value) => Ok(value),
        Err(fault) => match key_text(alloc, key) {
            Ok(key) => Err(raise(Step::Key(key), fault)),
            Err(_) => Err(DocFault::OutOfMemory),
        },
    }
}

/// The outcome of a check of an item of a list.
pub fn at_item<T: Drop>(i: u32, checked: Result<T, DocFault>) -> Result<T, DocFault>
    ensures { MatchResult checked (λ x. result ≡ Ok x) (λ f. IsErrAnd result (IsRaised (Index i) f)) }
{
    match checked {
        Ok(value) => Ok(value),
        Err(fault) => Err(raise(Step::Index(i), fault)),
    }
}

/// What the object has at a key.
pub fn member<'v>(members: &'v Map<String, Value>, key: &str) -> Option<&'v Value>
    ensures { seen result ≡ get_member key.now (members_view members.now.entries) }
{
    members.get(key)
}

/// An object's members.
pub fn object(alloc: Global, value: Option<&Value>) -> Result<&Map<String, Value>, DocFault>
    ensures { Gives (λ m. members_view m.now.entries) result (object (seen value.entry)) }
{
    let Some(value) = value else {
        return Err(field_fault(alloc));
    };
    let Some(members) = value.as_object() else {
        return Err(field_fault(alloc));
    };
    Ok(members)
}

/// A string that is a name.
#[tactic(auto, using(crate::proofs::NameTests::told_name, crate::proofs::NameTests::told_other), unfolding(crate::specs::Forms::name))]
pub fn name(alloc: Global, value: Option<&Value>) -> Result<Name, DocFault>
    ensures { Gives (λ text. text) result (name (seen value.entry)) }
{
    let Some(value) = value else {
        return Err(field_fault(alloc));
    };
    let Some(text) = value.as_str() else {
        return Err(field_fault(alloc));
    };
    match Name::new(text.as_bytes()) {
        Some(name) => Ok(name),
        None => Err(name_fault(alloc)),
    }
}

/// An array with so many items.
#[tactic(auto, using(crate::proofs::Lists::length_of_items), unfolding(crate::specs::Forms::list_in))]
pub fn list_in(
    alloc: Global,
    low: usize,
    high: usize,
    which: Which,
    value: Option<&Value>,
) -> Result<&Vec<Value>, DocFault>
    ensures check { Gives (λ v. items_view v.now.items) result (list_in low high which (seen value.entry)) }
    ensures bound { IfOk result (λ v. vec_len v.now ≤ high) }
{
    let Some(value) = value else {
        return Err(field_fault(alloc));
    };
    let Some(list) = value.as_array() else {
        return Err(field_fault(alloc));
    };
    if low <= list.len() && list.len() <= high {
        Ok(list)
    } else {
        Err(DocFault::Limit {
            which,
            limit: high as u64,
        })
    }
}
