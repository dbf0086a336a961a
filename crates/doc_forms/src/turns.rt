//! The items of a list, each checked in turn.

ghost use Rattle.std.specs.Prelude.{◌≡◌, ◌<◌, ◌^◌, ℕ, List, Result, length};
ghost use Rattle.serde_json.specs.Data.{Data};
ghost use Rattle.serde_json.specs.View.{view, items_view, members_view};
ghost use Rattle.doc_forms.specs.Faults.{Fault};
ghost use Rattle.doc_forms.specs.Answers.{Gives};
ghost use Rattle.doc_forms.specs.Forms.{seen, each, items, list_at, name_at, number_at};

use crate::fault::{DocFault, Which};
use crate::forms::{at, at_item, list_in, member, name, number_in};
use serde_json::{Map, Value};
use std::alloc::Global;
use txn_types::Name;

/// What is done with each item of a list, from what the items before it made.
pub trait Turn {
    type State: Drop;

    ghost check: { Self → Self.State → Data → Result Self.State Fault };

    fn turn(&self, alloc: Global, done: Self::State, item: &Value) -> Result<Self::State, DocFault>
        ensures { Gives (λ s. s) result (check self.now done (view item.now)) };
}

/// Each item in turn.
pub fn each<T: Turn>(
    alloc: Global,
    turn: &T,
    start: T::State,
    list: &[Value],
) -> Result<T::State, DocFault>
    requires { length list.now < 2 ^ 32 }
    ensures { Gives (λ s. s) result (each (T.check turn.now) 0 start (items_view list.now)) }
{
    let mut done = start;
    let mut i = 0u32;
    for item in list {
        done = at_item(i, turn.turn(alloc, done, item))?;
        i += 1;
    }
    Ok(done)
}

/// A list with so many items.
#[tactic(auto, unfolding(crate::specs::Forms::items))]
pub fn items<T: Turn>(
    alloc: Global,
    low: usize,
    high: usize,
    which: Which,
    turn: &T,
    start: T::State,
    value: Option<&Value>,
) -> Result<T::State, DocFault>
    requires { high < 2 ^ 32 }
    ensures { Gives (λ s. s) result (items low high which (T.check turn.now) start (seen value.entry)) }
{
    let list = list_in(alloc, low, high, which, value)?;
    each(alloc, turn, start, list.as_slice())
}

/// A list at a key.
#[tactic(auto, unfolding(crate::specs::Forms::list_at))]
pub fn list_at<T: Turn>(
    alloc: Global,
    members: &Map<String, Value>,
    key: &str,
    low: usize,
    high: usize,
    which: Which,
    turn: &T,
    start: T::State,
) -> Result<T::State, DocFault>
    requires { high < 2 ^ 32 }
    ensures { Gives (λ s. s) result (list_at key.now low high which (T.check turn.now) start (members_view members.now.entries)) }
{
    at(
        alloc,
        key,
        items(alloc, low, high, which, turn, start, member(members, key)),
    )
}

/// A number at a key.
#[tactic(auto, unfolding(crate::specs::Forms::number_at))]
pub fn number_at(
    alloc: Global,
    members: &Map<String, Value>,
    key: &str,
    low: u64,
    high: u64,
    which: Which,
) -> Result<u64, DocFault>
    ensures { Gives (λ n. n) result (number_at key.now low high which (members_view members.now.entries)) }
{
    at(
        alloc,
        key,
        number_in(alloc, low, high, which, member(members, key)),
    )
}

/// A name at a key.
#[tactic(auto, unfolding(crate::specs::Forms::name_at))]
pub fn name_at(alloc: Global, members: &Map<String, Value>, key: &str) -> Result<Name, DocFault>
    ensures { Gives (λ text. text) result (name_at key.now (members_view members.now.entries)) }
{
    at(alloc, key, name(alloc, member(members, key)))
}
