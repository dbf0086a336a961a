//! The blocks of false messages.

ghost use Rattle.std.specs.Prelude.{◌≡◌, ◌+◌, ◌≤◌, length, IfOk, MatchResult};
ghost use Rattle.serde_json.specs.View.{view, items_view, members_view};
ghost use Rattle.doc_forms.specs.Answers.{Gives};
ghost use Rattle.doc_forms.specs.Forms.{seen};
ghost use Rattle.doc_schedule.specs.Blocks.{role_at, may_stand, next_txn, txns_within, txns_of, txns_at, next_pred, next_preds, is_array_value, are_array_values, are_arrays, lists_of, preds, first_role, count_of, preds_at, links_at};

use crate::hashes::prev_at;
use crate::places::{place_in, position};
use crate::tables::ItemRole;
use doc_forms::{DocFault, Turn, Which, at, each, field_fault, items, list_in, member, only};
use serde_json::{Map, Value};
use std::alloc::Global;
use txn_types::{GrowingList, Items, Preds};

fn may_stand(alone: bool, role: Option<&ItemRole>) -> bool
    ensures { result ≡ may_stand alone (role_at role.entry) }
{
    match role {
        None => false,
        Some(ItemRole::Barred) => false,
        Some(ItemRole::Call) => true,
        Some(ItemRole::Config) => alone,
    }
}

#[derive(Clone, Copy, Drop)]
struct NextTxn<'t> {
    roles: &'t [ItemRole],
    alone: bool,
}

impl<'t> Turn for NextTxn<'t> {
    type State = Items;

    ghost check = { λ s. next_txn s.roles.now s.alone };

    #[tactic(auto, unfolding(crate::specs::Blocks::next_txn))]
    fn turn(&self, alloc: Global, mut done: Items, item: &Value) -> Result<Items, DocFault> {
        let place = place_in(alloc, self.roles.len() as u64, Which::Item, Some(item))?;
        if !may_stand(self.alone, self.roles.get(place as usize)) {
            return Err(field_fault(alloc));
        }
        // A stream has far fewer items than 32 bits number.
        let Ok(place) = u32::try_from(place) else {
            return Err(DocFault::OutOfMemory);
        };
        done.push(place)?;
        Ok(done)
    }
}

// As many items as the limit of all lists together leaves room for.
#[tactic(auto, using(doc_forms::proofs::Lists::length_of_items), unfolding(crate::specs::Blocks::txns_within))]
fn txns_within(
    alloc: Global,
    roles: &[ItemRole],
    total: u64,
    list: &[Value],
) -> Result<Items, DocFault>
    requires { length list.now ≤ 256 }
    ensures check { Gives (λ items. items) result (txns_within roles.now total (items_view list.now)) }
    ensures bound { IfOk result (λ items. total + length items ≤ 16384) }
    ensures few { IfOk result (λ items. length items ≤ 256) }
{
    if total > 16384 || list.len() as u64 > 16384 - total {
        return Err(DocFault::Limit {
            which: Which::FalseTxns,
            limit: 16384,
        });
    }
    let alone = list.len() == 1;
    each(alloc, &NextTxn { roles, alone }, Items::new(alloc), list)
}

#[tactic(auto, unfolding(crate::specs::Blocks::txns_of))]
fn txns(
    alloc: Global,
    roles: &[ItemRole],
    total: u64,
    value: Option<&Value>,
) -> Result<Items, DocFault>
    ensures check { Gives (λ items. items) result (txns_of roles.now total (seen value.entry)) }
    ensures bound { IfOk result (λ items. total + length items ≤ 16384) }
    ensures few { IfOk result (λ items. length items ≤ 256) }
{
    let list = list_in(alloc, 1, 256, Which::Txns, value)?;
    txns_within(alloc, roles, total, list.as_slice())
}

/// The items of a `block` event, after so many items of the events before it.
#[tactic(auto, unfolding(crate::specs::Blocks::txns_at))]
pub fn txns_at(
    alloc: Global,
    roles: &[ItemRole],
    total: u64,
    members: &Map<String, Value>,
) -> Result<Items, DocFault>
    ensures check { Gives (λ items. items) result (txns_at roles.now total (members_view members.now.entries)) }
    ensures bound { IfOk result (λ items. total + length items ≤ 16384) }
    ensures few { IfOk result (λ items. length items ≤ 256) }
{
    at(
        alloc,
        "txns",
        txns(alloc, roles, total, member(members, "txns")),
    )
}

#[derive(Clone, Copy, Drop)]
struct NextPred;

impl Turn for NextPred {
    type State = GrowingList<u16>;

    ghost check = { λ s. next_pred };

    #[tactic(auto, unfolding(crate::specs::Blocks::next_pred))]
    fn turn(
        &self,
        alloc: Global,
        mut done: GrowingList<u16>,
        item: &Value,
    ) -> Result<GrowingList<u16>, DocFault> {
        let place = position(alloc, Which::Preds, Some(item))?;
        done.push(place)?;
        Ok(done)
    }
}

#[derive(Clone, Copy, Drop)]
struct NextPreds;

impl Turn for NextPreds {
    type State = Preds;

    ghost check = { λ s. next_preds };

    #[tactic(auto, unfolding(crate::specs::Blocks::next_preds))]
    fn turn(&self, alloc: Global, mut done: Preds, item: &Value) -> Result<Preds, DocFault> {
        let places = items(
            alloc,
            0,
            256,
            Which::Preds,
            &NextPred,
            GrowingList::new(alloc),
            Some(item),
        )?;
        done.push(places)?;
        Ok(done)
    }
}

#[tactic(auto, unfolding(crate::specs::Blocks::is_array_value))]
fn is_array_value(value: &Value) -> bool
    ensures { result ≡ is_array_value value.now }
{
    value.is_array()
}

#[tactic(auto, unfolding(crate::specs::Blocks::are_array_values))]
fn are_array_values(list: &[Value]) -> bool
    ensures { result ≡ are_array_values list.now }
{
    list.iter().all(|value| is_array_value(value))
}

#[tactic(auto, using(crate::proofs::Arrays::arrays_of_items))]
fn are_arrays(list: &[Value]) -> bool
    ensures { result ≡ are_arrays (items_view list.now) }
{
    are_array_values(list)
}

#[tactic(auto, using(doc_forms::proofs::Lists::length_of_items), unfolding(crate::specs::Blocks::lists_of))]
fn lists(alloc: Global, count: usize, list: &[Value]) -> Result<Preds, DocFault>
    requires { count ≤ 256 }
    ensures { Gives (λ preds. preds) result (lists_of count (items_view list.now)) }
{
    if list.len() == count && are_arrays(list) {
        each(alloc, &NextPreds, Preds::new(alloc), list)
    } else {
        Err(field_fault(alloc))
    }
}

#[tactic(auto, unfolding(crate::specs::Blocks::preds))]
fn preds(alloc: Global, count: usize, value: Option<&Value>) -> Result<Option<Preds>, DocFault>
    requires { count ≤ 256 }
    ensures { Gives (λ preds. preds) result (preds count (seen value.entry)) }
{
    let Some(value) = value else {
        return Ok(None);
    };
    let Some(list) = value.as_array() else {
        return Err(field_fault(alloc));
    };
    let lists = lists(alloc, count, list.as_slice())?;
    Ok(Some(lists))
}

fn first_role<'s>(roles: &'s [ItemRole], items: &[u32]) -> Option<&'s ItemRole>
    ensures { role_at result ≡ first_role roles.now items.now }
{
    match items {
        [] => None,
        [first, ..] => roles.get(*first as usize),
    }
}

// How many transactions the message carries.
#[tactic(auto, unfolding(crate::specs::Blocks::count_of))]
fn count_of(roles: &[ItemRole], items: &[u32]) -> usize
    ensures count { result ≡ count_of roles.now items.now }
    ensures bound { result ≤ length items.now }
{
    match first_role(roles, items) {
        Some(ItemRole::Config) => 0,
        _ => items.len(),
    }
}

// The graph of a `block` event with these items, which may be left out.
#[tactic(auto, unfolding(crate::specs::Blocks::preds_at))]
fn preds_at(
    alloc: Global,
    roles: &[ItemRole],
    items: &[u32],
    members: &Map<String, Value>,
) -> Result<Option<Preds>, DocFault>
    requires { length items.now ≤ 256 }
    ensures { Gives (λ preds. preds) result (preds_at roles.now items.now (members_view members.now.entries)) }
{
    let count = count_of(roles, items);
    at(
        alloc,
        "preds",
        preds(alloc, count, member(members, "preds")),
    )
}

// Both, where no other key is left.
fn if_ended(
    prev: Option<[u8; 32]>,
    preds: Option<Preds>,
    end: Result<(), DocFault>,
) -> Result<(Option<[u8; 32]>, Option<Preds>), DocFault>
    ensures { MatchResult end (λ end. result ≡ Ok (prev, preds)) (λ fault. result ≡ Err fault) }
{
    match end {
        Ok(()) => Ok((prev, preds)),
        Err(fault) => Err(fault),
    }
}

/// The previous hash and the graph of a `block` event with these items, after which no other key is listed.
#[tactic(auto, unfolding(crate::specs::Blocks::links_at))]
pub fn links_at(
    alloc: Global,
    roles: &[ItemRole],
    items: &[u32],
    members: &Map<String, Value>,
) -> Result<(Option<[u8; 32]>, Option<Preds>), DocFault>
    requires { length items.now ≤ 256 }
    ensures { Gives (λ links. links) result (links_at roles.now items.now (members_view members.now.entries)) }
{
    let prev = prev_at(alloc, members)?;
    let preds = preds_at(alloc, roles, items, members)?;
    let end = only(
        alloc,
        &["do", "from", "number", "txns", "prev", "preds"],
        members,
    );
    if_ended(prev, preds, end)
}
