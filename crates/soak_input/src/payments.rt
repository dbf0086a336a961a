//! The stream of a made input: payments by draws.

ghost use Rattle.std.specs.Prelude.{◌≡◌, ◌<◌, ◌≤◌, ◌∷◌, [], OnOk, IfOk};
ghost use Rattle.txn_types.specs.declared.txn.Arg.TheVariants as arg;
ghost use Rattle.soak_input.specs.Generator.{drawn_behind, next_draw, pair_set, payment, stream_behind};

use crate::draws::Draws;
use crate::names::{app_name, client, named};
use std::alloc::Global;
use txn_types::{Arg, Item, ItemList, OutOfMemory, RecordList, Request, RequestArgs};

// The set of two records, rising: one record where both are the same.
fn pair_set(alloc: Global, r: u16, q: u16) -> Result<RecordList, OutOfMemory>
    ensures { IfOk result (λ set. set ≡ pair_set r q) }
{
    let mut set = RecordList::new(alloc);
    set.push(r.min(q))?;
    if r != q {
        set.push(r.max(q))?;
    }
    Ok(set)
}

fn args(alloc: Global, from: u16, to: u16, amount: u64) -> Result<RequestArgs, OutOfMemory>
    ensures { IfOk result (λ args. args ≡ arg.Rec from ∷ arg.Rec to ∷ arg.Num amount ∷ []) }
{
    let mut args = RequestArgs::new(alloc);
    args.push(Arg::Rec(from))?;
    args.push(Arg::Rec(to))?;
    args.push(Arg::Num(amount))?;
    Ok(args)
}

// A payment of an amount from one record to another, by the client of an application.
fn payment(alloc: Global, app: u8, from: u16, to: u16, amount: u64) -> Result<Request, OutOfMemory>
    requires { app ≤ 9 }
    ensures { IfOk result (λ request. request ≡ payment app from to amount) }
{
    Ok(Request {
        client: client(),
        app: app_name(app),
        op: named(b"pay"),
        args: args(alloc, from, to, amount)?,
        reads: pair_set(alloc, from, to)?,
        writes: pair_set(alloc, from, to)?,
    })
}

// The payment of the next four draws.
fn drawn(alloc: Global, draws: &mut Draws) -> Result<Request, OutOfMemory>
    ensures request { IfOk result (λ request. request ≡ drawn_behind draws.old) }
    ensures draws { OnOk result (draws.new ≡ next_draw (next_draw (next_draw (next_draw draws.old)))) }
{
    let app = 1 + draws.next() % 4;
    let from = draws.next() % 256;
    let to = draws.next() % 256;
    let amount = 1 + draws.next() % 100;
    payment(alloc, app as u8, from as u16, to as u16, u64::from(amount))
}

/// So many payments after a seed.
pub fn stream(alloc: Global, seed: u16, txns: u16) -> Result<ItemList, OutOfMemory>
    ensures { IfOk result (λ items. items ≡ stream_behind seed txns) }
{
    let mut draws = Draws::new(seed);
    let mut items = ItemList::new(alloc);
    for _ in 0..txns {
        let request = drawn(alloc, &mut draws)?;
        items.push(Item::Ask(request))?;
    }
    Ok(items)
}
