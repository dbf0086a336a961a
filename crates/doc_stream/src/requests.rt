//! A request.

ghost use Rattle.std.specs.Prelude.{◌≡◌};
ghost use Rattle.serde_json.specs.View.{view, members_view};
ghost use Rattle.doc_forms.specs.Answers.{Gives};
ghost use Rattle.doc_stream.specs.Requests.{argument, next_argument, args_at, set_at, stream_request};

use doc_forms::{
    DocFault, NewReference, SortedNames, Turn, Which, list_at, name_at, number_in, only, reference,
};
use serde_json::{Map, Value};
use std::alloc::Global;
use txn_types::{Arg, MAX, RecordList, Request, RequestArgs};

#[tactic(auto, unfolding(crate::specs::Requests::argument))]
fn argument(alloc: Global, records: &SortedNames, item: &Value) -> Result<Arg, DocFault>
    ensures { Gives (λ a. a) result (argument records.now (view item.now)) }
{
    if item.as_str().is_some() {
        return Ok(Arg::Rec(reference(alloc, records, Some(item))?));
    }
    let n = number_in(alloc, 0, MAX, Which::Value, Some(item))?;
    Ok(Arg::Num(n))
}

#[derive(Clone, Copy, Drop)]
struct NextArgument<'t> {
    records: &'t SortedNames,
}

impl<'t> Turn for NextArgument<'t> {
    type State = RequestArgs;

    ghost check = { λ s. next_argument s.records.now };

    #[tactic(auto, unfolding(crate::specs::Requests::next_argument))]
    fn turn(
        &self,
        alloc: Global,
        mut done: RequestArgs,
        item: &Value,
    ) -> Result<RequestArgs, DocFault> {
        let arg = argument(alloc, self.records, item)?;
        done.push(arg)?;
        Ok(done)
    }
}

#[tactic(auto, unfolding(crate::specs::Requests::args_at))]
fn args_at(
    alloc: Global,
    records: &SortedNames,
    members: &Map<String, Value>,
) -> Result<RequestArgs, DocFault>
    ensures { Gives (λ args. args) result (args_at records.now (members_view members.now.entries)) }
{
    list_at(
        alloc,
        members,
        "args",
        0,
        64,
        Which::Args,
        &NextArgument { records },
        RequestArgs::new(alloc),
    )
}

#[tactic(auto, unfolding(crate::specs::Requests::set_at))]
fn set_at(
    alloc: Global,
    key: &str,
    records: &SortedNames,
    members: &Map<String, Value>,
) -> Result<RecordList, DocFault>
    ensures { Gives (λ set. set) result (set_at key.now records.now (members_view members.now.entries)) }
{
    list_at(
        alloc,
        members,
        key,
        0,
        64,
        Which::Set,
        &NewReference { table: records },
        RecordList::new(alloc),
    )
}

/// A request.
#[tactic(auto, unfolding(crate::specs::Requests::stream_request))]
pub fn read_request(
    alloc: Global,
    records: &SortedNames,
    members: &Map<String, Value>,
) -> Result<Request, DocFault>
    ensures { Gives (λ r. r) result (stream_request records.now (members_view members.now.entries)) }
{
    let client = name_at(alloc, members, "client")?;
    let app = name_at(alloc, members, "app")?;
    let op = name_at(alloc, members, "op")?;
    let args = args_at(alloc, records, members)?;
    let reads = set_at(alloc, "reads", records, members)?;
    let writes = set_at(alloc, "writes", records, members)?;
    only(
        alloc,
        &["client", "app", "op", "args", "reads", "writes"],
        members,
    )?;
    Ok(Request {
        client,
        app,
        op,
        args,
        reads,
        writes,
    })
}
