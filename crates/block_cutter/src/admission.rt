// Which requests are admitted, and as which transactions.

ghost use Rattle.std.specs.Prelude.{◌≡◌, ◌≤◌, ◌+◌, length, map, option_map, IfOk};
ghost use Rattle.std.specs.List.{list_any};
ghost use Rattle.oxii_defs.specs.Lawful.{IsLawfulTxn, IsLawfulTable};
ghost use Rattle.txn_types.specs.Rising.{IsRising};
ghost use Rattle.node_defs.specs.Admission.{same_name, first_named, is_kind, are_kinds, with_sets, with_args, admit};
ghost use Rattle.node_defs.specs.LawfulItems.{IsLawfulRequest};
ghost use Rattle.txn_core.specs.Meant.{op_of, kind_of, formal_of};
ghost use Rattle.txn_core.specs.MeantTable.{app_of, table_of};

use txn_core::{App, Op, Param, ParamKind, Table};
use txn_types::{Arg, Args, Name, Recs, Reject, Request, Txn};

#[tactic(auto, using(crate::proofs::Names::pointwise_same))]
fn is_same(one: &Name, other: &Name) -> bool
    ensures { result ≡ same_name one.now other.now }
{
    one.as_slice() == other.as_slice()
}

// The first application with this name, and its number; the list begins with number `from`.
fn app_from<'a>(apps: &'a [App], name: &Name, from: u8) -> Option<(u8, &'a App)>
    requires { from + length apps.now ≤ 16 }
    ensures { option_map (λ p. (p.0, app_of p.1.now)) result ≡ first_named (λ app. app.name) name.now from (map app_of apps.now) }
{
    let [first, rest @ ..] = apps else {
        return None;
    };
    if is_same(&first.name, name) {
        Some((from, first))
    } else {
        app_from(rest, name, from + 1)
    }
}

// The first operation with this name, and its number; the list begins with number `from`.
fn op_from<'a>(ops: &'a [Op], name: &Name, from: u8) -> Option<(u8, &'a Op)>
    requires { from + length ops.now ≤ 16 }
    ensures { option_map (λ p. (p.0, op_of p.1.now)) result ≡ first_named (λ op. op.name) name.now from (map op_of ops.now) }
{
    let [first, rest @ ..] = ops else {
        return None;
    };
    if is_same(&first.name, name) {
        Some((from, first))
    } else {
        op_from(rest, name, from + 1)
    }
}

fn is_client(app: &App, client: &Name) -> bool
    ensures { result ≡ list_any (same_name client.now) app.now.clients }
{
    app.clients
        .as_slice()
        .iter()
        .any(|allowed| is_same(client, allowed))
}

fn is_kind(kind: ParamKind, arg: &Arg) -> bool
    ensures { result ≡ is_kind (kind_of kind) arg.now }
{
    match (kind, arg) {
        (ParamKind::Rec, Arg::Rec(_)) => true,
        (ParamKind::Num, Arg::Num(_)) => true,
        _ => false,
    }
}

fn are_kinds(params: &[Param], args: &[Arg]) -> bool
    ensures { result ≡ are_kinds (map formal_of params.now) args.now }
{
    let [param, params @ ..] = params else {
        return args.is_empty();
    };
    match args {
        [] => false,
        [arg, args @ ..] => is_kind(param.kind, arg) && are_kinds(params, args),
    }
}

fn args_of(args: &[Arg]) -> Args
    requires { length args.now ≤ 16 }
    ensures { result ≡ args.now }
{
    let mut copied = Args::empty();
    copied.add_all(args);
    copied
}

// The transaction of a request that calls an operation, where its arguments and its sets are fit.
fn call(app: u8, number: u8, op: &Op, request: &Request) -> Result<Txn, Reject>
    requires params { length op.now.params ≤ 16 }
    requires reads { IsRising request.now.reads }
    requires writes { IsRising request.now.writes }
    ensures { result ≡ with_args (op_of op.now)
        (record { app = app; op = number; args = request.now.args; reads = request.now.reads; writes = request.now.writes }) }
{
    let args = request.args.as_slice();
    let params = op.params.as_slice();
    if args.len() != params.len() {
        return Err(Reject::ArgCount);
    }
    if !are_kinds(params, args) {
        return Err(Reject::ArgKind);
    }
    let reads = request.reads.as_slice();
    let writes = request.writes.as_slice();
    if reads.len() > 16 || writes.len() > 16 {
        return Err(Reject::SetTooLarge);
    }
    Ok(Txn {
        app,
        op: number,
        args: args_of(args),
        reads: Recs::of(reads),
        writes: Recs::of(writes),
    })
}

/// The transaction of a request, or the first reason to reject it, in the order of `Reject`. It takes no memory.
pub fn admit(table: &Table, request: &Request) -> Result<Txn, Reject>
    requires table { IsLawfulTable (table_of table.now) }
    requires request { IsLawfulRequest (table_of table.now) request.now }
    ensures meaning { result ≡ admit (table_of table.now) request.now }
    ensures lawful { IfOk result (IsLawfulTxn (table_of table.now)) }
{
    let Some((app_number, app)) = app_from(table.apps.as_slice(), &request.app, 0) else {
        return Err(Reject::UnknownApp);
    };
    if !is_client(app, &request.client) {
        return Err(Reject::ClientNotAllowed);
    }
    let Some((op_number, op)) = op_from(app.ops.as_slice(), &request.op, 0) else {
        return Err(Reject::UnknownOp);
    };
    call(app_number, op_number, op, request)
}
