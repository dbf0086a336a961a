//! A chain of positions, run by two passes in threads of their own.

ghost use Rattle.std.specs.Prelude.{◌≡◌, ◌<◌, ◌≤◌, ◌∷◌, [], ℕ, length, true, Ok};
ghost use Rattle.board_defs.specs.Closure.{IsLawfulPlan, is_own};
ghost use Rattle.board_work.specs.Plans.{IsRunnable, plan_of};
ghost use Rattle.board_work.specs.PassStates.{IsOf, IsFree};

use board_settings::{Task, Want, misses, runs};
use board_work::{Plan, Ran, Take, Work};
use row_trouble::Trouble;
use std::alloc::Global;
use std::process::Abort;
use std::thread;
use std::thread::Threads;
use txn_types::{Kind, OutOfMemory};

// A call answered as the row says.
fn as_said(rt: &impl Abort, answer: Result<(), Trouble>)
    ensures { answer ≡ Ok tt }
{
    match answer {
        Ok(()) => {}
        Err(trouble) => panic!(rt; "{trouble:?}"),
    }
}

// While the first position is held, the second isn't ready.
fn second_waits<W: Work>(rt: &impl Abort, work: &W, pass: &mut W::Pass)
    requires of { IsOf (W.home work.now) (W.state pass.old) }
    requires own { is_own (W.home work.now).plan 1 ≡ true }
    ensures of { IsOf (W.home work.now) (W.state pass.new) }
    ensures held { (W.state pass.new).held ≡ (W.state pass.old).held }
    ensures numbers { ((W.state pass.new).numbers ≡ (W.state pass.old).numbers) × ((W.state pass.new).passes ≡ (W.state pass.old).passes) }
{
    match misses(work, pass, 1) {
        Ok(need) => assert_eq!(rt; need, Some(1)),
        Err(_taken) => panic!(rt; "the second was taken"),
    }
}

// Tries the first position, and runs it where it is taken: whether it was.
fn begins<W: Work, T: Task>(
    rt: &impl Abort,
    work: &W,
    task: &T,
    mut pass: W::Pass,
    want: &Want,
) -> (W::Pass, bool)
    requires of { IsOf (W.home work.now) (W.state pass) × IsFree (W.state pass) }
    requires task { (T.plan task.now ≡ (W.home work.now).plan) × IsLawfulPlan (T.plan task.now) }
    requires place { 0 < length (T.plan task.now).txns }
    requires own { (t : ℕ) → t < 2 → is_own (W.home work.now).plan t ≡ true }
    ensures of { IsOf (W.home work.now) (W.state result.0) × IsFree (W.state result.0) }
    ensures numbers { ((W.state result.0).numbers ≡ (W.state pass).numbers) × ((W.state result.0).passes ≡ (W.state pass).passes) }
{
    match work.take(&mut pass, 0) {
        Take::Taken(taken) => {
            second_waits(rt, work, &mut pass);
            as_said(rt, runs(work, task, &mut pass, 0, taken, want));
            (pass, true)
        }
        Take::NotReady(need) => panic!(rt; "the first needs {need}"),
        Take::Gone => (pass, false),
    }
}

// Tries a position, and runs it where it is taken. Where it isn't ready, it waits for one.
fn tries<W: Work, T: Task>(
    rt: &impl Abort,
    work: &W,
    task: &T,
    pass: &mut W::Pass,
    t: u16,
    want: &Want,
)
    requires of { IsOf (W.home work.now) (W.state pass.old) × IsFree (W.state pass.old) }
    requires own { is_own (W.home work.now).plan t ≡ true }
    requires task { (T.plan task.now ≡ (W.home work.now).plan) × IsLawfulPlan (T.plan task.now) }
    requires place { t < length (T.plan task.now).txns }
    ensures of { IsOf (W.home work.now) (W.state pass.new) × IsFree (W.state pass.new) }
    ensures numbers { ((W.state pass.new).numbers ≡ (W.state pass.old).numbers) × ((W.state pass.new).passes ≡ (W.state pass.old).passes) }
{
    match work.take(pass, t) {
        Take::Taken(taken) => as_said(rt, runs(work, task, pass, t, taken, want)),
        Take::NotReady(need) => assert_eq!(rt; need, 1),
        Take::Gone => {}
    }
}

// Tries the positions behind the first in turn.
fn goes_on<W: Work, T: Task>(
    rt: &impl Abort,
    work: &W,
    task: &T,
    mut pass: W::Pass,
    wanted: &[Want],
) -> W::Pass
    requires of { IsOf (W.home work.now) (W.state pass) × IsFree (W.state pass) }
    requires task { (T.plan task.now ≡ (W.home work.now).plan) × IsLawfulPlan (T.plan task.now) }
    requires wanted { (0 < length wanted.now) × (length wanted.now ≤ 256) × (length (T.plan task.now).txns ≡ length wanted.now) }
    requires own { (t : ℕ) → t < length wanted.now → is_own (W.home work.now).plan t ≡ true }
    ensures of { IsOf (W.home work.now) (W.state result) × IsFree (W.state result) }
    ensures numbers { ((W.state result).numbers ≡ (W.state pass).numbers) × ((W.state result).passes ≡ (W.state pass).passes) }
{
    for t in 1..wanted.len() {
        tries(rt, work, task, &mut pass, t as u16, &wanted[t]);
    }
    pass
}

// Both threads try the first position at once.
fn both_begin<W: Work, T: Task + Sync, R: Threads + Abort + Sync>(
    rt: &R,
    work: &W,
    task: &T,
    first: W::Pass,
    second: W::Pass,
    want: &Want,
) -> ((W::Pass, bool), (W::Pass, bool))
    requires of { (IsOf (W.home work.now) (W.state first) × IsFree (W.state first)) × (IsOf (W.home work.now) (W.state second) × IsFree (W.state second)) }
    requires task { (T.plan task.now ≡ (W.home work.now).plan) × IsLawfulPlan (T.plan task.now) }
    requires place { 0 < length (T.plan task.now).txns }
    requires own { (t : ℕ) → t < 2 → is_own (W.home work.now).plan t ≡ true }
    ensures first { (IsOf (W.home work.now) (W.state result.0.0) × IsFree (W.state result.0.0)) × ((W.state result.0.0).numbers ≡ (W.state first).numbers) × ((W.state result.0.0).passes ≡ (W.state first).passes) }
    ensures second { (IsOf (W.home work.now) (W.state result.1.0) × IsFree (W.state result.1.0)) × ((W.state result.1.0).numbers ≡ (W.state second).numbers) × ((W.state result.1.0).passes ≡ (W.state second).passes) }
{
    thread::join(
        rt,
        move || -> (W::Pass, bool)
            requires { (IsOf (W.home work.now) (W.state first) × IsFree (W.state first)) × ((T.plan task.now ≡ (W.home work.now).plan) × IsLawfulPlan (T.plan task.now)) × (0 < length (T.plan task.now).txns) × ((t : ℕ) → t < 2 → is_own (W.home work.now).plan t ≡ true) }
            ensures { (IsOf (W.home work.entry.now) (W.state result.0) × IsFree (W.state result.0)) × ((W.state result.0).numbers ≡ (W.state first).numbers) × ((W.state result.0).passes ≡ (W.state first).passes) }
        { begins(rt, work, task, first, want) },
        move || -> (W::Pass, bool)
            requires { (IsOf (W.home work.now) (W.state second) × IsFree (W.state second)) × ((T.plan task.now ≡ (W.home work.now).plan) × IsLawfulPlan (T.plan task.now)) × (0 < length (T.plan task.now).txns) × ((t : ℕ) → t < 2 → is_own (W.home work.now).plan t ≡ true) }
            ensures { (IsOf (W.home work.entry.now) (W.state result.0) × IsFree (W.state result.0)) × ((W.state result.0).numbers ≡ (W.state second).numbers) × ((W.state result.0).passes ≡ (W.state second).passes) }
        { begins(rt, work, task, second, want) },
    )
}

// Both threads go on, each with its pass.
fn both_go_on<W: Work, T: Task + Sync, R: Threads + Abort + Sync>(
    rt: &R,
    work: &W,
    task: &T,
    first: W::Pass,
    second: W::Pass,
    wanted: &[Want],
) -> (W::Pass, W::Pass)
    requires of { (IsOf (W.home work.now) (W.state first) × IsFree (W.state first)) × (IsOf (W.home work.now) (W.state second) × IsFree (W.state second)) }
    requires task { (T.plan task.now ≡ (W.home work.now).plan) × IsLawfulPlan (T.plan task.now) }
    requires wanted { (0 < length wanted.now) × (length wanted.now ≤ 256) × (length (T.plan task.now).txns ≡ length wanted.now) }
    requires own { (t : ℕ) → t < length wanted.now → is_own (W.home work.now).plan t ≡ true }
    ensures first { (IsOf (W.home work.now) (W.state result.0) × IsFree (W.state result.0)) × ((W.state result.0).numbers ≡ (W.state first).numbers) × ((W.state result.0).passes ≡ (W.state first).passes) }
    ensures second { (IsOf (W.home work.now) (W.state result.1) × IsFree (W.state result.1)) × ((W.state result.1).numbers ≡ (W.state second).numbers) × ((W.state result.1).passes ≡ (W.state second).passes) }
{
    thread::join(
        rt,
        move || -> W::Pass
            requires { (IsOf (W.home work.now) (W.state first) × IsFree (W.state first)) × ((T.plan task.now ≡ (W.home work.now).plan) × IsLawfulPlan (T.plan task.now)) × ((0 < length wanted.now) × (length wanted.now ≤ 256) × (length (T.plan task.now).txns ≡ length wanted.now)) × ((t : ℕ) → t < length wanted.now → is_own (W.home work.now).plan t ≡ true) }
            ensures { (IsOf (W.home work.entry.now) (W.state result) × IsFree (W.state result)) × ((W.state result).numbers ≡ (W.state first).numbers) × ((W.state result).passes ≡ (W.state first).passes) }
        { goes_on(rt, work, task, first, wanted) },
        move || -> W::Pass
            requires { (IsOf (W.home work.now) (W.state second) × IsFree (W.state second)) × ((T.plan task.now ≡ (W.home work.now).plan) × IsLawfulPlan (T.plan task.now)) × ((0 < length wanted.now) × (length wanted.now ≤ 256) × (length (T.plan task.now).txns ≡ length wanted.now)) × ((t : ℕ) → t < length wanted.now → is_own (W.home work.now).plan t ≡ true) }
            ensures { (IsOf (W.home work.entry.now) (W.state result) × IsFree (W.state result)) × ((W.state result).numbers ≡ (W.state second).numbers) × ((W.state result).passes ≡ (W.state second).passes) }
        { goes_on(rt, work, task, second, wanted) },
    )
}

/// Two threads try the first position at once, and one of them takes and runs it; then each tries all others in turn.
#[tactic(auto, using(board_settings::proofs::PassLemmas::two_passes))]
pub fn in_two_threads<W: Work, T: Task + Sync, R: Threads + Abort + Sync>(
    rt: &R,
    alloc: Global,
    plan: &Plan<'_>,
    task: &T,
    wanted: &[Want],
) -> Result<Ran, OutOfMemory>
    requires runnable { IsRunnable plan.now }
    requires task { T.plan task.now ≡ plan_of plan.now }
    requires own { (t : ℕ) → t < length plan.now.block.now.txns → is_own (plan_of plan.now) t ≡ true }
    requires wanted { (1 < length wanted.now) × (length wanted.now ≤ 256) }
{
    assert!(rt; plan.table.kind == Kind::Full);
    assert_eq!(rt; plan.block.txns.len(), wanted.len());
    let (work, mut first) = W::plan(alloc, plan)?;
    let second = work.split(alloc, &mut first)?;
    let (first, second) = both_begin(rt, &work, task, first, second, &wanted[0]);
    assert!(rt; first.1 != second.1);
    let (first, second) = both_go_on(rt, &work, task, first.0, second.0, wanted);
    let both = work.join(first, second);
    assert!(rt; W::untried(&both).is_none());
    Ok(work.close(both))
}
