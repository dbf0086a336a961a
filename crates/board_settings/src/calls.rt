//! Calls on a pass, with what a row says of their answers.

ghost use Rattle.std.specs.Prelude.{◌≡◌, ◌<◌, ◌∷◌, [], ℕ, true, length, IfOk, OnOk};
ghost use Rattle.board_defs.specs.Closure.{IsLawfulPlan, is_own};
ghost use Rattle.board_work.specs.PassStates.{IsOf, IsFree};

use crate::task::Task;
use board_work::{Made, Take, Work};
use row_trouble::Trouble;
use txn_types::Outcome;

/// What a row says of the run of a position: the first value that it reads, the first that it writes, and what its finish makes ready.
#[derive(Clone, Copy)]
pub struct Want {
    pub read: Option<u64>,
    pub wrote: Option<u64>,
    pub made: Option<u16>,
}

/// Takes a position that can be taken; `Trouble::Answer` where it isn't taken.
pub fn takes<W: Work>(work: &W, pass: &mut W::Pass, t: u16) -> Result<W::Taken, Trouble>
    requires of { IsOf (W.home work.now) (W.state pass.old) × IsFree (W.state pass.old) }
    requires own { is_own (W.home work.now).plan t ≡ true }
    ensures taken { IfOk result (λ taken. W.position taken ≡ t) }
    ensures of { OnOk result (IsOf (W.home work.now) (W.state pass.new)) }
    ensures held { OnOk result ((W.state pass.new).held ≡ t ∷ []) }
    ensures numbers { OnOk result (((W.state pass.new).numbers ≡ (W.state pass.old).numbers) × ((W.state pass.new).passes ≡ (W.state pass.old).passes)) }
{
    match work.take(pass, t) {
        Take::Taken(taken) => Ok(taken),
        Take::NotReady(_) => Err(Trouble::Answer),
        Take::Gone => Err(Trouble::Answer),
    }
}

/// Tries a position that can't be taken: its need, or none where it is gone; what is handed out where it is taken.
pub fn misses<W: Work>(work: &W, pass: &mut W::Pass, t: u16) -> Result<Option<u64>, W::Taken>
    requires of { IsOf (W.home work.now) (W.state pass.old) }
    requires own { is_own (W.home work.now).plan t ≡ true }
    ensures of { IfOk result (λ need. IsOf (W.home work.now) (W.state pass.new)) }
    ensures held { IfOk result (λ need. (W.state pass.new).held ≡ (W.state pass.old).held) }
    ensures numbers { IfOk result (λ need. ((W.state pass.new).numbers ≡ (W.state pass.old).numbers) × ((W.state pass.new).passes ≡ (W.state pass.old).passes)) }
{
    match work.take(pass, t) {
        Take::Taken(taken) => Err(taken),
        Take::NotReady(need) => Ok(Some(need)),
        Take::Gone => Ok(None),
    }
}

/// The first value that an outcome has; an abort has none.
pub fn written(outcome: &Outcome) -> Option<u64> {
    match outcome {
        Outcome::Commit(entries) => *entries.as_slice().first()?,
        Outcome::Abort(_) => None,
    }
}

fn is_wanted(want: &Want, read: u64, wrote: Option<u64>, made: &Made) -> bool {
    let as_read = match want.read {
        Some(value) => read == value,
        None => true,
    };
    as_read
        && wrote == want.wrote
        && made.list().len() <= 1
        && made.list().first() == want.made.as_ref()
}

/// Runs the position that the pass holds; `Trouble::Answer` where it comes to something else than the row says.
#[tactic(auto, using(crate::proofs::PassLemmas::alone_gone))]
pub fn runs<W: Work, T: Task>(
    work: &W,
    task: &T,
    pass: &mut W::Pass,
    t: u16,
    taken: W::Taken,
    want: &Want,
) -> Result<(), Trouble>
    requires of { IsOf (W.home work.now) (W.state pass.old) }
    requires taken { W.position taken ≡ t }
    requires task { (T.plan task.now ≡ (W.home work.now).plan) × IsLawfulPlan (T.plan task.now) }
    requires place { t < length (T.plan task.now).txns }
    requires held { (W.state pass.old).held ≡ t ∷ [] }
    ensures of { OnOk result (IsOf (W.home work.now) (W.state pass.new) × IsFree (W.state pass.new)) }
    ensures numbers { OnOk result (((W.state pass.new).numbers ≡ (W.state pass.old).numbers) × ((W.state pass.new).passes ≡ (W.state pass.old).passes)) }
{
    let mut inputs = [0; 16];
    work.inputs(pass, t, &mut inputs);
    let evaluated = task.run::<W>(t, &inputs, taken);
    let wrote = written(W::outcome(&evaluated));
    let mut made = Made::new();
    work.finish(pass, evaluated, &mut made);
    if is_wanted(want, inputs[0], wrote, &made) {
        Ok(())
    } else {
        Err(Trouble::Answer)
    }
}
