//! Which endorsed transactions of a block are valid.

ghost use Rattle.std.specs.Prelude.{◌≡◌, ◌≤◌, ℕ, [], ◌∷◌, length, IfOk, OnOk};
ghost use Rattle.xov_mode.specs.Verdicts.{verdict_for, verdicts_of, AreVerdicts};
ghost use Rattle.xov_mode.specs.Writers.{or_else, touching, writer_of};
ghost use Rattle.xov_mode.specs.Laws.{ValidOnesRunSerially, VerdictsAreMeant};

use crate::writers::{Writers, earliest, put_writers};
use std::alloc::Global;
use txn_types::{Block, GrowingList, OutOfMemory, Outcome, Outcomes, Txn};

/// Whether a transaction is valid, or else the first valid one before it that wrote a record that it reads.
#[derive(Clone, Copy, Debug, PartialEq, Eq)]
pub enum Verdict {
    Valid,
    Invalid { by: u16 },
}

/// One verdict for each position of a block.
pub type Verdicts = GrowingList<Verdict>;

// The verdict on a position that this one touches first, if any does.
fn verdict_for(cause: Option<u16>) -> Verdict
    ensures { result ≡ verdict_for cause }
{
    match cause {
        None => Verdict::Valid,
        Some(by) => Verdict::Invalid { by },
    }
}

// What a position with this verdict wrote, behind what those before it did.
fn enter(
    writers: &mut Writers,
    alloc: Global,
    place: u16,
    txn: &Txn,
    outcome: &Outcome,
    verdict: Verdict,
) -> Result<(), OutOfMemory>
    ensures { OnOk result ((q : ℕ) → writer_of writers.new q ≡ or_else (writer_of writers.old q) (touching place txn.now outcome.now verdict (q ∷ []))) }
{
    match (verdict, outcome) {
        (Verdict::Valid, Outcome::Commit(entries)) => put_writers(
            writers,
            alloc,
            place,
            txn.writes.as_slice(),
            entries.as_slice(),
        ),
        _ => Ok(()),
    }
}

fn judge_all(alloc: Global, txns: &[Txn], outcomes: &[Outcome]) -> Result<Verdicts, OutOfMemory>
    requires few { length txns.now ≤ 256 }
    requires whole { length outcomes.now ≡ length txns.now }
    ensures { IfOk result (λ vs. vs ≡ verdicts_of txns.now outcomes.now) }
{
    let mut writers = Writers::new(alloc);
    let mut verdicts = Verdicts::new(alloc);
    for t in 0..txns.len() {
        let txn = &txns[t];
        let verdict = verdict_for(earliest(&writers, txn.reads.as_slice()));
        enter(&mut writers, alloc, t as u16, txn, &outcomes[t], verdict)?;
        verdicts.push(verdict)?;
    }
    Ok(verdicts)
}

/// The verdict on each position of a block with these endorsed outcomes.
pub fn validate(alloc: Global, block: &Block, outcomes: &Outcomes) -> Result<Verdicts, OutOfMemory>
    requires few { length block.now.txns ≤ 256 }
    requires whole { length outcomes.now ≡ length block.now.txns }
    ensures verdicts { IfOk result (λ vs. vs ≡ verdicts_of block.now.txns outcomes.now) }
    ensures meaning { IfOk result (AreVerdicts block.now.txns outcomes.now) }
{
    judge_all(alloc, block.txns.as_slice(), outcomes.as_slice())
}

/// The valid transactions of a block, one after another, have exactly their endorsed outcomes and end in the settled state.
pub fn valid_ones_run_serially()
    ensures law { ValidOnesRunSerially }
    ensures meant { VerdictsAreMeant }
{}
