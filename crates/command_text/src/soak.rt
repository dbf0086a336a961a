//! The printed text of `soak`.

ghost use Rattle.std.specs.Prelude.{IfOk};
ghost use Rattle.par_words.specs.Words.{IsNumberOfTxns, IsNumberOfWorkers};
ghost use Rattle.soak_text.specs.Summary.{IsSoakText};

use crate::Gate;
use crate::agreed::agree;
use crate::text::play;
use soak_input::soak_input;
use soak_text::soak_report;
use std::alloc::Global;
use std::thread::Threads;
use txn_types::{OutOfMemory, Text};

/// The summary of the run of the input that a seed and a count of transactions make.
pub fn soak_summary<R: Threads + Sync, G: Gate>(
    rt: &R,
    alloc: Global,
    seed: u16,
    txns: u16,
    workers: u8,
    gate: &G,
) -> Result<Text, OutOfMemory>
    requires txns { IsNumberOfTxns txns }
    requires workers { IsNumberOfWorkers workers }
    ensures text { IfOk result (IsSoakText seed txns) }
{
    let input = soak_input(alloc, seed, txns)?;
    let agreed = agree(alloc, &input.table, input.items.as_slice(), &input.limits)?;
    let world = play(rt, alloc, &input, &agreed, workers, gate)?;
    let text = soak_report(alloc, &world, &agreed.blocks, seed, txns)?;
    Ok(text)
}
