//! The printed text of a document, and the world that it is of.

ghost use Rattle.std.specs.Prelude.{◌≡◌, ◌≤◌, length, IfOk};
ghost use Rattle.std.specs.List.{All};
ghost use Rattle.oxii_defs.specs.Lawful.{IsLawfulTable, IsLawfulBlock};
ghost use Rattle.node_defs.specs.Admission.{pieces_of};
ghost use Rattle.node_defs.specs.LawfulItems.{IsLawfulItem, AreLawfulLimits};
ghost use Rattle.txn_core.specs.MeantTable.{table_of};
ghost use Rattle.txn_core.specs.States.{state_of};
ghost use Rattle.world_laws.specs.Worlds.{HasBursts, IsWorldOf, setting_with};
ghost use Rattle.command_text.specs.AgreedBlocks.{AreAgreedBlocks};
ghost use Rattle.input_doc.specs.LawfulInputs.{IsLawfulInput};
ghost use Rattle.input_doc.specs.Held.{input_of};
ghost use Rattle.command_text.specs.Commands.{IsRunText, IsGraphText};

use crate::Gate;
use crate::agreed::{Agreed, agree};
use crate::graphs::push_graph_text;
use crate::world_text::report;
use input_doc::Input;
use schedule_run::World;
use std::alloc::Global;
use std::thread::Threads;
use txn_types::{OutOfMemory, Text};

/// The world of the schedule over the agreed blocks.
pub fn play<'t, R: Threads + Sync, G: Gate>(
    rt: &R,
    alloc: Global,
    input: &'t Input,
    agreed: &Agreed,
    workers: u8,
    gate: &G,
) -> Result<World<'t>, OutOfMemory>
    requires lawful { IsLawfulInput (input_of input.now) }
    requires workers { (1 ≤ workers) × (workers ≤ 16) }
    requires agreed { AreAgreedBlocks (table_of input.now.table) input.now.limits input.now.items agreed.now.blocks }
    requires blocks { All (IsLawfulBlock (table_of input.now.table)) agreed.now.blocks }
    requires admitted { agreed.now.admitted ≡ pieces_of (table_of input.now.table) input.now.items }
    ensures stands { IfOk result (λ r. IsWorldOf r (state_of input.now.genesis) (setting_with (table_of input.now.table) (state_of input.now.genesis) agreed.now.blocks agreed.now.admitted input.now.faulty) input.now.schedule) }
    ensures bursts { IfOk result (λ r. HasBursts workers r (setting_with (table_of input.now.table) (state_of input.now.genesis) agreed.now.blocks agreed.now.admitted input.now.faulty) input.now.schedule) }
    ensures table { IfOk result (λ r. r.table ≡ input.now.table) }
{
    let world = World::new(
        alloc,
        &input.table,
        &input.genesis,
        &agreed.blocks,
        &agreed.admitted,
        &input.faulty,
    )?;
    let world = world.run(rt, alloc, input.schedule.as_slice(), workers, gate)?;
    Ok(world)
}

/// The text of the world of the schedule.
pub fn run_text<R: Threads + Sync, G: Gate>(
    rt: &R,
    alloc: Global,
    input: &Input,
    workers: u8,
    trace: bool,
    evidence: bool,
    gate: &G,
) -> Result<Text, OutOfMemory>
    requires lawful { IsLawfulInput (input_of input.now) }
    requires workers { (1 ≤ workers) × (workers ≤ 16) }
    ensures text { IfOk result (IsRunText workers trace evidence (input_of input.now)) }
{
    let agreed = agree(alloc, &input.table, input.items.as_slice(), &input.limits)?;
    let world = play(rt, alloc, input, &agreed, workers, gate)?;
    let count = agreed.blocks.len() as u64;
    let text = report(alloc, &world, &agreed.rejected, count, evidence, trace)?;
    Ok(text)
}

/// The text of the command `graph`: the rejected requests, and the agreed blocks with what each transaction depends on.
pub fn graph_report(alloc: Global, input: &Input) -> Result<Text, OutOfMemory>
    requires table { IsLawfulTable (table_of input.now.table) }
    requires count { length input.now.items ≤ 8192 }
    requires items { All (IsLawfulItem (table_of input.now.table)) input.now.items }
    requires limits { AreLawfulLimits input.now.limits }
    ensures { IfOk result (IsGraphText (input_of input.now)) }
{
    let table = &input.table;
    let agreed = agree(alloc, table, input.items.as_slice(), &input.limits)?;
    let mut text = Text::new(alloc);
    push_graph_text(alloc, &mut text, table, &agreed)?;
    Ok(text)
}
