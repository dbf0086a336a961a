//! What a plan is made into, and the calls on a pass.
ghost use Rattle.std.specs.Prelude.{◌≡◌, ◌≢◌, ◌<◌, ◌*◌, ◌+◌, ◌≤◌, ℕ, [], ◌∷◌, length, map, take, slice_index, Some, IfOk, OnErr, MatchOption, true, ◌⊎◌};
ghost use Rattle.txn_types.specs.Values.{max_value};
ghost use Rattle.oxii_defs.specs.State.{value_in};
ghost use Rattle.std.specs.List.{All};
ghost use Rattle.board_defs.specs.Closure.{IsLawfulPlan, is_own, run_outcomes, ran_positions};
ghost use Rattle.board_core.specs.Counts.{times_first, times};
ghost use Rattle.board_core.specs.Script.{Runs};
ghost use Rattle.board_core.specs.Steps.{joined, newcomer, splitting};
ghost use Rattle.board_steps.specs.Abouts.{told, scripted, IsLaidOut};
ghost use Rattle.known_defs.specs.Known.{txn_at};
ghost use Rattle.board_work.specs.Scripts.{reads_at, writes_at, state_before, meant_at, outcome_at, word_of, script, has_values, AreHeld};
ghost use Rattle.script_laws.specs.Laws.{IsPlanFor};
ghost use Rattle.txn_types.specs.declared.txn.Kind.TheVariants.{Full};
ghost use Rattle.board_work.specs.declared.layout.Layout.TheVariants.{Values};

use crate::opening::open_frame;
use crate::pass::{Marks, Pass, merge_flags, merge_runs, merge_stamps, no_marks, put_run};
use crate::taken::{Evaluated, Taken};
use atomic_table::Table;
use board_core::View;
use board_steps::{
    About, Another, Both, Rule, begin_stamp, count_all, finish_stamp, load_all, load_need,
    load_part, publish_all, swap_turn, write_kept,
};
use board_words::{read_all, spans_of};
use board_work::{Layout, Made, Own, Plan, Ran, Spans, Take};
use std::alloc::Global;
use std::marker::{Brand, Model};
use std::snapshot::Snapshot;
use txn_types::{Known, OutOfMemory, Outcome, Preds, Txn, Txns};

/// The words of a block's positions and records, and what the calls need of the plan. What the words keep of what is written is its layout.
#[derive(Drop)]
pub struct Frame {
    pub(crate) table: Table<u8, View, About, Rule, Global>,
    pub(crate) about: About,
    pub(crate) layout: Layout,
    pub(crate) txns: Txns,
    pub(crate) own: Own,
    // the own positions that wait for each position
    pub(crate) rows: Preds,
    // the room for what close gives
    pub(crate) outcomes: Known,
    pub(crate) trace: Spans,
}

impl Model for Frame {
    ghost use Rattle.std.specs.Coded.{codes};
    ghost use Rattle.txn_core.specs.contracts.syntax.Stmt as e;
    ghost use Rattle.std.specs.Prelude.{◌≡◌, ℕ, length};
    ghost use Rattle.board_steps.specs.Abouts.{told, IsLaidOut, HasRoom};
    ghost use Rattle.board_work.specs.Scripts.{AreHeld};
    ghost use Rattle.script_laws.specs.Laws.{IsPlanFor};
    ghost use Rattle.board_words.specs.Filled.{AreRows, AreEmpty};
    ghost use Rattle.board_frame.specs.Frames.{Standing, standing};

    ghost Value = { Standing };

    ghost coded = { Prim.hlevel (codes, e.the_row.coded) };

    ghost view = { λ b. standing b.table.shared.table_id b.table.shared.key };

    ghost invariant = { λ b. (b.about ≡ b.table.shared.key) × (b.table.shared.table_id.slots ≡ 0) × HasRoom (told b.table.shared.key) b.table.shared.table_id.words × ((b.txns ≡ (told b.table.shared.key).txns) × (b.own ≡ (told b.table.shared.key).own)) × IsPlanFor b.table.shared.key.layout.value (told b.table.shared.key) × AreHeld (told b.table.shared.key) × AreRows (told b.table.shared.key) b.rows × AreEmpty (told b.table.shared.key) b.outcomes × (length b.trace ≡ length (told b.table.shared.key).txns) × IsLaidOut b.layout b.table.shared.key };
}

impl Frame {
    ghost use Rattle.board_core.specs.Passes.{Takes, Ends, IsHeld};
    ghost use Rattle.board_frame.specs.Frames.{IsPassOf};

    /// What each frame keeps.
    pub fn stands(&self)
        ensures lawful { IsLawfulPlan (told self.now.about) }
        ensures held { AreHeld (told self.now.about) }
    {
        let _ = &self.rows;
    }

    /// A position that the pass holds is in the block, runs, and comes to what its operation means.
    pub fn holds(&self, pass: &Pass, t: usize)
        requires of { IsPassOf self.now pass.now }
        requires held { IsHeld pass.now.view t }
        ensures place { t < length (told self.now.about).txns }
        ensures few { length (told self.now.about).txns ≤ 256 }
        ensures comes { outcome_at (told self.now.about) t ≡ Some (meant_at (told self.now.about) t) }
        ensures runs { Runs (script (told self.now.about)) t }
    {
        self.stands();
        pass.stands();
    }

    /// Its transaction.
    pub fn held_txn(&self, pass: &Pass, t: usize) -> &Txn
        requires of { IsPassOf self.now pass.now }
        requires held { IsHeld pass.now.view t }
        ensures { result.now ≡ txn_at (told self.now.about).txns t }
    {
        self.holds(pass, t);
        &self.txns.as_slice()[t]
    }

    // The own positions that wait for it.
    fn held_row(&self, pass: &Pass, t: usize) -> &[u16]
        requires of { IsPassOf self.now pass.now }
        requires held { IsHeld pass.now.view t }
        ensures short { length result.now ≤ 256 }
        ensures edges { (y : ℕ) → times y result.now ≡ (script (told self.now.about)).edge t y }
    {
        self.holds(pass, t);
        self.rows.as_slice()[t].as_slice()
    }

    pub(crate) fn take_at(&self, pass: &mut Pass, t: u16) -> Take<Taken>
        requires of { IsPassOf self.now pass.old }
        requires own { is_own (told self.now.about) t ≡ true }
        ensures of { IsPassOf self.now pass.new }
        ensures takes { Takes (λ x. x) result t pass.old.view pass.new.view }
    {
        let words = &self.table.shared;
        let at = t as usize;
        let need = load_need::<Brand>(words, &mut pass.seat, at);
        if need != 0 {
            return Take::NotReady(need);
        }
        let turn = swap_turn::<Brand>(words, &mut pass.seat, at);
        pass.tried[at] = true;
        if turn != 0 {
            return Take::Gone;
        }
        pass.begins[at] = begin_stamp::<Brand>(words, &mut pass.seat, at) + 1;
        Take::Taken(Taken { t })
    }

    pub(crate) fn inputs_at(&self, pass: &mut Pass, t: usize, out: &mut [u64; 16])
        requires of { IsPassOf self.now pass.old }
        requires held { IsHeld pass.old.view t }
        requires layout { IsLaidOut Values self.now.about }
        ensures of { IsPassOf self.now pass.new }
        ensures same { pass.new.view ≡ pass.old.view }
        ensures values { take (length (reads_at (told self.now.about) t)) out.new ≡ map (value_in (state_before (told self.now.about) t)) (reads_at (told self.now.about) t) }
        ensures range { (k : ℕ) → k < length (reads_at (told self.now.about) t) → slice_index out.new k ≤ max_value }
    {
        self.holds(pass, t);
        let txn = self.held_txn(pass, t);
        load_all(
            &self.table.shared,
            txn.reads.as_slice(),
            &mut pass.seat,
            t,
            out,
        );
    }

    /// A word of an earlier position that is set at the start, or that the held position waited for.
    pub fn part_at(&self, pass: &mut Pass, t: usize, x: usize, k: usize) -> u64
        requires of { IsPassOf self.now pass.old }
        requires held { IsHeld pass.old.view t }
        requires part { (x < length (told self.now.about).txns) × (k < 1 + length (writes_at (told self.now.about) x)) × (k < 17) }
        requires set { ((scripted self.now.about).fixed x k ≡ true) ⊎ (0 < (script (told self.now.about)).edge x t) }
        ensures of { IsPassOf self.now pass.new }
        ensures same { pass.new.view ≡ pass.old.view }
        ensures value { result ≡ word_of (outcome_at (told self.now.about) x) k }
    {
        load_part::<Brand>(&self.table.shared, &mut pass.seat, t, x, k)
    }

    /// The transactions of the block.
    pub fn txns(&self) -> &[Txn]
        ensures { result.now ≡ (told self.now.about).txns }
    {
        self.txns.as_slice()
    }

    pub(crate) fn finish_at(&self, pass: &mut Pass, t: usize, outcome: &Outcome, made: &mut Made)
        requires of { IsPassOf self.now pass.old }
        requires held { IsHeld pass.old.view t }
        requires meant { outcome.now ≡ meant_at (told self.now.about) t }
        requires empty { made.old ≡ [] }
        ensures of { IsPassOf self.now pass.new }
        ensures ends { Ends t pass.old.view pass.new.view made.new }
        ensures made_own { (y : ℕ) → 0 < times y made.new → is_own (told self.now.about) y ≡ true }
    {
        self.holds(pass, t);
        let txn = self.held_txn(pass, t);
        let row = self.held_row(pass, t);
        let words = &self.table.shared;
        let writes = txn.writes.as_slice();
        let begin = pass.begin_of(t);
        publish_all(words, writes.len(), &mut pass.seat, t, outcome);
        write_kept(words, self.layout, writes, &mut pass.seat, t, outcome);
        let finish = finish_stamp::<Brand>(words, &mut pass.seat, t, begin);
        put_run(&mut pass.runs, t, pass.number, begin, finish);
        count_all(words, row, &mut pass.seat, &mut pass.duty, t, made);
    }

    /// A new pass, with the next number and no duty.
    pub(crate) fn split_pass(&self, alloc: Global, pass: &mut Pass) -> Result<Pass, OutOfMemory>
        requires of { IsPassOf self.now pass.old }
        requires few { pass.old.view.passes < 16 }
        ensures of { IsPassOf self.now pass.new × IfOk result (IsPassOf self.now) }
        ensures ok { IfOk result (λ p. (pass.new.view ≡ splitting pass.old.view) × (p.view ≡ newcomer pass.old.view.passes)) }
        ensures err { OnErr result (pass.new ≡ pass.old) }
    {
        let size = pass.duty.as_slice().len();
        let duty = Vec::from_elem(alloc, false, size)?;
        let Marks {
            tried,
            begins,
            runs,
        } = no_marks(alloc, size)?;
        let about = Snapshot::of(&self.about);
        let seat = self.table.shared.split_seat::<Another>(&mut pass.seat);
        let number = pass.passes;
        pass.passes += 1;
        Ok(Pass {
            seat,
            about,
            number,
            passes: 16,
            duty,
            tried,
            begins,
            runs,
        })
    }

    /// The least duty that was not tried.
    pub(crate) fn least_untried(pass: &Pass) -> Option<usize>
        ensures { MatchOption result ((t : ℕ) → 0 < times t pass.now.view.duties → 0 < times t pass.now.view.tried) (λ t. (t < 256) × (is_own (told pass.now.about) t ≡ true) × (0 < times t pass.now.view.duties) × (times t pass.now.view.tried ≡ 0) × ((u : ℕ) → u < t → 0 < times u pass.now.view.duties → 0 < times u pass.now.view.tried)) }
    {
        for t in 0..pass.duty.len() {
            if pass.duty[t] && !pass.tried[t] {
                return Some(t);
            }
        }
        None
    }

    /// One pass of two.
    pub(crate) fn join_passes(&self, keep: Pass, other: Pass) -> Pass
        requires keep { IsPassOf self.now keep }
        requires other { IsPassOf self.now other }
        ensures of { IsPassOf self.now result }
        ensures joined { result.view ≡ joined keep.view other.view }
    {
        let Pass {
            mut seat,
            about,
            number,
            passes,
            mut duty,
            mut tried,
            mut begins,
            mut runs,
        } = keep;
        let Pass {
            seat: other_seat,
            about: _,
            number: _,
            passes: other_passes,
            duty: other_duty,
            tried: other_tried,
            begins: other_begins,
            runs: other_runs,
        } = other;
        self.table.shared.join_seat::<Both>(&mut seat, other_seat);
        merge_flags(&mut duty, other_duty.as_slice());
        merge_flags(&mut tried, other_tried.as_slice());
        merge_stamps(&mut begins, other_begins.as_slice());
        merge_runs(&mut runs, other_runs.as_slice());
        Pass {
            seat,
            about,
            number,
            passes: passes.min(other_passes),
            duty,
            tried,
            begins,
            runs,
        }
    }
}

// What ran, and when.
impl Frame {
    ghost use Rattle.std.specs.Prelude.{map};
    ghost use Rattle.board_core.specs.Passes.{IsComplete};
    ghost use Rattle.board_work.specs.Spans.{span_of};
    ghost use Rattle.script_laws.specs.Laws.{IsLawfulClose};
    ghost use Rattle.board_frame.specs.Frames.{IsPassOf};

    pub(crate) fn close_frame(self, pass: Pass) -> Ran
        requires of { IsPassOf self pass }
        requires complete { IsComplete pass.view }
        requires tried { (t : ℕ) → 0 < times t pass.view.duties → 0 < times t pass.view.tried }
        requires free { (t : ℕ) → 0 < times_first t pass.view.begins → 0 < times_first t pass.view.finishes }
        ensures outcomes { result.outcomes ≡ run_outcomes (told self.about) }
        ensures trace { IsLawfulClose (told self.about) pass.view (map span_of result.trace) }
        ensures workers { All (λ s. 0 < times s.worker pass.view.numbers) (map span_of result.trace) }
    {
        let Frame {
            table,
            about,
            layout: _,
            txns,
            own,
            rows: _,
            mut outcomes,
            trace,
        } = self;
        let Pass {
            seat,
            about: _,
            number: _,
            passes: _,
            duty: _,
            tried: _,
            begins: _,
            runs,
        } = pass;
        let closed = table.close_with(seat);
        read_all(
            &closed,
            &about,
            txns.as_slice(),
            own.as_slice(),
            &mut outcomes,
        );
        closed.free();
        let trace = spans_of(trace, runs.as_slice());
        Ran { outcomes, trace }
    }
}

// The calls, in the words of what workers run.
impl Frame {
    ghost use Rattle.std.specs.Prelude.{map};
    ghost use Rattle.board_work.specs.Plans.{plan_of, IsRunnable};
    ghost use Rattle.board_work.specs.Spans.{span_of};
    ghost use Rattle.board_work.specs.PassStates.{IsOf, IsFree, IsHolding, IsComplete, HasTried, IsFirst, new_state, split_state, Took, Ended, IsLeastUntried, joined_state, IsTraceOf};
    ghost use Rattle.board_frame.specs.Seen.{pass_state};
    ghost use Rattle.board_frame.specs.Frames.{frame_home, IsFrameClosed};

    /// The frame of a plan with this layout, and pass number 0.
    pub fn open(
        alloc: Global,
        plan: &Plan<'_>,
        layout: Layout,
    ) -> Result<(Frame, Pass), OutOfMemory>
        requires runnable { IsRunnable plan.now }
        requires kind { has_values layout ≡ true → plan.now.table.now.kind ≡ Full }
        ensures plan { IfOk result (λ r. (frame_home r.0).plan ≡ plan_of plan.now) }
        ensures layout { IfOk result (λ r. IsLaidOut layout r.0.about) }
        ensures first { IfOk result (λ r. IsFirst (frame_home r.0) (pass_state r.1)) }
    {
        open_frame(alloc, plan, layout)
    }

    /// A new pass with the next number and no duty.
    pub fn split(&self, alloc: Global, pass: &mut Pass) -> Result<Pass, OutOfMemory>
        requires of { IsOf (frame_home self.now) (pass_state pass.old) }
        requires few { (pass_state pass.old).passes < 16 }
        ensures ok { IfOk result (λ p. (pass_state pass.new ≡ split_state (pass_state pass.old)) × (pass_state p ≡ new_state (frame_home self.now) (pass_state pass.old).passes)) }
        ensures err { OnErr result (pass_state pass.new ≡ pass_state pass.old) }
    {
        self.split_pass(alloc, pass)
    }

    /// Takes an own position, where it is ready and no other pass has it.
    pub fn take(&self, pass: &mut Pass, t: u16) -> Take<Taken>
        requires of { IsOf (frame_home self.now) (pass_state pass.old) }
        requires own { is_own (frame_home self.now).plan t ≡ true }
        ensures took { Took (λ x. x) result t (pass_state pass.old) (pass_state pass.new) }
    {
        self.take_at(pass, t)
    }

    /// The value of each record that a held position reads, from the words that keep values.
    pub fn inputs(&self, pass: &mut Pass, t: u16, out: &mut [u64; 16])
        requires of { IsOf (frame_home self.now) (pass_state pass.old) }
        requires held { IsHolding (pass_state pass.old) t }
        requires layout { IsLaidOut Values self.now.about }
        ensures same { pass_state pass.new ≡ pass_state pass.old }
        ensures values { take (length (reads_at (frame_home self.now).plan t)) out.new ≡ map (value_in (state_before (frame_home self.now).plan t)) (reads_at (frame_home self.now).plan t) }
        ensures range { (k : ℕ) → k < length (reads_at (frame_home self.now).plan t) → slice_index out.new k ≤ max_value }
    {
        self.inputs_at(pass, t as usize, out)
    }

    /// Finishes a held position. `made` lists the positions whose need reached 0 by this call.
    pub fn finish(&self, pass: &mut Pass, evaluated: Evaluated, made: &mut Made)
        requires of { IsOf (frame_home self.now) (pass_state pass.old) }
        requires held { IsHolding (pass_state pass.old) evaluated.position }
        requires meant { evaluated.outcome ≡ meant_at (frame_home self.now).plan evaluated.position }
        requires empty { made.old ≡ [] }
        ensures ended { Ended evaluated.position (pass_state pass.old) (pass_state pass.new) made.new }
    {
        let Evaluated { t, outcome } = evaluated;
        self.finish_at(pass, t as usize, &outcome, made)
    }

    /// The least duty that was not tried.
    pub fn untried(pass: &Pass) -> Option<u16>
        ensures { MatchOption result (HasTried (pass_state pass.now)) (IsLeastUntried (pass_state pass.now)) }
    {
        match Frame::least_untried(pass) {
            Some(t) => Some(t as u16),
            None => None,
        }
    }

    /// One pass of two, with the number of the first.
    pub fn join(&self, keep: Pass, other: Pass) -> Pass
        requires of { IsOf (frame_home self.now) (pass_state keep) × IsOf (frame_home self.now) (pass_state other) }
        requires free { IsFree (pass_state keep) × IsFree (pass_state other) }
        ensures { pass_state result ≡ joined_state (pass_state keep) (pass_state other) }
    {
        self.join_passes(keep, other)
    }

    /// What ran.
    pub fn close(self, pass: Pass) -> Ran
        requires of { IsOf (frame_home self) (pass_state pass) }
        requires complete { IsComplete (pass_state pass) }
        requires tried { HasTried (pass_state pass) }
        requires free { IsFree (pass_state pass) }
        ensures outcomes { result.outcomes ≡ run_outcomes (frame_home self).plan }
        ensures positions { map (λ s. s.t) result.trace ≡ ran_positions (frame_home self).plan }
        ensures trace { IsTraceOf (pass_state pass) (map span_of result.trace) }
        ensures closed { IsFrameClosed (frame_home self).plan result.outcomes (map span_of result.trace) }
    {
        self.close_frame(pass)
    }
}
