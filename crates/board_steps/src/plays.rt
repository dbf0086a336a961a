//! The rule of the table, and what each step says.
use crate::about::About;
use atomic_table::{Join, Play, Split, TableRule};
use board_core::View;
use std::marker::{Brand, PhantomData};

/// The rule of the table: that of `board_core`, over the script of the plan.
pub struct Rule;

impl TableRule<u8, View, About> for Rule {
    ghost use Rattle.board_core.specs.Rule.{Holds};
    ghost use Rattle.board_core.specs.Steps.{first_view};
    ghost use Rattle.board_steps.specs.Abouts.{scripted};

    ghost holds = { λ key. Holds (scripted key) };

    ghost first = { λ key. first_view (scripted key) };
}

/// The position of a step, and the script. Each call picks them.
pub trait Position {
    ghost use Rattle.std.specs.Prelude.{ℕ};
    ghost use Rattle.board_core.specs.Script.{Script};

    ghost position: { ℕ };

    ghost script: { Script };
}

impl Position for Brand {
    ghost use Rattle.board_core.specs.Script.{nothing};

    ghost position = { 0 };

    ghost script = { nothing };
}

pub(crate) struct LoadNeed<J>(PhantomData<J>);

impl<J: Position> Play<u8, View> for LoadNeed<J> {
    ghost use Rattle.board_core.specs.Steps.{Loads};

    ghost then = { Loads J.position };
}

pub(crate) struct SwapTurn<J>(PhantomData<J>);

impl<J: Position> Play<u8, View> for SwapTurn<J> {
    ghost use Rattle.board_core.specs.Steps.{Swaps};

    ghost then = { Swaps J.position };
}

pub(crate) struct BeginStamp<J>(PhantomData<J>);

impl<J: Position> Play<u8, View> for BeginStamp<J> {
    ghost use Rattle.board_core.specs.Steps.{Begins};

    ghost then = { Begins J.script J.position };
}

/// Two numbers of a step: the ends of an edge, or a position and its part, record or begin stamp. Each call picks them.
pub trait Pair {
    ghost use Rattle.std.specs.Prelude.{ℕ};

    ghost from: { ℕ };

    ghost to: { ℕ };
}

impl Pair for Brand {
    ghost from = { 0 };

    ghost to = { 0 };
}

pub(crate) struct FinishStamp<J>(PhantomData<J>);

impl<J: Pair> Play<u8, View> for FinishStamp<J> {
    ghost use Rattle.board_core.specs.Steps.{Finishes};

    ghost then = { Finishes J.from J.to };
}

pub(crate) struct CountDown<J>(PhantomData<J>);

impl<J: Pair> Play<u8, View> for CountDown<J> {
    ghost use Rattle.board_core.specs.Steps.{Tells, counted_down};

    ghost then = { Tells (counted_down J.from J.to) };
}

pub(crate) struct Publish<J>(PhantomData<J>);

impl<J: Pair> Play<u8, View> for Publish<J> {
    ghost use Rattle.board_core.specs.Steps.{Sets, publishing};

    ghost then = { Sets (publishing J.from J.to) };
}

pub(crate) struct WriteValue<J>(PhantomData<J>);

impl<J: Pair> Play<u8, View> for WriteValue<J> {
    ghost use Rattle.board_core.specs.Steps.{Puts, writing};

    ghost then = { Puts (writing J.from J.to) };
}

/// The word that a load finds. Each call picks it.
pub trait Found {
    ghost use Rattle.std.specs.Prelude.{ℕ};

    ghost found: { ℕ };
}

impl Found for Brand {
    ghost found = { 0 };
}

pub(crate) struct LoadWord<J>(PhantomData<J>);

impl<J: Found> Play<u8, View> for LoadWord<J> {
    ghost use Rattle.board_core.specs.Steps.{LoadsValue};

    ghost then = { LoadsValue J.found };
}

/// What a join makes of two passes.
pub struct Both;

impl Join<View> for Both {
    ghost use Rattle.board_core.specs.Rule.{spent};
    ghost use Rattle.board_core.specs.Steps.{joined};

    ghost both = { joined };

    ghost spent = { spent };
}

/// What a split makes of a pass.
pub struct Another;

impl Split<View> for Another {
    ghost use Rattle.board_core.specs.Steps.{splitting, newcomer};

    ghost left = { splitting };

    ghost right = { λ v. newcomer v.passes };
}
