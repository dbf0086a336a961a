//! The rule of a deque of hints: each hint in it is an own position of this burst's plan.
use crate::own_flags::OwnFlags;
use crossbeam_deque::protocol::{Outcome, Protocol};
use crossbeam_deque::{Stealer, Worker};
use std::alloc::Global;
use std::marker::PhantomData;

/// What each view of a deque carries: the own flags of the burst. No value of it is made.
pub(crate) struct HintView {
    pub own: [bool; 0],
}

pub(crate) struct HintRule<F>(PhantomData<F>);

impl<F: OwnFlags> Protocol<u16, HintView> for HintRule<F> {
    ghost use Rattle.steal_pool.specs.Hints.{AreHints, view_of};

    ghost holds = { AreHints F.own };

    ghost first = { view_of F.own };

    ghost guest = { view_of F.own };
}

impl<F: OwnFlags> Outcome<u16, HintView> for HintRule<F> {
    ghost use Rattle.std.specs.Prelude.{◌≡◌};
    ghost use Rattle.steal_pool.specs.Hints.{AllOwn, view_of};

    ghost then = { λ v xs w. AllOwn F.own xs × (w ≡ view_of F.own) };
}

/// The deque of one worker.
pub(crate) type Hints<F> = Worker<u16, Global, HintView, HintRule<F>>;

/// What steals from the deque of another worker.
pub(crate) type Thief<F> = Stealer<u16, Global, HintView, HintRule<F>>;
