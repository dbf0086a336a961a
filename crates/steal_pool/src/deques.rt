//! The deque of each worker, and the thieves of the others.
ghost use Rattle.std.specs.Prelude.{◌≡◌, ◌<◌, ◌+◌, ℕ, [], IfOk, IfSome, length, map, true};
ghost use Rattle.crossbeam_deque.specs.Handles.{worker_deque, stealer_deque};
ghost use Rattle.board_core.specs.Counts.{times};
ghost use Rattle.steal_pool.specs.Hints.{IsOwn};
ghost use Rattle.steal_pool.specs.Others.{without_place, HaveOthers};

use crate::hints::{HintRule, Hints, Thief};
use crate::own_flags::OwnFlags;
use board_work::Made;
use crossbeam_deque::Steal;
use std::alloc::Global;
use txn_types::OutOfMemory;

const FIRST_HINTS: usize = 64;

const IDLE_ROUNDS: u32 = 64;

/// The deque of one worker, and what steals from those of the others.
#[derive(Drop)]
pub(crate) struct Deques<F: OwnFlags> {
    pub own: Hints<F>,
    pub others: Vec<Thief<F>>,
}

// An empty deque for each worker.
fn empty_deques<F: OwnFlags>(alloc: Global, workers: usize) -> Result<Vec<Deques<F>>, OutOfMemory>
    ensures { IfOk result (λ deques. length deques.items ≡ workers) }
{
    let mut deques = Vec::new(alloc);
    for _ in 0..workers {
        deques.push(Deques {
            own: Hints::<F>::fifo_as(alloc, FIRST_HINTS)?,
            others: Vec::new(alloc),
        })?;
    }
    Ok(deques)
}

// Thieves of all deques but that of one worker.
fn thieves_for<F: OwnFlags>(
    alloc: Global,
    deques: &[Deques<F>],
    worker: usize,
) -> Result<Vec<Thief<F>>, OutOfMemory>
    ensures { IfOk result (λ thieves. map stealer_deque thieves.items ≡ without_place worker (map (λ d. worker_deque d.own) deques.now)) }
{
    let mut thieves = Vec::new(alloc);
    for other in 0..deques.len() {
        if other != worker {
            thieves.push(deques[other].own.stealer()?)?;
        }
    }
    Ok(thieves)
}

/// For each worker an empty deque, and thieves of all others.
pub(crate) fn open_deques<F: OwnFlags>(
    alloc: Global,
    workers: usize,
) -> Result<Vec<Deques<F>>, OutOfMemory>
    ensures count { IfOk result (λ deques. length deques.items ≡ workers) }
    ensures others { IfOk result (λ deques. HaveOthers (λ d. worker_deque d.own) (λ d. map stealer_deque d.others.items) deques.items workers) }
{
    let mut deques = empty_deques(alloc, workers)?;
    for worker in 0..workers {
        deques[worker].others = thieves_for(alloc, deques.as_slice(), worker)?;
    }
    Ok(deques)
}

/// Takes a hint of the own deque, or else steals one.
pub(crate) fn next_hint<F: OwnFlags>(deques: &mut Deques<F>) -> Option<u16>
    ensures { IfSome result (IsOwn F.own) }
{
    if let Some(t) = deques.own.pop_as::<HintRule<F>>() {
        return Some(t);
    }
    for _ in 0..IDLE_ROUNDS {
        if let Some(t) = steal_hint(deques.others.as_slice()) {
            return Some(t);
        }
    }
    None
}

// Tries each of the other deques once.
fn steal_hint<F: OwnFlags>(others: &[Thief<F>]) -> Option<u16>
    ensures { IfSome result (IsOwn F.own) }
{
    for other in others {
        let mut pass = other.pass();
        if let Steal::Success(t) = other.steal_as::<HintRule<F>>(&mut pass) {
            return Some(t);
        }
    }
    None
}

/// Pushes a hint to each position of the list, and empties it. A hint that finds no memory is dropped.
pub(crate) fn push_hints<F: OwnFlags>(deques: &mut Deques<F>, made: &mut Made)
    requires { (x : ℕ) → 0 < times x made.old → IsOwn F.own x }
    ensures { made.new ≡ [] }
{
    for t in made.list() {
        let _ = deques.own.push_as::<HintRule<F>>(*t);
    }
    *made = Made::new();
}
