//! The passes of the workers.
ghost use Rattle.std.specs.Prelude.{◌≡◌, ◌≤◌, ◌<◌, ◌+◌, ◌↔◌, ◌⊎◌, ℕ, [], ◌∷◌, All, Any, IfOk, IfSome, IfNone, length};
ghost use Rattle.board_core.specs.Counts.{times};
ghost use Rattle.steal_pool.specs.Passes.{AreSplit, IsIdle};

use board_work::Work;
use std::alloc::Global;
use txn_types::OutOfMemory;

/// The passes of the workers after the first.
pub(crate) fn split_all<W: Work>(
    alloc: Global,
    work: &W,
    first: &mut W::Pass,
    workers: usize,
) -> Result<Vec<W::Pass>, OutOfMemory>
    requires of { IsIdle (W.home work.now) (W.state first.old) }
    requires first { ((W.state first.old).passes ≡ 1) × ((W.state first.old).numbers ≡ 0 ∷ []) }
    requires few { (1 ≤ workers) × (workers ≤ 16) }
    ensures { IfOk result (λ passes. AreSplit W.state (W.home work.now) (W.state first.new) passes.items workers) }
{
    let mut passes = Vec::new(alloc);
    for _ in 1..workers {
        let pass = work.split(alloc, first)?;
        passes.push(pass)?;
    }
    Ok(passes)
}

/// The last pass of the list.
pub(crate) fn next_pass<W: Work>(work: &W, passes: &mut Vec<W::Pass>) -> Option<W::Pass>
    requires { All (λ p. IsIdle (W.home work.now) (W.state p)) passes.old.items }
    ensures next { IfSome result (λ p. IsIdle (W.home work.now) (W.state p)) }
    ensures rest { All (λ p. IsIdle (W.home work.now) (W.state p)) passes.new.items }
    ensures fewer { IfSome result (λ _. length passes.new.items + 1 ≡ length passes.old.items) }
    ensures numbers { IfSome result (λ p. (n : ℕ) → Any (λ o. 0 < times n (W.state o).numbers) passes.old.items ↔ (Any (λ o. 0 < times n (W.state o).numbers) passes.new.items ⊎ (0 < times n (W.state p).numbers))) }
    ensures none { IfNone result (passes.old.items ≡ []) }
{
    let _ = work;
    passes.pop()
}
