//! The core of a board: what a pass knows, the rule over words and passes, and each kind of step.
#![tactic(auto)]

ghost use Rattle.board_core.specs.Laws.{InputsAreSerial, StepsKeepTheRule};
ghost use Rattle.board_core.specs.Script.{Script};

mod take;
mod view;

pub use take::Take;
pub use view::View;

/// Whatever the other passes do meanwhile, the values that a held position loads are those of the serial order.
pub fn inputs_are_serial()
    ensures { InputsAreSerial }
{}

/// Each kind of step keeps the rule for all other passes, whatever they did before.
pub fn steps_keep_the_rule()
    ensures { (p : Script) → StepsKeepTheRule p }
{}
