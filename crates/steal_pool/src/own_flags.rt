//! Which own positions hints may name.
use std::marker::Brand;

/// The own flags of one burst, which the call of the burst picks.
pub(crate) trait OwnFlags {
    ghost use Rattle.std.specs.Prelude.{Bool, List};

    ghost own: { List Bool };
}

impl OwnFlags for Brand {
    ghost use Rattle.std.specs.Prelude.{[]};

    ghost own = { [] };
}
