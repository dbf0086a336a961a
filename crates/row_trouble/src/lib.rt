//! Why a row of a test can't be read.
#![tactic(auto)]

use std::alloc::{AllocError, AllocFailed};
use std::num::ParseIntError;
use std::str::Utf8Error;
use txn_types::OutOfMemory;

/// Why a row can't be read.
#[derive(Clone, Copy, Debug, PartialEq, Eq)]
pub enum Trouble {
    /// Memory ran out.
    Memory,
    /// The document has a fault.
    Document,
    /// What was written isn't UTF-8.
    Text,
    /// What is where a number should isn't one.
    Number,
    /// A row isn't written as rows are.
    Row,
    /// A row names or replaces what isn't there.
    NotThere,
    /// A call answers what the row doesn't say.
    Answer,
}

impl From<AllocError> for Trouble {
    ghost use Rattle.std.specs.Prelude.{◌≡◌};
    ghost use Rattle.row_trouble.specs.declared.Trouble.TheVariants.{Memory};

    ghost from_gives = { λ _ trouble. trouble ≡ Memory };

    fn from(_: AllocError) -> Trouble {
        Trouble::Memory
    }
}

impl<T: Drop> From<AllocFailed<T>> for Trouble {
    ghost use Rattle.std.specs.Prelude.{◌≡◌};
    ghost use Rattle.row_trouble.specs.declared.Trouble.TheVariants.{Memory};

    ghost from_gives = { λ _ trouble. trouble ≡ Memory };

    fn from(_: AllocFailed<T>) -> Trouble {
        Trouble::Memory
    }
}

impl From<OutOfMemory> for Trouble {
    ghost use Rattle.std.specs.Prelude.{◌≡◌};
    ghost use Rattle.row_trouble.specs.declared.Trouble.TheVariants.{Memory};

    ghost from_gives = { λ _ trouble. trouble ≡ Memory };

    fn from(_: OutOfMemory) -> Trouble {
        Trouble::Memory
    }
}

impl From<Utf8Error> for Trouble {
    ghost use Rattle.std.specs.Prelude.{◌≡◌};
    ghost use Rattle.row_trouble.specs.declared.Trouble.TheVariants.{Text};

    ghost from_gives = { λ _ trouble. trouble ≡ Text };

    fn from(_: Utf8Error) -> Trouble {
        Trouble::Text
    }
}

impl From<ParseIntError> for Trouble {
    ghost use Rattle.std.specs.Prelude.{◌≡◌};
    ghost use Rattle.row_trouble.specs.declared.Trouble.TheVariants.{Number};

    ghost from_gives = { λ _ trouble. trouble ≡ Number };

    fn from(_: ParseIntError) -> Trouble {
        Trouble::Number
    }
}
