//! Draws from a seed.

ghost use Rattle.std.specs.Prelude.{◌≡◌};
ghost use Rattle.soak_input.specs.Generator.{next_draw};

use std::marker::Model;

/// The draws of a seed, seen by contracts as the last draw, or the seed before the first.
#[derive(Drop)]
pub struct Draws {
    last: u32,
}

impl Model for Draws {
    ghost use Rattle.std.specs.Prelude.{ℕ, ◌<◌};

    ghost Value = { ℕ };

    ghost view = { λ draws. draws.last };

    ghost invariant = { λ draws. draws.last < 65537 };
}

impl Draws {
    /// Before the first draw.
    pub fn new(seed: u16) -> Draws
        ensures { result ≡ seed }
    {
        Draws {
            last: u32::from(seed),
        }
    }

    /// The next draw.
    pub fn next(&mut self) -> u32
        ensures draw { result ≡ next_draw self.old }
        ensures last { self.new ≡ result }
    {
        self.last = (75 * self.last + 74) % 65537;
        self.last
    }
}
