//! What a finish made: a list of at most 256 positions that takes no memory.
ghost use Rattle.std.specs.Prelude.{◌≡◌, ◌<◌, ◌++◌, ◌∷◌, [], length};

use std::marker::Model;

/// At most 256 positions. It takes no memory.
#[derive(Drop)]
pub struct Made {
    positions: [u16; 256],
    count: usize,
}

impl Model for Made {
    ghost use Rattle.std.specs.Prelude.{List, ℕ, take, ◌≤◌};

    ghost Value = { List ℕ };

    ghost view = { λ m. take m.count m.positions };

    ghost invariant = { λ m. m.count ≤ 256 };
}

impl Made {
    pub fn new() -> Made
        ensures { result ≡ [] }
    {
        Made {
            positions: [0; 256],
            count: 0,
        }
    }

    pub fn push(&mut self, t: u16)
        requires { length self.old < 256 }
        ensures { self.new ≡ self.old ++ t ∷ [] }
    {
        self.positions[self.count] = t;
        self.count += 1;
    }

    pub fn list(&self) -> &[u16]
        ensures { result.now ≡ self.now }
    {
        &self.positions[..self.count]
    }
}
