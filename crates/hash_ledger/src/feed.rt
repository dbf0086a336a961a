//! What takes bytes piece by piece: a growing list, or a hash.

ghost use Rattle.std.specs.Prelude.{◌≡◌, ◌++◌, [], List, ℕ, OnOk};
ghost use Rattle.sha2.specs.Sha256.{sha256};

use sha2::{Digest, Sha256};
use std::convert::Infallible;
use txn_types::{Bytes, OutOfMemory};

/// What takes bytes piece by piece.
pub trait Feed {
    /// How it may refuse a piece.
    type Refusal: Drop;

    /// It has taken these bytes.
    ghost has: { Self → List ℕ → Type 0 };

    fn feed(&mut self, piece: &[u8]) -> Result<(), Self::Refusal>
        ensures { OnOk result ((m : List ℕ) → has self.old m → has self.new (m ++ piece.now)) };
}

impl Feed for Bytes {
    type Refusal = OutOfMemory;

    ghost has = { λ bytes m. bytes ≡ m };

    fn feed(&mut self, piece: &[u8]) -> Result<(), OutOfMemory> {
        self.append(piece)
    }
}

/// A hash that is being made. It takes no memory.
#[derive(Drop)]
pub struct Hashing {
    hasher: Sha256,
}

impl Hashing {
    ghost use Rattle.hash_ledger.specs.Hashing.{HasHashed};

    /// The hash of no bytes yet.
    pub fn new() -> Hashing
        ensures { HasHashed result [] }
    {
        Hashing {
            hasher: Sha256::new(),
        }
    }

    /// The SHA-256 of the bytes that were fed.
    pub fn digest(self) -> [u8; 32]
        ensures { (m : List ℕ) → HasHashed self m → result ≡ sha256 m }
    {
        self.hasher.finalize()
    }
}

impl Feed for Hashing {
    type Refusal = Infallible;

    ghost use Rattle.hash_ledger.specs.Hashing.{HasHashed};

    ghost has = { HasHashed };

    fn feed(&mut self, piece: &[u8]) -> Result<(), Infallible> {
        self.hasher.update(piece);
        Ok(())
    }
}
