//! Copies that can run out of memory.

ghost use Rattle.std.specs.Prelude.{◌≡◌, ◌∷◌, ◌++◌, [], take, IfOk};

use crate::{Block, Body, Commit, Config, GrowingList, NewBlock, OutOfMemory, Outcome, Txn, Vote};
use std::alloc::Global;

/// A value that can be copied where memory is there.
pub trait Copies: Drop {
    fn copy(&self, alloc: Global) -> Result<Self, OutOfMemory>
        ensures { IfOk result (λ r. r ≡ self.now) };
}

impl Copies for bool {
    fn copy(&self, _alloc: Global) -> Result<bool, OutOfMemory> {
        Ok(*self)
    }
}

impl Copies for u8 {
    fn copy(&self, _alloc: Global) -> Result<u8, OutOfMemory> {
        Ok(*self)
    }
}

impl Copies for u16 {
    fn copy(&self, _alloc: Global) -> Result<u16, OutOfMemory> {
        Ok(*self)
    }
}

impl<T: Copies> Copies for GrowingList<T> {
    fn copy(&self, alloc: Global) -> Result<GrowingList<T>, OutOfMemory> {
        let mut all = GrowingList::new(alloc);
        for item in self.as_slice() {
            all.push(item.copy(alloc)?)?;
        }
        Ok(all)
    }
}

impl Copies for u64 {
    fn copy(&self, _alloc: Global) -> Result<u64, OutOfMemory> {
        Ok(*self)
    }
}

impl Copies for Txn {
    fn copy(&self, _alloc: Global) -> Result<Txn, OutOfMemory> {
        Ok(self.copy())
    }
}

impl Copies for Outcome {
    fn copy(&self, _alloc: Global) -> Result<Outcome, OutOfMemory> {
        Ok(self.copy())
    }
}

impl Copies for Config {
    fn copy(&self, _alloc: Global) -> Result<Config, OutOfMemory> {
        Ok(self.copy())
    }
}

impl Copies for Vote {
    fn copy(&self, _alloc: Global) -> Result<Vote, OutOfMemory> {
        Ok(self.copy())
    }
}

impl<T: Copies> Copies for Option<T> {
    fn copy(&self, alloc: Global) -> Result<Option<T>, OutOfMemory> {
        match self {
            Some(item) => Ok(Some(item.copy(alloc)?)),
            None => Ok(None),
        }
    }
}

impl Copies for Block {
    fn copy(&self, alloc: Global) -> Result<Block, OutOfMemory> {
        Ok(Block {
            number: self.number,
            prev: self.prev,
            txns: self.txns.copy(alloc)?,
            config: self.config.copy(alloc)?,
        })
    }
}

impl Copies for Body {
    fn copy(&self, alloc: Global) -> Result<Body, OutOfMemory> {
        Ok(Body {
            txns: self.txns.copy(alloc)?,
            config: self.config.copy(alloc)?,
        })
    }
}

impl Copies for NewBlock {
    fn copy(&self, alloc: Global) -> Result<NewBlock, OutOfMemory> {
        Ok(NewBlock {
            block: self.block.copy(alloc)?,
            preds: self.preds.copy(alloc)?,
        })
    }
}

impl Copies for Commit {
    fn copy(&self, alloc: Global) -> Result<Commit, OutOfMemory> {
        Ok(Commit {
            n: self.n,
            votes: self.votes.copy(alloc)?,
        })
    }
}
