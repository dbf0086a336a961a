//! A source over memory, which fails in the listed calls.
ghost use Rattle.std.specs.Prelude.{◌≡◌, ◌<◌, ◌≤◌, List, ℕ, Option, Some, length};
ghost use Rattle.std.specs.Io.{ReadsAtMost};
ghost use Rattle.std.specs.Io.KnownBytes.{ReadConsumes};
ghost use Rattle.par_io.specs.Causes.{HasCause};
ghost use Rattle.par_io.specs.Memory.{new_source, TakesRead};

use crate::failing::is_listed;
use crate::{Failed, Source};
use std::marker::Model;

/// A source over memory. Contracts see what is left, its settings and its counts.
#[derive(Drop)]
pub struct MemSource<'a> {
    rest: &'a [u8],
    piece: usize,
    failing: &'a [u32],
    calls: u64,
    faults: u64,
}

impl<'a> Model for MemSource<'a> {
    ghost use Rattle.std.specs.Prelude.{◌≤◌};
    ghost use Rattle.par_io.specs.Memory.{MemoryFrom};

    ghost Value = { MemoryFrom };

    ghost view = { λ s. record { rest = s.rest.now; piece = s.piece; failing = s.failing.now; calls = s.calls; faults = s.faults } };

    ghost invariant = { λ s. 1 ≤ s.piece };
}

impl<'a> MemSource<'a> {
    /// Gives at most `piece` bytes a call, at least 1, and fails in the calls whose numbers, from 1, are listed.
    pub fn new(bytes: &'a [u8], piece: usize, failing: &'a [u32]) -> Self
        requires { 1 ≤ piece }
        ensures { result ≡ new_source bytes.entry.now piece failing.entry.now }
    {
        MemSource {
            rest: bytes,
            piece,
            failing,
            calls: 0,
            faults: 0,
        }
    }
}

impl<'a> Source for MemSource<'a> {
    ghost rest = { λ s. Some s.rest };

    ghost faults = { λ s. s.faults };

    fn read(&mut self, buf: &mut [u8]) -> Result<usize, Failed>
        requires { 0 < length buf.old }
        ensures bound { ReadsAtMost result buf.new }
        ensures bytes { ReadConsumes (Some self.old.rest) (Some self.new.rest) result buf.new }
        ensures cause { HasCause self.old.faults self.new.faults result }

        // It fails exactly in a listed call, and else gives all that fits.
        ensures call { TakesRead self.old self.new (length buf.new) result }
    {
        self.calls = self.calls.saturating_add(1);
        if is_listed(self.failing, self.calls) {
            self.faults = self.faults.saturating_add(1);
            return Err(Failed);
        }
        let count = self.rest.len().min(self.piece).min(buf.len());
        buf[..count].copy_from_slice(&self.rest[..count]);
        self.rest = &self.rest[count..];
        Ok(count)
    }
}
