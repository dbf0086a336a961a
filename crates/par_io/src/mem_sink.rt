//! A sink over memory, which fails in the listed calls and where its room is passed.
ghost use Rattle.std.specs.Prelude.{◌≡◌, ◌<◌, ◌≤◌, List, ℕ, Option, Some, length, IfOk};
ghost use Rattle.std.specs.Io.{WritesAtMost};
ghost use Rattle.std.specs.Io.KnownBytes.{WriteAppends};
ghost use Rattle.par_io.specs.Causes.{HasCause};
ghost use Rattle.par_io.specs.Memory.{new_sink, TakesWrite};

use crate::failing::is_listed;
use crate::{Failed, OutOfMemory, Sink};
use std::alloc::Global;
use std::marker::Model;

/// A sink over memory, all of which it takes when it is made. Contracts see what was written, its settings and its counts.
#[derive(Drop)]
pub struct MemSink<'a> {
    items: Vec<u8>,
    piece: usize,
    room: usize,
    failing: &'a [u32],
    calls: u64,
    faults: u64,
}

impl<'a> Model for MemSink<'a> {
    ghost use Rattle.std.specs.Prelude.{◌≤◌, vec_len, vec_capacity};
    ghost use Rattle.par_io.specs.Memory.{MemoryTo};

    ghost Value = { MemoryTo };

    ghost view = { λ s. record { written = s.items.items; piece = s.piece; room = s.room; failing = s.failing.now; calls = s.calls; faults = s.faults } };

    ghost invariant = { λ s. (vec_len s.items ≤ s.room) × (s.room ≤ vec_capacity s.items) };
}

impl<'a> MemSink<'a> {
    /// Takes at most `piece` bytes a call and `room` bytes in all, and fails in the calls whose numbers, from 1, are listed.
    pub fn new(
        alloc: Global,
        piece: usize,
        room: usize,
        failing: &'a [u32],
    ) -> Result<Self, OutOfMemory>
        ensures { IfOk result (λ sink. sink ≡ new_sink piece room failing.entry.now) }
    {
        Ok(MemSink {
            items: Vec::with_capacity(alloc, room)?,
            piece,
            room,
            failing,
            calls: 0,
            faults: 0,
        })
    }

    /// What was written.
    pub fn bytes(&self) -> &[u8]
        ensures { result.now ≡ self.now.written }
    {
        self.items.as_slice()
    }
}

impl<'a> Sink for MemSink<'a> {
    ghost written = { λ s. Some s.written };

    ghost faults = { λ s. s.faults };

    fn write(&mut self, piece: &[u8]) -> Result<usize, Failed>
        ensures bound { WritesAtMost result piece.now }
        ensures moves { 0 < length piece.now → IfOk result (λ n. 0 < n) }
        ensures bytes { WriteAppends (Some self.old.written) (Some self.new.written) result piece.now }
        ensures cause { HasCause self.old.faults self.new.faults result }

        // It fails exactly in a listed call, where the room is passed, and where it may take nothing of a byte.
        ensures call { TakesWrite self.old self.new (length piece.now) result }
    {
        self.calls = self.calls.saturating_add(1);
        let count = piece.len().min(self.piece);
        if is_listed(self.failing, self.calls)
            || count > self.room - self.items.len()
            || (count == 0 && !piece.is_empty())
        {
            self.faults = self.faults.saturating_add(1);
            return Err(Failed);
        }
        self.items.extend_from_slice(&piece[..count]).unwrap();
        Ok(count)
    }
}
