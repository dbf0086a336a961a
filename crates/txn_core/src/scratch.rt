// The working space of a call.

ghost use Rattle.std.specs.Prelude.{◌≡◌, ℕ, ◌<◌, ◌≤◌, [], ◌∷◌, ◌++◌, length, take, map, slice_index, slice_set, MatchResult, IfSome, position, ◌==◌};
ghost use Rattle.std.specs.FinMap as map;
ghost use Rattle.oxii_defs.specs.Calls.{with_local, with_local_at, leave, fresh};
ghost use Rattle.oxii_defs.specs.Running.{write};
ghost use Rattle.txn_core.specs.Frames.{place};

use std::marker::Model;
use txn_types::{Reason, Recs, Writes};

/// Visible locals, and one value or none for each record of the write set.
#[derive(Drop)]
pub struct Scratch {
    locals: [u64; 32],
    depth: usize,
    writes: Recs,
    values: [Option<u64>; 16],
}

impl Model for Scratch {
    ghost use Rattle.std.specs.Prelude.{take};
    ghost use Rattle.oxii_defs.specs.Calls.{Frame};
    ghost use Rattle.txn_core.specs.Frames.{frame_code, written_of, IsSoundFrame};

    ghost Value = { Frame };

    ghost coded = { frame_code };

    ghost view = { λ s. record { writes = s.writes; locals = take s.depth s.locals; written = written_of s.writes s.values } };

    ghost invariant = { λ s. IsSoundFrame s.depth s.locals s.writes s.values };
}

impl Scratch {
    pub fn new() -> Scratch
        ensures { result ≡ fresh [] }
    {
        Scratch {
            locals: [0; 32],
            depth: 0,
            writes: Recs::empty(),
            values: [None; 16],
        }
    }

    /// A new call, which may write these records.
    pub fn begin(&mut self, writes: &Recs)
        ensures { self.new ≡ fresh writes.now }
    {
        let _known = writes.as_slice();
        self.depth = 0;
        self.writes = writes.copy();
        self.values = [None; 16];
    }

    pub fn depth(&self) -> usize
        ensures value { result ≡ length self.now.locals }
        ensures room { result ≤ 32 }
    {
        self.depth
    }

    pub fn local(&self, slot: u8) -> u64
        ensures { result ≡ slice_index self.now.locals slot }
    {
        let slot = slot as usize;
        if slot < self.depth {
            self.locals[slot]
        } else {
            0
        }
    }

    pub fn push_local(&mut self, value: u64)
        requires { length self.old.locals < 32 }
        ensures { self.new ≡ with_local self.old value }
    {
        self.locals[self.depth] = value;
        self.depth += 1;
    }

    pub fn set_local(&mut self, slot: u8, value: u64)
        requires { slot < length self.old.locals }
        ensures { self.new ≡ with_local_at self.old slot value }
    {
        self.locals[slot as usize] = value;
    }

    /// Forgets the locals past a depth.
    pub fn leave(&mut self, depth: usize)
        requires { depth ≤ length self.old.locals }
        ensures { self.new ≡ leave depth self.old }
    {
        self.depth = depth;
    }

    /// The value that this call wrote last.
    pub fn written(&self, number: u16) -> Option<u64>
        ensures { result ≡ map.get self.now.written number }
    {
        match place_of(self.writes.as_slice(), number) {
            Some(at) => self.values[at],
            None => None,
        }
    }

    /// What was written last at each of these records.
    pub fn writes(&self, records: &Recs) -> Writes
        ensures { result ≡ map (map.get self.now.written) records.now }
    {
        let mut all = Writes::empty();
        for number in records.as_slice() {
            all.add(self.written(*number));
        }
        all
    }

    pub fn write(&mut self, number: u16, value: u64) -> Result<(), Reason>
        ensures { MatchResult result (λ _. write number value self.old ≡ Ok self.new) (λ r. (write number value self.old ≡ Err r) × (self.new ≡ self.old)) }
    {
        match place_of(self.writes.as_slice(), number) {
            Some(at) => {
                self.values[at] = Some(value);
                Ok(())
            }
            None => Err(Reason::Undeclared),
        }
    }
}

/// The position of a record in a list.
pub fn place_of(records: &[u16], number: u16) -> Option<usize>
    ensures place { result ≡ place records.now number }
    ensures within { IfSome result (λ at. at < length records.now) }
{
    first_of(records, number)
}

fn first_of(records: &[u16], number: u16) -> Option<usize>
    ensures place { result ≡ position (λ q. number == q) records.now }
    ensures within { IfSome result (λ at. at < length records.now) }
{
    records.iter().position(|q| number == *q)
}
