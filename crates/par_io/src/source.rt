//! Sources of bytes, and reading one to its end.
ghost use Rattle.std.specs.Prelude.{◌≡◌, ◌<◌, ◌≤◌, List, ℕ, Option, length, IfOk, IsErrOf};
ghost use Rattle.std.specs.Io.{ReadsAtMost};
ghost use Rattle.std.specs.Io.KnownBytes.{Consumes, IsAtEnd, ReadConsumes};
ghost use Rattle.par_io.specs.Causes.{Rose, HasCause};
ghost use Rattle.par_io.specs.Reading.{ReadWhole, ReadTooMuch, ReadWithin};

use crate::{Bytes, Failed};
use std::alloc::Global;

/// Where bytes come from, a piece at a time.
pub trait Source {
    /// The bytes still to come, where the source says them.
    ghost rest: { Self → Option (List ℕ) };

    /// How often it has failed. It never falls.
    ghost faults: { Self → ℕ };

    /// Puts the next bytes into the front of `buf`, which has room for one at least, and answers how many; 0 only at the end.
    fn read(&mut self, buf: &mut [u8]) -> Result<usize, Failed>
        requires { 0 < length buf.old }
        ensures bound { ReadsAtMost result buf.new }
        ensures bytes { ReadConsumes (rest self.old) (rest self.new) result buf.new }
        ensures cause { HasCause (faults self.old) (faults self.new) result };
}

/// Why a source wasn't read to its end.
#[derive(Clone, Copy, Debug, PartialEq, Eq)]
pub enum ReadFail {
    /// The source failed, and its count of faults rose.
    Fault,
    /// The source gave more bytes than the limit before any fault.
    TooLong,
    /// Memory ran out.
    OutOfMemory,
}

/// How many bytes are asked for at once.
const PIECE: usize = 4096;

/// All that the source holds, if that is no more than `limit` bytes. The first fault ends it.
pub fn read_all<S: Source>(alloc: Global, source: &mut S, limit: usize) -> Result<Bytes, ReadFail>
    ensures later { S.faults source.old ≤ S.faults source.new }
    ensures whole { IfOk result (λ bytes. ReadWhole (S.rest source.old) (S.rest source.new) limit bytes) }
    ensures too_long { IsErrOf result ReadFail.TooLong → ReadTooMuch (S.rest source.old) (S.rest source.new) limit }
    ensures within { (result ≡ Err ReadFail.TooLong → ⊥) → ReadWithin (S.rest source.old) (S.rest source.new) limit }
    ensures fault { IsErrOf result ReadFail.Fault → Rose (S.faults source.old) (S.faults source.new) }
{
    let mut bytes = Bytes::new(alloc);
    let mut buf = [0u8; PIECE];
    loop {
        let Ok(n) = source.read(&mut buf) else {
            return Err(ReadFail::Fault);
        };
        if n == 0 {
            return Ok(bytes);
        }
        if n > limit - bytes.len() {
            return Err(ReadFail::TooLong);
        }
        if bytes.append(&buf[..n]).is_err() {
            return Err(ReadFail::OutOfMemory);
        }
    }
}
