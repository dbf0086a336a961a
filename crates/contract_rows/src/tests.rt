//! What no clause says: that memory is there, and that texts come out as computed by hand.

mod calls;
mod canonical;
mod faults;
mod reading;

use std::alloc::{AllocError, Global};

/// What a text comes to: so many operations, or its first fault.
#[derive(Clone, Copy, Debug, PartialEq, Eq)]
enum Answer {
    Ops(usize),
    Syntax(u32),
    UnknownName(u32),
    Kind(u32),
    Limit(u32),
    Double(u32),
    NoMemory,
    TooLong,
}

/// The contract of small operations.
const STOCK: &str =
    "op set(r:record,n:number){r=n;}\nop pay(from:record,to:record,n:number){require from>=n;from=from-n;to=to+n;}\nop copy(from:record,to:record){to=from;}\nop maybe(r:record,n:number){if n>5{r=n;}}\nop inc(r:record){r=r+1;}\nop dec(r:record){r=r-1;}\nop div(r:record,n:number){r=r/n;}";

/// A text of a front, a piece so many times, and a back.
fn repeated(
    alloc: Global,
    front: &str,
    piece: &str,
    times: usize,
    back: &str,
) -> Result<Vec<u8>, AllocError> {
    let mut all = Vec::new(alloc);
    all.extend_from_slice(front.as_bytes())?;
    for _ in 0..times {
        all.extend_from_slice(piece.as_bytes())?;
    }
    all.extend_from_slice(back.as_bytes())?;
    Ok(all)
}
