//! Ends that wait for begins.

use std::sync::atomic::{AtomicBool, Ordering};
use txn_core::Gate;

const MOST_TURNS: u32 = 200_000_000;

/// A gate at which the end of each position waits until one of those in its list has begun, for so many turns at most.
#[derive(Drop)]
pub struct Meeting<'a> {
    awaited: &'a [&'a [u16]],
    begun: [AtomicBool; 4],
    has_given_up: AtomicBool,
}

impl<'a> Meeting<'a> {
    pub fn new(awaited: &'a [&'a [u16]]) -> Meeting<'a> {
        Meeting {
            awaited,
            begun: [
                AtomicBool::new(false),
                AtomicBool::new(false),
                AtomicBool::new(false),
                AtomicBool::new(false),
            ],
            has_given_up: AtomicBool::new(false),
        }
    }

    fn has_begun(&self, t: u16) -> bool {
        match self.begun.get(t as usize) {
            Some(begun) => begun.load(Ordering::SeqCst),
            None => false,
        }
    }

    /// Whether an end has waited in vain.
    pub fn has_given_up(&self) -> bool {
        self.has_given_up.load(Ordering::SeqCst)
    }
}

impl<'a> Gate for Meeting<'a> {
    fn begin(&self, _n: u64, t: u16) {
        if let Some(begun) = self.begun.get(t as usize) {
            begun.store(true, Ordering::SeqCst);
        }
    }

    fn end(&self, _n: u64, t: u16) {
        let Some(awaited) = self.awaited.get(t as usize) else {
            return;
        };
        for _ in 0..MOST_TURNS {
            if awaited.iter().any(|other| self.has_begun(*other)) {
                return;
            }
        }
        self.has_given_up.store(true, Ordering::SeqCst);
    }
}
