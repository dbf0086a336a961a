// What a gate is told, one call after another.

use std::sync::atomic::{AtomicBool, AtomicU64, Ordering};
use steal_pool::Gate;

/// A call of a gate, with the block and the position.
#[derive(Clone, Copy, PartialEq, Eq)]
pub enum Call {
    Begin(u64, u16),
    End(u64, u16),
}

/// A gate that counts its calls, and sees whether one isn't the next of a list.
#[derive(Drop)]
pub struct Listed<'a> {
    due: &'a [Call],
    count: AtomicU64,
    is_other: AtomicBool,
}

impl<'a> Listed<'a> {
    pub fn new(due: &'a [Call]) -> Listed<'a> {
        Listed {
            due,
            count: AtomicU64::new(0),
            is_other: AtomicBool::new(false),
        }
    }

    fn call(&self, call: Call) {
        let place = self.count.fetch_add(1, Ordering::SeqCst);
        if self.due.get(place as usize) != Some(&call) {
            self.is_other.store(true, Ordering::SeqCst);
        }
    }

    /// Whether its calls were those of the list, each once and in this order.
    pub fn is_as_due(&self) -> bool {
        self.count.load(Ordering::SeqCst) == self.due.len() as u64
            && !self.is_other.load(Ordering::SeqCst)
    }
}

impl<'a> Gate for Listed<'a> {
    fn begin(&self, n: u64, t: u16) {
        self.call(Call::Begin(n, t));
    }

    fn end(&self, n: u64, t: u16) {
        self.call(Call::End(n, t));
    }
}
