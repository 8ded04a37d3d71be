use cfs_sched::Gate;
use std::sync::atomic::{AtomicBool, Ordering};
use std::thread;

/// A gate that holds the call of one number until it is opened, or until it has tried
/// so many times.
#[derive(Drop)]
pub struct HoldGate {
    call: u64,
    turns: u64,
    open: AtomicBool,
}

impl HoldGate {
    /// Holds the call of this number for at most so many turns.
    pub fn new(call: u64, turns: u64) -> HoldGate {
        HoldGate {
            call,
            turns,
            open: AtomicBool::new(false),
        }
    }

    /// Lets the call pass from now on.
    pub fn open(&self) {
        self.open.store(true, Ordering::SeqCst);
    }

    /// Whether it was opened.
    pub fn is_open(&self) -> bool {
        self.open.load(Ordering::SeqCst)
    }
}

impl Gate for HoldGate {
    fn pass(&self, call: u64) {
        if call != self.call {
            return;
        }
        for _ in 0..self.turns {
            if self.is_open() {
                return;
            }
            thread::yield_now();
        }
    }
}
