// A gate at which two workers meet.

use std::sync::Wait;
use std::sync::atomic::{AtomicBool, Ordering};
use std::thread;
use steal_workers::Gate;

// So often a worker looks for the other one before it gives up.
const TRIES: u32 = 1_000_000;

/// A gate that lets the first worker with case 1 and the first with case 2 pass only once both have come, and everyone else at once. A worker that has
/// looked for the other one too often gives up, which is recorded.
#[derive(Drop)]
pub struct Meeting {
    first: AtomicBool,
    second: AtomicBool,
    gave_up: AtomicBool,
}

impl Meeting {
    /// A gate at which nobody has come.
    pub fn new() -> Meeting {
        Meeting {
            first: AtomicBool::new(false),
            second: AtomicBool::new(false),
            gave_up: AtomicBool::new(false),
        }
    }

    /// Whether both have come and neither gave up.
    pub fn met(&self) -> bool {
        let both = self.first.load(Ordering::SeqCst) && self.second.load(Ordering::SeqCst);
        both && !self.gave_up.load(Ordering::SeqCst)
    }

    // Marks that one has come, and where it is the first to do so, waits for the other.
    fn meet(&self, own: &AtomicBool, other: &AtomicBool) {
        if own.swap(true, Ordering::SeqCst) {
            return;
        }
        for _ in 0..TRIES {
            if other.load(Ordering::SeqCst) {
                return;
            }
            thread::yield_now();
        }
        self.gave_up.store(true, Ordering::SeqCst);
    }
}

impl Gate for Meeting {
    fn arrive<R: Wait>(&self, _rt: &R, _worker: u32, case: u64) {
        match case {
            1 => self.meet(&self.first, &self.second),
            2 => self.meet(&self.second, &self.first),
            _ => {}
        }
    }
}
