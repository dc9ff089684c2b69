//! Gates that let instances act at the same time.
use chart::InstanceNo;
use instances::Gate;
use std::sync::atomic::{AtomicU64, Ordering};
use std::thread;
use std::time::{Clock, Duration};

/// How often an instance looks for the others before it begins without them.
const PATIENCE: u32 = 10_000;

/// Holds back the first act of each instance until all instances have come to theirs, unless this takes too long. Now
/// and then it lets other threads run first.
#[derive(Drop)]
pub struct Together {
    instances: u64,
    here: AtomicU64,
}

impl Together {
    /// A gate for this number of instances.
    pub fn new(instances: usize) -> Together {
        Together {
            instances: instances as u64,
            here: AtomicU64::new(0),
        }
    }

    /// Waits until all instances are here. (If no thread can be made, the instances act one after the other.)
    fn wait_for_all(&self) {
        for _ in 0..PATIENCE {
            if self.instances <= self.here.load(Ordering::SeqCst) {
                return;
            }
            thread::yield_now();
        }
    }
}

impl Gate for Together {
    fn before(&self, p: InstanceNo, turn: u32) {
        if turn == 1 {
            self.here.fetch_add(1, Ordering::SeqCst);
            self.wait_for_all();
        } else if turn as usize % 8 == p.place() % 8 {
            thread::yield_now();
        }
    }
}

/// The number of turns between two rests of an instance.
const TURNS_TO_REST: u32 = 64;

/// The length of a rest, in milliseconds.
const REST: u64 = 4;

/// Lets other threads run first before each act, and rests now and then. A machine whose processors are busy may run
/// the others much later. An instance that only yields has spent its turns by then.
#[derive(Clone, Copy)]
pub struct OthersFirst<'a, R> {
    pub clock: &'a R,
}

impl<R: Clock> Gate for OthersFirst<'_, R> {
    fn before(&self, _p: InstanceNo, turn: u32) {
        if turn % TURNS_TO_REST == 0 {
            thread::sleep(self.clock, Duration::from_millis(REST));
        } else {
            thread::yield_now();
        }
    }
}
