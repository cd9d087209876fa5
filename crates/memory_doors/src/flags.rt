//! Flags that threads share, and the gate that waits for one.

use road_io::Gate;
use std::sync::Arc;
use std::sync::atomic::{AtomicBool, Ordering};
use std::thread::yield_now;

/// A flag that threads share. Once it is set it stays so.
#[derive(Drop)]
pub struct Flag {
    word: AtomicBool,
}

impl Flag {
    /// A flag that is not set.
    pub fn new() -> Flag {
        Flag {
            word: AtomicBool::new(false),
        }
    }

    /// Sets it.
    pub fn set(&self) {
        self.word.store(true, Ordering::SeqCst);
    }

    /// Whether it was set.
    pub fn is_set(&self) -> bool {
        self.word.load(Ordering::SeqCst)
    }

    /// Waits for it, so many yielding turns at most, and says whether it was set.
    pub fn wait(&self, turns: u64) -> bool {
        for _ in 0..turns {
            if self.is_set() {
                return true;
            }
            yield_now();
        }
        self.is_set()
    }
}

/// A gate that holds the answers of one seat under one number: it tells by a flag that one has come, and lets
/// it go on once another flag is set, after so many yielding turns at most. It lets all others go on.
#[derive(Drop)]
pub struct FlagGate {
    seat: u32,
    number: u32,
    arrived: Arc<Flag>,
    wait: Arc<Flag>,
    turns: u64,
    late: Flag,
}

impl FlagGate {
    /// A gate for this seat under this number, which sets `arrived` and waits for `wait`.
    pub fn of(seat: u32, number: u32, arrived: Arc<Flag>, wait: Arc<Flag>, turns: u64) -> FlagGate {
        FlagGate {
            seat,
            number,
            arrived,
            wait,
            turns,
            late: Flag::new(),
        }
    }

    /// Whether a wait ended by its limit.
    pub fn is_late(&self) -> bool {
        self.late.is_set()
    }
}

impl Gate for FlagGate {
    fn pass(&self, seat: u32, number: u32) {
        if seat != self.seat || number != self.number {
            return;
        }
        self.arrived.set();
        if !self.wait.wait(self.turns) {
            self.late.set();
        }
    }
}
