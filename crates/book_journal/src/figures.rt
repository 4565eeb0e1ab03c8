//! What a journal says of itself while it works.

use std::sync::atomic::{AtomicBool, AtomicU64, Ordering};
use std::time::{Clock, Instant};

/// What a journal has written, for the threads that watch it. Each number is read by itself.
#[derive(Drop)]
pub struct StoreFigures {
    steps: AtomicU64,
    commits: AtomicU64,
    changes: AtomicU64,
    micros: AtomicU64,
    longest: AtomicU64,
    has_no_room: AtomicBool,
    gives_up: AtomicBool,
}

/// The figures of a journal at a moment.
#[derive(Clone, Copy, Debug, PartialEq, Eq)]
pub struct StoreReport {
    /// How many steps were begun. Also where there is nothing to write, some fifty are each second.
    pub steps: u64,
    /// How many commits were made.
    pub commits: u64,
    /// How many changes were written with them.
    pub changes: u64,
    /// How long all commits took, in microseconds.
    pub micros: u64,
    /// How long the longest of them took, in microseconds.
    pub longest: u64,
    /// Whether the disk had no room at the last step, so that nothing is acknowledged until it has.
    pub has_no_room: bool,
}

/// The microseconds since a moment; 0 where the clock can't be read.
fn micros_since<H: Clock>(rt: &H, began: Option<Instant>) -> u64 {
    let Some(began) = began else {
        return 0;
    };
    match began.elapsed(rt) {
        Ok(since) => u64::try_from(since.as_micros()).unwrap_or(0),
        Err(_) => 0,
    }
}

impl StoreFigures {
    /// Nothing is written yet.
    pub fn new() -> StoreFigures {
        StoreFigures {
            steps: AtomicU64::new(0),
            commits: AtomicU64::new(0),
            changes: AtomicU64::new(0),
            micros: AtomicU64::new(0),
            longest: AtomicU64::new(0),
            has_no_room: AtomicBool::new(false),
            gives_up: AtomicBool::new(false),
        }
    }

    /// What the journal has written until now.
    pub fn report(&self) -> StoreReport {
        StoreReport {
            steps: self.steps.load(Ordering::SeqCst),
            commits: self.commits.load(Ordering::SeqCst),
            changes: self.changes.load(Ordering::SeqCst),
            micros: self.micros.load(Ordering::SeqCst),
            longest: self.longest.load(Ordering::SeqCst),
            has_no_room: self.has_no_room.load(Ordering::SeqCst),
        }
    }

    /// Notes that the service ends, so that a journal without room waits for none.
    pub fn give_up(&self) {
        self.gives_up.store(true, Ordering::SeqCst);
    }

    /// Whether a journal without room waits for some no more.
    pub(crate) fn gives_up(&self) -> bool {
        self.gives_up.load(Ordering::SeqCst)
    }

    /// Notes that a step begins.
    pub(crate) fn note_step(&self) {
        self.steps.fetch_add(1, Ordering::SeqCst);
    }

    /// Notes whether the disk had room.
    pub(crate) fn note_room(&self, has_room: bool) {
        self.has_no_room.store(!has_room, Ordering::SeqCst);
    }

    /// Notes a commit of this many changes, whose step began at this moment.
    pub(crate) fn note_commit<H: Clock>(&self, rt: &H, changes: usize, began: Option<Instant>) {
        let micros = micros_since(rt, began);
        self.commits.fetch_add(1, Ordering::SeqCst);
        self.changes.fetch_add(changes as u64, Ordering::SeqCst);
        self.micros.fetch_add(micros, Ordering::SeqCst);
        if micros > self.longest.load(Ordering::SeqCst) {
            self.longest.store(micros, Ordering::SeqCst);
        }
        self.note_room(true);
    }
}
