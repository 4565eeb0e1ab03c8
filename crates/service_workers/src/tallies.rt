//! What the workers of a service count.

ghost use Rattle.std.specs.Prelude.{◌≡◌, ◌+◌, ◌-◌, ◌^◌, min};

use book_core::NotBooked;
use fixed_numbers::{CHANNELS, DESTINATIONS};
use std::array;
use std::sync::atomic::{AtomicU64, Ordering};

/// How many messages were answered that they are not booked, by cause.
#[derive(Clone, Copy, Debug, PartialEq, Eq)]
pub struct Unbooked {
    /// The book was full.
    pub full: u64,
    /// The plan changed between judging and booking.
    pub plan_changed: u64,
    /// Memory was refused.
    pub no_memory: u64,
}

impl Unbooked {
    /// How many there were of all causes, up to the greatest count.
    pub fn total(self) -> u64
        ensures { result ≡ min (self.full + self.plan_changed + self.no_memory) (2 ^ 64 - 1) }
    {
        self.full
            .saturating_add(self.plan_changed)
            .saturating_add(self.no_memory)
    }
}

/// How many blocks were dropped without an answer, by cause.
#[derive(Clone, Copy, Debug, PartialEq, Eq)]
pub struct Dropped {
    /// The block was no message: it has no header that can be read, or another segment is at fault.
    pub unreadable: u64,
    /// The block was an acknowledgment, which nothing waits for.
    pub acknowledgments: u64,
    /// The block was broken by its framing.
    pub broken: u64,
}

/// The counters of a service since it started. Each is read and written by itself.
#[derive(Drop)]
pub struct Tallies {
    full: AtomicU64,
    plan_changed: AtomicU64,
    no_memory: AtomicU64,
    repeats_unbooked: AtomicU64,
    unreadable: AtomicU64,
    acknowledgments: AtomicU64,
    broken: AtomicU64,
    refused: AtomicU64,
    cut: AtomicU64,
    /// How many connections of each channel are open, by index.
    open: [AtomicU64; CHANNELS as usize],
    /// How many connections of each channel can be served at once, by index.
    places: [AtomicU64; CHANNELS as usize],
    /// When the last message of each channel was accepted or filtered, by index, in seconds since 1970; 0 where none was.
    received: [AtomicU64; CHANNELS as usize],
    /// When the last message was delivered to each destination, by index, in seconds since 1970; 0 where none was.
    delivered: [AtomicU64; DESTINATIONS as usize],
    /// How many messages were sent to each destination a second time within one attempt, by index.
    sent_again: [AtomicU64; DESTINATIONS as usize],
}

/// The value of a counter of these, or 0 where there is none at this index.
fn value_at(counters: &[AtomicU64], index: u32) -> u64 {
    match counters.get(index as usize) {
        Some(counter) => counter.load(Ordering::SeqCst),
        None => 0,
    }
}

/// Sets the counter at an index of these, if there is one.
fn set_at(counters: &[AtomicU64], index: u32, value: u64) {
    if let Some(counter) = counters.get(index as usize) {
        counter.store(value, Ordering::SeqCst);
    }
}

/// Adds one to the counter at an index of these, if there is one.
fn raise_at(counters: &[AtomicU64], index: u32) {
    if let Some(counter) = counters.get(index as usize) {
        counter.fetch_add(1, Ordering::SeqCst);
    }
}

/// Takes one from the counter at an index of these, if there is one.
fn lower_at(counters: &[AtomicU64], index: u32) {
    if let Some(counter) = counters.get(index as usize) {
        counter.fetch_sub(1, Ordering::SeqCst);
    }
}

impl Tallies {
    /// The counters of a service that has done nothing yet.
    pub fn new() -> Self {
        Tallies {
            full: AtomicU64::new(0),
            plan_changed: AtomicU64::new(0),
            no_memory: AtomicU64::new(0),
            repeats_unbooked: AtomicU64::new(0),
            unreadable: AtomicU64::new(0),
            acknowledgments: AtomicU64::new(0),
            broken: AtomicU64::new(0),
            refused: AtomicU64::new(0),
            cut: AtomicU64::new(0),
            open: array::from_fn(|_| AtomicU64::new(0)),
            places: array::from_fn(|_| AtomicU64::new(0)),
            received: array::from_fn(|_| AtomicU64::new(0)),
            delivered: array::from_fn(|_| AtomicU64::new(0)),
            sent_again: array::from_fn(|_| AtomicU64::new(0)),
        }
    }

    /// Counts a message that was not booked.
    pub fn count_unbooked(&self, cause: NotBooked) {
        let counter = match cause {
            NotBooked::Full => &self.full,
            NotBooked::PlanChanged => &self.plan_changed,
            NotBooked::NoMemory => &self.no_memory,
        };
        counter.fetch_add(1, Ordering::SeqCst);
    }

    /// How many messages were not booked, by cause.
    pub fn unbooked(&self) -> Unbooked {
        Unbooked {
            full: self.full.load(Ordering::SeqCst),
            plan_changed: self.plan_changed.load(Ordering::SeqCst),
            no_memory: self.no_memory.load(Ordering::SeqCst),
        }
    }

    /// Counts a message that was answered as a repeat without being booked.
    pub fn count_repeat_unbooked(&self) {
        self.repeats_unbooked.fetch_add(1, Ordering::SeqCst);
    }

    /// How many messages were answered as repeats without being booked.
    pub fn repeats_unbooked(&self) -> u64 {
        self.repeats_unbooked.load(Ordering::SeqCst)
    }

    /// Counts a block that was no message.
    pub fn count_unreadable(&self) {
        self.unreadable.fetch_add(1, Ordering::SeqCst);
    }

    /// Counts an acknowledgment that was received.
    pub fn count_acknowledgment(&self) {
        self.acknowledgments.fetch_add(1, Ordering::SeqCst);
    }

    /// Counts a block that was broken by its framing.
    pub fn count_broken(&self) {
        self.broken.fetch_add(1, Ordering::SeqCst);
    }

    /// How many blocks were dropped without an answer, by cause.
    pub fn dropped(&self) -> Dropped {
        Dropped {
            unreadable: self.unreadable.load(Ordering::SeqCst),
            acknowledgments: self.acknowledgments.load(Ordering::SeqCst),
            broken: self.broken.load(Ordering::SeqCst),
        }
    }

    /// Counts a connection that was closed because no number was left for it or memory was refused.
    pub fn count_refused(&self) {
        self.refused.fetch_add(1, Ordering::SeqCst);
    }

    /// How many connections were closed because no number was left for them or memory was refused.
    pub fn refused(&self) -> u64 {
        self.refused.load(Ordering::SeqCst)
    }

    /// Counts a message that failed since its last attempt was cut off by the stop.
    pub fn count_cut(&self) {
        self.cut.fetch_add(1, Ordering::SeqCst);
    }

    /// How many messages failed since their last attempt was cut off by the stop.
    pub fn cut(&self) -> u64 {
        self.cut.load(Ordering::SeqCst)
    }

    /// Counts a connection of a channel that was opened.
    pub fn count_opened(&self, channel: u32) {
        raise_at(&self.open, channel);
    }

    /// Counts a connection of a channel that ended.
    pub fn count_ended(&self, channel: u32) {
        lower_at(&self.open, channel);
    }

    /// How many connections of a channel are open.
    pub fn open(&self, channel: u32) -> u64 {
        value_at(&self.open, channel)
    }

    /// Counts a connection that a channel can serve beside its others.
    pub fn count_place(&self, channel: u32) {
        raise_at(&self.places, channel);
    }

    /// Counts one connection less that a channel can serve.
    pub fn lose_place(&self, channel: u32) {
        lower_at(&self.places, channel);
    }

    /// How many connections a channel can serve at once.
    pub fn places(&self, channel: u32) -> u64 {
        value_at(&self.places, channel)
    }

    /// Counts a message that was sent to a destination a second time within one attempt.
    pub fn count_sent_again(&self, destination: u32) {
        if let Some(counter) = self.sent_again.get(destination as usize) {
            counter.fetch_add(1, Ordering::SeqCst);
        }
    }

    /// How many messages were sent to a destination a second time within one attempt.
    pub fn sent_again(&self, destination: u32) -> u64 {
        value_at(&self.sent_again, destination)
    }

    /// Notes when a message was received on a channel.
    pub fn note_received(&self, channel: u32, seconds: u64) {
        set_at(&self.received, channel, seconds);
    }

    /// When the last message was received on a channel, in seconds since 1970; 0 where none was.
    pub fn received(&self, channel: u32) -> u64 {
        value_at(&self.received, channel)
    }

    /// Notes when a message was delivered at a destination.
    pub fn note_delivered(&self, destination: u32, seconds: u64) {
        set_at(&self.delivered, destination, seconds);
    }

    /// When the last message was delivered at a destination, in seconds since 1970; 0 where none was.
    pub fn delivered(&self, destination: u32) -> u64 {
        value_at(&self.delivered, destination)
    }
}
