//! What is seen of a service over time, by a look each second: since when a message is first in its queue, how far a queue is
//! behind, and when a count that alert rules watch was last seen to rise.

ghost use Rattle.std.specs.Prelude.{◌≡◌};
ghost use Rattle.service_pages.specs.inner.Attention.{failed_at, is_recent};

use book_lock::Status;
use service_answers::{Figures, StoreNumbers, Unbooked};
use stat_count::{CHANNELS, DESTINATIONS};

/// For how many seconds the rise of a count needs attention: as long as the alert rules look back.
const RECENT_SECONDS: u64 = 900;

/// How many microseconds a commit takes where a store is slow.
const SLOW_MICROS: u64 = 100_000;

/// A count that only rises.
#[derive(Clone, Copy, Debug, PartialEq, Eq)]
pub struct Rising {
    /// The count; none before the first look.
    count: Option<u64>,
    /// When the count was last seen to rise, in seconds since 1970; 0: never.
    pub at: u64,
}

impl Rising {
    /// A count that was not looked at yet.
    fn new() -> Self {
        Rising { count: None, at: 0 }
    }

    /// Notes the count at a moment in seconds since 1970.
    fn look(&mut self, count: u64, now: u64) {
        if let Some(before) = self.count
            && count > before
        {
            self.at = now;
        }
        self.count = Some(count);
    }

    /// Whether the count was seen to rise within the last 15 minutes before a moment in seconds since 1970.
    pub fn is_recent(&self, now: u64) -> bool
        ensures { result ≡ is_recent self.entry.now now }
    {
        self.at > 0 && now.saturating_sub(self.at) < RECENT_SECONDS
    }
}

/// How far a queue is behind.
#[derive(Clone, Copy, Debug, PartialEq, Eq)]
struct Behind {
    /// The number of the next message of the book at the moment `since`.
    next: u32,
    /// Since when a message that had been received then is in the queue, in seconds since 1970.
    since: u64,
}

impl Behind {
    /// Notes which message is first in the queue, and the number of the next message of the book, at a moment in seconds since 1970.
    fn look(&mut self, front: Option<u32>, next: u32, now: u64) {
        let is_behind = match front {
            Some(front) => front < self.next,
            None => false,
        };
        if !is_behind {
            *self = Behind { next, since: now };
        }
    }
}

/// What was seen of a destination.
#[derive(Clone, Copy, Debug, PartialEq, Eq)]
struct Noticed {
    /// The message that is first in its queue.
    front: Option<u32>,
    /// When that was first seen there, in seconds since 1970.
    since: u64,
    /// How far the queue is behind.
    behind: Behind,
    /// How many messages have failed.
    failed: Rising,
}

impl Noticed {
    /// Notes which message is first in the queue, the number of the book's next message, and how many have failed, at a moment in
    /// seconds since 1970.
    fn look(&mut self, front: Option<u32>, next: u32, failed: u64, now: u64) {
        self.failed.look(failed, now);
        self.behind.look(front, next, now);
        if front != self.front {
            self.front = front;
            self.since = now;
        }
    }
}

/// What was seen of the commits of a store.
#[derive(Clone, Copy, Debug, PartialEq, Eq)]
struct Commits {
    /// How many there were.
    count: u64,
    /// How long all of them took, in microseconds.
    micros: u64,
    /// When those since the look before took more than 0.1 seconds in the mean: in seconds since 1970; 0: never.
    slow: Rising,
    /// How often that was so.
    slow_looks: u64,
}

impl Commits {
    /// Notes the numbers of a store at a moment in seconds since 1970.
    fn look(&mut self, store: &StoreNumbers, now: u64) {
        let commits = store.commits.saturating_sub(self.count);
        let micros = store.micros.saturating_sub(self.micros);
        if micros.checked_div(commits).unwrap_or(0) > SLOW_MICROS {
            self.slow_looks = self.slow_looks.saturating_add(1);
        }
        self.slow.look(self.slow_looks, now);
        self.count = store.commits;
        self.micros = store.micros;
    }
}

/// What was seen of a service.
#[derive(Clone, Copy, Debug, PartialEq, Eq)]
pub struct Watch {
    noticed: [Noticed; DESTINATIONS as usize],
    /// How many messages of each channel were refused by their content.
    pub refused: [Rising; CHANNELS as usize],
    /// How many messages were not booked.
    pub unbooked: Rising,
    /// How many blocks were dropped, acknowledgments aside.
    pub dropped: Rising,
    commits: Commits,
}

impl Watch {
    /// A watch that has seen nothing yet.
    pub fn new() -> Self {
        let nothing = Noticed {
            front: None,
            since: 0,
            behind: Behind { next: 0, since: 0 },
            failed: Rising::new(),
        };
        let commits = Commits {
            count: 0,
            micros: 0,
            slow: Rising::new(),
            slow_looks: 0,
        };
        Watch {
            noticed: [nothing; DESTINATIONS as usize],
            refused: [Rising::new(); CHANNELS as usize],
            unbooked: Rising::new(),
            dropped: Rising::new(),
            commits,
        }
    }

    /// Notes what is new in a status and in the figures of its moment.
    pub fn look(&mut self, status: &Status, figures: &Figures) {
        self.look_at_destinations(status, figures.now);
        self.look_at_channels(status, figures);
        if let Some(store) = &figures.store {
            self.commits.look(store, figures.now);
        }
    }

    /// Notes what is new of the destinations, at a moment in seconds since 1970.
    fn look_at_destinations(&mut self, status: &Status, now: u64) {
        for index in 0..DESTINATIONS {
            let failed = status.counts.destination(index).failed;
            let front = match status.fronts.get(index as usize) {
                Some(Some(front)) => Some(front.number),
                _ => None,
            };
            if let Some(noticed) = self.noticed.get_mut(index as usize) {
                noticed.look(front, status.gauge.messages, failed, now);
            }
        }
    }

    /// Notes what is new of the messages that channels refused, and of the blocks that were not booked or dropped.
    fn look_at_channels(&mut self, status: &Status, figures: &Figures) {
        for index in 0..CHANNELS {
            if let Some(refused) = self.refused.get_mut(index as usize) {
                refused.look(status.counts.channel(index).refused, figures.now);
            }
        }
        let Unbooked {
            full,
            plan_changed,
            no_memory,
        } = figures.unbooked;
        let unbooked = full.saturating_add(plan_changed).saturating_add(no_memory);
        self.unbooked.look(unbooked, figures.now);
        let dropped = figures
            .dropped
            .unreadable
            .saturating_add(figures.dropped.broken);
        self.dropped.look(dropped, figures.now);
    }

    /// When the message that is first in a destination's queue was first seen so, in seconds since 1970; 0 where the queue is empty.
    pub fn since(&self, destination: u32) -> u64 {
        match self.noticed.get(destination as usize) {
            Some(noticed) if noticed.front.is_some() => noticed.since,
            _ => 0,
        }
    }

    /// Since when a message that had been received then is in a destination's queue, in seconds since 1970; 0 where the queue is empty.
    pub fn behind_since(&self, destination: u32) -> u64 {
        match self.noticed.get(destination as usize) {
            Some(noticed) if noticed.front.is_some() => noticed.behind.since,
            _ => 0,
        }
    }

    /// When the number of messages that failed at a destination was last seen to rise, in seconds since 1970; 0: never.
    pub fn failed_at(&self, destination: u32) -> u64
        ensures { result ≡ failed_at self.entry.now destination }
    {
        match self.noticed.get(destination as usize) {
            Some(noticed) => noticed.failed.at,
            None => 0,
        }
    }

    /// Whether commits of the store were seen to take more than 0.1 seconds in the mean, within the last 15 minutes before a moment in
    /// seconds since 1970.
    pub fn has_slow_store(&self, now: u64) -> bool {
        self.commits.slow.is_recent(now)
    }
}
