//! Which records repeat one that was shown a short while ago.

ghost use Rattle.std.specs.Prelude.{◌≡◌, ◌-◌, nat_lt, not};
ghost use Rattle.engine_journal.specs.inner.Repeating.{has_room, has_stale, hides, is_hidden, is_known, is_quiet, is_repetition, is_stale, is_too_soon};

use crate::text::Part;
use std::alloc::{AllocError, Global};

/// How many seconds after a record was shown others of its kind are counted and not shown.
pub const QUIET_SECONDS: u64 = 60;

/// The most kinds of records that are distinguished within a minute. Records of further kinds are all of one more kind.
pub const KINDS_MAX: usize = 64;

/// What the records say for which no kind is left, as their number is written.
const FURTHER: &str = "WARN records of further kinds";

/// The records of one kind: those with one text, at one channel, destination or peer.
#[derive(Clone, Copy)]
pub struct Kind {
    key: u64,
    /// When one of them, or the number of those not shown, was last written, in seconds of the monotonic clock.
    since: u64,
    /// How many were logged since then and not shown.
    hidden: u64,
    /// What all of them say.
    head: Part,
    /// The control id of the first of those not shown, and of the last.
    first: Part,
    last: Part,
}

impl Kind {
    /// Whether one of its records, or the number of those not shown, was written less than a minute ago.
    fn is_quiet(&self, now: u64) -> bool
        ensures { result ≡ is_quiet now self.now }
    {
        now.saturating_sub(self.since) < QUIET_SECONDS
    }

    /// Whether its entry may be given to another kind: nothing of it was written in the last minute, and none is hidden.
    fn is_stale(&self, now: u64) -> bool
        ensures { result ≡ is_stale now self.now }
    {
        self.hidden == 0 && !self.is_quiet(now)
    }

    /// Whether a record with this key is one of its kind and comes too soon.
    fn hides(&self, key: u64, now: u64) -> bool
        ensures { result ≡ hides key now self.now }
    {
        self.key == key && self.is_quiet(now)
    }

    /// Whether it is time to say how many were not shown.
    fn is_due(&self, now: u64, at_the_end: bool) -> bool {
        self.hidden > 0 && (at_the_end || !self.is_quiet(now))
    }

    /// Counts one of its records that is not shown.
    fn hide(&mut self, control_id: Part) {
        if self.hidden == 0 {
            self.first = control_id;
        }
        self.last = control_id;
        self.hidden = self.hidden.saturating_add(1);
    }

    /// A kind of which a record is shown now.
    fn shown_now(key: u64, now: u64, head: Part) -> Kind {
        Kind {
            key,
            since: now,
            hidden: 0,
            head,
            first: Part::of(""),
            last: Part::of(""),
        }
    }

    /// How many of its records were not shown, which is written now.
    fn summary(&mut self, now: u64) -> Summary {
        let summary = Summary {
            head: self.head,
            hidden: self.hidden,
            first: self.first,
            last: self.last,
        };
        self.hidden = 0;
        self.since = now;
        summary
    }
}

/// How many records of a kind were not shown, and what they said.
#[derive(Clone, Copy)]
pub struct Summary {
    pub head: Part,
    pub hidden: u64,
    pub first: Part,
    pub last: Part,
}

/// The kinds of the records that were shown a short while ago.
#[derive(Drop)]
pub struct Repeats {
    kinds: Vec<Kind>,
    /// The records for which no kind was left, where there were some.
    further: Option<Kind>,
}

impl Repeats {
    /// A table in which no record was shown yet. All memory that it will need is requested here.
    ///
    /// # Errors
    ///
    /// Where memory is refused.
    pub fn new(alloc: Global) -> Result<Self, AllocError> {
        Ok(Repeats {
            kinds: Vec::with_capacity(alloc, KINDS_MAX)?,
            further: None,
        })
    }

    /// Whether the table has an entry for a kind.
    fn is_known(&self, key: u64) -> bool
        ensures { result ≡ is_known key self.now.kinds.items }
    {
        self.kinds.iter().any(|kind| kind.key == key)
    }

    /// Whether an entry may be given to another kind.
    fn has_stale(&self, now: u64) -> bool
        ensures { result ≡ has_stale now self.now.kinds.items }
    {
        self.kinds.iter().any(|kind| kind.is_stale(now))
    }

    /// Whether a kind that has no entry gets one now.
    fn has_room(&self, now: u64) -> bool
        ensures { result ≡ has_room now self.now.kinds.items }
    {
        self.kinds.len() < KINDS_MAX || self.has_stale(now)
    }

    /// Enters a kind of which a record is shown now, where there is room.
    fn remember(&mut self, kind: Kind) {
        if self.kinds.len() < KINDS_MAX {
            let _ = self.kinds.push(kind);
            return;
        }
        for known in &mut self.kinds {
            if known.is_stale(kind.since) {
                *known = kind;
                return;
            }
        }
    }

    /// Whether a record repeats one that was shown less than a minute ago.
    fn is_repetition(&self, key: u64, now: u64) -> bool
        ensures { result ≡ is_repetition key now self.now.kinds.items }
    {
        self.kinds.iter().any(|kind| kind.hides(key, now))
    }

    /// Counts a record that is not shown.
    fn hide(&mut self, key: u64, now: u64, control_id: Part) {
        for kind in &mut self.kinds {
            if kind.hides(key, now) {
                kind.hide(control_id);
                return;
            }
        }
    }

    /// Notes that a record is shown now.
    fn note_shown(&mut self, key: u64, now: u64, head: &Part) {
        for kind in &mut self.kinds {
            if kind.key == key {
                kind.since = now;
                return;
            }
        }
        self.remember(Kind::shown_now(key, now, *head));
    }

    /// Whether a record is shown for which no kind is left: one in a minute is.
    fn shows_further(&mut self, now: u64, control_id: Part) -> bool
        ensures { result ≡ not (is_too_soon now self.old.further) }
    {
        match &mut self.further {
            Some(kind) if kind.is_quiet(now) => {
                kind.hide(control_id);
                false
            }
            Some(kind) => {
                kind.since = now;
                true
            }
            None => {
                self.further = Some(Kind::shown_now(0, now, Part::of(FURTHER)));
                true
            }
        }
    }

    /// Whether a record is shown. One that repeats a record shown less than a minute ago is counted and not shown, and so is one
    /// for which no kind is left where another such one was shown less than a minute ago. Every other one is shown. `now` is in
    /// seconds of the monotonic clock.
    pub fn shows(&mut self, key: u64, now: u64, head: &Part, control_id: Part) -> bool
        ensures { result ≡ not (is_hidden key now self.old.kinds.items self.old.further) }
    {
        if self.is_repetition(key, now) {
            self.hide(key, now, control_id);
            return false;
        }
        if self.is_known(key) || self.has_room(now) {
            self.note_shown(key, now, head);
            return true;
        }
        self.shows_further(now, control_id)
    }

    /// The next kind of which it is time to say how many were not shown; at the end, each of which some were not.
    pub fn due(&mut self, now: u64, at_the_end: bool) -> Option<Summary> {
        for kind in &mut self.kinds {
            if kind.is_due(now, at_the_end) {
                return Some(kind.summary(now));
            }
        }
        match &mut self.further {
            Some(kind) if kind.is_due(now, at_the_end) => Some(kind.summary(now)),
            _ => None,
        }
    }
}
