//! How long searches may take.

ghost use Rattle.std.specs.Prelude.{◌≡◌, ◌≤◌, ◌+◌, ◌-◌, ◌/◌, min, nat_lt};

/// How long searches may take together, in milliseconds: as long at once, and then a tenth of the time that passes.
const SEARCH_MILLIS: u64 = 200;

/// The part of the time that passes in which searches may be made.
const SEARCH_PART: u64 = 10;

/// How long searches may still take.
#[derive(Clone, Copy, Debug, PartialEq, Eq)]
pub struct Credit {
    /// How long they may take, in milliseconds, by what had passed at `counted`.
    left: u64,
    /// When it was counted, in milliseconds of the monotonic clock.
    counted: u64,
}

impl Credit {
    /// All that searches may have, at a moment in milliseconds of the monotonic clock.
    pub fn new(now: u64) -> Self
        ensures left { result.left ≡ 200 }
        ensures counted { result.counted ≡ now }
    {
        Credit {
            left: SEARCH_MILLIS,
            counted: now,
        }
    }

    /// Adds what the time since the last count gives. Returns whether a search may begin.
    pub fn may_begin(&mut self, now: u64) -> bool
        ensures most { self.old.left ≤ 200 → self.new.left ≤ 200 }
        ensures earned { self.old.left ≤ 200
            → self.new.left ≡ min (self.old.left + (now - self.old.counted) / 10) 200 }
        ensures is_left { result ≡ nat_lt 0 self.new.left }
    {
        let earned = now.saturating_sub(self.counted) / SEARCH_PART;
        if earned > 0 {
            self.left = self.left.saturating_add(earned).min(SEARCH_MILLIS);
            self.counted = now;
        }
        self.left > 0
    }

    /// Takes from it what a search took.
    pub fn spend(&mut self, millis: u64)
        ensures { self.new.left ≡ self.old.left - millis }
    {
        self.left = self.left.saturating_sub(millis);
    }
}
