//! How much the book holds and counts: limits of this engine.

ghost use Rattle.std.specs.Prelude.{◌≡◌};
ghost use Rattle.fixed_numbers.specs.declared.book.TheConstants.{QUEUES, CHANNELS, DESTINATIONS, EVENTS_MAX, DEPLOYMENTS_MAX, PRUNINGS_MAX, PLACES_MAX};

/// How many queues there are: a queue's index is below this.
pub const QUEUES: u32 = 32;

/// How many channels are counted: a channel's index is below this.
pub const CHANNELS: u32 = 64;

/// How many destinations are counted: a destination's index is below this.
pub const DESTINATIONS: u32 = 32;

/// The most entries that any history may hold.
pub const EVENTS_MAX: u32 = 1_000_000;

/// The most plans that may be deployed.
pub const DEPLOYMENTS_MAX: u32 = 1_000;

/// The most prunings that a book may have.
pub const PRUNINGS_MAX: u32 = 1_000;

/// The most indices that entries may ever have: 1,000 prunings fold 1,000,000 entries each, and 1,000,000 are held.
pub const PLACES_MAX: u32 = 1_001_000_000;

/// Which numbers they are.
pub fn book_numbers()
    ensures queues { QUEUES ≡ 32 }
    ensures channels { CHANNELS ≡ 64 }
    ensures destinations { DESTINATIONS ≡ 32 }
    ensures entries { EVENTS_MAX ≡ 1000000 }
    ensures deployments { DEPLOYMENTS_MAX ≡ 1000 }
    ensures prunings { PRUNINGS_MAX ≡ 1000 }
    ensures places { PLACES_MAX ≡ 1001000000 }
{}
