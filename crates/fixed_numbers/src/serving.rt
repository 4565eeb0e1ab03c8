//! How much is served and delivered: limits of this engine.

ghost use Rattle.std.specs.Prelude.{◌≡◌};
ghost use Rattle.fixed_numbers.specs.declared.serving.TheConstants.{CONNECTIONS_MAX, TURNS_MAX, FRAME_EVENTS_MAX, RECEIVES_MAX, MAX_ANSWERS};

/// The most connections that a run of `hl7_engine` accepts (`--connections`), so also the most that one channel takes.
pub const CONNECTIONS_MAX: u32 = 9_999;

/// The most events that are handled for one connection, and the most reads that are made, interrupted ones and
/// interrupted writes among them.
pub const TURNS_MAX: u64 = 1_000_000_000;

/// The most frame events of one connection, whole and broken blocks. It ends with `TurnBound` after that many.
pub const FRAME_EVENTS_MAX: u64 = 1_000_000_000;

/// How many times bytes are received for the answers to one message.
pub const RECEIVES_MAX: u32 = 1_000_000;

/// How many answers are read after a message was sent.
pub const MAX_ANSWERS: usize = 9;

/// Which numbers they are.
pub fn serving_numbers()
    ensures connections { CONNECTIONS_MAX ≡ 9999 }
    ensures turns { TURNS_MAX ≡ 1000000000 }
    ensures frame_events { FRAME_EVENTS_MAX ≡ 1000000000 }
    ensures receives { RECEIVES_MAX ≡ 1000000 }
    ensures answers { MAX_ANSWERS ≡ 9 }
{}
