//! How much a plan may hold: limits of this engine.

ghost use Rattle.std.specs.Prelude.{◌≡◌};
ghost use Rattle.fixed_numbers.specs.declared.plan.TheConstants.{DESTINATIONS_MAX, CHANNELS_MAX, MEMBERS_MAX, PAIRS_MAX, LEVELS_MAX, ATTEMPTS_MAX};

/// The most destinations.
pub const DESTINATIONS_MAX: usize = 32;

/// The most channels.
pub const CHANNELS_MAX: usize = 64;

/// The most members of any other list but a lookup table.
pub const MEMBERS_MAX: usize = 256;

/// The most pairs of a lookup table.
pub const PAIRS_MAX: usize = 1_000;

/// How many levels of conditions may be nested.
pub const LEVELS_MAX: u32 = 16;

/// The most attempts that a message may have at a destination.
pub const ATTEMPTS_MAX: u32 = 100;

/// Which numbers they are.
pub fn plan_numbers()
    ensures destinations { DESTINATIONS_MAX ≡ 32 }
    ensures channels { CHANNELS_MAX ≡ 64 }
    ensures members { MEMBERS_MAX ≡ 256 }
    ensures pairs { PAIRS_MAX ≡ 1000 }
    ensures levels { LEVELS_MAX ≡ 16 }
    ensures attempts { ATTEMPTS_MAX ≡ 100 }
{}
