//! The bytes and the limit of a block (MLLP Release 1, block format). It ends with a carriage return, as a segment does.

ghost use Rattle.std.specs.Prelude.{◌≡◌};
ghost use Rattle.fixed_numbers.specs.declared.framing.TheConstants.{START_BLOCK, END_BLOCK, DATA_MAX};

/// The start block character, which opens a block (MLLP Release 1, block format: `<SB>`).
pub const START_BLOCK: u8 = 0x0B;

/// The end block character, which ends a block's data (MLLP Release 1, block format: `<EB>`).
pub const END_BLOCK: u8 = 0x1C;

/// The most data bytes that a block may have: 1 MiB. The standard has no such limit.
pub const DATA_MAX: usize = 1_048_576;

/// Which numbers they are.
pub fn framing_numbers()
    ensures start { START_BLOCK ≡ 11 }
    ensures end { END_BLOCK ≡ 28 }
    ensures data { DATA_MAX ≡ 1048576 }
{}
