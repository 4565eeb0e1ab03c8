//! Whether a text can be framed. It exists for speed: 64 bytes are compared at a time with both framing bytes, and what is left
//! is searched for one byte after the other.

ghost use Rattle.std.specs.Prelude.{◌≡◌, ◌↔◌, ◌+◌, ◌≤◌, IsTrue, length};
ghost use Rattle.lane_scan.specs.inner.Scan.{IsNowhere, bits_of, piece};
ghost use Rattle.mllp_frame.specs.Framing.{IsData, end_block, start_block};

use lane_scan::Ahead;
use mllp_frame::{END_BLOCK, START_BLOCK};
use std::simd::Simd;

/// How many bytes are compared at a time.
const LANES: usize = 64;

/// The indices of a byte among the 64 bytes from an index on, as bits.
#[inline(always)]
fn lanes(text: &[u8], at: usize, byte: u8) -> u64
    requires { at + 64 ≤ length text.now }
    ensures { result ≡ bits_of byte (piece at 64 text.now) }
{
    Simd::<u8, LANES>::from_slice(&text[at..])
        .simd_eq(Simd::splat(byte))
        .to_bitmask()
}

/// Whether a byte is not among the 64 bytes from an index on.
#[inline(always)]
fn lacks(text: &[u8], at: usize, byte: u8) -> bool
    requires { at + 64 ≤ length text.now }
    ensures { IsTrue result → IsNowhere byte text.now at (at + 64) }
{
    lanes(text, at, byte) == 0
}

/// Whether a byte is nowhere from an index on.
fn ends_without(text: &[u8], at: usize, byte: u8) -> bool
    requires { at ≤ length text.now }
    ensures { IsTrue result ↔ IsNowhere byte text.now at (length text.now) }
{
    let (_rest, found) = Ahead::from(at).next(text, byte);
    match found {
        Some(_) => false,
        None => true,
    }
}

/// An index before which there is neither framing byte: the first multiple of 64 behind which there is one among the next
/// 64, or there are fewer bytes.
fn plain_until(text: &[u8]) -> usize
    ensures within { result ≤ length text.now }
    ensures no_start { IsNowhere start_block text.now 0 result }
    ensures no_end { IsNowhere end_block text.now 0 result }
{
    let mut at = 0;
    'lanes: while text.len() - at >= LANES {
        if !(lacks(text, at, START_BLOCK) & lacks(text, at, END_BLOCK)) {
            return at;
        }
        at += LANES;
    }
    at
}

/// Whether a text can be framed: it holds neither of the two framing bytes.
pub(crate) fn is_data(text: &[u8]) -> bool
    ensures { IsTrue result ↔ IsData text.now }
{
    let at = plain_until(text);
    ends_without(text, at, START_BLOCK) && ends_without(text, at, END_BLOCK)
}
