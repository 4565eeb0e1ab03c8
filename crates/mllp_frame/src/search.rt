//! The searches of a framer. They are here for speed: what is said of a search is what `memchr` says of its own.

ghost use Rattle.std.specs.Prelude.{◌≡◌, ◌+◌, ◌<◌, ◌≤◌, length, take, drop, map, IsTrue};
ghost use Rattle.std.specs.Simd.Lanes.{mask_l};
ghost use Rattle.memchr.specs.Find.{IsFirst, IsFirstByte, Nowhere, Passes, is_byte, is_byte2};
ghost use Rattle.mllp_frame.specs.Framing.{start_block, end_block};

use crate::{END_BLOCK, START_BLOCK};
use memchr::{memchr, memchr2};
use std::simd::Simd;

/// How many bytes are compared at a time.
const LANES: usize = 64;

/// The index of the first start block character. In most streams it is the first byte, which `memchr` takes 45
/// instructions more to find.
#[inline]
pub(crate) fn find_start(piece: &[u8]) -> Option<usize>
    ensures { IsFirstByte (is_byte start_block) piece.now result }
{
    match piece {
        [START_BLOCK, ..] => Some(0),
        _ => memchr(START_BLOCK, piece),
    }
}

/// The indices of a byte among the 64 bytes from an index on, as bits, the lowest for the first.
#[inline(always)]
fn lanes(piece: &[u8], at: usize, byte: u8) -> u64
    requires { at + 64 ≤ length piece.now }
    ensures { result ≡ mask_l (map (is_byte byte) (take 64 (drop at piece.now))) }
{
    Simd::<u8, LANES>::from_slice(&piece[at..])
        .simd_eq(Simd::splat(byte))
        .to_bitmask()
}

/// Whether a byte is not among the 64 bytes from an index on.
#[inline(always)]
fn lacks(piece: &[u8], at: usize, byte: u8) -> bool
    requires { at + 64 ≤ length piece.now }
    ensures { IsTrue result → Nowhere (Passes (is_byte byte) piece.now) at (at + 64) }
{
    lanes(piece, at, byte) == 0
}

/// Whether there is neither framing byte among the 64 bytes from an index on.
#[inline(always)]
fn are_plain(piece: &[u8], at: usize) -> bool
    requires { at + 64 ≤ length piece.now }
    ensures { IsTrue result → Nowhere (Passes (is_byte2 start_block end_block) piece.now) at (at + 64) }
{
    lacks(piece, at, START_BLOCK) & lacks(piece, at, END_BLOCK)
}

/// How many of the 64 bytes from an index on come before a byte; all 64 where it is not among them.
#[inline(always)]
fn before_byte(piece: &[u8], at: usize, byte: u8) -> usize
    requires { at + 64 ≤ length piece.now }
    ensures none { Nowhere (Passes (is_byte byte) piece.now) at (at + result) }
    ensures few { result ≤ 64 }
    ensures here { result < 64 → Passes (is_byte byte) piece.now (at + result) }
{
    let found = lanes(piece, at, byte);
    if found == 0 {
        LANES
    } else {
        found.trailing_zeros() as usize
    }
}

/// The index of the first framing byte among the 64 bytes from an index on. It is a function of its own so that the loop that
/// passes bytes by 64 compares them alone, and makes no bits.
#[inline(never)]
fn find_among(piece: &[u8], at: usize) -> Option<usize>
    requires { at + 64 ≤ length piece.now }
    ensures { IsFirst (Passes (is_byte2 start_block end_block) piece.now) at (at + 64) result }
{
    let before = before_byte(piece, at, START_BLOCK).min(before_byte(piece, at, END_BLOCK));
    if before < LANES {
        Some(at + before)
    } else {
        None
    }
}

/// The index of the first framing byte of a piece of 64 bytes or more, which are compared 64 at a time, and the last 64 at the end.
fn find_in_lanes(piece: &[u8]) -> Option<usize>
    requires { 64 ≤ length piece.now }
    ensures { IsFirstByte (is_byte2 start_block end_block) piece.now result }
{
    let mut at = 0;
    'lanes: while piece.len() - at >= LANES {
        if !are_plain(piece, at)
            && let Some(found) = find_among(piece, at)
        {
            return Some(found);
        }
        at += LANES;
    }
    find_among(piece, piece.len() - LANES)
}

/// The index of the first framing byte. `memchr2`, which takes some 100 instructions to find a byte among the next 64, searches
/// shorter pieces alone.
#[inline(never)]
fn find_later(piece: &[u8]) -> Option<usize>
    ensures { IsFirstByte (is_byte2 start_block end_block) piece.now result }
{
    if piece.len() >= LANES {
        find_in_lanes(piece)
    } else {
        memchr2(START_BLOCK, END_BLOCK, piece)
    }
}

/// The index of the first framing byte. It exists for speed: one that the piece begins with is seen without a search.
#[inline(always)]
pub(crate) fn find_framing(piece: &[u8]) -> Option<usize>
    ensures { IsFirstByte (is_byte2 start_block end_block) piece.now result }
{
    match piece {
        [START_BLOCK | END_BLOCK, ..] => Some(0),
        _ => find_later(piece),
    }
}
