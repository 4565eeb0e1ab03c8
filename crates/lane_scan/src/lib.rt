//! The offsets of a byte in a text, one after another. It exists for speed: 64 bytes are compared at a time, and what was
//! found is kept as bits.
#![tactic(auto)]

ghost use Rattle.std.specs.Prelude.{◌≡◌, ℕ, List, ◌+◌, ◌-◌, ◌<◌, ◌≤◌, length, take, drop, map, MatchOption};
ghost use Rattle.lane_scan.specs.inner.Scan.{AreAhead, IsNext, IsNowhere, bits_of, piece};

use std::simd::Simd;

/// How many bytes are compared at a time.
const LANES: usize = 64;

/// A search for a byte in a text. It continues at the offset `at`. Bit i of `bits` is set where the byte is at the offset
/// `at` + i, for the offsets from `at` up to but not including `end`.
#[derive(Clone, Copy)]
pub struct Ahead {
    pub at: usize,
    pub end: usize,
    pub bits: u64,
}

/// The offsets of the byte among the 64 bytes of a text from `at` on, as bits.
#[inline(always)]
fn lanes(text: &[u8], at: usize, byte: u8) -> u64
    requires { at + 64 ≤ length text.now }
    ensures { result ≡ bits_of byte (piece at 64 text.now) }
{
    Simd::<u8, LANES>::from_slice(&text[at..])
        .simd_eq(Simd::splat(byte))
        .to_bitmask()
}

/// The offsets of the byte from `at` on, as bits, in a text that is too short for the lanes there.
fn by_one(text: &[u8], at: usize, byte: u8) -> u64
    requires within { at ≤ length text.now }
    requires few { length text.now ≤ at + 64 }
    ensures { result ≡ bits_of byte (piece at (length text.now - at) text.now) }
{
    let mut bits = 0;
    let mut from = text.len();
    while from > at {
        from -= 1;
        bits = 2 * bits + u64::from(text[from] == byte);
    }
    bits
}

/// The search from `at` on, with the next bytes compared, at least one.
fn look(text: &[u8], at: usize, byte: u8) -> Ahead
    requires { at < length text.now }
    ensures ahead { AreAhead byte text.now result.at result.end result.bits }
    ensures at { result.at ≡ at }
    ensures some { at < result.end }
{
    let left = text.len() - at;
    if left >= LANES {
        return Ahead {
            at,
            end: at + LANES,
            bits: lanes(text, at, byte),
        };
    }
    if text.len() >= LANES {
        return Ahead {
            at,
            end: text.len(),
            bits: lanes(text, text.len() - LANES, byte) >> (LANES - left),
        };
    }
    Ahead {
        at,
        end: text.len(),
        bits: by_one(text, at, byte),
    }
}

impl Ahead {
    /// A search from an offset on, with nothing compared yet.
    pub fn from(place: usize) -> Ahead
        ensures at { result.at ≡ place }
        ensures ahead { (byte : ℕ) (text : List ℕ) → place ≤ length text → AreAhead byte text result.at result.end result.bits }
    {
        Ahead {
            at: place,
            end: place,
            bits: 0,
        }
    }

    /// The search behind the next offset of the byte, and that offset; none where the byte is not in the rest of the text.
    #[inline]
    pub fn next(self, text: &[u8], byte: u8) -> (Ahead, Option<usize>)
        requires { AreAhead byte text.now self.at self.end self.bits }
        ensures ahead { AreAhead byte text.now result.0.at result.0.end result.0.bits }
        ensures place { MatchOption result.1 (IsNowhere byte text.now self.at (length text.now))
            (λ place. IsNext byte text.now self.at place × (result.0.at ≡ place + 1)) }
    {
        let mut ahead = self;
        while ahead.bits == 0 {
            if ahead.end == text.len() {
                return (ahead, None);
            }
            ahead = look(text, ahead.end, byte);
        }
        let skipped = ahead.bits.trailing_zeros() as usize;
        let place = ahead.at + skipped;
        let bits = ahead.bits >> skipped >> 1;
        (
            Ahead {
                at: place + 1,
                end: ahead.end,
                bits,
            },
            Some(place),
        )
    }
}
