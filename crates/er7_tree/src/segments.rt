//! The spans of the segments of a text, how segments are named, and where their fields begin. What is
//! particular to MSH is in this file alone.

ghost use Rattle.std.specs.Prelude.{◌≡◌, ◌≢◌, ◌+◌, ◌<◌, ◌≤◌, ◌∷◌, [], length, drop, slice_index, IfSome, MatchOption};
ghost use Rattle.lane_scan.specs.inner.Scan.{AreAhead, IsNowhere};
ghost use Rattle.er7_tree.specs.inner.Spans.{covered, IsBetween, IsNear};
ghost use Rattle.er7_tree.specs.Path.{field_place};
ghost use Rattle.er7_tree.specs.Tree.{segment_end, is_body, is_header, is_name, segments_of};

use crate::delims::Delims;
use fixed_numbers::{CARRIAGE_RETURN, LINE_FEED};
use lane_scan::Ahead;
use smallvec::SmallVec;

/// The name of the message header segment (HL7 v2.5.1, 2.15.9).
pub const MSH: [u8; 3] = *b"MSH";

/// A range of a text that covers a segment or a piece of one: from `start` up to `end`, without the byte there.
#[derive(Clone, Copy, Debug, Default)]
pub struct Span {
    pub start: usize,
    pub end: usize,
}

/// The most spans that are kept inline. A message of at most this number of segments requests no memory for them, which
/// saves some 200 instructions.
const FEW: usize = 8;

/// The spans of a message's segments.
pub(crate) type Spans = SmallVec<Span, FEW>;

impl Span {
    /// A span that covers nothing.
    pub const EMPTY: Span = Span { start: 0, end: 0 };

    /// The span that covers the whole of a text.
    pub fn whole(text: &[u8]) -> Span
        ensures between { IsBetween 0 (length text.now) result }
        ensures all { covered text.now result ≡ text.now }
    {
        Span {
            start: 0,
            end: text.len(),
        }
    }

    /// The bytes that the span covers.
    pub fn of(self, text: &[u8]) -> &[u8]
        requires { IsBetween 0 (length text.now) self }
        ensures { result.now ≡ covered text.now self }
    {
        &text[self.start..self.end]
    }
}

/// Where the first piece that isn't empty begins, at or behind an offset at which a piece begins.
#[inline(always)]
fn skip_empty(text: &[u8], from: usize) -> usize
    requires { from ≤ length text.now }
    ensures behind { from ≤ result }
    ensures within { result ≤ length text.now }
    ensures same { segments_of (drop result text.now) ≡ segments_of (drop from text.now) }
    ensures some { result < length text.now → slice_index text.now result ≢ segment_end }
{
    let mut start = from;
    while start < text.len() && text[start] == CARRIAGE_RETURN {
        start += 1;
        // A byte above both ends the search, for speed: it is compared once, which saves some 20 instructions a message.
        if start < text.len() && text[start] > CARRIAGE_RETURN {
            return start;
        }
        if start < text.len() && text[start] == LINE_FEED {
            start += 1;
        }
    }
    start
}

/// The offset of the next carriage return at or behind `from`, or the text's length where there is none.
#[inline(always)]
fn next_end(text: &[u8], from: usize, ends: Ahead) -> (Ahead, usize)
    requires within { from ≤ length text.now }
    requires ends { AreAhead segment_end text.now ends.at ends.end ends.bits }
    requires behind { ends.at ≤ from }
    ensures behind { from ≤ result.1 }
    ensures within { result.1 ≤ length text.now }
    ensures other { IsNowhere segment_end text.now from result.1 }
    ensures here { result.1 < length text.now → slice_index text.now result.1 ≡ segment_end }
    ensures ends { AreAhead segment_end text.now result.0.at result.0.end result.0.bits }
    ensures ahead { result.1 < length text.now → result.0.at ≡ result.1 + 1 }
{
    let mut ends = ends;
    'ends: loop {
        let (next, place) = ends.next(text, CARRIAGE_RETURN);
        ends = next;
        match place {
            None => return (ends, text.len()),
            Some(end) if end >= from => return (ends, end),
            Some(_) => {}
        }
    }
}

/// The first segment at or behind an offset. Reading goes on at its end, and so does the search for ends. It is inlined for
/// speed, which saves some 150 instructions in a message of six segments.
#[inline(always)]
pub(crate) fn next_span(text: &[u8], from: usize, ends: &mut Ahead) -> Option<Span>
    requires within { from ≤ length text.now }
    requires ends { AreAhead segment_end text.now ends.old.at ends.old.end ends.old.bits }
    requires near { IsNear text.now from ends.old.at }
    ensures segment { MatchOption result (segments_of (drop from text.now) ≡ [])
        (λ span. segments_of (drop from text.now) ≡ covered text.now span ∷ segments_of (drop span.end text.now)) }
    ensures some { IfSome result (λ span. span.start < span.end) }
    ensures between { IfSome result (IsBetween from (length text.now)) }
    ensures ends { AreAhead segment_end text.now ends.new.at ends.new.end ends.new.bits }
    ensures near { IfSome result (λ span. IsNear text.now span.end ends.new.at) }
{
    let start = skip_empty(text, from);
    if start == text.len() {
        return None;
    }
    let (next, end) = next_end(text, start, *ends);
    *ends = next;
    Some(Span { start, end })
}

/// Whether this is a segment's name: a capital letter, and two capital letters or digits (HL7 v2.5.1, 2.5.2).
pub fn is_name(name: &[u8]) -> bool
    ensures { result ≡ is_name name.now }
{
    let [first, second, third] = name else {
        return false;
    };
    first.is_ascii_uppercase()
        && (second.is_ascii_uppercase() || second.is_ascii_digit())
        && (third.is_ascii_uppercase() || third.is_ascii_digit())
}

/// Whether a segment, or the name of one, is that of a message header: it begins with MSH.
pub fn is_header(segment: &[u8]) -> bool
    ensures { result ≡ is_header segment.now }
{
    segment.starts_with(&MSH)
}

/// The index of a field among the pieces of its segment between field separators, counted from 1. The name is the first
/// piece, and MSH counts the field separator behind its name as a field (HL7 v2.5.1, 2.15.9.1).
pub(crate) fn field_place(segment: &[u8], field: u32) -> usize
    ensures { result ≡ field_place segment.now field }
{
    if is_header(segment) {
        field as usize
    } else {
        field as usize + 1
    }
}

/// Whether a segment may follow the header.
pub(crate) fn is_body(delims: Delims, segment: &[u8]) -> bool
    ensures { result ≡ is_body delims segment.now }
{
    let [a, b, c, rest @ ..] = segment else {
        return false;
    };
    let ends = match rest {
        [] => true,
        [next, ..] => *next == delims.field(),
    };
    is_name(&[*a, *b, *c]) && ends && !is_header(segment)
}
