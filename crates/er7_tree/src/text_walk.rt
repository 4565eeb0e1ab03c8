//! Reading a text: first its header, which declares the delimiters, and then all segments in one walk.

ghost use Rattle.std.specs.Prelude.{◌≡◌, ◌∷◌, [], ◌≤◌, drop, length, true, Ok, IfOk, OnOk, MatchResult};
ghost use Rattle.lane_scan.specs.inner.Scan.{AreAhead};
ghost use Rattle.er7_tree.specs.inner.Spans.{covered, spanned, IsBetween, IsNear, InOrder};
ghost use Rattle.er7_tree.specs.Tree.{segment_end, checked_tree, segments_of, tree};
ghost use Rattle.er7_tree.specs.inner.Tree.{Gives};

use crate::delims::Delims;
use crate::refusal::Refusal;
use crate::segments::{Span, Spans, is_body, is_header, next_span};
use fixed_numbers::MAX_SEGMENTS;
use lane_scan::Ahead;

/// The header of a text, the delimiters that it declares, and the search for the ends of the segments behind it.
///
/// # Errors
///
/// The first refusal of the text, as [`Message::parse`](crate::Message::parse) orders them.
pub(crate) fn read_header(text: &[u8]) -> Result<(Span, Delims, Ahead), Refusal>
    ensures value { MatchResult result
        (λ read. tree text.now ≡ checked_tree (record { delims = read.1; segments = segments_of text.now }))
        (λ refusal. Gives (Err refusal) (tree text.now)) }
    ensures first { IfOk result (λ read. segments_of text.now ≡ covered text.now read.0 ∷ segments_of (drop read.0.end text.now)) }
    ensures between { IfOk result (λ read. IsBetween 0 (length text.now) read.0) }
    ensures ends { IfOk result (λ read. AreAhead segment_end text.now read.2.at read.2.end read.2.bits) }
    ensures near { IfOk result (λ read. IsNear text.now read.0.end read.2.at) }
{
    let mut ends = Ahead::from(0);
    let header = next_span(text, 0, &mut ends).ok_or(Refusal::NoHeader)?;
    let segment = header.of(text);
    if !is_header(segment) {
        return Err(Refusal::NoHeader);
    }
    let delims = Delims::of_header(segment).ok_or(Refusal::BadDelimiters)?;
    Ok((header, delims, ends))
}

/// Finds the spans of a text's segments, of which the header is the first. One walk finds them, counts them and tests their
/// names; where a growth is refused it goes on without keeping them, since a refusal of the text itself is reported
/// before a refusal for memory. They are written where the caller keeps them, for speed: eight spans take 150 bytes, and
/// each move of them some 30 instructions.
///
/// # Errors
///
/// `TooManySegments`, then `BadSegmentName`; `NoMemory` where memory is refused and neither applies.
pub(crate) fn read_spans(
    text: &[u8],
    header: Span,
    delims: Delims,
    ends: Ahead,
    spans: &mut Spans,
) -> Result<(), Refusal>
    requires first { segments_of text.now ≡ covered text.now header ∷ segments_of (drop header.end text.now) }
    requires between { IsBetween 0 (length text.now) header }
    requires ends { AreAhead segment_end text.now ends.at ends.end ends.bits }
    requires near { IsNear text.now header.end ends.at }
    requires none { spans.old.items ≡ [] }
    ensures value { MatchResult result
        (λ _. checked_tree (record { delims = delims; segments = segments_of text.now }) ≡ Ok (spanned delims text.now spans.new.items))
        (λ refusal. Gives (Err refusal) (checked_tree (record { delims = delims; segments = segments_of text.now }))) }
    ensures in_order { OnOk result (InOrder 0 (length text.now) spans.new.items) }
{
    let mut kept = spans.push(header).is_ok();
    let mut bad = None;
    let mut place = 1;
    let mut at = header.end;
    let mut ends = ends;
    while let Some(span) = next_span(text, at, &mut ends) {
        if place == MAX_SEGMENTS {
            return Err(Refusal::TooManySegments);
        }
        place += 1;
        if bad.is_none() && !is_body(delims, span.of(text)) {
            bad = Some(place);
        }
        kept = kept && spans.push(span).is_ok();
        at = span.end;
    }
    match bad {
        Some(place) => Err(Refusal::BadSegmentName(place)),
        None if kept => Ok(()),
        None => Err(Refusal::NoMemory),
    }
}
