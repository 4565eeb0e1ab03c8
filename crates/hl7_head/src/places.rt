ghost use Rattle.std.specs.Prelude.{◌≡◌, ◌≢◌, ℕ, ◌+◌, ◌<◌, ◌≤◌, true, length, min, slice_index};
ghost use Rattle.er7_tree.specs.Pieces.{split, piece_at};
ghost use Rattle.er7_tree.specs.Tree.{is_header};
ghost use Rattle.er7_tree.specs.inner.Spans.{covered, IsBetween};
ghost use Rattle.hl7_head.specs.inner.Places.{AreFirstPieces, AreWithin, ReadsFirst, pieces_at};
ghost use Rattle.hl7_head.specs.inner.Segment.{header_in};
ghost use Rattle.lane_scan.specs.inner.Scan.{AreAhead};

use er7_tree::{Delims, Span};
use lane_scan::Ahead;

/// MSH is read up to its sixteenth field; its name is read where the first, the field separator, would be.
const FIELDS_READ: usize = 16;

/// The first piece of a part of a text between separators. The fields of a header are short: a loop over their bytes takes
/// less than a search by `memchr` for each.
fn first_piece(text: &[u8], part: Span, separator: u8) -> Span
    requires { IsBetween 0 (length text.now) part }
    ensures { ReadsFirst text.now separator part result }
{
    let mut end = part.start;
    while end < part.end && text[end] != separator {
        end += 1;
    }
    Span {
        start: part.start,
        end,
    }
}

/// The first `N` pieces of a part of a text between separators. A piece that isn't there is empty.
pub(crate) fn first_pieces<const N: usize>(text: &[u8], part: Span, separator: u8) -> [Span; N]
    requires { IsBetween 0 (length text.now) part }
    ensures { AreFirstPieces text.now (split separator (covered text.now part)) result }
{
    let mut pieces = [Span::EMPTY; N];
    let mut left = part;
    for piece in &mut pieces {
        let first = first_piece(text, left, separator);
        *piece = first;
        left.start = left.end.min(first.end + 1);
    }
    pieces
}

/// The first piece of a part of a text between separators that are searched ahead, from the part's start on, and where the next
/// piece begins.
#[inline]
fn piece_ahead(text: &[u8], part: Span, separator: u8, ahead: Ahead) -> (Ahead, Span, usize)
    requires between { IsBetween 0 (length text.now) part }
    requires ahead { AreAhead separator text.now ahead.at ahead.end ahead.bits }
    requires here { part.start < part.end → ahead.at ≡ part.start }
    ensures read { ReadsFirst text.now separator part result.1 }
    ensures ahead { AreAhead separator text.now result.0.at result.0.end result.0.bits }
    ensures here { result.1.end + 1 < part.end → result.0.at ≡ result.1.end + 1 }
    ensures next { result.2 ≡ min part.end (result.1.end + 1) }
{
    let whole = Span {
        start: part.start,
        end: part.end,
    };
    if part.start == part.end {
        return (ahead, whole, part.end);
    }
    let (next, place) = ahead.next(text, separator);
    match place {
        Some(end) if end < part.end => (
            next,
            Span {
                start: part.start,
                end,
            },
            end + 1,
        ),
        _ => (next, whole, part.end),
    }
}

/// The first `N` pieces of a part of a text, which are those of [`first_pieces`]. It exists for speed: the many fields of
/// a header are found by lanes.
fn fields<const N: usize>(text: &[u8], part: Span, separator: u8) -> [Span; N]
    requires { IsBetween 0 (length text.now) part }
    ensures { AreFirstPieces text.now (split separator (covered text.now part)) result }
{
    let mut pieces = [Span::EMPTY; N];
    let mut left = part;
    let mut ahead = Ahead::from(part.start);
    for piece in &mut pieces {
        let (next, first, start) = piece_ahead(text, left, separator, ahead);
        ahead = next;
        *piece = first;
        left.start = start;
    }
    pieces
}

/// The spans of the pieces of a header in the text of its message.
#[derive(Clone, Copy)]
pub struct Places {
    pub encoding_characters: Span,
    pub sending_application: Span,
    pub sending_facility: Span,
    pub receiving_application: Span,
    pub receiving_facility: Span,
    pub message_code: Span,
    pub trigger_event: Span,
    pub control_id: Span,
    pub processing_id: Span,
    pub processing_code: Span,
    pub version_id: Span,
    pub version_code: Span,
    pub accept_type: Span,
    pub application_type: Span,
}

/// Where the first of two bytes is, in a part of a text; the part's end where neither is there.
#[inline(always)]
fn first_of(text: &[u8], part: Span, one: u8, other: u8) -> usize
    requires { IsBetween 0 (length text.now) part }
    ensures behind { part.start ≤ result }
    ensures within { result ≤ part.end }
    ensures none { (k : ℕ) → part.start ≤ k → k < result → slice_index text.now k ≢ one }
    ensures nor { (k : ℕ) → part.start ≤ k → k < result → slice_index text.now k ≢ other }
    ensures here { result < part.end → slice_index text.now result ≢ one → slice_index text.now result ≡ other }
{
    let mut end = part.start;
    while end < part.end && text[end] != one && text[end] != other {
        end += 1;
    }
    end
}

/// The first two components of the first repetition of a field. Both separators are sought in one walk, for speed, which
/// saves some 110 instructions a header.
fn components(text: &[u8], delims: Delims, field: Span) -> [Span; 2]
    requires { IsBetween 0 (length text.now) field }
    ensures { AreFirstPieces text.now (split delims.component (piece_at 1 (split delims.repetition (covered text.now field)))) result }
{
    let component = delims.component();
    let repetition = delims.repetition();
    let first = first_of(text, field, component, repetition);
    let code = Span {
        start: field.start,
        end: first,
    };
    if first == field.end || text[first] != component || component == repetition {
        let none = Span {
            start: first,
            end: first,
        };
        return [code, none];
    }
    let rest = Span {
        start: first + 1,
        end: field.end,
    };
    let second = Span {
        start: rest.start,
        end: first_of(text, rest, component, repetition),
    };
    [code, second]
}

impl Places {
    /// Reads the fields of a header segment, a part of a text, in their order.
    pub fn of(text: &[u8], segment: Span, delims: Delims) -> Places
        requires between { IsBetween 0 (length text.now) segment }
        requires header { is_header (covered text.now segment) ≡ true }
        ensures within { AreWithin (length text.now) result }
        ensures pieces { pieces_at delims text.now result ≡ header_in delims (covered text.now segment) }
    {
        let [
            _name,
            encoding_characters,
            sending_application,
            sending_facility,
            receiving_application,
            receiving_facility,
            _date_and_time,
            _security,
            message_type,
            control_id,
            processing_id,
            version_id,
            _sequence_number,
            _continuation_pointer,
            accept_type,
            application_type,
        ] = fields::<FIELDS_READ>(text, segment, delims.field());
        let [message_code, trigger_event] = components(text, delims, message_type);
        let [processing_code, _] = components(text, delims, processing_id);
        let [version_code, _] = components(text, delims, version_id);
        Places {
            encoding_characters,
            sending_application,
            sending_facility,
            receiving_application,
            receiving_facility,
            message_code,
            trigger_event,
            control_id,
            processing_id,
            processing_code,
            version_id,
            version_code,
            accept_type,
            application_type,
        }
    }
}
