//! A message is kept as one text and the spans of its segments in it, so that reading copies the text at most once and a piece
//! is a part of that text. Nothing below a segment is kept: a piece is found when it is requested.

ghost use Rattle.std.specs.Prelude.{◌≡◌, ◌<◌, ◌≤◌, ◌-◌, [], IfOk, IfSome, IfNone, IsTrue, MatchResult, None, Ok, OnOk, OnErr, Some, codes, filter, length, map, not, slice_get, slice_set, take, true, false};
ghost use Rattle.std.specs.List.{find, flat_map};
ghost use Rattle.std.specs.Option.{option_copied};
ghost use Rattle.er7_tree.specs.Path.{header_place, raw, segment_at, value};
ghost use Rattle.std.specs.Arc.{arc_value};
ghost use Rattle.er7_tree.specs.inner.Spans.{covered, spanned, InOrder, IsBetween};
ghost use Rattle.er7_tree.specs.Tree.{ended, has_name, is_header, is_name, text_of, tree};
ghost use Rattle.er7_tree.specs.inner.Tree.{Gives, IsMessage, IsOccurrence};

use crate::delims::Delims;
use crate::escapes::unescape;
use crate::path::{Part, Path};
use crate::pieces::{part_of, piece};
use crate::refusal::Refusal;
use crate::segments::{MSH, Span, Spans, field_place, is_header};
use crate::text_walk::{read_header, read_spans};
use fixed_numbers::CARRIAGE_RETURN;
use std::alloc::{AllocError, Global};
use std::marker::Model;
use std::sync::Arc;

/// A message (HL7 v2.5.1, 2.5): the delimiters that it declares, and its segments, of which the header is the first.
///
/// It has at most [`MAX_SEGMENTS`](crate::MAX_SEGMENTS) segments, no second header, and no segment holds a carriage return. It
/// keeps one text and the spans of its segments in that text.
#[derive(Drop)]
pub struct Message {
    delims: Delims,
    text: Arc<Vec<u8>>,
    spans: Spans,
}

impl Model for Message {
    ghost use Rattle.std.specs.Arc.{arc_value};
    ghost use Rattle.er7_tree.specs.inner.Spans.{AreSpans, spanned};
    ghost use Rattle.er7_tree.specs.Tree.{Tree};

    ghost Value = { Tree };

    ghost view = { λ m. spanned m.delims (arc_value m.text).items m.spans.items };

    ghost invariant = { λ m. AreSpans m.delims (arc_value m.text).items m.spans.items };
}

/// The index of the `n`th segment of that name, counted from 1.
fn find_place(text: &[u8], spans: &[Span], name: &[u8], n: u32) -> Option<usize>
    requires { InOrder 0 (length text.now) spans.now }
    ensures found { IfSome result (IsOccurrence name.now n (map (covered text.now) spans.now)) }
    ensures missing { IfNone result (length (filter (has_name name.now) (map (covered text.now) spans.now)) ≤ n - 1) }
{
    let mut before = 0;
    for (place, span) in spans.iter().enumerate() {
        if span.of(text).starts_with(name) {
            if before + 1 >= n {
                return Some(place);
            }
            before += 1;
        }
    }
    None
}

/// Moves the spans of segments of other names to the front, in order, and returns how many they are.
fn keep_others(text: &[u8], spans: &mut [Span], name: &[u8]) -> usize
    requires { InOrder 0 (length text.now) spans.old }
    ensures { take result spans.new ≡ filter (λ span. not (has_name name.now (covered text.now span))) spans.old }
{
    let mut kept = 0;
    for place in 0..spans.len() {
        let span = spans[place];
        if !span.of(text).starts_with(name) {
            spans[kept] = span;
            kept += 1;
        }
    }
    kept
}

/// Drops the spans of segments of that name.
fn drop_named(text: &[u8], spans: &mut Spans, name: &[u8])
    requires { InOrder 0 (length text.now) spans.old.items }
    ensures { spans.new.items ≡ filter (λ span. not (has_name name.now (covered text.now span))) spans.old.items }
{
    let kept = keep_others(text, spans.as_mut_slice(), name);
    spans.truncate(kept);
}

/// The segments that the spans cover, each with the carriage return that ends it.
fn print_spans(alloc: Global, text: &[u8], spans: &[Span]) -> Result<Vec<u8>, AllocError>
    requires { InOrder 0 (length text.now) spans.now }
    ensures { IfOk result (λ printed. printed.items ≡ flat_map ended (map (covered text.now) spans.now)) }
{
    let mut printed = Vec::with_capacity(alloc, text.len() + spans.len())?;
    for span in spans {
        printed.extend_from_slice(span.of(text))?;
        printed.push(CARRIAGE_RETURN)?;
    }
    Ok(printed)
}

/// Whether the spans lie in the text as segments are printed: one after another from its beginning, each with a carriage
/// return behind it, up to its end.
fn are_printed(text: &[u8], spans: &[Span]) -> bool
    requires { InOrder 0 (length text.now) spans.now }
    ensures { IsTrue result → flat_map ended (map (covered text.now) spans.now) ≡ text.now }
{
    let mut at = 0;
    for span in spans {
        if span.start != at || span.end >= text.len() || text[span.end] != CARRIAGE_RETURN {
            return false;
        }
        at = span.end + 1;
    }
    at == text.len()
}

/// Finds the delimiters that a text declares, and the spans of its segments, which are written where the caller keeps them.
fn spans_of(text: &[u8], spans: &mut Spans) -> Result<Delims, Refusal>
    requires none { spans.old.items ≡ [] }
    ensures value { MatchResult result
        (λ delims. tree text.now ≡ Ok (spanned delims text.now spans.new.items))
        (λ refusal. Gives (Err refusal) (tree text.now)) }
    ensures in_order { OnOk result (InOrder 0 (length text.now) spans.new.items) }
{
    let (header, delims, ends) = read_header(text)?;
    read_spans(text, header, delims, ends, spans)?;
    Ok(delims)
}

/// The segments that the spans cover, with another one at an index: a text that holds them one after another, and
/// their spans.
fn with_segment(
    alloc: Global,
    text: &[u8],
    spans: &[Span],
    place: usize,
    new: &[u8],
) -> Result<(Vec<u8>, Spans), AllocError>
    requires { InOrder 0 (length text.now) spans.now }
    ensures covered { IfOk result (λ made. map (covered made.0.items) made.1.items ≡ slice_set (map (covered text.now) spans.now) place new.now) }
    ensures in_order { IfOk result (λ made. InOrder 0 (length made.0.items) made.1.items) }
{
    let mut changed = Vec::with_capacity(alloc, text.len() + new.len())?;
    let mut moved = Spans::new(alloc);
    for (index, span) in spans.iter().enumerate() {
        let segment = if index == place { new } else { span.of(text) };
        let start = changed.len();
        changed.extend_from_slice(segment)?;
        let end = changed.len();
        moved.push(Span { start, end })?;
    }
    Ok((changed, moved))
}

impl Message {
    /// The message that a text says (HL7 v2.5.1, 2.5.2 and 2.5.4).
    ///
    /// Segments end with a carriage return, which the last may lack; one line feed behind it and empty segments are dropped.
    ///
    /// # Errors
    ///
    /// The first refusal in this order: `NoHeader`, `BadDelimiters`, `TooManySegments`, `BadSegmentName` of
    /// the first bad name or second header. `NoMemory` only for a text that could be read otherwise.
    pub fn parse(alloc: Global, text: &[u8]) -> Result<Message, Refusal>
        ensures value { Gives result (tree text.now) }
        ensures message { IfOk result IsMessage }
    {
        let mut spans = Spans::new(alloc);
        let delims = spans_of(text, &mut spans)?;
        let bytes = Vec::from_slice(alloc, text)?;
        let text = Arc::new(alloc, bytes)?;
        Ok(Message {
            delims,
            text,
            spans,
        })
    }

    /// The message that a shared text says, which it keeps as one more owner. It exists for speed: the text isn't copied.
    ///
    /// # Errors
    ///
    /// The refusals are those of [`parse`](Message::parse).
    pub fn parse_shared(alloc: Global, text: &Arc<Vec<u8>>) -> Result<Message, Refusal>
        ensures value { Gives result (tree (arc_value text.now).items) }
        ensures message { IfOk result IsMessage }
    {
        let mut spans = Spans::new(alloc);
        let delims = spans_of(text.as_slice(), &mut spans)?;
        let text = Arc::try_clone(text)?;
        Ok(Message {
            delims,
            text,
            spans,
        })
    }

    /// The text that the message keeps, where that is the message as it is printed: a caller that needs the print may share
    /// it. It exists for speed: nothing is copied.
    pub fn printed_text(&self) -> Option<&Arc<Vec<u8>>>
        ensures { IfSome result (λ text. (arc_value text.now).items ≡ text_of self.now) }
    {
        let is_print = are_printed(self.text.as_slice(), &self.spans);
        is_print.then_some(&self.text)
    }

    /// The delimiters that the message declares.
    pub fn delims(&self) -> Delims
        ensures { result ≡ self.now.delims }
    {
        self.delims
    }

    /// The header segment, MSH, which is the first.
    pub fn header(&self) -> &[u8]
        ensures first { slice_get self.now.segments 0 ≡ Some result.now }
        ensures named { is_header result.now ≡ true }
        ensures message { IsMessage self.now }
    {
        self.spans[0].of(self.text.as_slice())
    }

    /// The text that the message keeps, and the span of its header segment in it.
    ///
    /// It exists for speed: a value that keeps pieces of the header shares that text, and copies nothing.
    pub fn shared_header(&self) -> (&Arc<Vec<u8>>, Span)
        ensures first { slice_get self.now.segments 0 ≡ Some (covered (arc_value result.0.now).items result.1) }
        ensures named { is_header (covered (arc_value result.0.now).items result.1) ≡ true }
        ensures between { IsBetween 0 (length (arc_value result.0.now).items) result.1 }
    {
        (&self.text, self.spans[0])
    }

    /// The first segment of that name, where there is one.
    pub fn segment(&self, name: &[u8; 3]) -> Option<&[u8]>
        ensures { option_copied result ≡ find (has_name name.now) self.now.segments }
    {
        let place = self.place_of(name, 1)?;
        Some(self.at(place))
    }

    /// The index of the `n`th segment of that name, where `n` counts from 1 and the index from 0.
    pub(crate) fn place_of(&self, name: &[u8], n: u32) -> Option<usize>
        ensures found { IfSome result (IsOccurrence name.now n self.now.segments) }
        ensures missing { IfNone result (length (filter (has_name name.now) self.now.segments) ≤ n - 1) }
        ensures message { IsMessage self.now }
    {
        find_place(self.text.as_slice(), &self.spans, name, n)
    }

    /// The segment at an index, counted from 0.
    pub(crate) fn at(&self, place: usize) -> &[u8]
        requires { place < length self.now.segments }
        ensures { slice_get self.now.segments place ≡ Some result.now }
    {
        let spans = self.spans.as_slice();
        spans[place].of(self.text.as_slice())
    }

    /// Replaces the segment at an index.
    pub(crate) fn replace_segment(&mut self, place: usize, new: &[u8]) -> Result<(), AllocError>
        requires { IsMessage (record self.old { segments = slice_set self.old.segments place new.now }) }
        ensures ok { OnOk result (self.new ≡ record self.old { segments = slice_set self.old.segments place new.now }) }
        ensures err { OnErr result (self.new ≡ self.old) }
    {
        let alloc = self.allocator();
        let (text, spans) = with_segment(alloc, self.text.as_slice(), &self.spans, place, new)?;
        self.text = Arc::new(alloc, text)?;
        self.spans = spans;
        Ok(())
    }

    /// Drops all segments of a name that isn't the header's.
    pub(crate) fn remove_named(&mut self, name: &[u8])
        requires named { is_name name.now ≡ true }
        requires no_header { is_header name.now ≡ false }
        ensures { self.new ≡ record self.old { segments = filter (λ segment. not (has_name name.now segment)) self.old.segments } }
    {
        drop_named(self.text.as_slice(), &mut self.spans, name);
    }

    /// The allocator of the message.
    pub(crate) fn allocator(&self) -> Global {
        *self.spans.allocator()
    }

    /// The `n`th segment of that name, counted from 1, empty where there is none.
    fn nth_segment(&self, name: &[u8], n: u32) -> &[u8]
        ensures { result.now ≡ segment_at name.now n self.now.segments }
    {
        match self.place_of(name, n) {
            Some(place) => self.at(place),
            None => &[],
        }
    }

    /// The raw part of a field of the segment that is the `occurrence`th of its name, empty where there is none.
    fn raw(&self, name: &[u8], occurrence: u32, field: u32, part: Part) -> &[u8]
        ensures value { result.now ≡ raw self.now (record { segment = name.now; occurrence = occurrence; field = field; part = part }) }
        ensures message { IsMessage self.now }
    {
        let segment = self.nth_segment(name, occurrence);
        let field = if field == 1 && is_header(segment) {
            self.delims.field_text()
        } else {
            piece(segment, self.delims.field(), field_place(segment, field))
        };
        part_of(self.delims, part, field)
    }

    /// The raw piece at a path, as it is written in the message, empty where there is none. `MSH-1` is the field separator.
    pub fn get_raw(&self, path: &Path) -> &[u8]
        ensures { result.now ≡ raw self.now path.now }
    {
        self.raw(path.segment(), path.occurrence(), path.field(), path.part())
    }

    /// The raw field of the header, or a component of the field's first repetition; both count from 1, and 0 is taken for
    /// 1, but that field 0 is the name, `MSH`, where field 1 is the field separator.
    pub fn msh(&self, field: u32, component: Option<u32>) -> &[u8]
        ensures value { result.now ≡ raw self.now (header_place field component) }
        ensures name { field ≡ 0 → component ≡ None → result.now ≡ codes "MSH" }
    {
        let part = match component {
            None => Part::Whole,
            Some(component) => Part::Component(1, component),
        };
        self.raw(&MSH, 1, field, part)
    }

    /// The bytes that the piece at a path means, its escape sequences read (HL7 v2.5.1, 2.7).
    ///
    /// # Errors
    ///
    /// Where memory is refused.
    pub fn get(&self, path: &Path) -> Result<Vec<u8>, AllocError>
        ensures { IfOk result (λ plain. plain.items ≡ value self.now path.now) }
    {
        unescape(self.allocator(), &self.delims(), self.get_raw(path))
    }

    /// The message as a text, each segment with the carriage return that ends it.
    ///
    /// # Errors
    ///
    /// Where memory is refused.
    pub fn print(&self) -> Result<Vec<u8>, AllocError>
        ensures { IfOk result (λ text. text.items ≡ text_of self.now) }
    {
        print_spans(self.allocator(), self.text.as_slice(), &self.spans)
    }
}

impl Clone for Message {
    ghost use Rattle.std.specs.Prelude.{◌≡◌};

    ghost is_clone = { λ message copied. copied ≡ message };

    /// The same message, with spans of its own: the text is shared until one of the two is changed.
    fn clone(&self) -> Result<Message, AllocError> {
        let text = Arc::try_clone(&self.text)?;
        let spans = Spans::from_slice(self.allocator(), self.spans.as_slice())?;
        Ok(Message {
            delims: self.delims,
            text,
            spans,
        })
    }
}
