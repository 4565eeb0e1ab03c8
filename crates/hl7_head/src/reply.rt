ghost use Rattle.std.specs.Prelude.{◌≡◌, ◌++◌, [], ◌∷◌, option_map, length, take, IfOk, OnOk, OnErr};
ghost use Rattle.std.specs.Option.{option_to_list};
ghost use Rattle.er7_tree.specs.inner.Spans.{covered, IsBetween};
ghost use Rattle.hl7_head.specs.Ack.{ack, cause_text, fields_text, reply_id, reply_type};
ghost use Rattle.hl7_head.specs.inner.Ack.{answer_text, between_text, header_text, routing_text};

use crate::ack::{AckCode, AckPart, Cause};
use crate::header::Header;
use crate::moment::Moment;
use crate::stamped_moment::StampedMoment;
use er7_tree::{CARRIAGE_RETURN, Span, is_vacant};
use itoa::write_digits;
use std::alloc::{AllocError, Global};

/// What an acknowledgment holds beside pieces of the header that it answers: names, codes, separators, the stamp and the id.
const OWN_BYTES: usize = 128;

/// The most bytes of MSH-10 and the separator before it: two numbers of ten digits at most, and the point between them.
const ID_BYTES: usize = 22;

/// Appends a field after its separator.
fn push_field(text: &mut Vec<u8>, separator: u8, field: &[u8]) -> Result<(), AllocError>
    ensures ok { OnOk result (text.new.items ≡ text.old.items ++ separator ∷ field.now) }
    ensures err { OnErr result (take (length text.old.items) text.new.items ≡ text.old.items) }
{
    text.push(separator)?;
    text.extend_from_slice(field)
}

/// Appends two fields, each after a separator.
fn push_two(
    text: &mut Vec<u8>,
    separator: u8,
    first: &[u8],
    second: &[u8],
) -> Result<(), AllocError>
    ensures ok { OnOk result (text.new.items
        ≡ text.old.items ++ fields_text separator (first.now ∷ second.now ∷ [])) }
    ensures err { OnErr result (take (length text.old.items) text.new.items ≡ text.old.items) }
{
    push_field(text, separator, first)?;
    push_field(text, separator, second)
}

/// Appends two pieces of a text, each after a separator.
///
/// Where the text has the second right after the first and a separator, they are copied as one for speed, which is some 50
/// instructions less. It is inlined, which saves another 25.
#[inline(always)]
fn push_pair(
    text: &mut Vec<u8>,
    separator: u8,
    source: &[u8],
    first: Span,
    second: Span,
) -> Result<(), AllocError>
    requires first { IsBetween 0 (length source.now) first }
    requires second { IsBetween 0 (length source.now) second }
    ensures ok { OnOk result (text.new.items ≡ text.old.items
        ++ fields_text separator (covered source.now first ∷ covered source.now second ∷ [])) }
    ensures err { OnErr result (take (length text.old.items) text.new.items ≡ text.old.items) }
{
    if second.start == first.end + 1 && source[first.end] == separator {
        return push_field(text, separator, &source[first.start..second.end]);
    }
    push_two(text, separator, first.of(source), second.of(source))
}

/// Appends the name of MSH, and MSH-2 to MSH-6.
fn push_routing(text: &mut Vec<u8>, header: &Header) -> Result<(), AllocError>
    ensures ok { OnOk result (text.new.items ≡ text.old.items ++ routing_text header.now) }
    ensures err { OnErr result (take (length text.old.items) text.new.items ≡ text.old.items) }
{
    let separator = header.delims().field();
    let (source, places) = header.source();
    text.extend_from_slice(&[b'M', b'S', b'H', separator])?;
    text.extend_from_slice(header.encoding_characters())?;
    push_pair(
        text,
        separator,
        source,
        places.receiving_application,
        places.receiving_facility,
    )?;
    push_pair(
        text,
        separator,
        source,
        places.sending_application,
        places.sending_facility,
    )
}

/// Appends MSH-8, which is empty, and MSH-9, each after its separator.
fn push_reply_type(text: &mut Vec<u8>, header: &Header) -> Result<(), AllocError>
    ensures ok { OnOk result (text.new.items
        ≡ text.old.items ++ fields_text header.now.delims.field ([] ∷ reply_type header.now ∷ [])) }
    ensures err { OnErr result (take (length text.old.items) text.new.items ≡ text.old.items) }
{
    let event = header.trigger_event();
    let separator = header.delims().field();
    let component = header.delims().component();
    text.extend_from_slice(&[separator, separator, b'A', b'C', b'K'])?;
    if !is_vacant(event) {
        push_field(text, component, event)?;
        text.extend_from_slice(&[component, b'A', b'C', b'K'])?;
    }
    Ok(())
}

/// Appends MSH-10 after its separator.
///
/// Both numbers are written into one run from its end, for speed: one copy in place of two copies and two pushes, which is
/// some 25 instructions less.
fn push_reply_id(
    text: &mut Vec<u8>,
    separator: u8,
    connection: u32,
    number: u32,
) -> Result<(), AllocError>
    ensures ok { OnOk result (text.new.items
        ≡ text.old.items ++ separator ∷ reply_id connection number) }
    ensures err { OnErr result (take (length text.old.items) text.new.items ≡ text.old.items) }
{
    let mut run = [0; ID_BYTES];
    let point = write_digits(number as u64, &mut run, ID_BYTES) - 1;
    run[point] = b'.';
    let start = write_digits(connection as u64, &mut run, point) - 1;
    run[start] = separator;
    text.extend_from_slice(&run[start..])
}

/// Appends the segment MSH as far as it is the same in both modes, up to MSH-12.
fn push_header(
    text: &mut Vec<u8>,
    header: &Header,
    stamped: &StampedMoment,
    connection: u32,
    number: u32,
) -> Result<(), AllocError>
    ensures ok { OnOk result (text.new.items
        ≡ text.old.items ++ header_text header.now stamped.now (reply_id connection number)) }
    ensures err { OnErr result (take (length text.old.items) text.new.items ≡ text.old.items) }
{
    let separator = header.delims().field();
    let (source, places) = header.source();
    push_routing(text, header)?;
    push_field(text, separator, stamped.text())?;
    push_reply_type(text, header)?;
    push_reply_id(text, separator, connection, number)?;
    push_pair(
        text,
        separator,
        source,
        places.processing_id,
        places.version_id,
    )
}

/// Appends what is between MSH-12 and MSA-2: the modes and the end of MSH, the name of MSA and MSA-1. In original mode
/// MSH ends behind MSH-12.
///
/// It is one run for speed alone: a copy takes some 50 instructions, and there would be one for each field.
fn push_between(
    text: &mut Vec<u8>,
    separator: u8,
    enhanced: bool,
    code: AckCode,
) -> Result<(), AllocError>
    ensures ok { OnOk result (text.new.items
        ≡ text.old.items ++ between_text separator enhanced code) }
    ensures err { OnErr result (take (length text.old.items) text.new.items ≡ text.old.items) }
{
    let [first, second] = code.letters();
    if enhanced {
        text.extend_from_slice(&[
            separator,
            separator,
            separator,
            b'N',
            b'E',
            separator,
            b'N',
            b'E',
            CARRIAGE_RETURN,
            b'M',
            b'S',
            b'A',
            separator,
            first,
            second,
            separator,
        ])
    } else {
        text.extend_from_slice(&[
            CARRIAGE_RETURN,
            b'M',
            b'S',
            b'A',
            separator,
            first,
            second,
            separator,
        ])
    }
}

/// Appends MSA-3 where a message is refused.
fn push_cause(text: &mut Vec<u8>, separator: u8, cause: Option<Cause>) -> Result<(), AllocError>
    ensures ok { OnOk result (text.new.items
        ≡ text.old.items ++ fields_text separator (option_to_list (option_map cause_text cause))) }
    ensures err { OnErr result (take (length text.old.items) text.new.items ≡ text.old.items) }
{
    if let Some(cause) = cause {
        push_field(text, separator, cause.text())?;
    }
    Ok(())
}

/// Appends MSA-2, MSA-3 where a message is refused, and the end of MSA.
fn push_answer(text: &mut Vec<u8>, header: &Header, cause: Option<Cause>) -> Result<(), AllocError>
    ensures ok { OnOk result (text.new.items ≡ text.old.items ++ answer_text header.now cause) }
    ensures err { OnErr result (take (length text.old.items) text.new.items ≡ text.old.items) }
{
    text.extend_from_slice(header.control_id())?;
    push_cause(text, header.delims().field(), cause)?;
    text.push(CARRIAGE_RETURN)?;
    Ok(())
}

/// Appends the segments MSH and MSA.
fn push_segments(
    text: &mut Vec<u8>,
    header: &Header,
    part: &AckPart,
    stamped: &StampedMoment,
    connection: u32,
    number: u32,
) -> Result<(), AllocError>
    ensures ok { OnOk result (text.new.items
        ≡ text.old.items ++ ack header.now part.now stamped.now connection number) }
    ensures err { OnErr result (take (length text.old.items) text.new.items ≡ text.old.items) }
{
    let separator = header.delims().field();
    text.reserve(header.size().saturating_add(OWN_BYTES))?;
    push_header(text, header, stamped, connection, number)?;
    push_between(text, separator, part.enhanced, part.code)?;
    push_answer(text, header, part.cause)
}

/// Appends the acknowledgment that `append_ack` appends, of a moment whose stamp is made. It exists for speed: a stamp takes
/// some 170 instructions, and is the same for all acknowledgments of one second.
///
/// # Errors
///
/// `AllocError` where `text` could not grow; it is then as it was.
pub fn append_stamped_ack(
    text: &mut Vec<u8>,
    header: &Header,
    part: &AckPart,
    stamped: &StampedMoment,
    connection: u32,
    number: u32,
) -> Result<(), AllocError>
    ensures ok { OnOk result (text.new.items
        ≡ text.old.items ++ ack header.now part.now stamped.now connection number) }
    ensures err { OnErr result (text.new.items ≡ text.old.items) }
{
    let before = text.len();
    let appended = push_segments(text, header, part, stamped, connection, number);
    if appended.is_err() {
        text.truncate(before);
    }
    appended
}

/// Appends the acknowledgment of a message with this header, which is that of `ack_text`.
///
/// # Errors
///
/// `AllocError` where `text` could not grow; it is then as it was.
pub fn append_ack(
    text: &mut Vec<u8>,
    header: &Header,
    part: &AckPart,
    moment: Moment,
    connection: u32,
    number: u32,
) -> Result<(), AllocError>
    ensures ok { OnOk result (text.new.items ≡ text.old.items ++ ack header.now part.now moment connection number) }
    ensures err { OnErr result (text.new.items ≡ text.old.items) }
{
    let stamped = StampedMoment::new(moment);
    append_stamped_ack(text, header, part, &stamped, connection, number)
}

/// The acknowledgment of a message with this header (HL7 v2.5.1, 2.9): its segments MSH and MSA, each ended by a carriage
/// return, with the delimiters of the message. It is the `number`th of its connection, which makes its own control id.
///
/// # Errors
///
/// Where memory is refused.
pub fn ack_text(
    alloc: Global,
    header: &Header,
    part: &AckPart,
    moment: Moment,
    connection: u32,
    number: u32,
) -> Result<Vec<u8>, AllocError>
    ensures { IfOk result (λ text. text.items ≡ ack header.now part.now moment connection number) }
{
    let mut text = Vec::new(alloc);
    append_ack(&mut text, header, part, moment, connection, number)?;
    Ok(text)
}
