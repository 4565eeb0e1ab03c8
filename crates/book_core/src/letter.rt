//! What a book keeps of a message to send it.

ghost use Rattle.std.specs.Prelude.{◌≡◌, ◌≤◌, ◌==◌, IfOk, find, length, option_copied};
ghost use Rattle.std.specs.Option.{option_map};
ghost use Rattle.er7_tree.specs.inner.Spans.{covered, IsBetween};
ghost use Rattle.book_core.specs.inner.Letter.{id_span, marks_of, sent_by};
ghost use Rattle.judge_core.specs.inner.Delivering.{AreDeliveries};

use dest_queue::Queued;
use er7_tree::Span;
use event_log::Ticket;
use hl7_head::Header;
use judge_core::{Deliveries, KeptDeliveries, SharedDeliveries, Text, TextPiece, offset_32};
use row_store::RowStore;
use std::alloc::AllocError;
use std::marker::Model;

/// The small numbers that are kept of an accepted message.
#[derive(Clone, Copy)]
struct Marks {
    /// The channel on which it arrived, by its index in the plan, which has at most 64.
    channel: u8,
    /// How many bytes its control id has: at most 199 (MSH-10).
    id_len: u8,
    /// The index of its arrival in the history, which is far below 2^32.
    place: u32,
    /// Where its control id starts in the bytes received.
    id_start: u32,
}

/// Where a message goes, with its text for each destination, and its marks. They are fields of the variants for memory:
/// beside the mark of the variant and a destination of one byte they take the space that an address leaves unused.
#[derive(Drop)]
enum Sent {
    One {
        destination: u8,
        marks: Marks,
        payload: Text,
    },
    Several {
        marks: Marks,
        all: SharedDeliveries,
    },
}

/// What a book keeps of an accepted message: the bytes received, its control id, and the text for each destination.
#[derive(Drop)]
pub struct Outbound {
    /// The bytes received.
    raw: Text,
    /// Where it goes.
    sent: Sent,
}

/// It takes 32 bytes beside the texts that it shares: the control id is a span of the bytes received, and no owner of them.
const _: () = prove!(size_of::<Outbound>() == 32);

impl Model for Outbound {
    ghost use Rattle.std.specs.Prelude.{length};
    ghost use Rattle.er7_tree.specs.inner.Spans.{covered, IsBetween};
    ghost use Rattle.judge_core.specs.inner.Delivering.{AreDeliveries};
    ghost use Rattle.book_core.specs.inner.Letter.{Letter, id_span, marks_of, sent_by};

    ghost Value = { Letter };

    ghost view = { λ o. record {
      place = (marks_of o.sent).place;
      channel = (marks_of o.sent).channel;
      raw = o.raw;
      control_id = covered o.raw (id_span (marks_of o.sent));
      deliveries = sent_by o.sent;
    } };

    ghost invariant = { λ o. record {
      id : IsBetween 0 (length o.raw) (id_span (marks_of o.sent));
      good : AreDeliveries (sent_by o.sent);
    } };
}

/// A store of a book's rows: what it keeps of each accepted message, in the queues of the message's destinations.
pub trait BookRows: RowStore<Queued<Outbound>> {}

impl<S: RowStore<Queued<Outbound>>> BookRows for S {}

/// Where the bytes have the control id of their header. A header that has it elsewhere, as one of other bytes could, is
/// refused as memory is.
fn control_id_span(raw: &[u8], header: &Header) -> Result<Span, AllocError>
    ensures between { IfOk result (λ span. IsBetween 0 (length raw.now) span) }
    ensures covered { IfOk result (λ span. covered raw.now span ≡ header.now.control_id) }
{
    let (_, span) = header.shared_control_id();
    if span.end > raw.len() || span.of(raw) != header.control_id() {
        return Err(AllocError);
    }
    Ok(span)
}

/// A number of at most 255 as a byte; any other is refused as memory is.
fn byte(number: usize) -> Result<u8, AllocError>
    ensures { IfOk result (λ byte. byte ≡ number) }
{
    u8::try_from(number).map_err(|_| AllocError)
}

impl Marks {
    /// The marks of a message whose control id is at a span of its bytes.
    ///
    /// # Errors
    ///
    /// Where a number is too great for its field, as none of an accepted message is; it is refused as memory is.
    fn new(place: usize, channel: u32, id: Span) -> Result<Marks, AllocError>
        requires { id.start ≤ id.end }
        ensures place { IfOk result (λ marks. marks.place ≡ place) }
        ensures channel { IfOk result (λ marks. marks.channel ≡ channel) }
        ensures id { IfOk result (λ marks. id_span marks ≡ id) }
    {
        Ok(Marks {
            channel: byte(channel as usize)?,
            id_len: byte(id.end - id.start)?,
            place: offset_32(place)?,
            id_start: offset_32(id.start)?,
        })
    }

    /// Where the control id is in the bytes received.
    fn id_span(self) -> Span
        ensures { result ≡ id_span self }
    {
        let start = self.id_start as usize;
        Span {
            start,
            end: start + self.id_len as usize,
        }
    }
}

impl Sent {
    /// What is kept of deliveries, with marks.
    ///
    /// # Errors
    ///
    /// Where a text has more owners than can be counted.
    fn new(marks: Marks, deliveries: &Deliveries) -> Result<Sent, AllocError>
        ensures marks { IfOk result (λ sent. marks_of sent ≡ marks) }
        ensures by { IfOk result (λ sent. sent_by sent ≡ deliveries.now) }
        ensures good { AreDeliveries deliveries.now }
    {
        Ok(match deliveries.keep()? {
            KeptDeliveries::One {
                destination,
                payload,
            } => Sent::One {
                destination,
                marks,
                payload,
            },
            KeptDeliveries::Several(all) => Sent::Several { marks, all },
        })
    }

    /// The marks.
    fn marks(&self) -> Marks
        ensures { result ≡ marks_of self.now }
    {
        match self {
            Sent::One { marks, .. } | Sent::Several { marks, .. } => *marks,
        }
    }
}

impl Outbound {
    /// What is kept of a message with this header, which shares the bytes and the deliveries with its arrival.
    ///
    /// # Errors
    ///
    /// Where a text has more owners than can be counted, the header isn't that of the bytes, or a number is too great to be
    /// kept: none of an accepted message is.
    pub fn share(
        place: usize,
        channel: u32,
        raw: &Text,
        header: &Header,
        deliveries: &Deliveries,
    ) -> Result<Outbound, AllocError>
        ensures { IfOk result (λ letter. letter ≡ record {
          place = place;
          channel = channel;
          raw = raw.now;
          control_id = header.now.control_id;
          deliveries = deliveries.now;
        }) }
    {
        let span = control_id_span(raw.as_slice(), header)?;
        let marks = Marks::new(place, channel, span)?;
        Ok(Outbound {
            raw: raw.share()?,
            sent: Sent::new(marks, deliveries)?,
        })
    }

    /// The index of its arrival in the history.
    pub fn place(&self) -> usize
        ensures { result ≡ self.now.place }
    {
        self.sent.marks().place as usize
    }

    /// The channel on which it arrived, by its index in the plan.
    pub fn channel(&self) -> u32
        ensures { result ≡ self.now.channel }
    {
        u32::from(self.sent.marks().channel)
    }

    /// The bytes received.
    pub fn raw(&self) -> &Text
        ensures { result.now ≡ self.now.raw }
    {
        &self.raw
    }

    /// Where its control id is in the bytes received.
    fn id_span(&self) -> Span
        ensures between { IsBetween 0 (length self.now.raw) result }
        ensures covered { covered self.now.raw result ≡ self.now.control_id }
    {
        self.sent.marks().id_span()
    }

    /// Its control id (MSH-10, raw; HL7 v2.5.1, 2.15.9.10).
    pub fn control_id(&self) -> &[u8]
        ensures { result.now ≡ self.now.control_id }
    {
        self.id_span().of(self.raw.as_slice())
    }

    /// Its control id as one more owner of the bytes received.
    ///
    /// # Errors
    ///
    /// Where they have more owners than can be counted.
    pub(crate) fn control_id_piece(&self) -> Result<TextPiece, AllocError>
        ensures { IfOk result (λ piece. piece ≡ self.now.control_id) }
    {
        self.raw.piece(self.id_span())
    }

    /// Where it goes, and the text for each destination, for one more owner.
    ///
    /// # Errors
    ///
    /// Where a text has more owners than can be counted.
    pub(crate) fn deliveries(&self) -> Result<Deliveries, AllocError>
        ensures { IfOk result (λ deliveries. deliveries ≡ self.now.deliveries) }
    {
        match &self.sent {
            Sent::One {
                destination,
                payload,
                ..
            } => Ok(Deliveries::single(*destination, payload.share()?)),
            Sent::Several { all, .. } => all.share(),
        }
    }

    /// The text for destination `d`, if there is one.
    pub fn payload(&self, d: u32) -> Option<&Text>
        ensures { option_copied result ≡ option_map (λ x. x.payload)
            (find (λ x. x.destination == d) self.now.deliveries) }
    {
        match &self.sent {
            Sent::One {
                destination,
                payload,
                ..
            } if u32::from(*destination) == d => Some(payload),
            Sent::One { .. } => None,
            Sent::Several { all, .. } => all.payload(d),
        }
    }
}

/// A message to be sent to a destination.
#[derive(Drop)]
pub struct Job {
    /// The right to settle this attempt.
    pub ticket: Ticket,
    /// The message's control id (MSH-10, raw), which the destination's answer has to name.
    pub control_id: TextPiece,
    /// The bytes to send, as the plan's steps leave them for this destination.
    pub payload: Text,
    /// Whether the destination answers; otherwise the message is delivered once it is written.
    pub ack: bool,
}
