//! The acknowledgments of a connection.

ghost use Rattle.std.specs.Prelude.{◌≡◌, ◌+◌, ◌<◌, ◌≤◌, [], ◌∷◌, ◌++◌, map, length, take, OnOk, OnErr};
ghost use Rattle.std.specs.Option.{option_to_list};
ghost use Rattle.hl7_head.specs.Ack.{ack};
ghost use Rattle.mllp_frame.specs.Framing.{block_bytes};
ghost use Rattle.conn_core.specs.inner.Outcomes.{AppendsInPart};
ghost use Rattle.conn_core.specs.Replies.{numbered, dues_by, told_of};

use crate::booking::Unbooked;
use ack_rule::{AckMode, Verdictum, parts};
use book_core::NotBooked;
use event_log::Told;
use hl7_head::{AckPart, Cause, Header, Moment, StampedMoment, append_stamped_ack};
use mllp_frame::{CARRIAGE_RETURN, END_BLOCK, START_BLOCK};
use std::alloc::{AllocError, Global};
use std::marker::Model;

/// The acknowledgments of a connection.
#[derive(Drop)]
pub struct Replies {
    /// How many were made.
    made: u32,
    /// The blocks of those that are not written yet.
    bytes: Vec<u8>,
    /// The moment of the last one with its stamp, which those of one second share (MSH-7).
    stamped: StampedMoment,
}

impl Model for Replies {
    ghost use Rattle.conn_core.specs.inner.Replies.{RepliesView};

    ghost Value = { RepliesView };

    ghost view = { λ r. record { made = r.made; bytes = r.bytes.items } };
}

/// What is acknowledged of an outcome.
fn told_of(outcome: Result<Told, Unbooked>) -> Verdictum
    ensures { result ≡ told_of outcome }
{
    match outcome {
        Ok(Told::Accepted(_) | Told::Filtered | Told::Repeat(_)) | Err(Unbooked::Repeat(_)) => {
            Verdictum::Success
        }
        Ok(Told::Refused(cause)) => Verdictum::of_cause(cause),
        Err(Unbooked::Refused(NotBooked::NoMemory)) => Verdictum::of_cause(Cause::NoMemory),
        Err(Unbooked::Refused(NotBooked::Full)) => Verdictum::of_cause(Cause::Full),
        Err(Unbooked::Refused(NotBooked::PlanChanged)) => Verdictum::of_cause(Cause::PlanChanged),
    }
}

/// Appends an acknowledgment as a block. It is written into the replies themselves, for speed: it requests no memory
/// of its own.
fn append_block(
    bytes: &mut Vec<u8>,
    header: &Header,
    part: &AckPart,
    stamped: &StampedMoment,
    conn: u32,
    number: u32,
) -> Result<(), AllocError>
    ensures ok { OnOk result (bytes.new.items
        ≡ bytes.old.items ++ block_bytes (ack header.now part.now stamped.now conn number)) }
    ensures err { OnErr result (take (length bytes.old.items) bytes.new.items ≡ bytes.old.items) }
{
    bytes.push(START_BLOCK)?;
    append_stamped_ack(bytes, header, part, stamped, conn, number)?;
    bytes.extend_from_slice(&[END_BLOCK, CARRIAGE_RETURN])
}

impl Replies {
    /// Replies of which none is made yet.
    pub fn new(alloc: Global) -> Self
        ensures made { result.made ≡ 0 }
        ensures bytes { result.bytes ≡ [] }
    {
        Replies {
            made: 0,
            bytes: Vec::new(alloc),
            stamped: StampedMoment::new(Moment::epoch()),
        }
    }

    /// How many were made.
    pub fn made(&self) -> u32
        ensures { result ≡ self.now.made }
    {
        self.made
    }

    /// The blocks of those that are not written yet.
    pub fn as_slice(&self) -> &[u8]
        ensures { result.now ≡ self.now.bytes }
    {
        &self.bytes
    }

    /// Forgets the blocks, where they are written. The numbers go on.
    pub fn clear(&mut self)
        ensures { self.new ≡ record self.old { bytes = [] } }
    {
        self.bytes.clear();
    }

    /// Appends an acknowledgment with the next number.
    fn append_one(
        &mut self,
        conn: u32,
        header: &Header,
        part: &AckPart,
        now: Moment,
    ) -> Result<(), AllocError>
        requires { self.old.made < u32.MAX }
        ensures ok { OnOk result (self.new.bytes ≡ self.old.bytes
            ++ numbered conn (self.old.made + 1) (record { header = header.now; part = part.now; moment = now } ∷ [])) }
        ensures counted { OnOk result (self.new.made ≡ self.old.made + 1) }
        ensures few { self.new.made ≤ self.old.made + 1 }
        ensures err { OnErr result (self.new.bytes ≡ self.old.bytes) }
        ensures not_counted { OnErr result (self.new.made ≡ self.old.made) }
    {
        let before = self.bytes.len();
        let number = self.made + 1;
        self.stamped.set(now);
        let appended = append_block(&mut self.bytes, header, part, &self.stamped, conn, number);
        if appended.is_err() {
            self.bytes.truncate(before);
        } else {
            self.made += 1;
        }
        appended
    }

    /// Appends an acknowledgment, if there is one, with the next number. It is inlined, for speed: most messages are due one
    /// alone, and where there is none no call is made.
    #[inline(always)]
    fn append_part(
        &mut self,
        conn: u32,
        header: &Header,
        part: Option<AckPart>,
        now: Moment,
    ) -> Result<(), AllocError>
        requires { self.old.made < u32.MAX }
        ensures ok { OnOk result (self.new.bytes ≡ self.old.bytes
            ++ numbered conn (self.old.made + 1) (map (λ p. record { header = header.now; part = p; moment = now }) (option_to_list part))) }
        ensures counted { OnOk result (self.new.made ≡ self.old.made + length (option_to_list part)) }
        ensures few { self.new.made ≤ self.old.made + 1 }
        ensures err { OnErr result (self.new.bytes ≡ self.old.bytes) }
        ensures not_counted { OnErr result (self.new.made ≡ self.old.made) }
        ensures one { OnErr result (length (option_to_list part) ≡ 1) }
    {
        match part {
            Some(part) => self.append_one(conn, header, &part, now),
            None => Ok(()),
        }
    }

    /// Appends the acknowledgments that a message with this header is due, two at most (HL7 v2.5.1, 2.9.2 and 2.9.3).
    ///
    /// # Errors
    ///
    /// Where memory is refused for one of them. It is not appended; the one before it may be, as a whole block.
    #[inline(always)] // for speed: what it decides by is at hand where it is called
    pub fn append(
        &mut self,
        conn: u32,
        header: &Header,
        outcome: Result<Told, Unbooked>,
        now: Moment,
    ) -> Result<(), AllocError>
        requires { self.old.made + 2 ≤ u32.MAX }
        ensures ok { OnOk result (self.new.bytes ≡ self.old.bytes
            ++ numbered conn (self.old.made + 1) (dues_by header.now outcome now)) }
        ensures counted { OnOk result (self.new.made ≡ self.old.made + length (dues_by header.now outcome now)) }
        ensures few { self.new.made ≤ self.old.made + 2 }
        ensures err { OnErr result (AppendsInPart conn (dues_by header.now outcome now) self.old self.new) }
    {
        let [first, second] = parts(AckMode::of(header), told_of(outcome));
        self.append_part(conn, header, first, now)?;
        self.append_part(conn, header, second, now)
    }
}
