//! The events of a connection that were handled, and the replies to them.

ghost use Rattle.std.specs.Prelude.{◌≡◌, ◌+◌, ◌<◌, ◌≤◌, ◌∷◌, [], IfErr, OnOk, OnErr};
ghost use Rattle.mllp_frame.specs.Event.{block};
ghost use Rattle.mllp_frame.specs.inner.Event.{event_of};
ghost use Rattle.mllp_frame.specs.Framing.{IsBlockData};
ghost use Rattle.mllp_frame.specs.inner.Framing.{HoldsData};
ghost use Rattle.conn_worker.specs.inner.Handling.{Fits, HandlesAll, HandlesFront, StopsHandling};

use crate::clock::Clock;
use crate::keeping::ReceiptSink;
use crate::report::{ServeEnd, ServeReport};
use conn_core::{Booking, ConnectionId, Replies, answer_block};
use fixed_numbers::TURNS_MAX;
use hl7_head::Moment;
use mllp_frame::{FrameEvent, Framer};
use std::alloc::{AllocError, Global};

/// What became of a connection's events so far, and the replies to them.
#[derive(Drop)]
pub struct Progress<K> {
    pub report: ServeReport<K>,
    /// How many events there were.
    pub events: u64,
    pub replies: Replies,
}

impl<K: ReceiptSink> Progress<K> {
    /// The dialogue of a connection of which nothing is read yet.
    pub fn new(alloc: Global) -> Self
        ensures receipts { K.has result.report.receipts [] }
        ensures unreadable_ones { result.report.unreadable ≡ 0 }
        ensures stray_ones { result.report.strays ≡ 0 }
        ensures broken_ones { result.report.breaks ≡ 0 }
        ensures unbooked { result.report.unbooked ≡ 0 }
        ensures events { result.events ≡ 0 }
        ensures made { result.replies.made ≡ 0 }
        ensures bytes { result.replies.bytes ≡ [] }
    {
        Progress {
            report: ServeReport::new(alloc),
            events: 0,
            replies: Replies::new(alloc),
        }
    }

    /// Answers a block, and counts what became of it. Room for a receipt is made before anything is booked.
    fn answer<B: Booking>(
        &mut self,
        line: &ConnectionId,
        book: &mut B,
        raw: Vec<u8>,
        now: Moment,
    ) -> Result<(), AllocError>
        requires channel { line.now.channel < B.channels book.old }
        requires data { IsBlockData raw.items }
        requires fits { Fits self.old }
        requires few { self.old.events ≤ TURNS_MAX }
        ensures ok { OnOk result (HandlesAll B.books B.knows K.has line.now.conn line.now.channel (block raw.items ∷ [])
            book.old book.new self.old self.new) }
        ensures err { OnErr result (HandlesFront B.books B.knows K.has line.now.conn line.now.channel (block raw.items ∷ [])
            book.old book.new self.old self.new) }
        ensures channels { B.channels book.new ≡ B.channels book.old }
        ensures made { OnOk result (self.new.replies.made ≤ self.old.replies.made + 2) }
        ensures unbooked { OnOk result (self.new.report.unbooked ≤ self.old.report.unbooked + 1) }
        ensures unreadable_ones { OnOk result (self.new.report.unreadable ≤ self.old.report.unreadable + 1) }
        ensures stray_ones { OnOk result (self.new.report.strays ≤ self.old.report.strays + 1) }
        ensures broken_ones { OnOk result (self.new.report.breaks ≡ self.old.report.breaks) }
        ensures events { OnOk result (self.new.events ≡ self.old.events) }
    {
        self.report.receipts.reserve()?;
        let outcome = answer_block(line, book, raw, now, &mut self.replies)?;
        let whole = outcome.is_whole();
        self.report.count(outcome);
        if whole { Ok(()) } else { Err(AllocError) }
    }

    /// Handles an event.
    fn answer_event<B: Booking, C: Clock>(
        &mut self,
        line: &ConnectionId,
        book: &mut B,
        event: FrameEvent,
        clock: &mut C,
    ) -> Result<(), AllocError>
        requires channel { line.now.channel < B.channels book.old }
        requires data { HoldsData (event_of event) }
        requires fits { Fits self.old }
        requires few { self.old.events < TURNS_MAX }
        ensures ok { OnOk result (HandlesAll B.books B.knows K.has line.now.conn line.now.channel (event_of event ∷ [])
            book.old book.new self.old self.new) }
        ensures err { OnErr result (HandlesFront B.books B.knows K.has line.now.conn line.now.channel (event_of event ∷ [])
            book.old book.new self.old self.new) }
        ensures channels { B.channels book.new ≡ B.channels book.old }
        ensures fits { OnOk result (Fits self.new) }
        ensures counted { OnOk result (self.new.events ≡ self.old.events + 1) }
    {
        self.events += 1;
        match event {
            FrameEvent::Broken(cause) => {
                self.report.breaks += 1;
                book.note_break(line.conn, line.channel, cause);
                Ok(())
            }
            FrameEvent::Block(raw) => self.answer(line, book, raw, clock.now()),
        }
    }

    /// Handles all events to come, up to `events_max` over the whole connection.
    ///
    /// # Errors
    ///
    /// Why handling stopped: `TurnBound` only where `events_max` events were handled, `NoMemory` where
    /// memory is refused. The events before that are handled, and some replies may be missing.
    pub fn answer_events<B: Booking, C: Clock>(
        &mut self,
        line: &ConnectionId,
        book: &mut B,
        framer: &mut Framer,
        clock: &mut C,
        events_max: u64,
    ) -> Result<(), ServeEnd>
        requires channel { line.now.channel < B.channels book.old }
        requires fits { Fits self.old }
        requires few { self.old.events ≤ events_max }
        requires bound { events_max ≤ TURNS_MAX }
        ensures ok { OnOk result (HandlesAll B.books B.knows K.has line.now.conn line.now.channel framer.old.to_come
            book.old book.new self.old self.new) }
        ensures left { OnOk result (framer.new ≡ record framer.old { to_come = [] }) }
        ensures fits { OnOk result (Fits self.new) }
        ensures few { OnOk result (self.new.events ≤ events_max) }
        ensures err { OnErr result (HandlesFront B.books B.knows K.has line.now.conn line.now.channel framer.old.to_come
            book.old book.new self.old self.new) }
        ensures stop { IfErr result (λ end. StopsHandling end) }
        ensures bound { IfErr result (λ end. end ≡ ServeEnd.TurnBound → self.new.events ≡ events_max) }
        ensures channels { B.channels book.new ≡ B.channels book.old }
    {
        while let Some(event) = framer.next() {
            if self.events >= events_max {
                return Err(ServeEnd::TurnBound);
            }
            self.answer_event(line, book, event, clock)?;
        }
        Ok(())
    }
}
