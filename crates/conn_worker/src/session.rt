//! Serving a connection.

ghost use Rattle.std.specs.Prelude.{◌≡◌, ◌<◌, ◌≤◌, ◌⊎◌, false, IfOk, IfErr, OnOk, List, ℕ, Option};
ghost use Rattle.conn_worker.specs.Serving.{ServesAndBooks};
ghost use Rattle.conn_worker.specs.Faults.{Rose};
ghost use Rattle.conn_worker.specs.inner.Session.{IsFresh, IsReady, SoFar};

use crate::clock::Clock;
use crate::counted::Counted;
use crate::dialogue::Progress;
use crate::keeping::ReceiptSink;
use crate::report::{ServeEnd, ServeReport};
use crate::stream::{read_piece, write_persisted};
use conn_core::{Booking, ConnectionId};
use fixed_numbers::TURNS_MAX;
use mllp_frame::{Framer, longer_streams};
use std::alloc::{AllocError, Global};
use std::io::{Read, Write};

/// The most bytes that one read requests. Each connection that is served keeps room for as many, so that 9,999 of them that
/// are idle take 160 MB.
const PIECE: usize = 16_384;

/// What a connection has while it is served.
#[derive(Drop)]
pub struct Session<K> {
    pub framer: Framer,
    /// Where the next piece is read to.
    pub buffer: Vec<u8>,
    /// How many reads, and writes and flushes made again after an interruption, may still be made.
    pub turns: u64,
    /// The most events that are handled.
    pub events_max: u64,
    pub dialogue: Progress<K>,
}

impl<K: ReceiptSink> Session<K> {
    /// The session of a connection of which nothing is read yet.
    fn new(alloc: Global, bound: u64) -> Result<Self, AllocError>
        requires { bound ≤ TURNS_MAX }
        ensures ready { IfOk result (λ s. IsReady s) }
        ensures fresh { IfOk result (λ s. IsFresh K.has s) }
    {
        Ok(Session {
            framer: Framer::new(alloc),
            buffer: vec![in alloc; 0; PIECE]?,
            turns: bound,
            events_max: bound,
            dialogue: Progress::new(alloc),
        })
    }

    /// Reads a piece, handles its events, and writes and flushes their replies once what they acknowledge survives a crash.
    fn serve_piece<B: Booking, R: Read, W: Write, C: Clock>(
        &mut self,
        line: &ConnectionId,
        book: &mut B,
        reader: &mut Counted<R>,
        writer: &mut Counted<W>,
        clock: &mut C,
    ) -> Result<(), ServeEnd>
        requires ready { IsReady self.old }
        requires channel { line.now.channel < B.channels book.old }
        ensures ready { OnOk result (IsReady self.new) }
        ensures ok { OnOk result ((first : B) (to_read held : Option (List ℕ)) →
            SoFar (B.books first) B.knows K.has line.now.conn line.now.channel to_read (R.remaining reader.old.inner)
            held (W.contents writer.old.inner) book.old self.old →
            SoFar (B.books first) B.knows K.has line.now.conn line.now.channel to_read (R.remaining reader.new.inner)
            held (W.contents writer.new.inner) book.new self.new) }
        ensures progress { OnOk result (self.new.turns < self.old.turns) }
        ensures err { IfErr result (λ end. (first : B) (to_read held : Option (List ℕ)) →
            SoFar (B.books first) B.knows K.has line.now.conn line.now.channel to_read (R.remaining reader.old.inner)
            held (W.contents writer.old.inner) book.old self.old →
            ServesAndBooks (B.books first book.new) (B.knows book.new line.now.channel) K.has line.now.conn line.now.channel to_read (R.remaining reader.new.inner)
            held (W.contents writer.new.inner) (record self.new.dialogue.report { end = end })) }
        ensures channels { B.channels book.new ≡ B.channels book.old }
        ensures reader { reader.old.faults ≤ reader.new.faults }
        ensures writer { writer.old.faults ≤ writer.new.faults }
        ensures read_fault { IfErr result (λ end. end ≡ ServeEnd.ReadFault → Rose reader.old.faults reader.new.faults) }
        ensures write_fault { IfErr result (λ end. end ≡ ServeEnd.WriteFault → Rose writer.old.faults writer.new.faults) }
        ensures flushed { OnOk result (writer.old.unflushed ≡ false → writer.new.unflushed ≡ false) }
        ensures flushed_end { IfErr result (λ end. end ≡ ServeEnd.End → writer.old.unflushed ≡ false → writer.new.unflushed ≡ false) }
        ensures bound { IfErr result (λ end. end ≡ ServeEnd.TurnBound → (self.new.turns ≡ 0) ⊎ (self.new.dialogue.events ≡ self.old.events_max)) }
    {
        longer_streams();
        let len = match read_piece(reader, &mut self.buffer, &mut self.turns) {
            Ok(len) => len,
            Err(end) => return Err(end),
        };
        let Ok(()) = self.framer.feed(&self.buffer[..len]) else {
            return Err(ServeEnd::NoMemory);
        };
        let answered = self
            .dialogue
            .answer_events(line, book, &mut self.framer, clock, self.events_max);
        let replies = self.dialogue.replies.as_slice();
        match write_persisted(book, writer, replies, &mut self.turns) {
            Ok(()) => {}
            Err(end) => return Err(end),
        }
        self.dialogue.replies.clear();
        answered
    }

    /// Serves piece after piece, and returns why it ended.
    fn serve_pieces<B: Booking, R: Read, W: Write, C: Clock>(
        &mut self,
        line: &ConnectionId,
        book: &mut B,
        reader: &mut Counted<R>,
        writer: &mut Counted<W>,
        clock: &mut C,
    ) -> ServeEnd
        requires ready { IsReady self.old }
        requires channel { line.now.channel < B.channels book.old }
        requires fresh { IsFresh K.has self.old }
        ensures served { ServesAndBooks (B.books book.old book.new) (B.knows book.new line.now.channel) K.has line.now.conn line.now.channel
            (R.remaining reader.old.inner) (R.remaining reader.new.inner) (W.contents writer.old.inner) (W.contents writer.new.inner)
            (record self.new.dialogue.report { end = result }) }
        ensures read_fault { result ≡ ServeEnd.ReadFault → Rose reader.old.faults reader.new.faults }
        ensures write_fault { result ≡ ServeEnd.WriteFault → Rose writer.old.faults writer.new.faults }
        ensures flushed { result ≡ ServeEnd.End → writer.old.unflushed ≡ false → writer.new.unflushed ≡ false }
    {
        'pieces: loop {
            match self.serve_piece(line, book, reader, writer, clock) {
                Ok(()) => {}
                Err(end) => return end,
            }
        }
    }
}

/// Serves a connection to its reader's end, or to a fault, or to `bound` reads or events: each message is booked and
/// acknowledged as its header requests (HL7 v2.5.1, 2.9.2 and 2.9.3). The replies to a piece are written and flushed before
/// the next read waits, and none is written before what was booked survives a crash of the process, where it has to. The
/// moments of the replies are the clock's.
pub fn serve_within<B: Booking, K: ReceiptSink, R: Read, W: Write, C: Clock>(
    line: &ConnectionId,
    book: &mut B,
    reader: &mut Counted<R>,
    writer: &mut Counted<W>,
    clock: &mut C,
    bound: u64,
) -> ServeReport<K>
    requires channel { line.now.channel < B.channels book.old }
    requires bound { bound ≤ 1_000_000_000 }

    // The messages read, their answers, and what was written. The receipts that were handed in are those of the
    // messages that were booked here.
    ensures served { ServesAndBooks (B.books book.old book.new) (B.knows book.new line.now.channel) K.has line.now.conn line.now.channel
        (R.remaining reader.old.inner) (R.remaining reader.new.inner) (W.contents writer.old.inner) (W.contents writer.new.inner) result }

    // A fault is reported only where the device failed.
    ensures read_fault { result.end ≡ ServeEnd.ReadFault → Rose reader.old.faults reader.new.faults }
    ensures write_fault { result.end ≡ ServeEnd.WriteFault → Rose writer.old.faults writer.new.faults }

    // At the reader's end all that was written is flushed.
    ensures flushed { result.end ≡ ServeEnd.End → writer.old.unflushed ≡ false → writer.new.unflushed ≡ false }
{
    let Ok(mut session) = Session::<K>::new(line.alloc, bound) else {
        return ServeReport::new(line.alloc);
    };
    let end = session.serve_pieces(line, book, reader, writer, clock);
    let Session { mut dialogue, .. } = session;
    dialogue.report.end = end;
    dialogue.report
}
