//! One connection, answered over a book of one's own.

ghost use Rattle.std.specs.Prelude.{◌≡◌, ◌↔◌, IsOk, IfErr, false, List};
ghost use Rattle.book_core.specs.declared.receipt.Receipt.{Receipt};
ghost use Rattle.conn_core.specs.Booking.{Books};
ghost use Rattle.conn_worker.specs.Faults.{Rose};
ghost use Rattle.conn_worker.specs.Serving.{Serves};
ghost use Rattle.engine_report.specs.Ending.{fault_of_end};

use crate::fault::Fault;
use book_core::{Book, BookRows};
use conn_core::ConnectionId;
use conn_worker::{
    Clock, Counted, DiscardReceipts, ServeEnd, ServeReport, TURNS_MAX, serve_within,
};
use std::alloc::Global;
use std::io::{Read, Write};

/// The connection that is served.
const CONNECTION: u32 = 0;

/// The channel that it is served for, by its index in the plan.
const CHANNEL: u32 = 0;

/// Answers a stream as connection 0 of the plan's first channel: each message is booked and acknowledged as its header
/// requests (HL7 v2.5.1, 2.9.2 and 2.9.3). The replies to a piece are written and flushed before the next read waits.
///
/// It ends at the reader's end, at a fault of the reader or the writer, where memory is refused, or after
/// [`TURNS_MAX`] reads or events. The moments of the replies are the clock's.
pub fn answer_stream<S: BookRows, R: Read, W: Write, C: Clock>(
    alloc: Global,
    book: &mut Book<S>,
    reader: &mut Counted<R>,
    writer: &mut Counted<W>,
    clock: &mut C,
) -> ServeReport<DiscardReceipts>
    // The messages read, their answers, and what was written. Their receipts, which are not kept, are the book's new
    // entries.
    ensures served { (receipts : List Receipt) × Books book.old book.new receipts
        × Serves (λ _. ⊥) CONNECTION CHANNEL (R.remaining reader.old.inner) (R.remaining reader.new.inner)
        (W.contents writer.old.inner) (W.contents writer.new.inner) receipts result }

    // A fault is reported only where the device failed.
    ensures read_fault { result.end ≡ ServeEnd.ReadFault → Rose reader.old.faults reader.new.faults }
    ensures write_fault { result.end ≡ ServeEnd.WriteFault → Rose writer.old.faults writer.new.faults }

    // At the reader's end all that was written is flushed.
    ensures flushed { result.end ≡ ServeEnd.End → writer.old.unflushed ≡ false → writer.new.unflushed ≡ false }
{
    book.plan().rules();
    let line = ConnectionId {
        alloc,
        conn: CONNECTION,
        channel: CHANNEL,
    };
    serve_within(&line, book, reader, writer, clock, TURNS_MAX)
}

/// The result of the end of a connection: success at the reader's end, and else a fault.
///
/// # Errors
///
/// The fault of any other end than the reader's.
pub fn outcome<'a>(end: ServeEnd) -> Result<(), Fault<'a>>
    ensures success { IsOk result ↔ end ≡ ServeEnd.End }
    ensures fault { IfErr result (λ fault. fault ≡ fault_of_end end) }
{
    match end {
        ServeEnd::End => Ok(()),
        ServeEnd::ReadFault | ServeEnd::TurnBound => Err(Fault::Read),
        ServeEnd::WriteFault | ServeEnd::NotPersisted => Err(Fault::Write),
        ServeEnd::NoMemory => Err(Fault::Memory),
    }
}
