//! Reading a piece of a stream, and writing replies out.

ghost use Rattle.std.specs.Prelude.{◌≡◌, ◌+◌, ◌<◌, ◌≤◌, [], false, IfOk, IfErr, OnOk, OnErr, length, take};
ghost use Rattle.std.specs.Io.KnownBytes.{Consumes, Appends, Keeps};
ghost use Rattle.conn_worker.specs.inner.Stream.{StopsReading, StopsWriting, WritesFront};

use crate::counted::{Counted, is_interruption};
use crate::report::ServeEnd;
use conn_core::{Booking, NotPersisted};
use std::io::{Read, Write};

/// Takes one of the turns that are left, if there is one.
fn take_turn(turns: &mut u64) -> Result<(), ServeEnd>
    ensures ok { OnOk result (turns.new + 1 ≡ turns.old) }
    ensures err { IfErr result (λ end. (end ≡ ServeEnd.TurnBound) × (turns.old ≡ 0) × (turns.new ≡ 0)) }
{
    if *turns == 0 {
        return Err(ServeEnd::TurnBound);
    }
    *turns -= 1;
    Ok(())
}

/// Reads the next piece, and returns its length. An interrupted read is made again; each read takes a turn.
///
/// # Errors
///
/// `End` at the reader's end, `ReadFault` where the reader failed, `TurnBound` where no turn is left.
pub(crate) fn read_piece<R: Read>(
    reader: &mut Counted<R>,
    buffer: &mut [u8],
    turns: &mut u64,
) -> Result<usize, ServeEnd>
    requires { 0 < length buffer.old }
    ensures same_room { length buffer.new ≡ length buffer.old }
    ensures piece { IfOk result (λ n.
        (n ≤ length buffer.new) × Consumes (R.remaining reader.old.inner) (R.remaining reader.new.inner) (take n buffer.new)) }
    ensures progress { OnOk result (turns.new < turns.old) }
    ensures nothing { OnErr result (Consumes (R.remaining reader.old.inner) (R.remaining reader.new.inner) []) }
    ensures stop { IfErr result (λ end. StopsReading end (R.remaining reader.new.inner) reader.old.faults reader.new.faults) }
    ensures faults { reader.old.faults ≤ reader.new.faults }
    ensures turns { turns.new ≤ turns.old }
    ensures bound { IfErr result (λ end. end ≡ ServeEnd.TurnBound → turns.new ≡ 0) }
{
    'again: loop {
        take_turn(turns)?;
        match reader.read(buffer) {
            Ok(0) => return Err(ServeEnd::End),
            Ok(len) => return Ok(len),
            Err(error) => {
                if !is_interruption(&error) {
                    return Err(ServeEnd::ReadFault);
                }
            }
        }
    }
}

/// Writes replies, going on where a write stopped. A write that is interrupted is made again, and takes a turn.
fn write_all<W: Write>(
    writer: &mut Counted<W>,
    replies: &[u8],
    turns: &mut u64,
) -> Result<(), ServeEnd>
    ensures ok { OnOk result (Appends (W.contents writer.old.inner) (W.contents writer.new.inner) replies.now) }
    ensures front { OnErr result (WritesFront (W.contents writer.old.inner) (W.contents writer.new.inner) replies.now) }
    ensures stop { IfErr result (λ end. StopsWriting end writer.old.faults writer.new.faults) }
    ensures faults { writer.old.faults ≤ writer.new.faults }
    ensures turns { turns.new ≤ turns.old }
    ensures bound { IfErr result (λ end. end ≡ ServeEnd.TurnBound → turns.new ≡ 0) }
{
    let mut rest = replies;
    'write: while !rest.is_empty() {
        match writer.write(rest) {
            Ok(0) => return Err(ServeEnd::WriteFault),
            Ok(len) => rest = &rest[len..],
            Err(error) => {
                if !is_interruption(&error) {
                    return Err(ServeEnd::WriteFault);
                }
                take_turn(turns)?;
            }
        }
    }
    Ok(())
}

/// Flushes the writer. A flush that is interrupted is made again, and takes a turn.
fn flush<W: Write>(writer: &mut Counted<W>, turns: &mut u64) -> Result<(), ServeEnd>
    ensures bytes { Keeps (W.contents writer.old.inner) (W.contents writer.new.inner) }
    ensures flushed { OnOk result (writer.new.unflushed ≡ false) }
    ensures stop { IfErr result (λ end. StopsWriting end writer.old.faults writer.new.faults) }
    ensures faults { writer.old.faults ≤ writer.new.faults }
    ensures turns { turns.new ≤ turns.old }
    ensures bound { IfErr result (λ end. end ≡ ServeEnd.TurnBound → turns.new ≡ 0) }
{
    'again: loop {
        let Err(error) = writer.flush() else {
            return Ok(());
        };
        if !is_interruption(&error) {
            return Err(ServeEnd::WriteFault);
        }
        take_turn(turns)?;
    }
}

/// Writes replies and flushes them. All that was booked, so also what they acknowledge, survives a crash of the process.
///
/// # Errors
///
/// `WriteFault` where the writer failed, `TurnBound` where no turn is left. The first bytes may be written.
fn write_out<B: Booking, W: Write>(
    _book: &B,
    writer: &mut Counted<W>,
    replies: &[u8],
    turns: &mut u64,
) -> Result<(), ServeEnd>
    requires survives { B.survives _book.now }
    ensures flushed { OnOk result (writer.new.unflushed ≡ false) }
    ensures ok { OnOk result (Appends (W.contents writer.old.inner) (W.contents writer.new.inner) replies.now) }
    ensures front { OnErr result (WritesFront (W.contents writer.old.inner) (W.contents writer.new.inner) replies.now) }
    ensures stop { IfErr result (λ end. StopsWriting end writer.old.faults writer.new.faults) }
    ensures faults { writer.old.faults ≤ writer.new.faults }
    ensures turns { turns.new ≤ turns.old }
    ensures bound { IfErr result (λ end. end ≡ ServeEnd.TurnBound → turns.new ≡ 0) }
{
    write_all(writer, replies, turns)?;
    flush(writer, turns)
}

/// Waits until all that was booked survives a crash of the process, and then writes replies and flushes them, where there are
/// any.
///
/// # Errors
///
/// `NotPersisted` where what was booked may not survive; nothing is written then. `WriteFault` where the writer failed,
/// `TurnBound` where no turn is left. The first bytes may be written.
pub(crate) fn write_persisted<B: Booking, W: Write>(
    book: &mut B,
    writer: &mut Counted<W>,
    replies: &[u8],
    turns: &mut u64,
) -> Result<(), ServeEnd>
    ensures unbooked { B.books book.old book.new [] }
    ensures flushed { OnOk result (writer.old.unflushed ≡ false → writer.new.unflushed ≡ false) }
    ensures ok { OnOk result (Appends (W.contents writer.old.inner) (W.contents writer.new.inner) replies.now) }
    ensures front { OnErr result (WritesFront (W.contents writer.old.inner) (W.contents writer.new.inner) replies.now) }
    ensures stop { IfErr result (λ end. StopsWriting end writer.old.faults writer.new.faults) }
    ensures faults { writer.old.faults ≤ writer.new.faults }
    ensures turns { turns.new ≤ turns.old }
    ensures bound { IfErr result (λ end. end ≡ ServeEnd.TurnBound → turns.new ≡ 0) }
{
    if replies.is_empty() {
        return Ok(());
    }
    match book.persist() {
        Ok(()) => write_out(book, writer, replies, turns),
        Err(NotPersisted) => Err(ServeEnd::NotPersisted),
    }
}
