//! A conversation over devices that fail at one of their calls.

use crate::devices::{CUTS, Cut, Devices, Mishap, SMOOTH, Sink, Source};
use crate::stage::{EMPTY, Rows, filled};
use book_core::{Book, BookRows};
use conn_core::ConnectionId;
use conn_worker::{Counted, ServeEnd, ServeReport, Still, TURNS_MAX, nearest, serve_within};
use std::alloc::Global;
use std::hash::RandomState;
use std::test::Fail;

/// Two admissions, of which the first requests an accept acknowledgment and the second both.
const MESSAGES: [&str; 2] = [
    "\x0bMSH|^~\\&|REG|HOSP|ENG|HUB|20231114221300||ADT^A01^ADT_A01|M1|P|2.5.1|||AL|NE\rPID|1||77^^^H\r\x1c\r",
    "\x0bMSH|^~\\&|REG|HOSP|ENG|HUB|20231114221300||ADT^A01^ADT_A01|M3|P|2.5.1|||AL|AL\rPID|1||77^^^H\r\x1c\r",
];

/// Their acknowledgments: one of the first, two of the second.
const REPLIES: [&str; 2] = [
    "\x0bMSH|^~\\&|ENG|HUB|REG|HOSP|20231114221320+0000||ACK^A01^ACK|0.1|P|2.5.1|||NE|NE\rMSA|CA|M1\r\x1c\r",
    "\x0bMSH|^~\\&|ENG|HUB|REG|HOSP|20231114221320+0000||ACK^A01^ACK|0.2|P|2.5.1|||NE|NE\rMSA|CA|M3\r\x1c\r\x0bMSH|^~\\&|ENG|HUB|REG|HOSP|20231114221320+0000||ACK^A01^ACK|0.3|P|2.5.1|||NE|NE\rMSA|AA|M3\r\x1c\r",
];

/// The two texts as bytes, one behind the other.
fn both(alloc: Global, texts: &[&str; 2]) -> Result<Vec<u8>, Fail> {
    let mut bytes = Vec::from_slice(alloc, texts[0].as_bytes())?;
    bytes.extend_from_slice(texts[1].as_bytes())?;
    Ok(bytes)
}

/// The result of serving the conversation.
#[derive(Drop)]
struct Served {
    end: ServeEnd,
    receipts: usize,
    written: Vec<u8>,
    flushed: usize,
    unflushed: bool,
    read_faults: u64,
    write_faults: u64,
}

/// Serves a stream from a book over these devices, at 14 November 2023, 22:13:20 UTC.
fn serve_from<S: BookRows>(
    alloc: Global,
    book: &mut Book<S>,
    stream: &[u8],
    devices: Devices,
) -> Served {
    let mut reader = Counted::new(Source::new(stream, devices));
    let mut writer = Counted::new(Sink::new(alloc, devices));
    let (conn, channel) = (0, 0);
    book.plan().rules();
    let report: ServeReport = serve_within(
        &ConnectionId {
            alloc,
            conn,
            channel,
        },
        book,
        &mut reader,
        &mut writer,
        &mut Still(nearest(1_700_000_000)),
        TURNS_MAX,
    );
    let (read_faults, write_faults) = (reader.faults(), writer.faults());
    let unflushed = writer.unflushed();
    let sink = writer.into_inner();
    Served {
        end: report.end,
        receipts: report.receipts.len(),
        flushed: sink.flushed,
        written: sink.bytes,
        unflushed,
        read_faults,
        write_faults,
    }
}

/// Serves the conversation over these devices, by the built-in plan.
fn serve(rt: &HostRuntime, devices: Devices) -> Result<Served, Fail> {
    let hasher = RandomState::new(rt)?;
    let stream = both(rt.alloc(), &MESSAGES)?;
    let mut book = filled::<Rows>(rt.alloc(), hasher, &EMPTY)?;
    Ok(serve_from(rt.alloc(), &mut book, &stream, devices))
}

/// Why serving ended, and with how many faults of the reader and of the writer.
type Ending = (ServeEnd, u64, u64);

const WELL: Ending = (ServeEnd::End, 0, 0);

const UNREAD: Ending = (ServeEnd::ReadFault, 1, 0);

const UNWRITTEN: Ending = (ServeEnd::WriteFault, 0, 1);

impl Served {
    /// Whether this was written, and serving ended so.
    fn wrote(&self, due: &[u8], ending: Ending) -> bool {
        self.written.as_slice() == due && (self.end, self.read_faults, self.write_faults) == ending
    }

    /// Whether all that was written was flushed.
    fn is_flushed(&self) -> bool {
        self.flushed == self.written.len() && !self.unflushed
    }
}

/// What is written once a number of bytes was read.
fn due(replies: &[u8], read: usize) -> &[u8] {
    if read < MESSAGES[0].len() {
        &replies[..0]
    } else if read < MESSAGES[0].len() + MESSAGES[1].len() {
        &replies[..REPLIES[0].len().min(replies.len())]
    } else {
        replies
    }
}

/// Whether what was read before a read that fails is answered, where a read brings a byte. The number of reads is bounded.
fn answers_until_read(rt: &HostRuntime, replies: &[u8], at: u32) -> Result<bool, Fail> {
    let served = serve(
        rt,
        Devices {
            cut: Cut::AtEachByte,
            reading: Mishap::Fails { at },
            ..SMOOTH
        },
    )?;
    let read = (at as usize).saturating_sub(1);
    let all = MESSAGES[0].len() + MESSAGES[1].len();
    let ending = if read <= all { UNREAD } else { WELL };
    Ok(served.wrote(due(replies, read), ending) && served.is_flushed())
}

/// The replies to what was read before a read are written and flushed when that read is made.
#[test]
fn a_reader_that_fails(rt: HostRuntime) -> Result<(), Fail> {
    let replies = both(rt.alloc(), &REPLIES)?;
    for at in 1..=220 {
        let right = answers_until_read(&rt, &replies, at)?;
        assert!(rt; right, "call {at}");
    }
    Ok(())
}

/// Whether the replies are written up to a write that fails, where a write takes a byte, and both messages are booked.
fn writes_until(rt: &HostRuntime, replies: &[u8], at: u32) -> Result<bool, Fail> {
    let served = serve(
        rt,
        Devices {
            most: 1,
            writing: Mishap::Fails { at },
            ..SMOOTH
        },
    )?;
    let wrote = (at as usize).saturating_sub(1).min(replies.len());
    let ending = if wrote < replies.len() {
        UNWRITTEN
    } else {
        WELL
    };
    Ok(served.wrote(&replies[..wrote], ending) && served.receipts == 2)
}

/// Each byte of the replies is a write.
#[test]
fn a_writer_that_fails(rt: HostRuntime) -> Result<(), Fail> {
    let replies = both(rt.alloc(), &REPLIES)?;
    for at in 1..=290 {
        let right = writes_until(&rt, &replies, at)?;
        assert!(rt; right, "call {at}");
    }
    Ok(())
}

/// Whether all is answered over devices that are interrupted.
fn goes_on(rt: &HostRuntime, replies: &[u8], cut: Cut) -> Result<bool, Fail> {
    let served = serve(
        rt,
        Devices {
            cut,
            reading: Mishap::Interrupts,
            most: 7,
            writing: Mishap::Interrupts,
        },
    )?;
    Ok(served.wrote(replies, WELL) && served.is_flushed())
}

/// Interrupted calls are made again, however the stream is cut, and are no faults.
#[test]
fn interrupted_devices(rt: HostRuntime) -> Result<(), Fail> {
    let replies = both(rt.alloc(), &REPLIES)?;
    for cut in CUTS {
        let right = goes_on(&rt, &replies, cut)?;
        assert!(rt; right, "cut {cut:?}");
    }
    Ok(())
}

/// Whether a writer that fails has been given this, and ends the connection.
fn gives_up(rt: &HostRuntime, writing: Mishap, given: &[u8]) -> Result<bool, Fail> {
    let served = serve(rt, Devices { writing, ..SMOOTH })?;
    Ok(served.wrote(given, UNWRITTEN))
}

/// A flush that fails, and a write that takes no byte, end the connection.
#[test]
fn writers_that_give_up(rt: HostRuntime) -> Result<(), Fail> {
    let replies = both(rt.alloc(), &REPLIES)?;
    let unflushed = gives_up(&rt, Mishap::FlushFails, &replies)?;
    assert!(rt; unflushed, "a flush");
    let untaken = gives_up(&rt, Mishap::TakesNothing, b"")?;
    assert!(rt; untaken, "a write");
    Ok(())
}
