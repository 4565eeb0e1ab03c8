//! A stream that comes in pieces, a writer that takes nothing at one of its calls, and a connection that is served over them.

use book_core::{Book, BookRows, EVENTS_MAX, Outbound};
use conn_core::ConnectionId;
use conn_worker::{Counted, ServeEnd, ServeReport, Still, TURNS_MAX, nearest, serve_within};
use dest_queue::Queued;
use mllp_frame::{FrameEvent, FrameFault, Framer};
use plan_text::Plan;
use record_list::RecordList;
use std::alloc::{AllocError, Global};
use std::hash::RandomState;
use std::io;
use std::io::{ErrorKind, Read, Write};
use std::sync::Arc;
use std::test::Fail;

/// The rows of the tests' books.
pub type Rows = RecordList<Queued<Outbound>>;

/// Three letters outside of blocks before each of two admissions, of which the first requests an accept acknowledgment and
/// the second both.
pub const STREAM: &str =
    "xyz\x0bMSH|^~\\&|REG|HOSP|ENG|HUB|20231114221300||ADT^A01^ADT_A01|M1|P|2.5.1|||AL|NE\rPID|1||77^^^H\r\x1c\rxyz\x0bMSH|^~\\&|REG|HOSP|ENG|HUB|20231114221300||ADT^A01^ADT_A01|M3|P|2.5.1|||AL|AL\rPID|1||77^^^H\r\x1c\r";

/// Where the two blocks end.
pub const ENDS: [usize; 2] = [97, 194];

/// Their acknowledgments: one of the first, two of the second.
pub const REPLIES: [&str; 2] = [
    "\x0bMSH|^~\\&|ENG|HUB|REG|HOSP|20231114221320+0000||ACK^A01^ACK|0.1|P|2.5.1|||NE|NE\rMSA|CA|M1\r\x1c\r",
    "\x0bMSH|^~\\&|ENG|HUB|REG|HOSP|20231114221320+0000||ACK^A01^ACK|0.2|P|2.5.1|||NE|NE\rMSA|CA|M3\r\x1c\r\x0bMSH|^~\\&|ENG|HUB|REG|HOSP|20231114221320+0000||ACK^A01^ACK|0.3|P|2.5.1|||NE|NE\rMSA|AA|M3\r\x1c\r",
];

/// Where a stream is cut.
#[derive(Clone, Copy)]
pub enum Cuts {
    /// At two places.
    At(usize, usize),
    /// Behind each byte.
    AtEachByte,
}

impl Cuts {
    /// The first place behind this one where the stream is cut, or the greatest number.
    fn behind(&self, at: usize) -> usize {
        match *self {
            Cuts::At(first, _) if at < first => first,
            Cuts::At(_, second) if at < second => second,
            Cuts::At(..) => usize::MAX,
            Cuts::AtEachByte => at.saturating_add(1),
        }
    }
}

/// A reader of a stream that is cut.
#[derive(Drop)]
pub struct Source<'a> {
    stream: &'a [u8],
    at: usize,
    cuts: Cuts,
}

impl Read for Source<'_> {
    fn read(&mut self, buf: &mut [u8]) -> io::Result<usize> {
        let rest = self.stream.get(self.at..).unwrap_or(&[]);
        let piece = self.cuts.behind(self.at).saturating_sub(self.at);
        let len = piece.min(rest.len()).min(buf.len());
        let (piece, _) = rest.split_at(len);
        buf[..len].copy_from_slice(piece);
        self.at = self.at.saturating_add(len);
        Ok(len)
    }
}

/// A writer that takes a limited number of bytes at one call, and none at one of its calls, counted from 1.
#[derive(Clone, Copy)]
pub struct Taking {
    pub most: usize,
    pub nothing_at: u32,
}

/// A writer that takes all bytes.
pub const ALL: Taking = Taking {
    most: 65_536,
    nothing_at: 0,
};

/// Such a writer, and what it took.
#[derive(Drop)]
struct Sink {
    taking: Taking,
    calls: u32,
    bytes: Vec<u8>,
}

impl Write for Sink {
    fn write(&mut self, buf: &[u8]) -> io::Result<usize> {
        self.calls = self.calls.saturating_add(1);
        if self.calls == self.taking.nothing_at {
            return Ok(0);
        }
        let len = buf.len().min(self.taking.most);
        if self.bytes.extend_from_slice(&buf[..len]).is_err() {
            return Err(io::Error::from(ErrorKind::OutOfMemory));
        }
        Ok(len)
    }

    fn flush(&mut self) -> io::Result<()> {
        Ok(())
    }
}

/// The result of serving a connection.
#[derive(Drop)]
pub struct Served {
    pub report: ServeReport,
    pub written: Vec<u8>,
    /// How many faults the reader had, and how many the writer had.
    pub faults: (u64, u64),
    /// How many entries were booked.
    pub booked: usize,
}

impl Served {
    /// Whether this was written, with this many messages booked, and serving ended so.
    pub fn wrote(&self, due: &[u8], booked: usize, end: ServeEnd, faults: (u64, u64)) -> bool {
        self.written.as_slice() == due
            && (self.report.receipts.len(), self.booked) == (booked, booked)
            && (self.report.end, self.faults) == (end, faults)
    }
}

/// The built-in plan.
pub(crate) fn built_in(rt: &HostRuntime) -> Result<Arc<Plan>, Fail> {
    Ok(Arc::new(rt.alloc(), Plan::built_in(rt.alloc())?)?)
}

/// An empty book of a plan.
fn empty_book<S: BookRows>(rt: &HostRuntime, plan: &Arc<Plan>) -> Result<Book<S>, Fail> {
    let hasher = RandomState::new(rt)?;
    Ok(Book::new(rt.alloc(), Arc::try_clone(plan)?, EVENTS_MAX, hasher))
}

/// Serves a stream from a book, at 14 November 2023, 22:13:20 UTC.
fn serve_from<S: BookRows>(
    alloc: Global,
    book: &mut Book<S>,
    source: Source<'_>,
    taking: Taking,
) -> Served {
    let mut reader = Counted::new(source);
    let mut writer = Counted::new(Sink {
        taking,
        calls: 0,
        bytes: Vec::new(alloc),
    });
    let (conn, channel) = (0, 0);
    book.plan().rules();
    let report: ServeReport = serve_within(
        &ConnectionId {
            alloc,
            conn,
            channel,
        },
        book,
        &mut reader,
        &mut writer,
        &mut Still(nearest(1_700_000_000)),
        TURNS_MAX,
    );
    let faults = (reader.faults(), writer.faults());
    Served {
        report,
        written: writer.into_inner().bytes,
        faults,
        booked: book.len(),
    }
}

/// Serves a stream that is cut so, from an empty book of a plan, to a writer.
pub(crate) fn serve(
    rt: &HostRuntime,
    plan: &Arc<Plan>,
    stream: &[u8],
    cuts: Cuts,
    taking: Taking,
) -> Result<Served, Fail> {
    let mut book = empty_book::<Rows>(rt, plan)?;
    let at = 0;
    Ok(serve_from(rt.alloc(), &mut book, Source { stream, at, cuts }, taking))
}

/// Takes all events to come.
fn drain(framer: &mut Framer, events: &mut Vec<FrameEvent>) -> Result<(), AllocError> {
    for _ in 0..u64::MAX {
        let Some(event) = framer.next() else {
            break;
        };
        events.push(event)?;
    }
    Ok(())
}

/// Feeds a piece, and takes the events that it brings.
fn feed(framer: &mut Framer, events: &mut Vec<FrameEvent>, piece: &[u8]) -> Result<(), FrameFault> {
    framer.feed(piece)?;
    drain(framer, events)?;
    Ok(())
}

/// The events of a stream that is cut so.
pub(crate) fn events_of(
    alloc: Global,
    stream: &[u8],
    cuts: Cuts,
) -> Result<Vec<FrameEvent>, FrameFault> {
    let mut events = Vec::new(alloc);
    let mut framer = Framer::new(alloc);
    let mut at = 0;
    for _ in 0..=stream.len() {
        let end = cuts.behind(at).min(stream.len());
        if let Some(piece) = stream.get(at..end) {
            feed(&mut framer, &mut events, piece)?;
        }
        at = end;
    }
    Ok(events)
}
