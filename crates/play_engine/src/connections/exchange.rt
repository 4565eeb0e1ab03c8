//! The book that connections are served from, what is received over the next one, and the results.

ghost use Rattle.std.specs.Prelude.{◌≤◌};

use crate::connections::pieces::Pieces;
use crate::connections::script::{Call, Coming, Cut, Setting};
use crate::connections::shown::{add_end, add_entries, add_receipts, payload_shown, replies_shown};
use crate::plans::plan_named;
use anyhow::{Result, bail};
use book_core::{Book, EVENTS_MAX, Outbound};
use conn_core::ConnectionId;
use conn_worker::{Counted, ServeReport, Still, TURNS_MAX, nearest, serve_within};
use dest_queue::Queued;
use engine_report::answer_stream;
use plan_text::Plan;
use play_script::bytes_of;
use record_list::RecordList;
use stat_count::DESTINATIONS;
use std::alloc::{AllocError, Global};
use std::hash::RandomState;
use std::mem;
use std::sync::Arc;

/// The moment of the acknowledgments where no other is asked for: 14 November 2023, 22:13:20 UTC.
const ANSWERED_AT: u64 = 1_700_000_000;

/// The book that connections are served from.
type EngineBook = Book<RecordList<Queued<Outbound>>>;

/// An empty book of a plan, which may hold a number of entries.
fn empty_book(rt: &HostRuntime, plan: &Arc<Plan>, events: u32) -> Result<EngineBook> {
    let hasher = RandomState::new(rt)?;
    let events = events.clamp(1, EVENTS_MAX);
    Ok(Book::new(rt.alloc(), Arc::try_clone(plan)?, events, hasher))
}

/// A book, the limits and the moment of its connections, and what comes by the next one.
#[derive(Drop)]
pub struct Exchange {
    alloc: Global,
    plan: Arc<Plan>,
    events: u32,
    clock: u64,
    bound: Option<u64>,
    stream: Vec<u8>,
    book: EngineBook,
}

impl Exchange {
    /// An exchange with an empty book of the plan of this name.
    ///
    /// # Errors
    ///
    /// Where there is no such plan, or memory is refused.
    pub(crate) fn new(rt: &HostRuntime, name: &str) -> Result<Exchange> {
        let alloc = rt.alloc();
        let plan = plan_named(rt, name)?;
        let book = empty_book(rt, &plan, EVENTS_MAX)?;
        Ok(Exchange {
            alloc,
            plan,
            events: EVENTS_MAX,
            clock: ANSWERED_AT,
            bound: None,
            stream: Vec::new(alloc),
            book,
        })
    }

    /// All begins anew, with the plan of this name.
    fn begin_with(&mut self, rt: &HostRuntime, name: &str) -> Result<()> {
        *self = Exchange::new(rt, name)?;
        Ok(())
    }

    /// Empties the book, which may hold a number of entries from now on.
    fn begin_within(&mut self, rt: &HostRuntime, events: u32) -> Result<()> {
        self.events = events;
        self.begin_anew(rt)
    }

    /// Empties the book.
    fn begin_anew(&mut self, rt: &HostRuntime) -> Result<()> {
        self.book = empty_book(rt, &self.plan, self.events)?;
        Ok(())
    }

    /// Executes a call, and returns its result as lines of text.
    ///
    /// # Errors
    ///
    /// Where the call can't be made, or memory is refused.
    pub(crate) fn play(&mut self, rt: &HostRuntime, call: Call<'_>) -> Result<String> {
        match call {
            Call::Serve(cut) => Ok(self.serve(cut)?),
            Call::Exchange => self.exchange(rt),
            Call::Take(destination) => Ok(self.taken(destination)?),
            Call::Set(setting) => self.set(rt, setting),
            Call::Come(coming) => Ok(self.come(coming)?),
        }
    }

    /// Sets what a connection is served by. Nothing is printed of it.
    fn set(&mut self, rt: &HostRuntime, setting: Setting<'_>) -> Result<String> {
        match setting {
            Setting::Plan(name) => self.begin_with(rt, name)?,
            Setting::Events(events) => self.begin_within(rt, events)?,
            Setting::Clock(seconds) => self.clock = seconds,
            Setting::Bound(bound) => self.bound = Some(bound),
        }
        Ok(String::new(self.alloc))
    }

    /// This is received over the next connection. Nothing is printed of it.
    fn come(&mut self, coming: Coming<'_>) -> Result<String, AllocError> {
        match coming {
            Coming::Admission(id, rest) => self.admit(id, rest),
            Coming::Text(text) => self.come_block(text),
            Coming::Bytes(text) => self.come_bytes(text),
            Coming::Letters(count) => self.come_letters(count),
        }?;
        Ok(String::new(self.alloc))
    }

    /// These bytes come.
    fn come_bytes(&mut self, text: &str) -> Result<(), AllocError> {
        let bytes = bytes_of(self.alloc, text)?;
        self.stream.extend_from_slice(&bytes)
    }

    /// A block with this text comes.
    fn come_block(&mut self, text: &str) -> Result<(), AllocError> {
        let block = format!(in self.alloc; "<VT>{text}<FS><CR>")?;
        self.come_bytes(block.as_str())
    }

    /// An admission of patient 77 comes, with this control id, and this behind its version.
    fn admit(&mut self, id: &str, rest: &str) -> Result<(), AllocError> {
        let text = format!(in self.alloc;
            "MSH|^~\\&|REG|HOSP|ENG|HUB|20231114221300||ADT^A01^ADT_A01|{id}|P|2.5.1{rest}<CR>PID|1||77^^^H<CR>"
        )?;
        self.come_block(text.as_str())
    }

    /// A number of letters is received.
    fn come_letters(&mut self, count: u32) -> Result<(), AllocError> {
        for _ in 0..count {
            self.stream.push(b'A')?;
        }
        Ok(())
    }

    /// Takes what was received over the next connection.
    fn take_stream(&mut self) -> Vec<u8> {
        mem::replace(&mut self.stream, Vec::new(self.alloc))
    }

    /// What comes of the stream, cut so.
    fn serve(&mut self, cut: Cut) -> Result<String, AllocError> {
        let stream = self.take_stream();
        self.served(cut, &stream)
    }

    /// What comes of the stream however it is cut, each time in a new book.
    fn exchange(&mut self, rt: &HostRuntime) -> Result<String> {
        let stream = self.take_stream();
        self.exchanged(rt, &stream)
    }

    /// What comes of a stream however it is cut, each time in a new book.
    fn exchanged(&mut self, rt: &HostRuntime, stream: &[u8]) -> Result<String> {
        let bytes = self.served_anew(rt, Cut::AtEachByte, stream)?;
        let ends = self.served_anew(rt, Cut::BehindEachEnd, stream)?;
        let whole = self.served_anew(rt, Cut::Nowhere, stream)?;
        all_same(bytes.as_str(), ends.as_str(), whole.as_str())?;
        Ok(whole)
    }

    /// What comes of a stream that is cut so, in a new book.
    fn served_anew(&mut self, rt: &HostRuntime, cut: Cut, stream: &[u8]) -> Result<String> {
        self.begin_anew(rt)?;
        Ok(self.served(cut, stream)?)
    }

    /// Serves a stream, and gives the replies, the report, the channel's counts and the slots of message 0.
    fn served(&mut self, cut: Cut, stream: &[u8]) -> Result<String, AllocError> {
        let mut text = self.told(cut, stream)?;
        self.add_counts(&mut text)?;
        self.add_slots(&mut text)?;
        Ok(text)
    }

    /// Serves a stream, and gives the replies and the report.
    fn told(&mut self, cut: Cut, stream: &[u8]) -> Result<String, AllocError> {
        match self.bound {
            Some(bound) => self.told_within(cut, stream, bound.min(TURNS_MAX)),
            None => self.answered(cut, stream),
        }
    }

    /// Answers a stream as the program does, and gives the replies and the report, with the entries of the book for receipts.
    fn answered(&mut self, cut: Cut, stream: &[u8]) -> Result<String, AllocError> {
        let alloc = self.alloc;
        let first = self.book.len();
        let mut reader = Counted::new(Pieces { rest: stream, cut });
        let mut writer = Counted::new(Vec::new(alloc));
        let mut clock = Still(nearest(self.clock));
        let report = answer_stream(alloc, &mut self.book, &mut reader, &mut writer, &mut clock);
        let mut text = replies_shown(alloc, &writer.into_inner())?;
        add_entries(&mut text, &self.book, first)?;
        add_end(&mut text, &report)?;
        Ok(text)
    }

    /// Serves a stream by a limited number of reads and events, and returns the replies and the report with its receipts.
    fn told_within(&mut self, cut: Cut, stream: &[u8], bound: u64) -> Result<String, AllocError>
        requires { bound ≤ TURNS_MAX }
    {
        let alloc = self.alloc;
        let mut reader = Counted::new(Pieces { rest: stream, cut });
        let mut writer = Counted::new(Vec::new(alloc));
        let mut clock = Still(nearest(self.clock));
        let (conn, channel) = (0, 0);
        self.book.plan().rules();
        let report: ServeReport = serve_within(
            &ConnectionId {
                alloc,
                conn,
                channel,
            },
            &mut self.book,
            &mut reader,
            &mut writer,
            &mut clock,
            bound,
        );
        let mut text = replies_shown(alloc, &writer.into_inner())?;
        add_receipts(&mut text, &report.receipts)?;
        add_end(&mut text, &report)?;
        Ok(text)
    }

    /// Adds what the channel counts.
    fn add_counts(&self, text: &mut String) -> Result<(), AllocError> {
        let counts = self.book.counts().channel(0);
        writeln!(
            text,
            "  received {}, filtered {}, accepted {}, refused {}, repeats {}",
            counts.received, counts.filtered, counts.accepted, counts.refused, counts.repeats
        )
    }

    /// Adds where message 0 goes, a destination a line.
    fn add_slots(&self, text: &mut String) -> Result<(), AllocError> {
        for destination in 0..DESTINATIONS {
            if let Some(state) = self.book.status(0, destination) {
                writeln!(text, "  message 0 at {destination}: {state:?}")?;
            }
        }
        Ok(())
    }

    /// What is to be sent to a destination, or why nothing is.
    fn taken(&mut self, destination: u32) -> Result<String, AllocError> {
        match self.book.take(destination, nearest(self.clock)) {
            Ok(job) => payload_shown(self.alloc, job.payload.as_slice()),
            Err(refusal) => format!(in self.alloc; "  {refusal:?}\n"),
        }
    }
}

/// Fails where what comes of a stream depends on how it is cut.
fn all_same(bytes: &str, ends: &str, whole: &str) -> Result<()> {
    if bytes != whole {
        bail!("cut at each byte otherwise:\n{bytes}");
    }
    if ends != whole {
        bail!("cut behind each end otherwise:\n{ends}");
    }
    Ok(())
}
