//! The runtime that writes a line for each record.

use crate::outbox::{Outbox, Rank};
use crate::repeats::{KINDS_MAX, Repeats, Summary};
use crate::text::{Line, Part};
use jiff::Timestamp;
use log::kv::{Error, Source, Value, VisitSource};
use log::span::Spans;
use log::{Level, LevelFilter, Log, Metadata, Record};
use std::fmt::{Display, Write};
use std::sync::{Mutex, Wait};
use std::time::Clock;

/// The target of records of which each is shown, however often their kind is logged.
const ALWAYS: &str = "always";

/// The first state of the hash of a kind, and its multiplier (FNV-1a, 64 bits).
const HASH_START: u64 = 0xCBF2_9CE4_8422_2325;

const HASH_FACTOR: u64 = 0x0000_0100_0000_01B3;

/// A runtime that writes each record of level info and above as a line on standard error. Records of one kind within a minute
/// are counted and not shown: warnings, and what is said of a message, with the same text, channel, destination and
/// peer's host. What is merely said of connections and links is shown each time.
#[derive(Clone, Copy)]
pub struct Journal<'a, R> {
    pub(crate) rt: R,
    repeats: &'a Mutex<Repeats>,
    /// Where lines wait to be written; none where each is written at once.
    outbox: Option<&'a Outbox>,
}

/// The fields of a record, as they are written, and those that decide its kind.
struct Fields {
    /// All fields.
    all: Line,
    /// The fields by which kinds are distinguished.
    place: Line,
    control_id: Part,
}

impl Fields {
    fn new() -> Self {
        Fields {
            all: Line::new(),
            place: Line::new(),
            control_id: Part::of(""),
        }
    }
}

/// The text of a value.
fn written<D: Display>(value: Value<'_, D>) -> Line {
    let mut line = Line::new();
    let _ = write!(line, "{value}");
    line
}

/// The host of a peer's address: what is before its port.
fn host(address: &str) -> &str {
    match address.rsplit_once(':') {
        Some((host, _port)) => host,
        None => address,
    }
}

impl VisitSource for Fields {
    fn visit_pair<D: Display>(&mut self, key: &str, value: Value<'_, D>) -> Result<(), Error> {
        let text = written(value);
        let text = text.as_str();
        let _ = write!(self.all, " {key}={text}");
        match key {
            "channel" | "destination" => {
                let _ = write!(self.place, " {key}={text}");
            }
            "peer" => {
                let host = host(text);
                let _ = write!(self.place, " {key}={host}");
            }
            "control_id" => self.control_id = Part::of(text),
            _ => {}
        }
        Ok(())
    }
}

/// The name of a level, as lines have it.
fn level_name(level: Level) -> &'static str {
    match level {
        Level::Error => "ERROR",
        Level::Warn => "WARN",
        _ => "INFO",
    }
}

/// What a record of a level is worth where not all of them can be kept.
fn rank_of(level: Level) -> Rank {
    match level {
        Level::Error | Level::Warn => Rank::Warning,
        _ => Rank::Info,
    }
}

/// A number for the kind of a record.
fn kind_of(head: &str) -> u64 {
    let mut hash = HASH_START;
    for byte in head.as_bytes() {
        hash = (hash ^ u64::from(*byte)).wrapping_mul(HASH_FACTOR);
    }
    hash
}

impl<'a, R: Clock + Wait + Eprint> Journal<'a, R> {
    /// A journal over the system's runtime, which writes each line at once. What was shown a short while ago is kept in
    /// `repeats`.
    pub fn new(rt: R, repeats: &'a Mutex<Repeats>) -> Self {
        Journal {
            rt,
            repeats,
            outbox: None,
        }
    }

    /// A journal whose lines are put into an outbox: a caller that logs never waits for the reader of standard error.
    pub fn buffered(rt: R, repeats: &'a Mutex<Repeats>, outbox: &'a Outbox) -> Self {
        Journal {
            rt,
            repeats,
            outbox: Some(outbox),
        }
    }

    /// Seconds of the monotonic clock; 0 where it can't be read.
    fn seconds(&self) -> u64 {
        match self.rt.monotonic() {
            Ok(since) => since.as_secs(),
            Err(_) => 0,
        }
    }

    /// Writes a line, or puts it into the outbox.
    fn put<D: Display + Drop>(&self, rank: Rank, text: D) {
        match self.outbox {
            None => {
                let _ = self.rt.eprintln(text);
            }
            Some(outbox) => {
                let mut line = Line::new();
                let _ = write!(line, "{text}");
                outbox.put(&self.rt, rank, line);
            }
        }
    }

    /// Writes a line, with the time before it.
    fn write(&self, rank: Rank, text: &str) {
        let seconds = match self.rt.since_1970() {
            Ok(since) => i64::try_from(since.as_secs()).unwrap_or(0),
            Err(_) => 0,
        };
        match Timestamp::from_second(seconds) {
            Ok(time) => self.put(rank, format_args!("{time} {text}")),
            Err(_) => self.put(rank, text),
        }
    }

    /// Writes how many records of a kind were not shown, and the first and the last control id among them.
    fn write_summary(&self, summary: &Summary) {
        let Summary {
            head,
            hidden,
            first,
            last,
        } = summary;
        let mut line = Line::new();
        let _ = if first.as_str().is_empty() {
            write!(line, "{head} repeated={hidden}")
        } else {
            write!(
                line,
                "{head} repeated={hidden} first_control_id={first} last_control_id={last}"
            )
        };
        self.write(Rank::Repeats, line.as_str());
    }

    /// Writes what is due of the records that were not shown.
    fn write_due(&self, at_the_end: bool) {
        let now = self.seconds();
        for _ in 0..KINDS_MAX {
            let due = self.repeats.lock(&self.rt).due(now, at_the_end);
            match due {
                Some(summary) => self.write_summary(&summary),
                None => return,
            }
        }
    }

    /// Writes how many records were not shown so far, of each kind of which some were not.
    pub fn finish(&self) {
        self.write_due(true);
    }

    /// Whether a record is shown: one of the target `always`, and one of level info that names no message, each time, another
    /// by its kind.
    fn shows<D, K, S>(&self, record: &Record<'_, D, K, S>, head: &str, control_id: Part) -> bool {
        let names_none = control_id.as_str().is_empty();
        if record.target() == ALWAYS || (record.level() == Level::Info && names_none) {
            return true;
        }
        let (key, now, head) = (kind_of(head), self.seconds(), Part::of(head));
        self.repeats
            .lock(&self.rt)
            .shows(key, now, &head, control_id)
    }
}

impl<R: Clock + Wait + Eprint> Log for Journal<'_, R> {
    fn enabled(&self, metadata: &Metadata<'_>) -> bool {
        LevelFilter::Info.allows(metadata.level())
    }

    fn log<D: Display, K: Source, S: Spans>(&self, record: &Record<'_, D, K, S>) {
        if !LevelFilter::Info.allows(record.level()) {
            return;
        }
        self.write_due(false);
        let (level, text) = (level_name(record.level()), record.args());
        let mut fields = Fields::new();
        let _ = record.key_values().visit(&mut fields);
        let Fields {
            all,
            place,
            control_id,
        } = fields;
        let mut head = Line::new();
        let _ = write!(head, "{level} {text}{place}");
        if self.shows(record, head.as_str(), control_id) {
            let mut line = Line::new();
            let _ = write!(line, "{level} {text}{all}");
            self.write(rank_of(record.level()), line.as_str());
        }
    }

    fn flush(&self) {
        self.write_due(false);
    }

    fn target(&self) -> &str {
        ""
    }
}
