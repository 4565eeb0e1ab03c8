//! Lines on their way to standard error, in a buffer.

use crate::text::Line;
use libc::net as c;
use libc::types::pollfd;
use std::alloc::{AllocError, Global};
use std::collections::VecDeque;
use std::sync::{Condvar, Mutex, Wait};
use std::time::{Clock, Duration};

/// The most lines that wait to be written, each of at most 1,000 bytes.
pub const LINES_MAX: usize = 1_024;

/// The descriptor of standard error.
const STANDARD_ERROR: i32 = 2;

/// How many milliseconds one look waits for the reader of standard error.
const LOOK_MILLIS: i32 = 100;

/// How many looks are made after the end, so that a reader that doesn't read is waited for a second at most.
const LAST_LOOKS: u32 = 10;

/// How many milliseconds the writer waits for a line at most.
const NAP: u64 = 250;

/// What a line is worth where not all of them can be kept.
#[derive(Clone, Copy, Debug, PartialEq, Eq)]
pub enum Rank {
    /// It is of level info.
    Info,
    /// It counts repeated records.
    Repeats,
    /// It is a warning, as that a message failed, was refused or was not booked.
    Warning,
}

/// A line, with its number in the order of all lines.
#[derive(Clone, Copy)]
struct Numbered {
    number: u64,
    line: Line,
}

/// What waits to be written.
#[derive(Drop)]
struct Waiting {
    infos: VecDeque<Numbered>,
    repeats: VecDeque<Numbered>,
    warnings: VecDeque<Numbered>,
    /// How many lines were put in.
    count: u64,
    /// How many lines were dropped since the last one that was written.
    dropped: u64,
    is_ended: bool,
}

/// Lines that wait to be written to standard error by a thread of its own: where its reader doesn't read, nobody else is
/// stopped. Where there is no room, lines of level info are dropped first, then those that count repeated records, the oldest
/// of them first, and then warnings, the latest first. What is dropped is counted.
#[derive(Drop)]
pub struct Outbox {
    waiting: Mutex<Waiting>,
    bell: Condvar,
}

/// What is to be done next.
#[derive(Clone, Copy)]
pub enum Next {
    /// A line is to be written, after the number of those that were dropped before it.
    Write(Line, u64),
    /// Nothing waits at this time.
    Nothing,
    /// Nothing waits, and no line will follow.
    End,
}

/// The number of the line that a queue begins with, if it has one.
fn first_number(queue: &VecDeque<Numbered>) -> Option<u64> {
    Some(queue.front()?.number)
}

/// Whether a number is the smaller one, where there are both.
fn is_before(number: Option<u64>, other: Option<u64>) -> bool {
    match (number, other) {
        (Some(number), Some(other)) => number < other,
        (number, _) => number.is_some(),
    }
}

impl Waiting {
    /// How many lines wait.
    fn len(&self) -> usize {
        self.infos
            .len()
            .saturating_add(self.repeats.len())
            .saturating_add(self.warnings.len())
    }

    /// Drops the oldest line that is worth less than one of this rank. Whether there was one.
    fn drop_lesser(&mut self, rank: Rank) -> bool {
        let dropped = match rank {
            Rank::Info => None,
            Rank::Repeats => self.infos.pop_front(),
            Rank::Warning => match self.infos.pop_front() {
                None => self.repeats.pop_front(),
                line => line,
            },
        };
        dropped.is_some()
    }

    /// Adds a line, if there is room or a line that is worth less.
    fn put(&mut self, rank: Rank, line: Line) {
        if self.len() >= LINES_MAX {
            self.dropped = self.dropped.saturating_add(1);
            if !self.drop_lesser(rank) {
                return;
            }
        }
        self.count = self.count.saturating_add(1);
        let numbered = Numbered {
            number: self.count,
            line,
        };
        let queue = match rank {
            Rank::Info => &mut self.infos,
            Rank::Repeats => &mut self.repeats,
            Rank::Warning => &mut self.warnings,
        };
        let _ = queue.push_back(numbered);
    }

    /// Takes the oldest line.
    fn take_oldest(&mut self) -> Option<Numbered> {
        let (info, repeats, warning) = (
            first_number(&self.infos),
            first_number(&self.repeats),
            first_number(&self.warnings),
        );
        if is_before(info, repeats) && is_before(info, warning) {
            self.infos.pop_front()
        } else if is_before(repeats, warning) {
            self.repeats.pop_front()
        } else {
            self.warnings.pop_front()
        }
    }

    /// What is to be done next.
    fn next(&mut self) -> Next {
        match self.take_oldest() {
            Some(Numbered { line, .. }) => {
                let dropped = self.dropped;
                self.dropped = 0;
                Next::Write(line, dropped)
            }
            None if self.is_ended => Next::End,
            None => Next::Nothing,
        }
    }
}

/// Whether standard error takes a line without waiting, or fails at once, within 100 milliseconds.
fn is_writable() -> bool {
    let mut asked = [pollfd {
        fd: STANDARD_ERROR,
        events: c::POLLOUT,
        revents: 0,
    }];
    c::poll(&mut asked, LOOK_MILLIS) > 0
}

impl Outbox {
    /// An outbox without lines. All memory that it will need is requested here.
    ///
    /// # Errors
    ///
    /// Where memory is refused.
    pub fn new(alloc: Global) -> Result<Self, AllocError> {
        Ok(Outbox {
            waiting: Mutex::new(Waiting {
                infos: VecDeque::with_capacity(alloc, LINES_MAX)?,
                repeats: VecDeque::with_capacity(alloc, LINES_MAX)?,
                warnings: VecDeque::with_capacity(alloc, LINES_MAX)?,
                count: 0,
                dropped: 0,
                is_ended: false,
            }),
            bell: Condvar::new(),
        })
    }

    /// Adds a line. Where too many wait already, a line that is worth less is dropped, or this one, and counted.
    pub fn put<H: Wait>(&self, rt: &H, rank: Rank, line: Line) {
        self.waiting.lock(rt).put(rank, line);
        self.bell.notify_one();
    }

    /// Notes that no line will follow, so that [`write_all`](Self::write_all) ends.
    pub fn end<H: Wait>(&self, rt: &H) {
        self.waiting.lock(rt).is_ended = true;
        self.bell.notify_one();
    }

    /// What is to be done next, after a short while at most.
    pub fn next<H: Wait + Clock>(&self, rt: &H) -> Next {
        let mut waiting = self.waiting.lock(rt);
        match waiting.next() {
            Next::Nothing => {
                let (mut woken, _) = self
                    .bell
                    .wait_timeout(rt, waiting, Duration::from_millis(NAP));
                woken.next()
            }
            next => next,
        }
    }

    /// Whether it was noted that no line will follow.
    fn is_ended<H: Wait>(&self, rt: &H) -> bool {
        self.waiting.lock(rt).is_ended
    }

    /// Waits until standard error takes a line; after the end for a second at most. Returns whether it does.
    fn wait_for_reader<H: Wait>(&self, rt: &H) -> bool {
        let mut last_looks: u32 = 0;
        for _ in rt.forever() {
            if is_writable() {
                return true;
            }
            if self.is_ended(rt) {
                last_looks = last_looks.saturating_add(1);
            }
            if last_looks >= LAST_LOOKS {
                return false;
            }
        }
        false
    }

    /// Writes the lines that are logged, until the end is noted and none waits, or their reader no longer reads.
    pub fn write_all<H: Wait + Clock + Eprint>(&self, rt: &H) {
        for _ in rt.forever() {
            match self.next(rt) {
                Next::Write(line, dropped) => {
                    if !self.wait_for_reader(rt) {
                        return;
                    }
                    if dropped > 0 {
                        let _ = rt.eprintln(format_args!(
                            "{dropped} lines of the log were dropped, nobody read them"
                        ));
                    }
                    let _ = rt.eprintln(line.as_str());
                }
                Next::Nothing => {}
                Next::End => return,
            }
        }
    }
}
