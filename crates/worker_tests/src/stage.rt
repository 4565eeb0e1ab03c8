//! Doors, connections and links that wait for one another, so that workers that don't run at the same time get stuck.

ghost use Rattle.std.specs.Prelude.{◌≡◌, true};
ghost use Rattle.conn_worker.specs.Faults.{with_fault};

use delivery_worker::{Link, LinkFault};
use engine_workers::{Door, DoorFault, Incoming};
use std::io::{ErrorKind, Read, Write};
use std::sync::atomic::{AtomicBool, Ordering};
use std::{io, thread};

/// The message of connection 0 as a block, which is booked second.
pub const FIRST: &str =
    "\x0bMSH|^~\\&|REG|HOSP|ENG|HUB|20231114221300||ADT^A01^ADT_A01|M0|P|2.5.1|||AL|NE\rPID|1||77^^^H\r\x1c\r";

/// The message of connection 1 as a block, which is booked first.
pub const SECOND: &str =
    "\x0bMSH|^~\\&|REG|HOSP|ENG|HUB|20231114221300||ADT^A01^ADT_A01|M1|P|2.5.1|||AL|NE\rPID|1||77^^^H\r\x1c\r";

/// What a destination answers to the message of connection 0.
const FIRST_ANSWER: &str =
    "\x0bMSH|^~\\&|LAB|HOSP|ENG|HUB|20231114221301||ACK^A01^ACK|1|P|2.5.1\rMSA|AA|M0\r\x1c\r";

/// What a destination answers to the message of connection 1.
const SECOND_ANSWER: &str =
    "\x0bMSH|^~\\&|LAB|HOSP|ENG|HUB|20231114221301||ACK^A01^ACK|2|P|2.5.1\rMSA|AA|M1\r\x1c\r";

/// Something that is waited for.
#[derive(Drop)]
pub struct Event {
    happened: AtomicBool,
}

impl Event {
    /// It didn't happen yet.
    fn new() -> Event {
        Event {
            happened: AtomicBool::new(false),
        }
    }

    /// Notes that it happened.
    fn happen(&self) {
        self.happened.store(true, Ordering::SeqCst);
    }

    /// Whether it happened so far.
    fn is_past(&self) -> bool {
        self.happened.load(Ordering::SeqCst)
    }
}

/// What happened so far.
#[derive(Drop)]
pub struct Stage {
    /// How often a worker looks for what it waits for, before it stops.
    turns: u64,
    /// The first read of connection 0 was asked for.
    asked: Event,
    /// The reply to connection 1 was written.
    replied: Event,
    /// Destination 1 answered the message of connection 1.
    answered: Event,
    /// The first send to each destination was asked for.
    sends: (Event, Event),
    /// The first receive from each destination was asked for.
    receives: (Event, Event),
    /// The door was closed.
    closed: Event,
    /// Memory is refused to the door.
    lacks_memory: bool,
    /// A worker gave up.
    gave_up: Event,
}

impl Stage {
    /// A stage on which nothing happened. A worker stops waiting after a number of turns. Memory is refused to the
    /// door where that is given.
    pub fn new(turns: u64, lacks_memory: bool) -> Stage {
        Stage {
            turns,
            lacks_memory,
            closed: Event::new(),
            asked: Event::new(),
            replied: Event::new(),
            answered: Event::new(),
            sends: (Event::new(), Event::new()),
            receives: (Event::new(), Event::new()),
            gave_up: Event::new(),
        }
    }

    /// Whether a worker waited in vain.
    pub fn is_stuck(&self) -> bool {
        self.gave_up.is_past()
    }

    /// Whether the door was closed.
    pub fn is_closed(&self) -> bool {
        self.closed.is_past()
    }

    /// Waits for an event. Whether it happened.
    fn wait(&self, event: &Event) -> bool {
        for _ in 0..self.turns {
            if event.is_past() {
                return true;
            }
            thread::yield_now();
        }
        self.gave_up.happen();
        false
    }

    /// Notes that one of two things happened, and waits for the other one.
    fn meet(&self, meeting: &(Event, Event), is_second: bool) -> bool {
        let (first, second) = meeting;
        let (mine, other) = if is_second {
            (second, first)
        } else {
            (first, second)
        };
        mine.happen();
        self.wait(other)
    }
}

/// A door for two connections. The second one comes once the first read of connection 0 was asked for.
#[derive(Drop)]
pub struct Gate<'a> {
    stage: &'a Stage,
    opened: u32,
    faults: u64,
}

impl<'a> Gate<'a> {
    /// With no connection opened.
    pub fn new(stage: &'a Stage) -> Gate<'a> {
        Gate {
            stage,
            opened: 0,
            faults: 0,
        }
    }
}

impl<'a> Door for Gate<'a> {
    type Reader = Source<'a>;

    type Writer = Sink<'a>;

    ghost fault_count = { λ door. door.faults };

    ghost channel = { λ _. 0 };

    fn open(&mut self) -> Result<(Source<'a>, Sink<'a>), DoorFault> {
        if self.stage.lacks_memory {
            return Err(DoorFault::NoMemory);
        }
        let conn = self.opened;
        self.opened = self.opened.saturating_add(1);
        if conn > 0 && !self.stage.wait(&self.stage.asked) {
            self.faults = self.faults.saturating_add(1);
            return Err(DoorFault::Device);
        }
        let block = if conn == 0 { FIRST } else { SECOND };
        let stage = self.stage;
        let source = Source {
            stage,
            conn,
            rest: block.as_bytes(),
        };
        Ok((source, Sink { stage, conn }))
    }

    fn close(&mut self) {
        self.stage.closed.happen();
    }

    fn faults(&self) -> u64 {
        self.faults
    }
}

/// What a connection is read by. Connection 0 sends its block once the reply to connection 1 was written; connection 1 ends
/// once destination 1 answered its message.
#[derive(Drop)]
pub struct Source<'a> {
    stage: &'a Stage,
    conn: u32,
    rest: &'static [u8],
}

impl Source<'_> {
    /// Whether there is something to be read now.
    fn is_ready(&self) -> bool {
        match (self.conn, self.rest.is_empty()) {
            (0, false) => {
                self.stage.asked.happen();
                self.stage.wait(&self.stage.replied)
            }
            (0, true) => true,
            (_, false) => true,
            (_, true) => self.stage.wait(&self.stage.answered),
        }
    }
}

impl Read for Source<'_> {
    fn read(&mut self, buf: &mut [u8]) -> io::Result<usize> {
        if !self.is_ready() {
            return Err(io::Error::from(ErrorKind::TimedOut));
        }
        let len = self.rest.len().min(buf.len());
        let (piece, rest) = self.rest.split_at(len);
        buf[..len].copy_from_slice(piece);
        self.rest = rest;
        Ok(len)
    }
}

impl Incoming for Source<'_> {
    ghost channel = { λ _. 0 };

    fn channel(&self) -> u32 {
        0
    }
}

/// What a connection is written by.
#[derive(Drop)]
pub struct Sink<'a> {
    stage: &'a Stage,
    conn: u32,
}

impl Write for Sink<'_> {
    fn write(&mut self, buf: &[u8]) -> io::Result<usize> {
        if self.conn == 1 {
            self.stage.replied.happen();
        }
        Ok(buf.len())
    }

    fn flush(&mut self) -> io::Result<()> {
        Ok(())
    }
}

/// A link to a destination that gets the message of connection 1, and then that of connection 0. Its first send ends once
/// one to the other destination was asked for, and its first receive likewise.
#[derive(Drop)]
pub struct Partner<'a> {
    stage: &'a Stage,
    is_second: bool,
    saying: &'static [u8],
    /// How many blocks were sent, each the right one.
    pub sent: u32,
    faults: u64,
}

impl<'a> Partner<'a> {
    /// With nothing sent.
    pub fn new(stage: &'a Stage, is_second: bool) -> Partner<'a>
        ensures { result.is_second ≡ is_second }
    {
        Partner {
            stage,
            is_second,
            saying: b"",
            sent: 0,
            faults: 0,
        }
    }

    /// Counts a fault.
    fn fault(&mut self) -> LinkFault
        ensures faults { self.new.faults ≡ with_fault true self.old.faults }
        ensures same { self.new.is_second ≡ self.old.is_second }
    {
        self.faults = self.faults.saturating_add(1);
        LinkFault
    }
}

impl Link for Partner<'_> {
    ghost use Rattle.std.specs.Prelude.{if◌then◌else◌};

    ghost fault_count = { λ link. link.faults };

    /// The second destination has index 1, and the first 0.
    ghost leads_to = { λ link. if link.is_second then 1 else 0 };

    fn connect(&mut self) -> Result<(), LinkFault> {
        Ok(())
    }

    fn send(&mut self, bytes: &[u8]) -> Result<(), LinkFault> {
        let is_first = self.sent == 0;
        let (block, answer) = if is_first {
            (SECOND, SECOND_ANSWER)
        } else {
            (FIRST, FIRST_ANSWER)
        };
        if bytes != block.as_bytes() {
            return Err(self.fault());
        }
        if is_first && !self.stage.meet(&self.stage.sends, self.is_second) {
            return Err(self.fault());
        }
        self.sent = self.sent.saturating_add(1);
        self.saying = answer.as_bytes();
        Ok(())
    }

    fn receive(&mut self, buffer: &mut [u8]) -> Result<usize, LinkFault> {
        let is_first = self.sent == 1;
        if is_first && !self.stage.meet(&self.stage.receives, self.is_second) {
            return Err(self.fault());
        }
        let len = self.saying.len().min(buffer.len());
        let (piece, rest) = self.saying.split_at(len);
        buffer[..len].copy_from_slice(piece);
        self.saying = rest;
        if is_first && self.is_second && rest.is_empty() {
            self.stage.answered.happen();
        }
        Ok(len)
    }

    fn faults(&self) -> u64 {
        self.faults
    }
}
