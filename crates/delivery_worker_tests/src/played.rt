//! A destination that is played from a script, and a clock that leaps.

ghost use Rattle.std.specs.Prelude.{◌≡◌, true, Some};
ghost use Rattle.conn_worker.specs.Faults.{with_fault};

use book_core::Job;
use conn_worker::{Clock, nearest};
use delivery_worker::{Halt, Link, LinkFault, Reply};
use dest_queue::{Outcome, SlotState};
use hl7_head::Moment;
use std::alloc::Global;
use std::cell::Cell;
use std::time::Duration;
use std::{io, time};

/// What a destination does at one attempt.
#[derive(Clone, Copy, Debug)]
pub enum Play {
    /// It takes no connection.
    Down,
    /// It takes the message, and sends this before it is at its end.
    Says(&'static str),
    /// It takes the message, and sends this a byte at a time before it is at its end.
    Drips(&'static str),
    /// It takes the message, and sends this byte for ever.
    Hums(u8),
    /// It takes the message, and then nothing can be received.
    Breaks,
    /// It takes no message.
    Unsent,
    /// It takes the message, and ends the connection, of which it tells.
    Ends,
}

/// A link to a destination that does one thing after another.
#[derive(Drop)]
pub struct Played<'a> {
    plays: &'a [Play],
    saying: &'static [u8],
    humming: Option<u8>,
    dripping: bool,
    breaking: bool,
    ending: bool,
    /// Whether a connection is open.
    connected: bool,
    /// Whether a connection that is kept for a further message is seen to have ended.
    pub closes_when_kept: bool,
    /// What was sent.
    pub sent: Vec<u8>,
    /// How many connections were opened.
    pub connections: u32,
    /// How often bytes were asked for.
    pub receives: u64,
    /// What the answers to the last attempt said, and the state of its message then.
    pub told: Option<(Reply, Option<SlotState>)>,
    faults: u64,
}

impl<'a> Played<'a> {
    /// With nothing done yet.
    pub fn new(alloc: Global, plays: &'a [Play]) -> Played<'a> {
        Played {
            plays,
            saying: b"",
            humming: None,
            dripping: false,
            breaking: false,
            ending: false,
            connected: false,
            closes_when_kept: false,
            sent: Vec::new(alloc),
            connections: 0,
            receives: 0,
            told: None,
            faults: 0,
        }
    }

    /// What is to be done next.
    fn next(&mut self) -> Option<Play>
        ensures { (self.new.faults ≡ self.old.faults) × (self.new.sent ≡ self.old.sent) }
    {
        let (first, rest) = self.plays.split_first()?;
        self.plays = rest;
        Some(*first)
    }

    /// Counts a fault.
    fn fault(&mut self) -> LinkFault
        ensures { (self.new.faults ≡ with_fault true self.old.faults) × (self.new.sent ≡ self.old.sent) }
    {
        self.connected = false;
        self.faults = self.faults.saturating_add(1);
        LinkFault
    }
}

impl Link for Played<'_> {
    ghost fault_count = { λ link. link.faults };

    ghost sent = { λ link. Some link.sent.items };

    ghost leads_to = { λ _. 0 };

    fn connect(&mut self) -> Result<(), LinkFault> {
        self.saying = b"";
        self.humming = None;
        self.dripping = false;
        self.breaking = false;
        self.ending = false;
        if let Some(Play::Down) = self.plays.first() {
            let _down = self.next();
            return Err(self.fault());
        }
        self.connections = self.connections.saturating_add(1);
        self.connected = true;
        Ok(())
    }

    fn prepare(&mut self) -> Result<(), LinkFault> {
        if self.connected && self.is_open() {
            self.saying = b"";
            return Ok(());
        }
        match self.connect() {
            Ok(()) => Ok(()),
            Err(fault) => Err(fault),
        }
    }

    fn is_open(&mut self) -> bool {
        !self.closes_when_kept
    }

    fn was_ended(&self) -> bool {
        self.ending
    }

    fn settled(&mut self, _job: &Job, reply: Reply, _outcome: Outcome, state: Option<SlotState>) {
        self.told = Some((reply, state));
    }

    fn send(&mut self, bytes: &[u8]) -> Result<(), LinkFault> {
        match self.next() {
            Some(Play::Says(text)) => self.saying = text.as_bytes(),
            Some(Play::Drips(text)) => {
                self.saying = text.as_bytes();
                self.dripping = true;
            }
            Some(Play::Breaks) => self.breaking = true,
            Some(Play::Hums(byte)) => self.humming = Some(byte),
            Some(Play::Ends) => self.ending = true,
            Some(Play::Down | Play::Unsent) | None => return Err(self.fault()),
        }
        match self.sent.extend_from_slice(bytes) {
            Ok(()) => Ok(()),
            Err(_) => Err(self.fault()),
        }
    }

    fn receive(&mut self, buffer: &mut [u8]) -> Result<usize, LinkFault> {
        self.receives = self.receives.saturating_add(1);
        if self.breaking {
            return Err(self.fault());
        }
        if let Some(byte) = self.humming
            && let Some(first) = buffer.first_mut()
        {
            *first = byte;
            return Ok(1);
        }
        let most = if self.dripping { 1 } else { buffer.len() };
        let len = self.saying.len().min(buffer.len()).min(most);
        let (piece, rest) = self.saying.split_at(len);
        buffer[..len].copy_from_slice(piece);
        self.saying = rest;
        self.connected = len > 0;
        Ok(len)
    }

    fn faults(&self) -> u64 {
        self.faults
    }
}

/// A halt, or a hold, after a number of looks.
#[derive(Drop)]
pub struct Looks {
    left: Cell<u32>,
    left_until_held: Cell<u32>,
}

/// Whether no look is left. Each look takes one.
fn is_over(left: &Cell<u32>) -> bool {
    let looks = left.get();
    left.set(looks.saturating_sub(1));
    looks == 0
}

impl Looks {
    /// A halt with this many looks before it.
    pub fn new(looks: u32) -> Looks {
        Looks {
            left: Cell::new(looks),
            left_until_held: Cell::new(u32::MAX),
        }
    }

    /// A hold of each queue with this many looks before it, and no halt.
    pub fn held_after(looks: u32) -> Looks {
        Looks {
            left: Cell::new(u32::MAX),
            left_until_held: Cell::new(looks),
        }
    }
}

impl Halt for Looks {
    fn is_halted(&self) -> bool {
        is_over(&self.left)
    }

    fn is_held(&self, _d: u32) -> bool {
        is_over(&self.left_until_held)
    }
}

/// A clock that leaps by a number of seconds at each look.
#[derive(Drop)]
pub struct Leaping {
    pub seconds: u64,
    pub leap: u64,
}

impl Clock for Leaping {
    fn now(&mut self) -> Moment {
        let moment = nearest(self.seconds);
        self.seconds = self.seconds.saturating_add(self.leap);
        moment
    }
}

/// A system whose clock is set back by an hour each time it is read, while the monotonic clock goes on by twenty and a half
/// seconds each time.
#[derive(Drop)]
pub struct SetBack {
    looks: Cell<u32>,
}

impl SetBack {
    /// With no clock read yet.
    pub fn new() -> SetBack {
        SetBack {
            looks: Cell::new(0),
        }
    }

    /// Counts a look.
    fn look(&self) -> u32 {
        let looks = self.looks.get().saturating_add(1);
        self.looks.set(looks);
        looks
    }
}

impl time::Clock for SetBack {
    fn monotonic(&self) -> io::Result<Duration> {
        Ok(Duration::from_millis(20_500).saturating_mul(self.look()))
    }

    fn since_1970(&self) -> io::Result<Duration> {
        let back = Duration::from_secs(3_600).saturating_mul(self.look());
        Ok(Duration::from_secs(1_000_000).saturating_sub(back))
    }
}
