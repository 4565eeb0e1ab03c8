//! What a connection is read and written by, a destination that accepts whatever it is sent, and a
//! clock that leaps.

ghost use Rattle.std.specs.Prelude.{◌≡◌, IfOk, true};
ghost use Rattle.conn_worker.specs.Faults.{with_fault};

use conn_worker::{Clock, nearest};
use delivery_worker::{Link, LinkFault};
use hl7_head::Moment;
use std::alloc::{AllocError, Global};
use std::io;
use std::io::{ErrorKind, Read, Write};

/// How many bytes can be written, sent or answered with no further memory.
const ROOM: usize = 4_096;

/// Which field of a block is the control id of its message (MSH-10).
const CONTROL_ID: usize = 9;

/// What an acceptance begins with, before the control id of the message.
const ACCEPTED: &[u8] =
    b"\x0bMSH|^~\\&|LAB|HOSP|ENG|HUB|20231114221301||ACK^A01^ACK|1|P|2.5.1\rMSA|AA|";

/// What a connection is read by: all its bytes are there.
#[derive(Drop)]
pub struct Source<'a> {
    rest: &'a [u8],
}

impl<'a> Source<'a> {
    /// With no byte read yet.
    pub fn new(bytes: &'a [u8]) -> Source<'a> {
        Source { rest: bytes }
    }
}

impl Read for Source<'_> {
    fn read(&mut self, buf: &mut [u8]) -> io::Result<usize> {
        let len = self.rest.len().min(buf.len());
        let (piece, rest) = self.rest.split_at(len);
        buf[..len].copy_from_slice(piece);
        self.rest = rest;
        Ok(len)
    }
}

/// What a connection is written by.
#[derive(Drop)]
pub struct Sink {
    /// What was written.
    pub bytes: Vec<u8>,
}

impl Sink {
    /// With nothing written.
    ///
    /// # Errors
    ///
    /// Where memory is refused.
    pub fn new(alloc: Global) -> Result<Sink, AllocError> {
        Ok(Sink {
            bytes: Vec::with_capacity(alloc, ROOM)?,
        })
    }
}

impl Write for Sink {
    fn write(&mut self, buf: &[u8]) -> io::Result<usize> {
        if self.bytes.extend_from_slice(buf).is_err() {
            return Err(io::Error::from(ErrorKind::OutOfMemory));
        }
        Ok(buf.len())
    }

    fn flush(&mut self) -> io::Result<()> {
        Ok(())
    }
}

/// A link to a destination that accepts each message.
#[derive(Drop)]
pub struct Agreeing {
    /// The index of the destination.
    destination: u32,
    /// What was sent.
    pub sent: Vec<u8>,
    saying: Vec<u8>,
    said: usize,
    faults: u64,
}

impl Agreeing {
    /// To the destination at this index, with nothing sent.
    ///
    /// # Errors
    ///
    /// Where memory is refused.
    pub fn new(alloc: Global, destination: u32) -> Result<Agreeing, AllocError>
        ensures { IfOk result (λ link. link.destination ≡ destination) }
    {
        Ok(Agreeing {
            destination,
            sent: Vec::with_capacity(alloc, ROOM)?,
            saying: Vec::with_capacity(alloc, ROOM)?,
            said: 0,
            faults: 0,
        })
    }

    /// Notes what was sent, and says that it was accepted.
    fn accept(&mut self, bytes: &[u8]) -> Result<(), AllocError>
        ensures faults { self.new.faults ≡ self.old.faults }
        ensures same { self.new.destination ≡ self.old.destination }
    {
        self.sent.extend_from_slice(bytes)?;
        let id = bytes.split(|byte| *byte == b'|').nth(CONTROL_ID);
        self.said = 0;
        self.saying.clear();
        self.saying.extend_from_slice(ACCEPTED)?;
        self.saying.extend_from_slice(id.unwrap_or(b""))?;
        self.saying.extend_from_slice(b"\r\x1c\r")
    }

    /// Counts a fault.
    fn fault(&mut self) -> LinkFault
        ensures faults { self.new.faults ≡ with_fault true self.old.faults }
        ensures same { self.new.destination ≡ self.old.destination }
    {
        self.faults = self.faults.saturating_add(1);
        LinkFault
    }
}

impl Link for Agreeing {
    ghost fault_count = { λ link. link.faults };

    ghost leads_to = { λ link. link.destination };

    fn connect(&mut self) -> Result<(), LinkFault> {
        Ok(())
    }

    fn send(&mut self, bytes: &[u8]) -> Result<(), LinkFault> {
        match self.accept(bytes) {
            Ok(()) => Ok(()),
            Err(_) => Err(self.fault()),
        }
    }

    fn receive(&mut self, buffer: &mut [u8]) -> Result<usize, LinkFault> {
        let rest = self.saying.get(self.said..).unwrap_or(&[]);
        let len = rest.len().min(buffer.len());
        let (piece, _) = rest.split_at(len);
        buffer[..len].copy_from_slice(piece);
        self.said = self.said.saturating_add(len);
        Ok(len)
    }

    fn faults(&self) -> u64 {
        self.faults
    }
}

/// A clock that leaps by a number of seconds at each look.
#[derive(Drop)]
pub struct Leaping {
    seconds: u64,
}

impl Leaping {
    /// At a moment, in seconds since 1970.
    pub fn new(seconds: u64) -> Leaping {
        Leaping { seconds }
    }
}

impl Clock for Leaping {
    fn now(&mut self) -> Moment {
        let moment = nearest(self.seconds);
        self.seconds = self.seconds.saturating_add(20);
        moment
    }
}
