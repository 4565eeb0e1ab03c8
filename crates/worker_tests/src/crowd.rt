//! A door through which senders with many messages each come, and links to destinations that accept whatever they are sent.

ghost use Rattle.std.specs.Prelude.{◌≡◌, true};
ghost use Rattle.conn_worker.specs.Faults.{with_fault};

use delivery_worker::{Link, LinkFault};
use engine_workers::{Door, DoorFault, Incoming};
use std::alloc::{AllocError, Global};
use std::io;
use std::io::{Read, Write};

/// How many messages each sender has.
pub const MESSAGES: u32 = 50;

/// What a message begins with, as a block, before its control id.
const BEFORE_ID: &str = "\x0bMSH|^~\\&|REG|HOSP|ENG|HUB|20231114221300||ADT^A01^ADT_A01|";

/// What follows its control id.
const BEHIND_ID: &str = "|P|2.5.1|||AL|NE\rPID|1||77^^^H\r\x1c\r";

/// How many bytes a control id has.
const ID_LEN: usize = 5;

/// How many bytes a message has as a block.
pub const BLOCK: usize = BEFORE_ID.len() + ID_LEN + BEHIND_ID.len();

/// What an acceptance begins with, before the control id of the message.
const ACCEPTED: &str =
    "\x0bMSH|^~\\&|LAB|HOSP|ENG|HUB|20231114221301||ACK^A01^ACK|1|P|2.5.1\rMSA|AA|";

/// Appends a message of a sender, as a block.
fn push_message(stream: &mut Vec<u8>, sender: u32, number: u32) -> Result<(), AllocError> {
    let id = format!(in *stream.allocator(); "M{sender}{}", number.saturating_add(100))?;
    stream.extend_from_slice(BEFORE_ID.as_bytes())?;
    stream.extend_from_slice(id.as_bytes())?;
    stream.extend_from_slice(BEHIND_ID.as_bytes())
}

/// All messages of a sender, each with a control id of its own.
pub(crate) fn stream_of(alloc: Global, sender: u32) -> Result<Vec<u8>, AllocError> {
    let mut stream = Vec::new(alloc);
    for number in 0..MESSAGES {
        push_message(&mut stream, sender, number)?;
    }
    Ok(stream)
}

/// The acknowledgments of all messages of a sender, over the connection with its number, by a clock
/// that is at the first moment.
pub(crate) fn replies_to(alloc: Global, sender: u32) -> Result<Vec<u8>, AllocError> {
    let mut replies = Vec::new(alloc);
    for number in 0..MESSAGES {
        let (nth, id) = (number.saturating_add(1), number.saturating_add(100));
        let reply = format!(in alloc;
            "\x0bMSH|^~\\&|ENG|HUB|REG|HOSP|19700101000000+0000||ACK^A01^ACK|{sender}.{nth}|P|2.5.1|||NE|NE\rMSA|CA|M{sender}{id}\r\x1c\r"
        )?;
        replies.extend_from_slice(reply.as_bytes())?;
    }
    Ok(replies)
}

/// A door for as many connections as there are streams.
#[derive(Drop)]
pub struct Entrance<'a> {
    streams: &'a [Vec<u8>],
}

impl<'a> Entrance<'a> {
    /// With no connection opened.
    pub fn new(streams: &'a [Vec<u8>]) -> Entrance<'a> {
        Entrance { streams }
    }
}

impl<'a> Door for Entrance<'a> {
    type Reader = Stream<'a>;

    type Writer = Sink;

    ghost fault_count = { λ _. 0 };

    ghost channel = { λ _. 0 };

    fn open(&mut self) -> Result<(Stream<'a>, Sink), DoorFault> {
        let Some((first, rest)) = self.streams.split_first() else {
            return Err(DoorFault::NoMemory);
        };
        self.streams = rest;
        Ok((Stream { rest: first }, Sink))
    }

    fn faults(&self) -> u64 {
        0
    }
}

/// What a connection is read by.
#[derive(Drop)]
pub struct Stream<'a> {
    rest: &'a [u8],
}

impl Read for Stream<'_> {
    fn read(&mut self, buf: &mut [u8]) -> io::Result<usize> {
        let len = self.rest.len().min(buf.len());
        let (piece, rest) = self.rest.split_at(len);
        buf[..len].copy_from_slice(piece);
        self.rest = rest;
        Ok(len)
    }
}

impl Incoming for Stream<'_> {
    ghost channel = { λ _. 0 };

    fn channel(&self) -> u32 {
        0
    }
}

/// What a connection is written by.
#[derive(Clone, Copy)]
pub struct Sink;

impl Write for Sink {
    fn write(&mut self, buf: &[u8]) -> io::Result<usize> {
        Ok(buf.len())
    }

    fn flush(&mut self) -> io::Result<()> {
        Ok(())
    }
}

/// A link to a destination that accepts each message.
#[derive(Drop)]
pub struct Agreeing {
    /// The index of the destination.
    destination: u32,
    saying: Vec<u8>,
    said: usize,
    faults: u64,
}

/// The acceptance of the message of a block. None where the block is no such message, or memory is refused.
pub(crate) fn acceptance(alloc: Global, block: &[u8]) -> Option<Vec<u8>> {
    let behind = block.strip_prefix(BEFORE_ID.as_bytes())?;
    let (id, rest) = behind.split_at_checked(ID_LEN)?;
    if rest != BEHIND_ID.as_bytes() {
        return None;
    }
    let mut answer = Vec::from_slice(alloc, ACCEPTED.as_bytes()).ok()?;
    answer.extend_from_slice(id).ok()?;
    answer.extend_from_slice(b"\r\x1c\r").ok()?;
    Some(answer)
}

impl Agreeing {
    /// To the destination at this index, with nothing sent.
    pub fn new(alloc: Global, destination: u32) -> Agreeing
        ensures { result.destination ≡ destination }
    {
        Agreeing {
            destination,
            saying: Vec::new(alloc),
            said: 0,
            faults: 0,
        }
    }

    /// Counts a fault.
    fn fault(&mut self) -> LinkFault
        ensures faults { self.new.faults ≡ with_fault true self.old.faults }
        ensures same { self.new.destination ≡ self.old.destination }
    {
        self.faults = self.faults.saturating_add(1);
        LinkFault
    }
}

impl Link for Agreeing {
    ghost fault_count = { λ link. link.faults };

    ghost leads_to = { λ link. link.destination };

    fn connect(&mut self) -> Result<(), LinkFault> {
        Ok(())
    }

    fn send(&mut self, bytes: &[u8]) -> Result<(), LinkFault> {
        match acceptance(*self.saying.allocator(), bytes) {
            Some(answer) => {
                self.saying = answer;
                self.said = 0;
                Ok(())
            }
            None => Err(self.fault()),
        }
    }

    fn receive(&mut self, buffer: &mut [u8]) -> Result<usize, LinkFault> {
        let rest = self.saying.get(self.said..).unwrap_or(&[]);
        let len = rest.len().min(buffer.len());
        let (piece, _) = rest.split_at(len);
        buffer[..len].copy_from_slice(piece);
        self.said = self.said.saturating_add(len);
        Ok(len)
    }

    fn faults(&self) -> u64 {
        self.faults
    }
}
