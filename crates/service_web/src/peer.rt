//! The connections of those who ask.

use crate::door::{Door, PEERS_MAX, SOCKETS};
use libc::net as c;
use libc::types::pollfd;
use service_http::HEAD_BYTES;
use std::alloc::{AllocError, Global};
use std::io;
use std::io::{ErrorKind, Read, Write};
use std::net::{Shutdown, TcpStream};
use std::os::fd::AsRawFd;

/// How long one wait for the sockets takes at most, in milliseconds.
const LOOK_MILLIS: i32 = 100;

/// How long a peer may take to send a request, in milliseconds.
const REQUEST_MILLIS: u64 = 5_000;

/// How long a peer may take to read an answer, in milliseconds.
const ANSWER_MILLIS: u64 = 10_000;

/// How long what a peer still sends is read and dropped behind an answer, so that the answer isn't lost, in milliseconds.
const DRAIN_MILLIS: u64 = 1_000;

/// How many bytes are read at once.
const PIECE_BYTES: usize = 4_096;

/// What a connection is at.
#[derive(Clone, Copy, PartialEq, Eq)]
pub(crate) enum Step {
    /// Its request is read.
    Reading,
    /// Its answer is written.
    Writing,
    /// What it still sends is dropped.
    Draining,
}

/// What a step with a connection leaves.
#[derive(Clone, Copy, PartialEq, Eq)]
pub(crate) enum Next {
    /// The connection goes on once its socket is ready.
    Wait,
    /// More of its request has arrived.
    Arrived,
    /// The connection ends.
    End,
}

/// A connection.
#[derive(Drop)]
pub(crate) struct Peer {
    stream: TcpStream,
    /// What it has sent.
    pub(crate) input: Vec<u8>,
    /// Its answer.
    output: Vec<u8>,
    /// How much of the answer is written.
    sent: usize,
    pub(crate) step: Step,
    /// When it ends, in milliseconds of the monotonic clock.
    deadline: u64,
}

/// Whether a call failed only for now.
fn is_passing(error: &io::Error) -> bool {
    error.kind() == ErrorKind::WouldBlock || error.kind() == ErrorKind::Interrupted
}

/// What follows a call that failed.
fn next_after(error: &io::Error) -> Next {
    if is_passing(error) {
        Next::Wait
    } else {
        Next::End
    }
}

impl Peer {
    /// A connection that was accepted at a moment in milliseconds of the monotonic clock.
    fn new(alloc: Global, stream: TcpStream, now: u64) -> Self {
        Peer {
            stream,
            input: Vec::new(alloc),
            output: Vec::new(alloc),
            sent: 0,
            step: Step::Reading,
            deadline: now.saturating_add(REQUEST_MILLIS),
        }
    }

    /// Whether its time has passed.
    pub(crate) fn is_late(&self, now: u64) -> bool {
        now >= self.deadline
    }

    /// Reads what has arrived of its request.
    pub(crate) fn read_some(&mut self) -> Next {
        let mut piece = [0u8; PIECE_BYTES];
        let room = HEAD_BYTES.saturating_sub(self.input.len()).min(PIECE_BYTES);
        match (&self.stream).read(&mut piece[..room]) {
            Ok(0) => Next::End,
            Ok(count) => match self.input.extend_from_slice(&piece[..count.min(room)]) {
                Ok(()) => Next::Arrived,
                Err(AllocError) => Next::End,
            },
            Err(error) => next_after(&error),
        }
    }

    /// Begins to write an answer.
    pub(crate) fn begin_answer(&mut self, output: Vec<u8>, now: u64) {
        self.output = output;
        self.step = Step::Writing;
        self.deadline = now.saturating_add(ANSWER_MILLIS);
    }

    /// Writes as much of its answer as the socket takes.
    pub(crate) fn write_some(&mut self, now: u64) -> Next {
        match (&self.stream).write(self.output.get(self.sent..).unwrap_or(b"")) {
            Ok(0) => return Next::End,
            Ok(count) => self.sent = self.sent.saturating_add(count),
            Err(error) => return next_after(&error),
        }
        if self.sent >= self.output.len() {
            let _ = self.stream.shutdown(Shutdown::Write);
            self.step = Step::Draining;
            self.deadline = now.saturating_add(DRAIN_MILLIS);
        }
        Next::Wait
    }

    /// Reads and drops what it still sends.
    pub(crate) fn drop_some(&mut self) -> Next {
        let mut piece = [0u8; PIECE_BYTES];
        match (&self.stream).read(&mut piece) {
            Ok(0) => Next::End,
            Ok(_) => Next::Wait,
            Err(error) => next_after(&error),
        }
    }
}

/// What an attempt to accept gives.
pub(crate) enum Accepted {
    /// A connection.
    Peer(Peer),
    /// No connection waits.
    Nothing,
    /// The system lacks something for one.
    Lacking,
}

/// The next connection that waits at the listener.
pub(crate) fn accept(alloc: Global, door: &Door, now: u64) -> Accepted {
    match door.listener.accept() {
        Ok((stream, _)) => {
            if stream.set_nonblocking(true).is_err() {
                return Accepted::Lacking;
            }
            let _ = stream.set_nodelay(true);
            Accepted::Peer(Peer::new(alloc, stream, now))
        }
        Err(error) if is_passing(&error) => Accepted::Nothing,
        Err(_) => Accepted::Lacking,
    }
}

/// What a socket is waited for.
fn waited(descriptor: i32, events: i16) -> pollfd {
    pollfd {
        fd: descriptor,
        events,
        revents: 0,
    }
}

/// Waits until a socket is ready, a tenth of a second at most. The listener is waited for where `is_open`.
pub(crate) fn wait(door: &Door, is_open: bool, peers: &[Peer]) {
    let mut sockets = [waited(-1, 0); SOCKETS];
    let (listener, others) = sockets.split_at_mut(SOCKETS - PEERS_MAX);
    if is_open {
        listener[0] = waited(door.listener.as_raw_fd(), c::POLLIN);
    }
    for (socket, peer) in others.iter_mut().zip(peers) {
        let events = if peer.step == Step::Writing {
            c::POLLOUT
        } else {
            c::POLLIN
        };
        *socket = waited(peer.stream.as_raw_fd(), events);
    }
    let _ = c::poll(&mut sockets, LOOK_MILLIS);
}
