//! Readers and writers that fail, are interrupted, or take little.

use std::alloc::Global;
use std::io;
use std::io::{ErrorKind, Read, Write};

/// Where a stream is cut into pieces.
#[derive(Clone, Copy, Debug)]
pub enum Cut {
    Nowhere,
    AtEachByte,
    BehindEachEnd,
}

pub const CUTS: [Cut; 3] = [Cut::Nowhere, Cut::AtEachByte, Cut::BehindEachEnd];

/// What a device does at one of its calls in place of its work. Calls count from 1.
#[derive(Clone, Copy, Debug, PartialEq, Eq)]
pub enum Mishap {
    None,
    Fails { at: u32 },
    /// Each call is interrupted once.
    Interrupts,
    /// A flush fails.
    FlushFails,
    /// A write takes nothing.
    TakesNothing,
}

/// A reader of a stream in pieces.
#[derive(Drop)]
pub struct Source<'a> {
    pub rest: &'a [u8],
    pub cut: Cut,
    pub mishap: Mishap,
    pub calls: u32,
}

impl<'a> Source<'a> {
    /// A reader of this stream that was not called yet.
    pub fn new(rest: &'a [u8], devices: Devices) -> Source<'a> {
        Source {
            rest,
            cut: devices.cut,
            mishap: devices.reading,
            calls: 0,
        }
    }

    /// The most bytes that the next piece has.
    fn piece_len(&self) -> usize {
        match self.cut {
            Cut::Nowhere => self.rest.len(),
            Cut::AtEachByte => 1,
            Cut::BehindEachEnd => match self.rest.iter().position(|b| *b == 0x1C) {
                Some(at) => at + 1,
                None => self.rest.len(),
            },
        }
    }
}

impl Read for Source<'_> {
    fn read(&mut self, buf: &mut [u8]) -> io::Result<usize> {
        self.calls = self.calls.saturating_add(1);
        if self.mishap == (Mishap::Fails { at: self.calls }) {
            return Err(io::Error::from(ErrorKind::ConnectionReset));
        }
        if self.mishap == Mishap::Interrupts && self.calls % 2 == 1 {
            return Err(io::Error::from(ErrorKind::Interrupted));
        }
        let len = self.piece_len().min(self.rest.len()).min(buf.len());
        let (piece, rest) = self.rest.split_at(len);
        buf[..len].copy_from_slice(piece);
        self.rest = rest;
        Ok(len)
    }
}

/// A writer that takes a limited number of bytes at one call.
#[derive(Drop)]
pub struct Sink {
    pub bytes: Vec<u8>,
    pub most: usize,
    pub flushed: usize,
    pub mishap: Mishap,
    pub calls: u32,
}

impl Sink {
    /// A writer that was not called yet.
    pub fn new(alloc: Global, devices: Devices) -> Sink {
        Sink {
            bytes: Vec::new(alloc),
            most: devices.most,
            flushed: 0,
            mishap: devices.writing,
            calls: 0,
        }
    }
}

impl Write for Sink {
    fn write(&mut self, buf: &[u8]) -> io::Result<usize> {
        self.calls = self.calls.saturating_add(1);
        if self.mishap == (Mishap::Fails { at: self.calls }) {
            return Err(io::Error::from(ErrorKind::BrokenPipe));
        }
        if self.mishap == Mishap::TakesNothing {
            return Ok(0);
        }
        if self.mishap == Mishap::Interrupts && self.calls % 2 == 1 {
            return Err(io::Error::from(ErrorKind::Interrupted));
        }
        let len = buf.len().min(self.most);
        if self.bytes.extend_from_slice(&buf[..len]).is_err() {
            return Err(io::Error::from(ErrorKind::OutOfMemory));
        }
        Ok(len)
    }

    fn flush(&mut self) -> io::Result<()> {
        self.calls = self.calls.saturating_add(1);
        if self.mishap == Mishap::FlushFails {
            return Err(io::Error::from(ErrorKind::BrokenPipe));
        }
        if self.mishap == Mishap::Interrupts && self.calls % 2 == 1 {
            return Err(io::Error::from(ErrorKind::Interrupted));
        }
        self.flushed = self.bytes.len();
        Ok(())
    }
}

/// How the devices of a run behave.
#[derive(Clone, Copy)]
pub struct Devices {
    pub cut: Cut,
    pub reading: Mishap,
    /// The most bytes that one write takes.
    pub most: usize,
    pub writing: Mishap,
}

/// Devices that do at once what they are asked.
pub const SMOOTH: Devices = Devices {
    cut: Cut::Nowhere,
    reading: Mishap::None,
    most: 65_536,
    writing: Mishap::None,
};
