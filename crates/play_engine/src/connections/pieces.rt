//! A stream that comes in pieces.

use crate::connections::script::Cut;
use memchr::memchr;
use std::io;
use std::io::Read;

/// A reader of a stream in pieces.
#[derive(Drop)]
pub struct Pieces<'a> {
    pub rest: &'a [u8],
    pub cut: Cut,
}

/// The most bytes that the next piece has.
fn piece_len(rest: &[u8], cut: Cut) -> usize {
    match cut {
        Cut::Nowhere => rest.len(),
        Cut::AtEachByte => 1,
        Cut::BehindEachEnd => match memchr(0x1C, rest) {
            Some(at) => at.saturating_add(1),
            None => rest.len(),
        },
    }
}

impl Read for Pieces<'_> {
    fn read(&mut self, buf: &mut [u8]) -> io::Result<usize> {
        let len = piece_len(self.rest, self.cut)
            .min(self.rest.len())
            .min(buf.len());
        let (piece, rest) = self.rest.split_at(len);
        buf[..len].copy_from_slice(piece);
        self.rest = rest;
        Ok(len)
    }
}
