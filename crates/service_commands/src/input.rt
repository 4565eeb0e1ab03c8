//! The lines of standard input, read without any request for memory.

ghost use Rattle.std.specs.Prelude.{◌≡◌, ◌∷◌, [], ◌++◌, List, ℕ, IfOk, MatchOption, MatchResult, OnErr, length};
ghost use Rattle.std.specs.Io.KnownBytes.{Consumes, IsAtEnd};
ghost use Rattle.service_commands.specs.inner.Reading.{HasReadPart, Holds, Reads, at_end, ended};

use std::io;
use std::io::{ErrorKind, Read};

/// What was read of a line.
#[derive(Clone, Copy, Debug, PartialEq, Eq)]
pub enum Input {
    /// A line of this many bytes, which are the first of the buffer.
    Line(usize),
    /// A line with more bytes than the buffer has room for. The whole line was read.
    TooLong,
    /// Nothing: the reader is at its end.
    End,
}

/// The bytes of a line so far.
#[derive(Clone, Copy)]
enum Held {
    /// The count of its bytes, which are the first of the buffer.
    Within(usize),
    /// More than the buffer has room for.
    Over,
}

impl Held {
    /// What is held with one byte more.
    fn with(self, buffer: &mut [u8], byte: u8) -> Held
        ensures holds { (bytes : List ℕ) → Holds self buffer.old bytes → Holds result buffer.new (bytes ++ byte ∷ []) }
        ensures room { length buffer.new ≡ length buffer.old }
    {
        match self {
            Held::Within(len) if len < buffer.len() => {
                buffer[len] = byte;
                Held::Within(len + 1)
            }
            _ => Held::Over,
        }
    }

    /// What a line feed makes of them.
    fn ended(self) -> Input
        ensures { result ≡ ended self }
    {
        match self {
            Held::Within(len) => Input::Line(len),
            Held::Over => Input::TooLong,
        }
    }

    /// What the reader's end makes of them.
    fn at_end(self) -> Input
        ensures { result ≡ at_end self }
    {
        match self {
            Held::Within(0) => Input::End,
            held => held.ended(),
        }
    }
}

/// The next byte, if one is left. A read that is interrupted is made again.
fn read_byte<R: Read>(reader: &mut R) -> io::Result<Option<u8>>
    ensures { MatchResult result
        (λ byte. MatchOption byte (Consumes (R.remaining reader.old) (R.remaining reader.new) [] × IsAtEnd (R.remaining reader.new))
        (λ b. Consumes (R.remaining reader.old) (R.remaining reader.new) (b ∷ [])))
        (λ _. Consumes (R.remaining reader.old) (R.remaining reader.new) []) }
{
    let mut one = [0u8; 1];
    'again: for _ in 0..u64::MAX {
        match reader.read(&mut one) {
            Ok(0) => return Ok(None),
            Ok(_) => return Ok(Some(one[0])),
            Err(error) if error.kind() == ErrorKind::Interrupted => {}
            Err(error) => return Err(error),
        }
    }
    Err(io::Error::from(ErrorKind::Interrupted))
}

/// Reads the next line into the beginning of `buffer`, without the line feed that ends it. The reader's end ends a
/// line too. No byte behind the line is read, and no memory is requested.
///
/// # Errors
///
/// Where the reader fails. The bytes of the line that were read before are lost; no whole line is.
pub fn read_line<R: Read>(reader: &mut R, buffer: &mut [u8]) -> io::Result<Input>
    ensures reads { IfOk result (λ input. Reads (R.remaining reader.old) (R.remaining reader.new) buffer.new input) }
    ensures failed { OnErr result (HasReadPart (R.remaining reader.old) (R.remaining reader.new)) }
    ensures room { length buffer.new ≡ length buffer.old }
{
    let mut held = Held::Within(0);
    'bytes: for _ in 0..u64::MAX {
        match read_byte(reader)? {
            None => return Ok(held.at_end()),
            Some(b'\n') => return Ok(held.ended()),
            Some(byte) => held = held.with(buffer, byte),
        }
    }
    Err(io::Error::from(ErrorKind::Interrupted))
}
