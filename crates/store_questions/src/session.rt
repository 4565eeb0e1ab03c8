//! Commands are read and answered one by one.

use crate::answers::answer;
use book_core::BookRows;
use service_answers::echo_text;
use service_commands::{Input, Refused, read_command, read_line};
use service_store::StoppedBook;
use std::alloc::{AllocError, Global};
use std::io;
use std::io::{Read, Write};
use thiserror::Error;

/// The most bytes of a line that is a command.
const LINE_BYTES: usize = 4_096;

/// Why questions are answered no further.
#[derive(Clone, Copy, Debug, Error)]
pub enum AskError {
    /// An allocation was refused.
    #[error("out of memory")]
    NoMemory,
    /// The commands can't be read.
    #[error("standard input can't be read: {0}")]
    Read(io::Error),
    /// The answers can't be written.
    #[error("standard output can't be written: {0}")]
    Write(io::Error),
}

impl From<AllocError> for AskError {
    fn from(_: AllocError) -> AskError {
        AskError::NoMemory
    }
}

/// The answer to a line, behind a line that repeats it.
fn answered<B: BookRows>(
    alloc: Global,
    stopped: &StoppedBook<B>,
    line: &[u8],
) -> Result<String, AllocError> {
    let mut text = echo_text(alloc, line)?;
    text.push_str(&answer(alloc, stopped, read_command(line))?)?;
    Ok(text)
}

/// The answer to what was read, nothing at the end of the reader.
fn answer_to<B: BookRows>(
    alloc: Global,
    stopped: &StoppedBook<B>,
    input: Input,
    buffer: &[u8],
) -> Result<Option<String>, AllocError> {
    match input {
        Input::End => Ok(None),
        Input::Line(len) => match buffer.get(..len) {
            Some(line) => Ok(Some(answered(alloc, stopped, line)?)),
            None => Ok(None),
        },
        Input::TooLong => Ok(Some(format!(in alloc;
            "> ..\n{}",
            Refused("the line is longer than a command")
        )?)),
    }
}

/// Answers the commands of a reader, each a line, until its end.
///
/// # Errors
///
/// Where reading, writing or memory fails.
pub fn ask<B: BookRows, R: Read, W: Write>(
    alloc: Global,
    stopped: &StoppedBook<B>,
    commands: &mut R,
    answers: &mut W,
) -> Result<(), AskError> {
    let mut buffer = [0u8; LINE_BYTES];
    'lines: for _ in 0..u64::MAX {
        let input = match read_line(commands, &mut buffer) {
            Ok(input) => input,
            Err(error) => return Err(AskError::Read(error)),
        };
        let Some(text) = answer_to(alloc, stopped, input, &buffer)? else {
            return Ok(());
        };
        match answers
            .write_all(text.as_bytes())
            .and_then(|()| answers.flush())
        {
            Ok(()) => {}
            Err(error) => return Err(AskError::Write(error)),
        }
    }
    Ok(())
}
