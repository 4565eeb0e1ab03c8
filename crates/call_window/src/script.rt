//! How a script is played: its parts one after the other, each of which begins with values of its own.

use crate::Window;
use anyhow::Result;
use std::io;

/// What a line begins with that begins a part; the part's name follows.
pub const PART: &str = "=== ";

/// The values that the calls of a part are made on.
pub trait Stage {
    /// The answer to a call.
    ///
    /// # Errors
    ///
    /// Where the words are no call of the part, standard output can't be written, or memory is refused outside of the call's own
    /// requests.
    fn answer(&mut self, rt: &HostRuntime, window: &Window<'_>, call: &str) -> Result<String>;
}

/// The whole of standard input.
///
/// # Errors
///
/// Where it can't be read, is no UTF-8, or memory is refused.
pub fn script(rt: &HostRuntime) -> Result<String> {
    Ok(io::read_to_string(rt.alloc(), rt.reader())?)
}

/// The name of a part, and its lines.
pub fn named(part: &str) -> (&str, &str) {
    part.split_once('\n').unwrap_or((part, ""))
}

/// Writes a line, with the answer to its call.
fn play_line<S: Stage>(rt: &HostRuntime, stage: &mut S, line: &str) -> Result<()> {
    if line.is_empty() || line.starts_with('#') {
        println!(rt; "{line}")?;
        return Ok(());
    }
    let call = line.strip_prefix("try ").unwrap_or(line);
    let window = Window::new(rt, line.starts_with("try "));
    let answer = stage.answer(rt, &window, call)?;
    println!(rt; "{line}: {answer}")?;
    Ok(())
}

/// Plays the lines of a part: a line of standard output is a line and its answer. Behind `try `, a call is made between the lines
/// `begin` and `end`, which tell a library that refuses requests for memory which of them are the call's.
///
/// # Errors
///
/// Where a line is no call, standard output can't be written, or memory is refused outside of the calls' own requests.
pub fn play<S: Stage>(rt: &HostRuntime, stage: &mut S, lines: &str) -> Result<()> {
    for line in lines.lines() {
        play_line(rt, stage, line)?;
    }
    Ok(())
}
