//! Plays calls on the book: a line is a call, and is written with its answer. Empty lines and those that begin with `#` are
//! written as they are.

mod call;
mod shown;
mod stage;

use anyhow::Result;
use book_core::EVENTS_MAX;
use play_script::is_call;
use stage::Stage;
use std::str;

/// Writes a line, with the answer to its call.
fn play_line(rt: &HostRuntime, stage: &mut Stage, line: &str) -> Result<()> {
    if is_call(line) {
        println!(rt; "{line}: {}", stage.play(rt, line)?)?;
    } else {
        println!(rt; "{line}")?;
    }
    Ok(())
}

/// Plays lines, one after another.
fn play_all(rt: &HostRuntime, stage: &mut Stage, lines: &[Vec<u8>]) -> Result<()> {
    for line in lines {
        play_line(rt, stage, str::from_utf8(line)?)?;
    }
    Ok(())
}

/// Plays lines, beginning with an empty book of the built-in plan.
///
/// # Errors
///
/// Where a line is no call, or memory is refused.
pub(crate) fn play(rt: &HostRuntime, lines: &[Vec<u8>]) -> Result<()> {
    let mut stage = Stage::open(rt, "built-in", EVENTS_MAX)?;
    play_all(rt, &mut stage, lines)
}
