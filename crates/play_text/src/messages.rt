//! Plays calls on one message: its text, its header, its acknowledgments, conditions and steps. A line is a call, and is
//! written with its answer. Empty lines and those that begin with `#` are written as they are.

mod acks;
mod rules;
mod text;

use anyhow::Result;
use play_script::is_call;
use rules::Rules;
use std::str;

/// Writes a line, with the answer to its call.
fn play_line(rt: &HostRuntime, rules: &mut Rules, line: &str) -> Result<()> {
    if is_call(line) {
        println!(rt; "{line} => {}", rules.play(line)?)?;
    } else {
        println!(rt; "{line}")?;
    }
    Ok(())
}

/// Plays lines, one after another.
fn play_all(rt: &HostRuntime, rules: &mut Rules, lines: &[Vec<u8>]) -> Result<()> {
    for line in lines {
        play_line(rt, rules, str::from_utf8(line)?)?;
    }
    Ok(())
}

/// Plays lines on a message that is a header alone.
///
/// # Errors
///
/// Where a line is no call, or memory is refused.
pub(crate) fn play(rt: &HostRuntime, lines: &[Vec<u8>]) -> Result<()> {
    let mut rules = Rules::new(rt.alloc())?;
    play_all(rt, &mut rules, lines)
}
