//! Plays connections that are served from a book: a line is a call, and is written with its result below it. Empty lines and
//! those that begin with `#` are written as they are. They are answered as the program's `answer` does, by `answer_stream`;
//! where a script sets a bound of reads and events, by `serve_within`.

mod exchange;
mod pieces;
mod script;
mod shown;

use anyhow::{Result, bail};
use exchange::Exchange;
use play_script::is_call;
use script::call_of;
use std::str;

/// Writes a line, and what comes of its call.
fn play_line(rt: &HostRuntime, exchange: &mut Exchange, line: &str) -> Result<()> {
    println!(rt; "{line}")?;
    if !is_call(line) {
        return Ok(());
    }
    let Some(call) = call_of(line) else {
        bail!("it is no call");
    };
    print!(rt; "{}", exchange.play(rt, call)?)?;
    Ok(())
}

/// Plays lines, one after another.
fn play_all(rt: &HostRuntime, exchange: &mut Exchange, lines: &[Vec<u8>]) -> Result<()> {
    for line in lines {
        play_line(rt, exchange, str::from_utf8(line)?)?;
    }
    Ok(())
}

/// Plays lines, beginning with an empty book of the built-in plan.
///
/// # Errors
///
/// Where a line is no call, or memory is refused.
pub(crate) fn play(rt: &HostRuntime, lines: &[Vec<u8>]) -> Result<()> {
    let mut exchange = Exchange::new(rt, "built-in")?;
    play_all(rt, &mut exchange, lines)
}
