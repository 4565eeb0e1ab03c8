//! Plays steps of the whole engine on one thread: a line is a call, and is written with its result below it. Empty lines and
//! those that begin with `#` are written as they are. Words are between spaces. Bytes that aren't seen have names, as `<VT>`,
//! and `<>` is nothing. A moment is in seconds since 1970.
//!
//! - `world PLAN EVENTS CHANNEL,..`: a new world, of the plan `built-in` or of that in a file, which may book EVENTS
//!   entries, with a connection on each of these channels.
//!
//! Steps tell the entries that they added, and what connections were sent:
//!
//! - `chunk CONN MOMENT BYTES`: a piece of its stream comes on a connection.
//! - `letters CONN MOMENT COUNT`: a piece of COUNT letters is received.
//! - `pieces LEN CONN MOMENT BYTES`: these bytes come in pieces of a length, as one run of steps.
//! - `take D MOMENT`: the front of a destination's queue is taken.
//! - `settle NUMBER D ATTEMPT OUTCOME MOMENT`: an attempt is settled, as `delivered`, `again` or `rejected`.
//! - `cancel NUMBER` and `cancel NUMBER among D,..`: a message is cancelled wherever it waits, or among destinations.
//! - `deploy PLAN`: a plan is deployed, the one `built-in` or that in a file.
//! - `deploys COUNT PLAN`: a plan is deployed as often as this.
//! - `prune NUMBER`: the messages numbered below this are forgotten.
//! - `prunes COUNT NUMBER`: the messages numbered below this are forgotten, as often as this; the history is folded each time.
//!
//! A step that is refused adds no entry. A pruning adds none either: it tells whether the history was folded.
//!
//! Questions:
//!
//! - `output CONN` and `ended CONN`: all that a connection was sent, and whether it has ended.
//! - `slot NUMBER D`: the slot of a message at a destination.
//! - `channel CHANNEL` and `destination D`: what was counted there.
//! - `plan`: the plan in force.
//! - `entries`: how many entries there are.
//! - `steps`: the steps by which the history of the book comes.

mod shown;
mod stage;
mod words;

use anyhow::Result;
use play_script::is_call;
use stage::Stage;
use std::str;

/// Writes a line, and what comes of its call.
fn play_line(rt: &HostRuntime, stage: &mut Stage, line: &str) -> Result<()> {
    println!(rt; "{line}")?;
    if !is_call(line) {
        return Ok(());
    }
    print!(rt; "{}", stage.play(rt, line)?)?;
    Ok(())
}

/// Plays lines, one after another.
fn play_all(rt: &HostRuntime, stage: &mut Stage, lines: &[Vec<u8>]) -> Result<()> {
    for line in lines {
        play_line(rt, stage, str::from_utf8(line)?)?;
    }
    Ok(())
}

/// Plays lines, beginning with a world of the built-in plan without connections.
///
/// # Errors
///
/// Where a line is no call, or memory is refused.
pub(crate) fn play(rt: &HostRuntime, lines: &[Vec<u8>]) -> Result<()> {
    let mut stage = Stage::new(rt)?;
    play_all(rt, &mut stage, lines)
}
