//! Plays a script of calls, one of which may be refused memory: a line of standard input is a call, and a line of standard
//! output is that line and its answer. Behind `try `, a call is made between the lines `begin` and `end`, which tell a library
//! that refuses requests for memory which of them are the call's. Bytes that aren't seen have names, as `<CR>`. A line `=== NAME`
//! begins a part, with values of its own.
//!
//! The part `calls`, on a message, a plan, streams and keys:
//!
//! - `message TEXT`, `clone`, `print`, `get PATH`, `set PATH VALUE`, `copy FROM TO`, `clear PATH`, `remove NAME`,
//!   `escape VALUE`, `unescape TEXT` and `path TEXT`: calls on a message.
//! - `header`, `msa` and `ack`: the message's header, its MSA and its acknowledgment.
//! - `plan FILE`: reads a plan. `holds` and `apply`: the filter and the steps of its first channel, on the message.
//!   `judge TEXT`: a message that comes on that channel.
//! - `feed BYTES`, and `events`: the next piece of a stream, and the events to come.
//! - `keys COUNT`: room for COUNT more keys. `key TEXT` adds a key, and `place TEXT` finds one.
//! - `state`: the message, and how many keys there are.
//!
//! The part `rows`, on a store of linked rows:
//!
//! - `rows COUNT`: a store of COUNT rows, each in the queues that follow from its number.
//! - `push`: one more row.
//! - `state`: how many rows there are, their items, and the front of each queue.
//! - `queues`: the rows of each queue, in order. The store is empty then.
//!
//! The part `books`, on a book with linked rows:
//!
//! - `book PLAN EVENTS`: an empty book of the plan in a file, which may hold EVENTS entries.
//! - `arrive TEXT`: a text arrives on channel 0, judged by the plan in force.
//! - `take D MOMENT`, `settle NUMBER D ATTEMPT OUTCOME MOMENT`, `cancel NUMBER`, `deploy PLAN` and `prune BEFORE`.
//! - `queued D` and `find ID`: the messages of a queue, and those with a control id.
//! - `log COUNT`: room for COUNT entries in an empty history. `fold COUNT`: an empty history is folded, with room for COUNT entries.
//! - `state`: all that the book shows.
#![tactic(auto)]

mod books;
mod calls;
mod heads;
mod plans;
mod rows;
mod stores;
mod texts;

use anyhow::{Result, bail};
use books::Books;
use call_window::script::{PART, named, play, script};
use calls::make_calls;
use rows::Rows;

/// Plays calls on a message, a plan, streams and keys.
fn play_calls(rt: &HostRuntime, lines: &str) -> Result<()> {
    let mut calls = make_calls(rt)?;
    play(rt, &mut calls, lines)
}

/// Plays calls on a book.
fn play_books(rt: &HostRuntime, lines: &str) -> Result<()> {
    let mut books = Books::new(rt)?;
    play(rt, &mut books, lines)
}

/// Plays a part of the script.
fn play_part(rt: &HostRuntime, part: &str) -> Result<()> {
    let (name, lines) = named(part);
    println!(rt; "{PART}{name}")?;
    match name {
        "calls" => play_calls(rt, lines),
        "rows" => play(rt, &mut Rows::new(rt.alloc()), lines),
        "books" => play_books(rt, lines),
        _ => bail!("{name} is no part"),
    }
}

fn main(rt: HostRuntime) -> Result<()> {
    let script = script(&rt)?;
    for part in script.split(PART).skip(1) {
        play_part(&rt, part)?;
    }
    Ok(())
}
