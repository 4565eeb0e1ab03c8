//! Plays a script of calls over linked rows, one of which may be refused memory: a line of standard input is a call, and a line of
//! standard output is that line and its answer. Behind `try `, a call is made between the lines `begin` and `end`, which tell a
//! library that refuses requests for memory which of them are the call's. A line `=== NAME` begins a part, with values of its own.
//!
//! The part `worlds`, of steps of the whole engine on one thread:
//!
//! - `world PLAN EVENTS CONNECTIONS`: a world of the plan in a file, which may book EVENTS entries, with CONNECTIONS connections
//!   on channel 0.
//! - `chunk CONN MOMENT BYTES`: a piece of its stream comes on a connection.
//! - `take D MOMENT`, `settle NUMBER D ATTEMPT OUTCOME MOMENT`, `cancel NUMBER`, `deploy PLAN` and `prune BEFORE`: such a step.
//! - `steps`: how many steps the history of the book comes by.
//! - `state`: all that the book shows, and what each connection was sent.
//!
//! The part `shared`, on a shared book of the plan in the file three.toml. At its end the book is closed and its receipts are
//! audited, and the last line tells what it holds.
//!
//! - `arrive TEXT`: a text arrives on channel 0, judged by the plan in force. `serve BYTES`: a connection that brings these bytes.
//! - `take D MOMENT`, `settle NUMBER D ATTEMPT OUTCOME MOMENT`, `cancel NUMBER`, `deploy PLAN` and `prune BEFORE`.
//! - `deliver D`: what waits for a destination is delivered to it.
//! - `queued D` and `find ID`: the messages of a queue, and those with a control id.
//! - `state`: all that the shared book shows.
#![tactic(auto)]

mod devices;
mod share;
mod shared;
mod shown;
mod worlds;

use anyhow::{Result, bail};
use call_window::script::{PART, named, play, script};
use log::Log;
use share::play_shared;
use std::sync::Wait;
use std::time::Clock;
use worlds::Worlds;

/// Plays steps of a world.
fn play_worlds(rt: &HostRuntime, lines: &str) -> Result<()> {
    let mut worlds = Worlds::new(rt)?;
    play(rt, &mut worlds, lines)
}

/// Plays a part of the script.
fn play_part<H: Wait + Clock + Log>(rt: &H, host: &HostRuntime, part: &str) -> Result<()> {
    let (name, lines) = named(part);
    println!(host; "{PART}{name}")?;
    match name {
        "worlds" => play_worlds(host, lines),
        "shared" => play_shared(rt, host, lines),
        _ => bail!("{name} is no part"),
    }
}

fn main(rt: HostRuntime) -> Result<()> {
    let script = script(&rt)?;
    for part in script.split(PART).skip(1) {
        play_part(&rt, &rt, part)?;
    }
    Ok(())
}
