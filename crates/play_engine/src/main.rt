//! Plays a script of the engine on one thread. A line `== NAME` names the player of the lines below it, and is written as
//! it is. Each player begins anew:
//!
//! - `connections`: connections that are served from a book.
//! - `worlds`: a world: the whole engine, step by step.
#![tactic(auto)]

mod connections;
mod plans;
mod worlds;

use anyhow::{Result, bail};
use play_script::{Part, read_parts};

/// Plays the lines of one player.
fn play_part(rt: &HostRuntime, part: &Part) -> Result<()> {
    println!(rt; "== {}", part.player)?;
    match part.player.as_str() {
        "connections" => connections::play(rt, &part.lines),
        "worlds" => worlds::play(rt, &part.lines),
        player => bail!("{player} is no player"),
    }
}

/// Plays parts, one after another.
fn play_all(rt: &HostRuntime, parts: &[Part]) -> Result<()> {
    for part in parts {
        play_part(rt, part)?;
    }
    Ok(())
}

fn main(rt: HostRuntime) -> Result<()> {
    let parts = read_parts(&rt)?;
    play_all(&rt, &parts)
}
