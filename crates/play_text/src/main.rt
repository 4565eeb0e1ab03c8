//! Plays a script of calls on texts. A line `== NAME` names the player of the lines below it, and is written as it is. Each
//! player begins anew:
//!
//! - `messages`: one message: its text, its header, acknowledgments, conditions and steps.
//! - `plans`: plans, and what is decided of messages by them.
//! - `frames`: streams of blocks.
#![tactic(auto)]

mod frames;
mod messages;
mod plans;

use anyhow::{Result, bail};
use play_script::{Part, read_parts};

/// Plays the lines of one player.
fn play_part(rt: &HostRuntime, part: &Part) -> Result<()> {
    println!(rt; "== {}", part.player)?;
    match part.player.as_str() {
        "messages" => messages::play(rt, &part.lines),
        "plans" => plans::play(rt, &part.lines),
        "frames" => frames::play(rt, &part.lines),
        player => bail!("{player} is no player"),
    }
}

/// Plays parts, one after another.
fn play_all(rt: &HostRuntime, parts: &[Part]) -> Result<()> {
    for part in parts {
        play_part(rt, part)?;
    }
    Ok(())
}

fn main(rt: HostRuntime) -> Result<()> {
    let parts = read_parts(&rt)?;
    play_all(&rt, &parts)
}
