//! Plays a script of calls on books and on stores of rows. A line `== NAME` names the player of the lines below it, and is
//! written as it is. Each player begins anew:
//!
//! - `books`: a book of a plan: arrivals, takes, settlements, cancellations, deployments and prunings.
//! - `rows`: both stores of rows at once.
#![tactic(auto)]

mod books;
mod rows;

use anyhow::{Result, bail};
use play_script::{Part, read_parts};

/// Plays the lines of one player.
fn play_part(rt: &HostRuntime, part: &Part) -> Result<()> {
    println!(rt; "== {}", part.player)?;
    match part.player.as_str() {
        "books" => books::play(rt, &part.lines),
        "rows" => rows::play(rt, &part.lines),
        player => bail!("{player} is no player"),
    }
}

/// Plays parts, one after another.
fn play_all(rt: &HostRuntime, parts: &[Part]) -> Result<()> {
    for part in parts {
        play_part(rt, part)?;
    }
    Ok(())
}

fn main(rt: HostRuntime) -> Result<()> {
    let parts = read_parts(&rt)?;
    play_all(&rt, &parts)
}
