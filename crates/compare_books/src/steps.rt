//! Takes steps at random with two worlds, of which one hears pieces as they come and the other byte by byte, and with
//! the sequential engine, which is handed whole messages; compares what was booked, counted and sent; and takes the
//! steps of each history again. In every second run the other world forgets messages in between.

use crate::dice::Dice;
use crate::worlds::Worlds;
use anyhow::{Result, bail};

/// How many pairs of runs there are, each run with engines that have received nothing. The second of a pair forgets messages.
const PAIRS: u32 = 20;

/// How many steps a run takes that forgets no message.
const STEPS: u32 = 200;

/// How many steps a run takes that forgets messages: fewer, since there the sequential engine has room for all.
const FORGETTING: u32 = 100;

/// Takes a step at random. None forgets messages where none are to be forgotten.
fn step(dice: &mut Dice, worlds: &mut Worlds, forgets: bool) -> Result<()> {
    let kinds = if forgets { 14 } else { 13 };
    match dice.roll(kinds) {
        0..7 => worlds.chunk(dice),
        7..9 => worlds.take(dice),
        9..11 => worlds.settle(dice),
        11 => {
            worlds.cancel(dice);
            Ok(())
        }
        12 => worlds.deploy(dice),
        _ => worlds.prune(dice),
    }
}

/// Compares the results of a run. An error where nothing was booked or sent.
fn compare_ends(rt: &HostRuntime, worlds: &Worlds) -> Result<()> {
    worlds.compare_queues()?;
    let sent = worlds.compare_output()?;
    if worlds.compare_entries(rt)? == 0 || sent == 0 {
        bail!("nothing was booked or sent");
    }
    Ok(())
}

/// Takes the steps of one run.
fn take_steps(seed: u32, worlds: &mut Worlds, forgets: bool) -> Result<()> {
    let mut dice = Dice::new(seed);
    let steps = if forgets { FORGETTING } else { STEPS };
    for _ in 0..steps {
        step(&mut dice, worlds, forgets)?;
        worlds.compare(&mut dice)?;
    }
    Ok(())
}

/// How many plans were deployed, and how many messages forgotten.
#[derive(Clone, Copy)]
struct Made {
    deployments: u32,
    forgotten: u32,
}

/// Takes the steps of one run, and compares their results.
fn run_worlds(rt: &HostRuntime, seed: u32, worlds: &mut Worlds, forgets: bool) -> Result<Made> {
    take_steps(seed, worlds, forgets)?;
    compare_ends(rt, worlds)?;
    Ok(Made {
        deployments: worlds.deployments(),
        forgotten: worlds.forgotten(),
    })
}

/// Makes one run with engines that have received nothing.
fn run(rt: &HostRuntime, seed: u32) -> Result<Made> {
    let forgets = seed % 2 == 1;
    let mut worlds = Worlds::new(rt, forgets)?;
    run_worlds(rt, seed, &mut worlds, forgets)
}

/// Takes the steps of all runs, and prints how many they were.
///
/// # Errors
///
/// The first difference; that no plan was deployed, or no message forgotten; that memory is refused, or standard output
/// can't be written.
pub(crate) fn compare_steps(rt: &HostRuntime) -> Result<()> {
    let (mut deployments, mut forgotten) = (0_u32, 0_u32);
    for seed in 0..PAIRS * 2 {
        let made = run(rt, seed)?;
        deployments = deployments.saturating_add(made.deployments);
        forgotten = forgotten.saturating_add(made.forgotten);
    }
    if deployments == 0 || forgotten == 0 {
        bail!("{deployments} plans were deployed, and {forgotten} messages forgotten");
    }
    println!(rt; "{} steps, no difference", PAIRS * (STEPS + FORGETTING))?;
    Ok(())
}
