//! Makes calls at random on the book, on a book of which messages are forgotten in between, and on the sequential
//! engine, compares the answers, and sees that each run made calls of each kind and was refused some of each. The
//! sequential engine is slow, so the longer runs go without it.

use crate::books::Books;
use crate::dice::Dice;
use anyhow::{Result, bail};

/// How many runs there are, each with engines in which nothing is booked.
const RUNS: u32 = 6;

/// In how many of them, the first ones, the sequential engine answers too.
const ASKED: u32 = 4;

/// How many calls a run makes that the sequential engine answers too.
const CALLS: u32 = 600;

/// How many calls a run makes without it.
const LONG: u32 = 2000;

/// How often calls of one kind were made, and how often they were refused.
#[derive(Clone, Copy)]
struct Score {
    made: u32,
    refused: u32,
}

impl Score {
    const NONE: Score = Score {
        made: 0,
        refused: 0,
    };

    /// Counts an answer that all gave.
    fn count(&mut self, made: bool) {
        if made {
            self.made = self.made.saturating_add(1);
        } else {
            self.refused = self.refused.saturating_add(1);
        }
    }
}

/// The calls of a run.
#[derive(Clone, Copy)]
struct Scores {
    arrivals: Score,
    takes: Score,
    settlements: Score,
    cancellations: Score,
    deployments: Score,
    prunings: Score,
}

impl Scores {
    const NONE: Scores = Scores {
        arrivals: Score::NONE,
        takes: Score::NONE,
        settlements: Score::NONE,
        cancellations: Score::NONE,
        deployments: Score::NONE,
        prunings: Score::NONE,
    };

    /// An error where no call of some kind was made, or none was refused.
    fn check(&self) -> Result<()> {
        for (calls, score) in [
            ("arrivals", self.arrivals),
            ("takes", self.takes),
            ("settlements", self.settlements),
            ("cancellations", self.cancellations),
            ("deployments", self.deployments),
            ("prunings", self.prunings),
        ] {
            if score.made == 0 || score.refused == 0 {
                bail!("{calls}: {} made, {} refused", score.made, score.refused);
            }
        }
        Ok(())
    }
}

/// Makes a call at random.
fn call(rt: &HostRuntime, dice: &mut Dice, books: &mut Books, scores: &mut Scores) -> Result<()> {
    match dice.roll(13) {
        0..4 => scores.arrivals.count(books.arrive(rt.alloc(), dice)?),
        4..8 => scores.takes.count(books.take(dice)?),
        8..10 => scores.settlements.count(books.settle(dice)?),
        10 => scores.cancellations.count(books.cancel(dice)?),
        11 => scores.deployments.count(books.deploy(rt.alloc(), dice)?),
        _ => scores.prunings.count(books.prune(dice)?),
    }
    Ok(())
}

/// Makes a number of calls.
fn make_calls(rt: &HostRuntime, seed: u32, calls: u32, books: &mut Books) -> Result<()> {
    let mut dice = Dice::new(seed);
    let mut scores = Scores::NONE;
    for _ in 0..calls {
        call(rt, &mut dice, books, &mut scores)?;
        books.compare(&mut dice)?;
    }
    if books.recalled() == 0 {
        bail!("no message was taken that a pruning had kept");
    }
    scores.check()
}

/// Makes the calls of one run.
fn run(rt: &HostRuntime, seed: u32, calls: u32, asked: bool) -> Result<()> {
    let mut books = Books::new(rt, asked)?;
    make_calls(rt, seed, calls, &mut books)
}

/// Makes the calls of all runs, and prints how many they were.
///
/// # Errors
///
/// The first difference, or that memory is refused or standard output can't be written.
pub(crate) fn compare_calls(rt: &HostRuntime) -> Result<()> {
    for seed in 0..RUNS {
        let asked = seed < ASKED;
        run(rt, seed, if asked { CALLS } else { LONG }, asked)?;
        println!(rt; "run {seed}: alike")?;
    }
    println!(rt; "calls of each kind were made, and were refused")?;
    println!(rt;
        "{} calls with the sequential engine and {} without it, no difference",
        ASKED * CALLS,
        (RUNS - ASKED) * LONG
    )?;
    Ok(())
}
