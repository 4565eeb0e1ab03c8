//! Asks engines the same at random and compares their answers: books with the sequential engine, by calls, and worlds
//! with it, by steps. It stops where two answers differ. The numbers look like chance and are the same on each run.
#![tactic(auto)]

mod alike;
mod books;
mod calls;
mod dice;
mod known;
mod line;
mod plan;
mod steps;
mod worlds;

use anyhow::Result;
use calls::compare_calls;
use steps::compare_steps;

fn main(rt: HostRuntime) -> Result<()> {
    compare_calls(&rt)?;
    compare_steps(&rt)
}
