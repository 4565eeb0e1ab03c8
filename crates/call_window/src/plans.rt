//! The plans of scripts, and what they judge.

use anyhow::{Result, bail};
use judge_core::{Judged, fits_block, judge};
use plan_text::Plan;
use play_script::bytes_of;
use std::alloc::Global;
use std::fs;
use std::sync::Arc;

/// The plan in a file.
///
/// # Errors
///
/// Where there is no such file, it has no plan, or memory is refused.
pub fn plan_named(rt: &HostRuntime, name: &str) -> Result<Arc<Plan>> {
    let alloc = rt.alloc();
    let plan = Plan::read(alloc, &fs::read(rt, name)?)?;
    Ok(Arc::new(alloc, plan)?)
}

/// A text on channel 0, judged by a plan.
///
/// # Errors
///
/// Where the plan has no channel, no block can hold the text, or memory is refused.
pub fn judged(alloc: Global, plan: &Arc<Plan>, text: &str) -> Result<Judged> {
    let bytes = bytes_of(alloc, text)?;
    if plan.channels() == 0 || !fits_block(&bytes) {
        bail!("it can't be judged");
    }
    Ok(judge(alloc, plan, 0, bytes)?)
}
