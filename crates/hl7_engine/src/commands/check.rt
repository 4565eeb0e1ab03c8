//! `check`: whether a plan can be read, and its size.

use book_core::EVENTS_MAX;
use engine_report::{Fault, PlanSize, warned_plan};

/// Prints the size of the plan in a file. What the plan is unlikely to mean, and how many messages the largest book takes, is
/// printed on standard error.
///
/// # Errors
///
/// The fault of the file or of the plan, of standard output, or of memory.
pub(crate) fn check<'a>(rt: &HostRuntime, path: &'a str) -> Result<(), Fault<'a>> {
    let size = PlanSize::of(&warned_plan(rt, path, EVENTS_MAX)?);
    println!(rt; "{size}").map_err(|_| Fault::Write)
}
