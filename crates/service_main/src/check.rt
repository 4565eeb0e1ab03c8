//! `check`: whether a plan can be read, its size, and which messages go where.

use engine_report::{Ended, Fault, PlanSize, Trouble, bounded_file, warned_service_plan};
use fixed_numbers::EVENTS_MAX;
use plan_notes::plan_table;
use service_run::PLAN_BYTES;

/// Prints the size of the plan in a file and, where `verbose`, a table of which messages go where. What the plan is unlikely to
/// mean, and how many messages the largest book takes, is said on standard error.
///
/// # Errors
///
/// The fault of the file or of the plan, of standard output, or of memory.
pub(crate) fn check<'a>(
    rt: &HostRuntime,
    path: &'a str,
    verbose: bool,
) -> Result<Ended, Trouble<'a>> {
    bounded_file(rt, path, PLAN_BYTES)?;
    let plan = warned_service_plan(rt, path, EVENTS_MAX)?;
    let mut text = format!(in rt.alloc(); "{}\n", PlanSize::of(&plan))?;
    if verbose {
        text.push_str(&plan_table(rt.alloc(), &plan)?)?;
    }
    match print!(rt; "{text}") {
        Ok(()) => Ok(Ended::Done),
        Err(_) => Err(Trouble::Engine(Fault::Write)),
    }
}
