//! The plans that scripts name.

use anyhow::{Result, bail};
use plan_text::Plan;
use std::fs;
use std::sync::Arc;

/// The plan in a file.
fn plan_in(rt: &HostRuntime, name: &str) -> Result<Plan> {
    let text = fs::read(rt, name)?;
    match Plan::read(rt.alloc(), &text) {
        Ok(plan) => Ok(plan),
        Err(fault) => bail!("{name}: {fault}"),
    }
}

/// The plan of this name, to be shared: the built-in one, or that in a file.
///
/// # Errors
///
/// Where there is no such plan, or memory is refused.
pub(crate) fn plan_named(rt: &HostRuntime, name: &str) -> Result<Arc<Plan>> {
    let plan = if name == "built-in" {
        Plan::built_in(rt.alloc())?
    } else {
        plan_in(rt, name)?
    };
    Ok(Arc::new(rt.alloc(), plan)?)
}
