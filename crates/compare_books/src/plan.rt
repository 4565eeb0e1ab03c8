//! The plans of the engines, and messages judged by them.

ghost use Rattle.std.specs.Prelude.{◌≡◌, IfOk};
ghost use Rattle.std.specs.Arc.{arc_value};

use anyhow::{Result, bail};
use judge_core::{Judged, fits_block, judge};
use plan_text::Plan;
use std::alloc::{AllocError, Global};
use std::sync::Arc;

/// What plans differ in: a destination's name, attempts and interval, and a channel's name.
#[derive(Clone, Copy)]
pub struct Said {
    pub destination: &'static str,
    pub attempts: &'static str,
    pub interval: &'static str,
    pub channel: &'static str,
}

impl Said {
    /// What the first plan says.
    pub const FIRST: Said = Said {
        destination: "A",
        attempts: "2",
        interval: "3",
        channel: "ADT",
    };
}

/// Inpatients go to A, outpatients to B, with the name of a ward, patients with an identifier to C, and updates to D, which
/// doesn't answer. A channel of its own takes everything for C. The name, the attempts and the interval of A and the name
/// of the first channel are given.
fn text_of(alloc: Global, said: Said) -> Result<String, AllocError> {
    format!(in alloc;
        r#"
[[destination]]
name = "{}"
address = "127.0.0.1:6661"
attempts = {}
interval = {}

[[destination]]
name = "B"
address = "127.0.0.1:6662"
attempts = 1

[[destination]]
name = "C"
address = "127.0.0.1:6663"
attempts = 2
interval = 0

[[destination]]
name = "D"
address = "127.0.0.1:6664"
await = "none"

[[channel]]
name = "{}"
listen = "127.0.0.1:6660"
types = ["ADT"]
processing = ["P"]
versions = ["2.5.1"]
route = [
    {{ to = "{}", filter = {{ equals = ["PV1-2", "I"] }} }},
    {{ to = "B", filter = {{ equals = ["PV1-2", "O"] }}, steps = [{{ set = ["PV1-3", "WARD"] }}] }},
    {{ to = "C", filter = {{ exists = "PID-3.1" }} }},
    {{ to = "D", filter = {{ equals = ["MSH-9.2", "A08"] }} }},
]

[[channel]]
name = "ALL"
listen = "127.0.0.1:6670"
types = ["*"]
processing = ["P"]
versions = ["*"]
route = [{{ to = "C" }}]
"#,
        said.destination, said.attempts, said.interval, said.channel, said.destination
    )
}

/// A plan that says this.
///
/// # Errors
///
/// Where the plan can't be read, or memory is refused.
pub(crate) fn plan_of(alloc: Global, said: Said) -> Result<Arc<Plan>> {
    let text = text_of(alloc, said)?;
    match Plan::read(alloc, text.as_bytes()) {
        Ok(plan) => Ok(Arc::new(alloc, plan)?),
        Err(fault) => bail!("{fault}"),
    }
}

/// A message that was received on a channel, judged by a plan.
///
/// # Errors
///
/// Where there is no such channel, no block holds the message, or memory is refused.
pub(crate) fn judged_by(
    alloc: Global,
    plan: &Arc<Plan>,
    channel: u32,
    raw: Vec<u8>,
) -> Result<Judged>
    ensures { IfOk result (λ judged. judged.plan ≡ arc_value plan.now) }
{
    if channel >= plan.channels() || !fits_block(&raw) {
        bail!("it can't be judged");
    }
    Ok(judge(alloc, plan, channel, raw)?)
}
