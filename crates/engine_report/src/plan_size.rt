//! The size of a plan.

ghost use Rattle.std.specs.Prelude.{◌≡◌, length};

use plan_text::Plan;
use std::fmt;

/// The size of a plan. Its text is the line that says it.
#[derive(Clone, Copy, Debug, PartialEq, Eq)]
pub struct PlanSize {
    /// How many channels it has.
    pub channels: u32,
    /// How many destinations it has.
    pub destinations: u32,
}

impl PlanSize {
    /// The size of this plan.
    pub fn of(plan: &Plan) -> Self
        ensures channels { result.channels ≡ length plan.now.channels }
        ensures destinations { result.destinations ≡ length plan.now.destinations }
    {
        PlanSize {
            channels: plan.channels(),
            destinations: plan.destinations(),
        }
    }
}

impl fmt::Display for PlanSize {
    fn fmt<W: fmt::Write>(&self, f: &mut fmt::Formatter<W>) -> fmt::Result {
        write!(
            f,
            "plan ok: {} channels, {} destinations",
            self.channels, self.destinations
        )
    }
}
