//! The built-in plan.

ghost use Rattle.std.specs.Prelude.{◌≡◌, IfOk};
ghost use Rattle.plan_text.specs.inner.BuiltIn.{built_in};

use crate::plan::Plan;
use std::alloc::{AllocError, Global};

/// The text of the built-in plan.
const BUILT_IN: &str = r#"[[destination]]
name = "LAB"
address = "127.0.0.1:6661"

[[channel]]
name = "ADT"
listen = "127.0.0.1:6660"
types = ["ADT"]
processing = ["P", "T"]
versions = ["2.5.1"]
[[channel.route]]
to = "LAB"
"#;

impl Plan {
    /// The plan that is used where none is given: one channel, ADT, whose messages all go to one destination, LAB.
    ///
    /// # Errors
    ///
    /// Where memory is refused.
    pub fn built_in(alloc: Global) -> Result<Plan, AllocError>
        ensures { IfOk result (λ p. p ≡ built_in) }
    {
        match Plan::read(alloc, BUILT_IN.as_bytes()) {
            Ok(plan) => Ok(plan),
            Err(_) => Err(AllocError),
        }
    }
}
