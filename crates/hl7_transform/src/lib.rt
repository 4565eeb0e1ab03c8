//! Steps that change an HL7 v2 message: the rule language of source transformers and route transformers.
#![tactic(auto)]

mod application;
mod fault;
mod laws;
mod step;
mod step_check;
mod stop;

pub use application::apply;
pub use fault::{StepFault, StopCause};
pub use laws::step_rules;
pub use step::{Pair, Step};
pub use step_check::{StepCheck, all_may_stand, check_step};
