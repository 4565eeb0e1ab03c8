//! What the engine promises, as one theorem: a message that is acknowledged with CA, or with AA in original mode, is kept exactly
//! once for each destination that its channel names, and for no other.
#![tactic(auto)]

mod crash;
mod laws;

pub use crash::ca_outlives_a_crash;
pub use laws::ca_is_kept;
