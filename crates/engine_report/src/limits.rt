//! How much a plan may require of the engine.

ghost use Rattle.std.specs.Prelude.{◌≡◌, ◌+◌, ◌*◌, Err, Ok, length, if◌then◌else◌, nat_lt};

use crate::fault::Fault;
use fixed_numbers::CONNECTIONS_MAX;
use plan_text::Plan;

/// How many connections all channels take together, where each takes `accept`: over a whole run of the engine, or at once in a
/// service.
///
/// # Errors
///
/// `Limit` where they are more than 9,999.
pub fn connections_of<'f>(plan: &Plan, accept: u32) -> Result<u32, Fault<'f>>
    ensures { result ≡ (if nat_lt 9_999 (accept * length plan.now.channels) then Err Fault.Limit else Ok (accept * length plan.now.channels)) }
{
    match accept.checked_mul(plan.channels()) {
        Some(connections) if connections <= CONNECTIONS_MAX => Ok(connections),
        _ => Err(Fault::Limit),
    }
}

/// How many descriptors a run may have open at once: the three standard ones, one for each channel's listener, one for each
/// connection, and one for each destination.
pub fn descriptors_of(plan: &Plan, connections: u32) -> u64
    ensures { result ≡ 3 + length plan.now.channels + connections + length plan.now.destinations }
{
    3 + u64::from(plan.channels()) + u64::from(connections) + u64::from(plan.destinations())
}
