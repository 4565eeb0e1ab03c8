//! What an opening remembers, for one more owner of its texts.

ghost use Rattle.std.specs.Prelude.{◌≡◌, [], IfOk};
ghost use Rattle.std.specs.Option.{option_map_or};

use event_log::Remembered;
use judge_core::Deliveries;
use std::alloc::{AllocError, Global};

/// The deliveries of a remembered arrival.
///
/// # Errors
///
/// Where memory is refused.
pub(crate) fn deliveries_of(arrival: &Remembered) -> Result<Option<Deliveries>, AllocError>
    ensures { IfOk result (λ deliveries. option_map_or (λ ds. ds) deliveries [] ≡ arrival.now.deliveries) }
{
    match arrival.deliveries() {
        Some(deliveries) => Ok(Some(deliveries.share()?)),
        None => Ok(None),
    }
}

/// A remembered arrival.
///
/// # Errors
///
/// Where memory is refused.
fn share(arrival: &Remembered) -> Result<Remembered, AllocError>
    ensures { IfOk result (λ shared. shared ≡ arrival.now) }
{
    Ok(Remembered::new(
        arrival.place(),
        arrival.channel(),
        arrival.raw().share()?,
        arrival.told(),
        deliveries_of(arrival)?,
        arrival.slots().copy()?,
    ))
}

/// Remembered arrivals.
///
/// # Errors
///
/// Where memory is refused.
pub(crate) fn share_all(
    alloc: Global,
    arrivals: &[Remembered],
) -> Result<Vec<Remembered>, AllocError>
    ensures { IfOk result (λ shared. shared.items ≡ arrivals.now) }
{
    let mut shared = Vec::with_capacity(alloc, arrivals.len())?;
    for arrival in arrivals {
        shared.push(share(arrival)?)?;
    }
    Ok(shared)
}
