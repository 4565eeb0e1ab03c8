//! What is searched for in the book, a slice at a time, so that the book's lock is never held for long.

ghost use Rattle.std.specs.Prelude.{◌<◌, IfSome};

use book_core::{Failure, Front};
use book_lock::Sharing;
use plan_text::Plan;
use service_answers::{SHOWN_MAX, unescaped};
use service_workers::{Crew, Site};
use std::alloc::AllocError;

/// How many message numbers are looked at while the book's lock is held.
pub const SLICE: u32 = 4_096;

/// The numbers of the remembered messages with a control id (MSH-10), looked for a slice at a time: all of them, or more than an
/// answer shows.
///
/// # Errors
///
/// Where memory is refused.
pub fn numbers_with<A: Sharing, H: Crew>(
    site: &Site<'_, A, H>,
    id: &[u8],
) -> Result<Vec<u32>, AllocError> {
    let gauge = site.shared.gauge(site.rt);
    let mut found = Vec::new(site.alloc);
    for from in (gauge.first..gauge.messages).step_by(SLICE as usize) {
        if found.len() > SHOWN_MAX {
            break;
        }
        for number in site.shared.find(site.rt, id, from, SLICE)? {
            found.push(number)?;
        }
    }
    Ok(found)
}

/// The numbers of the remembered messages with a control id (MSH-10), as `numbers_with` has them. Where none has the id as given, it is
/// read as the log shows ids.
///
/// # Errors
///
/// Where memory is refused.
pub fn numbers_meant<A: Sharing, H: Crew>(
    site: &Site<'_, A, H>,
    id: &[u8],
) -> Result<Vec<u32>, AllocError> {
    let found = numbers_with(site, id)?;
    if !found.is_empty() {
        return Ok(found);
    }
    let meant = unescaped(site.alloc, id)?;
    if meant.as_slice() == id {
        return Ok(found);
    }
    numbers_with(site, &meant)
}

/// The messages in a destination's queue, at most `most` of them, looked for a slice at a time.
///
/// # Errors
///
/// Where memory is refused.
pub fn queued<A: Sharing, H: Crew>(
    site: &Site<'_, A, H>,
    destination: u32,
    most: usize,
) -> Result<Vec<Front>, AllocError> {
    let mut fronts = Vec::new(site.alloc);
    let Some(first) = site.shared.front(site.rt, destination) else {
        return Ok(fronts);
    };
    let messages = site.shared.gauge(site.rt).messages;
    for from in (first.number..messages).step_by(SLICE as usize) {
        if fronts.len() >= most {
            break;
        }
        for front in site.shared.waiting(site.rt, destination, from, SLICE)? {
            fronts.push(front)?;
        }
    }
    fronts.truncate(most);
    Ok(fronts)
}

/// The index of the destination of a name.
pub fn destination_named(plan: &Plan, name: &[u8]) -> Option<u32>
    ensures { IfSome result (λ index. index < 32) }
{
    plan.rules();
    for index in 0..plan.destinations() {
        if let Some(destination) = plan.destination(index)
            && destination.name().as_bytes() == name
        {
            return Some(index);
        }
    }
    None
}

/// The messages that failed at a destination.
#[derive(Drop)]
pub struct Failures {
    /// The last of them, newest first, as many as an answer shows.
    pub newest: Vec<Failure>,
    /// How many are remembered.
    pub remembered: u64,
}

/// The remembered messages that failed at a destination, looked for a slice at a time, the newest slice first.
///
/// # Errors
///
/// Where memory is refused.
pub fn failures_at<A: Sharing, H: Crew>(
    site: &Site<'_, A, H>,
    destination: u32,
) -> Result<Failures, AllocError> {
    let gauge = site.shared.gauge(site.rt);
    let span = gauge.messages.saturating_sub(gauge.first);
    let (mut newest, mut remembered) = (Vec::new(site.alloc), 0u64);
    for back in (0..span).step_by(SLICE as usize) {
        let most = SLICE.min(span.saturating_sub(back));
        let from = gauge.messages.saturating_sub(back).saturating_sub(most);
        let found = site.shared.failed(site.rt, destination, from, most)?;
        remembered = remembered.saturating_add(found.len() as u64);
        for failure in found.iter().rev() {
            if newest.len() < SHOWN_MAX {
                newest.push(*failure)?;
            }
        }
    }
    Ok(Failures { newest, remembered })
}
