//! Messages that are brought to a desk of a shared book that nobody else calls.

ghost use Rattle.std.specs.Prelude.{IsTrue};
ghost use Rattle.judge_core.specs.Judging.{is_bookable};

use crate::message::{MANY, Rows, judged, nanoseconds_since};
use book_core::Receipt;
use book_lock::{Desk, Shared, Sharing};
use judge_core::Judged;
use plan_text::Plan;
use std::alloc::Global;
use std::sync::{Arc, Wait};
use std::time::{Clock, Instant};

/// Books a message, and returns its receipt and the nanoseconds that the call took.
fn timed_arrival<A: Sharing, H: Wait + Clock>(
    rt: &H,
    shared: &Shared<A, Rows>,
    desk: &mut Desk<A>,
    message: &Judged,
) -> Option<(Receipt, u64)>
    requires { IsTrue (is_bookable message.now.raw) }
{
    let began = Instant::now(rt).ok();
    let receipt = shared.arrive(rt, desk, MANY, message);
    let took = nanoseconds_since(rt, began);
    receipt.ok().zip(took)
}

/// Books a message of this type, with bytes of its own, and returns its receipt and the nanoseconds that the call took.
pub(crate) fn booked<A: Sharing, H: Wait + Clock>(
    rt: &H,
    alloc: Global,
    shared: &Shared<A, Rows>,
    desk: &mut Desk<A>,
    plan: &Arc<Plan>,
    kind: &str,
    control_id: u32,
) -> Option<(Receipt, u64)> {
    let message = judged(alloc, plan, MANY, kind, control_id)?;
    timed_arrival(rt, shared, desk, &message)
}
