//! Writers that take no byte at one of their calls.

use crate::cuts::{Cuts, REPLIES, STREAM, Taking, built_in, serve};
use conn_worker::ServeEnd;
use plan_text::Plan;
use std::alloc::{AllocError, Global};
use std::sync::Arc;
use std::test::Fail;

/// All replies, one behind the other.
fn replies(alloc: Global) -> Result<Vec<u8>, AllocError> {
    let mut bytes = Vec::from_slice(alloc, REPLIES[0].as_bytes())?;
    bytes.extend_from_slice(REPLIES[1].as_bytes())?;
    Ok(bytes)
}

/// How many messages are booked where a number of bytes of the replies is written: where a byte is read at a time, the second
/// arrives once the reply to the first was written.
fn booked_by(cuts: Cuts, wrote: usize) -> usize {
    match cuts {
        Cuts::AtEachByte if wrote < REPLIES[0].len() => 1,
        _ => 2,
    }
}

/// Whether a writer that takes a byte at a call, and none at this call, was given the replies up to it, and the connection has
/// ended for a fault of the writer, or by itself where there was no such call.
fn ends_at(
    rt: &HostRuntime,
    plan: &Arc<Plan>,
    replies: &[u8],
    cuts: Cuts,
    call: u32,
) -> Result<bool, Fail> {
    let taking = Taking {
        most: 1,
        nothing_at: call,
    };
    let wrote = (call as usize).saturating_sub(1).min(replies.len());
    let (end, faults) = if wrote < replies.len() {
        (ServeEnd::WriteFault, (0, 1))
    } else {
        (ServeEnd::End, (0, 0))
    };
    let served = serve(rt, plan, STREAM.as_bytes(), cuts, taking)?;
    Ok(served.wrote(&replies[..wrote], booked_by(cuts, wrote), end, faults))
}

/// Whichever call of the writer takes nothing, the connection ends there for the writer's fault, with what was written before.
#[test]
fn nothing_is_taken(rt: HostRuntime) -> Result<(), Fail> {
    let plan = built_in(&rt)?;
    let replies = replies(rt.alloc())?;
    for call in 1..=290 {
        let whole = ends_at(&rt, &plan, &replies, Cuts::At(0, 0), call)?;
        let by_bytes = ends_at(&rt, &plan, &replies, Cuts::AtEachByte, call)?;
        assert!(rt; whole && by_bytes, "call {call}");
    }
    Ok(())
}
