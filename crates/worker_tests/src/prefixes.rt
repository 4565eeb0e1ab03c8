//! Two blocks with bytes outside of them, cut at any two places, and each prefix of that stream.

use crate::cuts::{ALL, Cuts, ENDS, REPLIES, STREAM, built_in, events_of, serve};
use conn_worker::ServeEnd;
use mllp_frame::{FrameEvent, FrameFault};
use plan_text::Plan;
use std::alloc::{AllocError, Global};
use std::sync::Arc;
use std::test::Fail;

/// The data of the two blocks.
fn blocks(alloc: Global) -> Result<Vec<FrameEvent>, AllocError> {
    let bytes = STREAM.as_bytes();
    let mut events = Vec::new(alloc);
    events.push(FrameEvent::Block(Vec::from_slice(alloc, &bytes[4..95])?))?;
    events.push(FrameEvent::Block(Vec::from_slice(alloc, &bytes[101..192])?))?;
    Ok(events)
}

/// The replies to the first messages of the stream.
fn replies(alloc: Global, count: usize) -> Result<Vec<u8>, AllocError> {
    let mut bytes = Vec::new(alloc);
    for reply in &REPLIES[..count.min(2)] {
        bytes.extend_from_slice(reply.as_bytes())?;
    }
    Ok(bytes)
}

/// How many blocks have ended within a number of bytes of the stream.
fn ended_within(len: usize) -> usize {
    ENDS.iter().filter(|end| **end <= len).count()
}

/// Whether the stream, cut at this place and at any place before it, has these events.
fn are_so_cut(alloc: Global, second: usize, due: &[FrameEvent]) -> Result<bool, FrameFault> {
    for first in 0..=second {
        let events = events_of(alloc, STREAM.as_bytes(), Cuts::At(first, second))?;
        if events.as_slice() != due {
            return Ok(false);
        }
    }
    Ok(true)
}

/// Cut at any two places, the stream has the same two blocks.
#[test]
fn framed_however_cut(rt: HostRuntime) -> Result<(), Fail> {
    assert_eq!(rt; STREAM.len(), ENDS[1]);
    let due = blocks(rt.alloc())?;
    for second in 0..=STREAM.len() {
        let right = are_so_cut(rt.alloc(), second, &due)?;
        assert!(rt; right, "cut at {second}");
    }
    Ok(())
}

/// Each prefix has the blocks that have ended in it.
#[test]
fn framed_prefixes(rt: HostRuntime) -> Result<(), Fail> {
    let due = blocks(rt.alloc())?;
    for len in 0..=STREAM.len() {
        let prefix = &STREAM.as_bytes()[..len];
        let whole = events_of(rt.alloc(), prefix, Cuts::At(0, 0))?;
        let by_bytes = events_of(rt.alloc(), prefix, Cuts::AtEachByte)?;
        let due = &due[..ended_within(len).min(due.len())];
        assert!(rt;
            whole.as_slice() == due && by_bytes.as_slice() == due,
            "{len} bytes"
        );
    }
    Ok(())
}

/// Whether a stream that is cut so is answered by the replies to its first messages, which are booked.
fn is_answered(
    rt: &HostRuntime,
    plan: &Arc<Plan>,
    stream: &[u8],
    cuts: Cuts,
) -> Result<bool, Fail> {
    let count = ended_within(stream.len());
    let due = replies(rt.alloc(), count)?;
    let served = serve(rt, plan, stream, cuts, ALL)?;
    Ok(served.wrote(&due, count, ServeEnd::End, (0, 0)) && served.report.breaks == 0)
}

/// Whether the stream, cut at this place and at any place before it, is answered.
fn are_answered(rt: &HostRuntime, plan: &Arc<Plan>, second: usize) -> Result<bool, Fail> {
    for first in 0..=second {
        if !is_answered(rt, plan, STREAM.as_bytes(), Cuts::At(first, second))? {
            return Ok(false);
        }
    }
    Ok(true)
}

/// The remainders, by this, of the places of the second cut that a test goes through.
const SHARES: usize = 6;

/// The first place of the second cut, of those with a remainder, at which the stream isn't answered.
fn first_unanswered(rt: &HostRuntime, remainder: usize) -> Result<Option<usize>, Fail> {
    let plan = built_in(rt)?;
    for second in 0..=STREAM.len() {
        if second % SHARES == remainder && !are_answered(rt, &plan, second)? {
            return Ok(Some(second));
        }
    }
    Ok(None)
}

/// Cut at any two places, the stream is answered alike: a sixth of the second places.
#[test]
fn served_however_cut_0(rt: HostRuntime) -> Result<(), Fail> {
    assert_eq!(rt; first_unanswered(&rt, 0)?, None);
    Ok(())
}

/// The next sixth.
#[test]
fn served_however_cut_1(rt: HostRuntime) -> Result<(), Fail> {
    assert_eq!(rt; first_unanswered(&rt, 1)?, None);
    Ok(())
}

/// The next sixth.
#[test]
fn served_however_cut_2(rt: HostRuntime) -> Result<(), Fail> {
    assert_eq!(rt; first_unanswered(&rt, 2)?, None);
    Ok(())
}

/// The next sixth.
#[test]
fn served_however_cut_3(rt: HostRuntime) -> Result<(), Fail> {
    assert_eq!(rt; first_unanswered(&rt, 3)?, None);
    Ok(())
}

/// The next sixth.
#[test]
fn served_however_cut_4(rt: HostRuntime) -> Result<(), Fail> {
    assert_eq!(rt; first_unanswered(&rt, 4)?, None);
    Ok(())
}

/// The last sixth.
#[test]
fn served_however_cut_5(rt: HostRuntime) -> Result<(), Fail> {
    assert_eq!(rt; first_unanswered(&rt, 5)?, None);
    Ok(())
}

/// Each prefix is answered as far as its blocks have ended, whole and a byte at a time.
#[test]
fn served_prefixes(rt: HostRuntime) -> Result<(), Fail> {
    let plan = built_in(&rt)?;
    for len in 0..=STREAM.len() {
        let prefix = &STREAM.as_bytes()[..len];
        let whole = is_answered(&rt, &plan, prefix, Cuts::At(0, 0))?;
        let by_bytes = is_answered(&rt, &plan, prefix, Cuts::AtEachByte)?;
        assert!(rt; whole && by_bytes, "{len} bytes");
    }
    Ok(())
}
