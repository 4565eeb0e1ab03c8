//! Each stream of up to ten bytes that are start block and end block characters alone.

use crate::cuts::{ALL, Cuts, built_in, events_of, serve};
use conn_worker::ServeEnd;
use mllp_frame::{Break, FrameEvent};
use plan_text::Plan;
use std::alloc::{AllocError, Global};
use std::sync::Arc;
use std::test::Fail;

/// The most bytes of such a stream.
const LONGEST: u32 = 10;

/// Where a reader of such a stream is.
#[derive(Clone, Copy)]
enum At {
    Outside,
    Inside,
    BehindEnd,
}

/// Where a reader is behind a byte, and the block that the byte broke.
fn read_on(at: At, byte: u8) -> (At, Option<Break>) {
    match (at, byte == 0x0B) {
        (At::Outside, true) => (At::Inside, None),
        (At::Outside, false) => (At::Outside, None),
        (At::Inside, true) => (At::Inside, Some(Break::NewStart)),
        (At::Inside, false) => (At::BehindEnd, None),
        (At::BehindEnd, true) => (At::Inside, Some(Break::BadEnd)),
        (At::BehindEnd, false) => (At::Outside, Some(Break::BadEnd)),
    }
}

/// The broken blocks of such a stream. No block ends, since there is no carriage return.
fn breaks_of(alloc: Global, stream: &[u8]) -> Result<Vec<FrameEvent>, AllocError> {
    let mut breaks = Vec::new(alloc);
    let mut at = At::Outside;
    for byte in stream {
        let (next, broken) = read_on(at, *byte);
        at = next;
        if let Some(broken) = broken {
            breaks.push(FrameEvent::Broken(broken))?;
        }
    }
    Ok(breaks)
}

/// The stream of a number of bytes that has end block characters where the digits of a number are one.
fn stream_of(alloc: Global, len: u32, number: u32) -> Result<Vec<u8>, AllocError> {
    let mut stream = Vec::new(alloc);
    for digit in 0..len.min(LONGEST) {
        stream.push(if number >> digit & 1 == 1 { 0x1C } else { 0x0B })?;
    }
    Ok(stream)
}

/// Whether a stream has these breaks, in this order, and nothing else.
fn has(alloc: Global, stream: &[u8], due: &[FrameEvent]) -> Result<bool, Fail> {
    let whole = events_of(alloc, stream, Cuts::At(0, 0))?;
    let by_bytes = events_of(alloc, stream, Cuts::AtEachByte)?;
    Ok(whole.as_slice() == due && by_bytes.as_slice() == due)
}

/// Whether nothing is answered or booked of a stream that has this many breaks.
fn is_silent(
    rt: &HostRuntime,
    plan: &Arc<Plan>,
    stream: &[u8],
    breaks: usize,
) -> Result<bool, Fail> {
    let served = serve(rt, plan, stream, Cuts::AtEachByte, ALL)?;
    Ok(
        served.wrote(b"", 0, ServeEnd::End, (0, 0))
            && served.report.breaks == breaks as u64
            && (
                served.report.unreadable,
                served.report.strays,
                served.report.unbooked,
            ) == (0, 0, 0),
    )
}

/// Whether a stream is read as it has to be, by the framer and by a connection.
fn is_right(rt: &HostRuntime, plan: &Arc<Plan>, len: u32, number: u32) -> Result<bool, Fail> {
    let stream = stream_of(rt.alloc(), len, number)?;
    let due = breaks_of(rt.alloc(), &stream)?;
    Ok(has(rt.alloc(), &stream, &due)? && is_silent(rt, plan, &stream, due.len())?)
}

/// Each of the 2,047 streams breaks the blocks that it has to, and nothing is answered or booked.
#[test]
fn broken_alone(rt: HostRuntime) -> Result<(), Fail> {
    let plan = built_in(&rt)?;
    for len in 0..=LONGEST {
        for number in 0..1_u32 << len {
            let right = is_right(&rt, &plan, len, number)?;
            assert!(rt; right, "{len} bytes, number {number}");
        }
    }
    Ok(())
}
