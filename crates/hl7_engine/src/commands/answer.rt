//! `answer`: one connection, from standard input to standard output, in a book of its own.

ghost use Rattle.std.specs.Prelude.{◌≡◌, ◌≤◌};

use crate::commands::{EngineBook, shared_plan};
use book_core::EVENTS_MAX;
use conn_worker::{Clock, Counted, Running, Still};
use engine_report::{Fault, answer_stream, hasher, outcome};
use hl7_head::Moment;
use plan_text::Plan;
use std::alloc::Global;
use std::hash::RandomState;
use std::io::{Read, Write};
use std::sync::Arc;

/// Serves one connection by a plan, in a new book.
fn serve<'a, R: Read + Drop, W: Write + Drop, C: Clock>(
    alloc: Global,
    plan: Arc<Plan>,
    events: u32,
    hasher: RandomState,
    clock: &mut C,
    reader: R,
    writer: W,
) -> Result<(), Fault<'a>>
    requires some { 1 ≤ events }
    requires few { events ≤ EVENTS_MAX }
{
    let mut book = EngineBook::new(alloc, plan, events, hasher);
    let mut reader = Counted::new(reader);
    let mut writer = Counted::new(writer);
    let report = answer_stream(alloc, &mut book, &mut reader, &mut writer, clock);
    // What the book holds once it has served keeps its promise.
    let (_rows, _counts) = book.promise();
    outcome(report.end)
}

/// Answers standard input on standard output: by the plan in a file, or the built-in one; at one moment, or by the
/// system's clock; in a book of at most `events` entries.
///
/// # Errors
///
/// The first fault: of the plan, of the system's random bytes, of a device or of memory.
pub(crate) fn answer<'a>(
    rt: &HostRuntime,
    plan: Option<&'a str>,
    now: Option<Moment>,
    events: u32,
) -> Result<(), Fault<'a>>
    requires some { 1 ≤ events }
    requires few { events ≤ EVENTS_MAX }
{
    let alloc = rt.alloc();
    let plan = shared_plan(rt, plan)?;
    let hasher = hasher(rt)?;
    let (reader, writer) = (rt.stdin(), rt.stdout());
    match now {
        Some(moment) => serve(
            alloc,
            plan,
            events,
            hasher,
            &mut Still(moment),
            reader,
            writer,
        ),
        None => serve(
            alloc,
            plan,
            events,
            hasher,
            &mut Running(rt),
            reader,
            writer,
        ),
    }
}
