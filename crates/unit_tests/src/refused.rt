//! A run in which one request for memory may be refused, as `rt try --test --fail-alloc N` refuses the Nth. Whichever it is,
//! what connections were sent are whole acknowledgments of what was booked, and the other connection gets all of its own.

use book_core::{EVENTS_MAX, Outbound};
use dest_queue::Queued;
use engine_model::{Step, World};
use event_log::Entry;
use hl7_head::Moment;
use plan_text::Plan;
use record_list::RecordList;
use std::alloc::Global;
use std::hash::RandomState;
use std::sync::Arc;
use std::test::Fail;

/// An admission that requests both acknowledgments, and one that requests an accept acknowledgment.
const MESSAGES: [&str; 2] = [
    "\x0bMSH|^~\\&|REG|HOSP|ENG|HUB|20231114221300||ADT^A01^ADT_A01|M3|P|2.5.1|||AL|AL\rPID|1||77^^^H\r\x1c\r",
    "\x0bMSH|^~\\&|REG|HOSP|ENG|HUB|20231114221300||ADT^A01^ADT_A01|M1|P|2.5.1|||AL|NE\rPID|1||77^^^H\r\x1c\r",
];

/// What a connection may have been sent.
#[derive(Clone, Copy)]
struct Due {
    /// All acknowledgments.
    all: &'static str,
    /// That the message was not booked, since memory was refused.
    refused: &'static str,
    /// The first of two acknowledgments, or nothing.
    front: &'static str,
}

/// What the two connections may have been sent, each one message.
const DUES: [Due; 2] = [
    Due {
        all: "\x0bMSH|^~\\&|ENG|HUB|REG|HOSP|20231114221320+0000||ACK^A01^ACK|0.1|P|2.5.1|||NE|NE\rMSA|CA|M3\r\x1c\r\x0bMSH|^~\\&|ENG|HUB|REG|HOSP|20231114221320+0000||ACK^A01^ACK|0.2|P|2.5.1|||NE|NE\rMSA|AA|M3\r\x1c\r",
        refused: "\x0bMSH|^~\\&|ENG|HUB|REG|HOSP|20231114221320+0000||ACK^A01^ACK|0.1|P|2.5.1|||NE|NE\rMSA|CE|M3|NoMemory\r\x1c\r",
        front: "\x0bMSH|^~\\&|ENG|HUB|REG|HOSP|20231114221320+0000||ACK^A01^ACK|0.1|P|2.5.1|||NE|NE\rMSA|CA|M3\r\x1c\r",
    },
    Due {
        all: "\x0bMSH|^~\\&|ENG|HUB|REG|HOSP|20231114221320+0000||ACK^A01^ACK|1.1|P|2.5.1|||NE|NE\rMSA|CA|M1\r\x1c\r",
        refused: "\x0bMSH|^~\\&|ENG|HUB|REG|HOSP|20231114221320+0000||ACK^A01^ACK|1.1|P|2.5.1|||NE|NE\rMSA|CE|M1|NoMemory\r\x1c\r",
        front: "",
    },
];

type Engine = World<RecordList<Queued<Outbound>>>;

/// The steps by which each message comes on its connection, in pieces that alternate.
fn pieces(alloc: Global, now: Moment) -> Option<Vec<Step>> {
    let mut steps = Vec::new(alloc);
    for (from, to) in [(0, 40), (40, 93), (93, 94)] {
        for (conn, message) in (0..2_u32).zip(MESSAGES) {
            let piece = message.as_bytes().get(from..to)?;
            let bytes = Vec::from_slice(alloc, piece).ok()?;
            steps.push(Step::Chunk { conn, bytes, now }).ok()?;
        }
    }
    Some(steps)
}

/// A world of the built-in plan with two connections. None where memory was refused.
fn silent(rt: &HostRuntime) -> Option<Engine> {
    let alloc = rt.alloc();
    let plan = Arc::new(alloc, Plan::built_in(alloc).ok()?).ok()?;
    if plan.channels() == 0 {
        return None;
    }
    let hasher = RandomState::new(rt).ok()?;
    World::new(alloc, plan, &[0, 0], EVENTS_MAX, hasher).ok()
}

/// How many messages of a connection were booked.
fn booked(world: &Engine, conn: u32) -> usize {
    let mut booked = 0_usize;
    for place in 0..world.book().len() {
        if let Some(Entry::Arrival { conn: came, .. }) = world.book().entry(place) {
            booked = booked.saturating_add(usize::from(*came == conn));
        }
    }
    booked
}

/// Whether a connection was answered what became of its message.
fn was_told(world: &Engine, conn: u32, due: Due) -> bool {
    let output = world.output(conn);
    match booked(world, conn) {
        0 if world.ended(conn) => output.is_empty(),
        0 => output == due.refused.as_bytes(),
        1 if world.ended(conn) => output.is_empty() || output == due.front.as_bytes(),
        1 => output == due.all.as_bytes(),
        _ => false,
    }
}

/// The first connection that wasn't answered what became of its message.
fn first_untold(world: &Engine) -> Option<u32> {
    for (conn, due) in (0..2_u32).zip(DUES) {
        if !was_told(world, conn, due) {
            return Some(conn);
        }
    }
    None
}

/// The world after all pieces were received. None where memory was refused before.
fn played(rt: &HostRuntime, now: Moment) -> Option<Engine> {
    let mut world = silent(rt)?;
    let steps = pieces(rt.alloc(), now)?;
    world.run(&steps);
    Some(world)
}

/// The result of a run.
#[derive(Clone, Copy)]
struct Outcome {
    untold: Option<u32>,
    both_ended: bool,
}

/// The result of the pieces. None where memory was refused before.
fn outcome_of(rt: &HostRuntime, now: Moment) -> Option<Outcome> {
    let world = played(rt, now)?;
    Some(Outcome {
        untold: first_untold(&world),
        both_ended: world.ended(0) && world.ended(1),
    })
}

/// One refused request for memory ends at most one connection, or leaves one message out of the book.
#[test]
fn each_connection_is_told_what_was_booked(rt: HostRuntime) -> Result<(), Fail> {
    let now = Moment::of_unix(1_700_000_000)?;
    let Some(outcome) = outcome_of(&rt, now) else {
        return Ok(());
    };
    assert_eq!(rt; outcome.untold, None);
    assert!(rt; !outcome.both_ended);
    Ok(())
}
