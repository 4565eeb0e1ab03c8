//! What a new plan does to the counts and states that are kept by a destination's index.

use plan_text::Plan;
use stat_count::{Counts, DESTINATIONS, DestinationCounts};
use std::fmt;

/// How the destination at an index, for which something was counted, is another one in a new plan. Counts and states of messages
/// are kept by index, and shown by the names of the plan in force.
#[derive(Clone, Copy, Debug, PartialEq, Eq)]
pub enum Rename<'a> {
    /// The new plan has another name there.
    Renamed {
        index: u32,
        before: &'a str,
        now: &'a str,
    },
    /// The new plan has no destination there.
    Gone {
        index: u32,
        before: &'a str,
    },
    /// The new plan has a destination there, and the one before had none any more.
    Filled {
        index: u32,
        now: &'a str,
    },
}

impl fmt::Display for Rename<'_> {
    fn fmt<W: fmt::Write>(&self, f: &mut fmt::Formatter<W>) -> fmt::Result {
        match *self {
            Rename::Renamed { index, before, now } => write!(
                f,
                "destination[{index}] was {before} and is {now}: the counts and states of its messages are shown as {now}'s"
            ),
            Rename::Gone { index, before } => write!(
                f,
                "destination[{index}] was {before} and is gone: the counts and states of its messages are no longer shown"
            ),
            Rename::Filled { index, now } => write!(
                f,
                "destination[{index}] is {now}: the counts and states of a former destination's messages are shown as {now}'s"
            ),
        }
    }
}

/// Whether nothing was ever counted for the destinations of an index.
fn is_unused(counts: &Counts, index: u32) -> bool {
    if index >= DESTINATIONS {
        return true;
    }
    let DestinationCounts {
        waiting,
        inflight,
        delivered,
        failed,
        attempts,
    } = counts.destination(index);
    waiting == 0 && inflight == 0 && delivered == 0 && failed == 0 && attempts == 0
}

/// How the destination at an index is another one in the plan `now` than in the plan `before`, where something was counted for it.
/// None where it has its name, or nothing was counted.
pub fn rename_at<'a>(
    before: &'a Plan,
    now: &'a Plan,
    counts: &Counts,
    index: u32,
) -> Option<Rename<'a>> {
    if is_unused(counts, index) {
        return None;
    }
    match (before.destination(index), now.destination(index)) {
        (Some(before), Some(now)) if before.name() != now.name() => Some(Rename::Renamed {
            index,
            before: before.name(),
            now: now.name(),
        }),
        (Some(before), None) => Some(Rename::Gone {
            index,
            before: before.name(),
        }),
        (None, Some(now)) => Some(Rename::Filled {
            index,
            now: now.name(),
        }),
        _ => None,
    }
}
