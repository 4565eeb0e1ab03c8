//! The status of a service.

use crate::figures::{Dropped, Figures, StoreNumbers, Unbooked};
use crate::holds::add_held;
use crate::messages::add_state;
use crate::time::Utc;
use book_core::Front;
use book_lock::{Gauge, Status};
use engine_report::statistics_text;
use fixed_numbers::{DEPLOYMENTS_MAX, PRUNINGS_MAX};
use plan_text::Plan;
use std::alloc::{AllocError, Global};

/// Adds how many prunings were made, how many are left, and for how many hours these last at the rate since the start.
fn add_prunings(
    text: &mut String,
    figures: &Figures,
    made: u32,
    left: u32,
) -> Result<(), AllocError> {
    match figures.hours_left(made, left) {
        Some(hours) => writeln!(text, "prunings {made} left {left} for {hours} hours"),
        None => writeln!(text, "prunings {made} left {left}"),
    }
}

/// Adds the lines of the book: its entries, its messages, and the prunings and deployments.
fn add_book(text: &mut String, gauge: Gauge, figures: &Figures) -> Result<(), AllocError> {
    let Gauge {
        held,
        owed,
        events_max,
        messages,
        prunings,
        deployments,
        ..
    } = gauge;
    let left = u64::from(events_max)
        .saturating_sub(u64::from(owed))
        .saturating_sub(held as u64);
    let remembered = gauge.remembered();
    let prunings_left = PRUNINGS_MAX.saturating_sub(prunings);
    let deployments_left = DEPLOYMENTS_MAX.saturating_sub(deployments);
    writeln!(
        text,
        "book held {held} owed {owed} left {left} messages {messages} remembered {remembered}"
    )?;
    add_prunings(&mut *text, figures, prunings, prunings_left)?;
    writeln!(text, "deployments {deployments} left {deployments_left}")
}

/// Adds how many arrivals were answered as repeats without being booked, where there were any.
fn add_repeats_unbooked(text: &mut String, count: u64) -> Result<(), AllocError> {
    if count == 0 {
        return Ok(());
    }
    writeln!(text, "repeats unbooked {count}")
}

/// Adds the lines of the connections, of the arrivals that were not booked, and of the blocks that were dropped.
fn add_connections(text: &mut String, admitted: u32, figures: &Figures) -> Result<(), AllocError> {
    let Figures {
        open,
        refused,
        unbooked,
        dropped,
        ..
    } = *figures;
    let Unbooked {
        full,
        plan_changed,
        no_memory,
    } = unbooked;
    writeln!(
        text,
        "connections open {open} taken {admitted} refused {refused}"
    )?;
    writeln!(
        text,
        "unbooked full {full} plan_changed {plan_changed} no_memory {no_memory}"
    )?;
    add_repeats_unbooked(&mut *text, figures.repeats_unbooked)?;
    let Dropped {
        unreadable,
        acknowledgments,
        broken,
    } = dropped;
    writeln!(
        text,
        "dropped unreadable {unreadable} acknowledgments {acknowledgments} broken {broken}"
    )
}

/// Adds a moment, or that there was none.
fn add_moment(text: &mut String, moment: u64) -> Result<(), AllocError> {
    if moment == 0 {
        writeln!(text, "never")
    } else {
        writeln!(text, "{}", Utc(moment))
    }
}

/// Adds lines for each channel: how many connections are open, of how many; when its last message was accepted or filtered, and
/// whether it is read at this time.
fn add_channels(text: &mut String, plan: &Plan, figures: &Figures) -> Result<(), AllocError> {
    for index in 0..plan.channels() {
        if let Some(channel) = plan.channel(index) {
            let name = channel.name();
            let (open, places) = (figures.channel_open(index), figures.channel_places(index));
            writeln!(text, "connections {name} open {open} of {places}")?;
            write!(text, "last received {name} ")?;
            add_moment(&mut *text, figures.received(index))?;
            if figures.is_paused(index) {
                writeln!(text, "paused {name}")?;
            }
        }
    }
    Ok(())
}

/// Adds the message at the front of a destination's queue.
fn add_front(text: &mut String, front: Option<Front>) -> Result<(), AllocError> {
    match front {
        None => writeln!(text, "none"),
        Some(Front { number, state }) => {
            write!(text, "message {number} ")?;
            add_state(&mut *text, state)?;
            writeln!(text, "")
        }
    }
}

/// Adds how many messages were sent to a destination a second time within one attempt, where there were any.
fn add_sent_again(text: &mut String, name: &str, count: u64) -> Result<(), AllocError> {
    if count == 0 {
        return Ok(());
    }
    writeln!(text, "sent again {name} {count}")
}

/// Adds lines for each destination: when the last message was delivered, whether it is held, how many were sent a second time within
/// one attempt, where there were any, and the front of its queue.
fn add_destinations(
    text: &mut String,
    plan: &Plan,
    status: &Status,
    figures: &Figures,
) -> Result<(), AllocError> {
    for (index, front) in (0..plan.destinations()).zip(status.fronts.iter()) {
        if let Some(destination) = plan.destination(index) {
            let name = destination.name();
            write!(text, "last delivered {name} ")?;
            add_moment(&mut *text, figures.delivered(index))?;
            if figures.is_held(index) {
                add_held(&mut *text, name)?;
            }
            add_sent_again(&mut *text, name, figures.sent_again(index))?;
            write!(text, "front {name} ")?;
            add_front(&mut *text, *front)?;
        }
    }
    Ok(())
}

/// Adds a line of the store, where there is one: how often it committed how many changes, and how long a commit took in the mean
/// and at most; and a line where its disk has no room.
fn add_store(text: &mut String, store: Option<StoreNumbers>) -> Result<(), AllocError> {
    let Some(store) = store else {
        return Ok(());
    };
    let StoreNumbers {
        commits,
        changes,
        longest,
        has_no_room,
        ..
    } = store;
    let average = store.average();
    writeln!(
        text,
        "store commits {commits} changes {changes} microseconds {average} longest {longest}"
    )?;
    if has_no_room {
        writeln!(text, "store has no room: nothing is acknowledged")?;
    }
    Ok(())
}

/// The status of a service: the lines of the statistics, and then those of the book, the store, the connections, the channels and
/// the destinations.
///
/// # Errors
///
/// Where memory is refused.
pub fn status_text(
    alloc: Global,
    plan: &Plan,
    status: &Status,
    figures: &Figures,
) -> Result<String, AllocError> {
    let mut text = statistics_text(alloc, plan, &status.counts)?;
    add_book(&mut text, status.gauge, figures)?;
    add_store(&mut text, figures.store)?;
    add_connections(&mut text, status.gauge.admitted, figures)?;
    add_channels(&mut text, plan, figures)?;
    add_destinations(&mut text, plan, status, figures)?;
    writeln!(text, "")?;
    Ok(text)
}
