//! The numbers of a service in the text format of Prometheus, version 0.0.4.

use crate::figures::{Dropped, Figures, StoreNumbers, Unbooked};
use book_lock::{Gauge, Status};
use fixed_numbers::{DEPLOYMENTS_MAX, PRUNINGS_MAX};
use plan_text::Plan;
use stat_count::{CHANNELS, ChannelCounts, Counts, DESTINATIONS, DestinationCounts};
use std::alloc::{AllocError, Global};
use std::fmt;

/// A label's value: a quotation mark, a backslash and a line feed are written behind a backslash.
#[derive(Clone, Copy, Debug, PartialEq, Eq)]
pub struct LabelValue<'a>(pub &'a str);

impl fmt::Display for LabelValue<'_> {
    fn fmt<W: fmt::Write>(&self, f: &mut fmt::Formatter<W>) -> fmt::Result {
        let LabelValue(text) = self;
        for c in text.chars() {
            match c {
                '"' => f.write_str("\\\"")?,
                '\\' => f.write_str("\\\\")?,
                '\n' => f.write_str("\\n")?,
                c => f.write_char(c)?,
            }
        }
        Ok(())
    }
}

/// What a metric is to Prometheus.
#[derive(Clone, Copy)]
enum Kind {
    /// A number that only rises.
    Counter,
    /// A number that rises and falls.
    Gauge,
}

/// Adds the two lines that say what a metric is.
fn add_head(text: &mut String, name: &str, kind: Kind, help: &str) -> Result<(), AllocError> {
    let kind = match kind {
        Kind::Counter => "counter",
        Kind::Gauge => "gauge",
    };
    writeln!(text, "# HELP {name} {help}")?;
    writeln!(text, "# TYPE {name} {kind}")
}

/// Adds a metric with one number.
fn add_one(
    text: &mut String,
    name: &str,
    kind: Kind,
    help: &str,
    number: u64,
) -> Result<(), AllocError> {
    add_head(&mut *text, name, kind, help)?;
    writeln!(text, "{name} {number}")
}

/// Adds a metric with a number for each channel.
fn add_by_channel<F: Fn(u32) -> u64>(
    text: &mut String,
    plan: &Plan,
    name: &str,
    kind: Kind,
    help: &str,
    number: F,
) -> Result<(), AllocError>
    requires { F.IsAlwaysCallable number }
{
    add_head(&mut *text, name, kind, help)?;
    for index in 0..plan.channels() {
        if let Some(channel) = plan.channel(index) {
            let label = LabelValue(channel.name());
            let number = number(index);
            writeln!(text, "{name}{{channel=\"{label}\"}} {number}")?;
        }
    }
    Ok(())
}

/// Adds a metric with a number for each destination.
fn add_by_destination<F: Fn(u32) -> u64>(
    text: &mut String,
    plan: &Plan,
    name: &str,
    kind: Kind,
    help: &str,
    number: F,
) -> Result<(), AllocError>
    requires { F.IsAlwaysCallable number }
{
    add_head(&mut *text, name, kind, help)?;
    for index in 0..plan.destinations() {
        if let Some(destination) = plan.destination(index) {
            let label = LabelValue(destination.name());
            let number = number(index);
            writeln!(text, "{name}{{destination=\"{label}\"}} {number}")?;
        }
    }
    Ok(())
}

/// The counters of a channel; all are 0 where no plan has a channel of that index.
fn channel_counts(counts: &Counts, index: u32) -> ChannelCounts {
    if index < CHANNELS {
        counts.channel(index)
    } else {
        ChannelCounts {
            received: 0,
            filtered: 0,
            accepted: 0,
            refused: 0,
            repeats: 0,
        }
    }
}

/// The counters of a destination; all are 0 where no plan has a destination of that index.
fn destination_counts(counts: &Counts, index: u32) -> DestinationCounts {
    if index < DESTINATIONS {
        counts.destination(index)
    } else {
        DestinationCounts {
            waiting: 0,
            inflight: 0,
            delivered: 0,
            failed: 0,
            attempts: 0,
        }
    }
}

/// Adds what the channels received, and what became of it.
fn add_channels(text: &mut String, plan: &Plan, counts: &Counts) -> Result<(), AllocError> {
    add_by_channel(
        &mut *text,
        plan,
        "hl7_channel_received_total",
        Kind::Counter,
        "Messages received, repeats aside.",
        |index| channel_counts(counts, index).received,
    )?;
    add_by_channel(
        &mut *text,
        plan,
        "hl7_channel_filtered_total",
        Kind::Counter,
        "Messages received that go to no destination.",
        |index| channel_counts(counts, index).filtered,
    )?;
    add_by_channel(
        &mut *text,
        plan,
        "hl7_channel_accepted_total",
        Kind::Counter,
        "Messages accepted for delivery.",
        |index| channel_counts(counts, index).accepted,
    )?;
    add_by_channel(
        &mut *text,
        plan,
        "hl7_channel_refused_total",
        Kind::Counter,
        "Messages refused by their content.",
        |index| channel_counts(counts, index).refused,
    )?;
    add_by_channel(
        &mut *text,
        plan,
        "hl7_channel_repeats_total",
        Kind::Counter,
        "Messages received again and answered as before.",
        |index| channel_counts(counts, index).repeats,
    )
}

/// Adds what waits for the destinations, and what became of deliveries.
fn add_destinations(text: &mut String, plan: &Plan, counts: &Counts) -> Result<(), AllocError> {
    add_by_destination(
        &mut *text,
        plan,
        "hl7_destination_waiting_messages",
        Kind::Gauge,
        "Messages that wait for delivery.",
        |index| destination_counts(counts, index).waiting,
    )?;
    add_by_destination(
        &mut *text,
        plan,
        "hl7_destination_inflight_messages",
        Kind::Gauge,
        "Messages that are being sent.",
        |index| destination_counts(counts, index).inflight,
    )?;
    add_by_destination(
        &mut *text,
        plan,
        "hl7_destination_delivered_total",
        Kind::Counter,
        "Messages delivered.",
        |index| destination_counts(counts, index).delivered,
    )?;
    add_by_destination(
        &mut *text,
        plan,
        "hl7_destination_failed_total",
        Kind::Counter,
        "Messages that will not be sent again.",
        |index| destination_counts(counts, index).failed,
    )?;
    add_by_destination(
        &mut *text,
        plan,
        "hl7_destination_attempts_total",
        Kind::Counter,
        "Attempts to deliver.",
        |index| destination_counts(counts, index).attempts,
    )
}

/// Adds how many connections of each channel are open, and how many can be.
fn add_places(text: &mut String, plan: &Plan, figures: &Figures) -> Result<(), AllocError> {
    add_by_channel(
        &mut *text,
        plan,
        "hl7_channel_open_connections",
        Kind::Gauge,
        "Connections of senders that are open.",
        |index| figures.channel_open(index),
    )?;
    add_by_channel(
        &mut *text,
        plan,
        "hl7_channel_max_connections",
        Kind::Gauge,
        "Connections that can be served at once.",
        |index| figures.channel_places(index),
    )
}

/// Adds when channels and destinations were last used, which channels are not read at this time, and which destinations are held.
fn add_moments(text: &mut String, plan: &Plan, figures: &Figures) -> Result<(), AllocError> {
    add_by_channel(
        &mut *text,
        plan,
        "hl7_channel_last_received_timestamp_seconds",
        Kind::Gauge,
        "When the last message was accepted or filtered, in seconds since 1970; 0: none was.",
        |index| figures.received(index),
    )?;
    add_by_channel(
        &mut *text,
        plan,
        "hl7_channel_paused",
        Kind::Gauge,
        "1 while the channel is not read because too much waits for delivery, else 0.",
        |index| u64::from(figures.is_paused(index)),
    )?;
    add_by_destination(
        &mut *text,
        plan,
        "hl7_destination_last_delivered_timestamp_seconds",
        Kind::Gauge,
        "When the last message was delivered, in seconds since 1970; 0: none was.",
        |index| figures.delivered(index),
    )?;
    add_by_destination(
        &mut *text,
        plan,
        "hl7_destination_held",
        Kind::Gauge,
        "1 while an operator holds the destination, so that nothing is sent to it, else 0.",
        |index| u64::from(figures.is_held(index)),
    )
}

/// Adds which destinations are connected.
fn add_connected(text: &mut String, plan: &Plan, figures: &Figures) -> Result<(), AllocError> {
    add_by_destination(
        &mut *text,
        plan,
        "hl7_destination_connected",
        Kind::Gauge,
        "1 while a connection to the destination is open, as far as is known, else 0.",
        |index| u64::from(figures.is_connected(index)),
    )
}

/// Adds how many messages were sent to each destination a second time within one attempt.
fn add_sent_again(text: &mut String, plan: &Plan, figures: &Figures) -> Result<(), AllocError> {
    add_by_destination(
        &mut *text,
        plan,
        "hl7_destination_sent_again_total",
        Kind::Counter,
        "Messages sent a second time within one attempt.",
        |index| figures.sent_again(index),
    )
}

/// Adds the entries of the book: those that it holds, those that it owes, and the most that it may have.
fn add_entries(text: &mut String, gauge: Gauge) -> Result<(), AllocError> {
    add_one(
        &mut *text,
        "hl7_book_held_entries",
        Kind::Gauge,
        "Entries that the book holds.",
        gauge.held as u64,
    )?;
    add_one(
        &mut *text,
        "hl7_book_owed_entries",
        Kind::Gauge,
        "Entries that deliveries may still need.",
        u64::from(gauge.owed),
    )?;
    add_one(
        &mut *text,
        "hl7_book_max_entries",
        Kind::Gauge,
        "Entries that the book may hold, those owed included.",
        u64::from(gauge.events_max),
    )
}

/// Adds how many messages the book has accepted, how many of them it remembers, and from how many on no channel is read.
fn add_messages(text: &mut String, gauge: Gauge, keep: u32) -> Result<(), AllocError> {
    add_one(
        &mut *text,
        "hl7_book_messages_total",
        Kind::Counter,
        "Messages accepted since the start.",
        u64::from(gauge.messages),
    )?;
    add_one(
        &mut *text,
        "hl7_book_remembered_messages",
        Kind::Gauge,
        "Messages accepted and not forgotten.",
        u64::from(gauge.remembered()),
    )?;
    add_one(
        &mut *text,
        "hl7_book_remembered_max",
        Kind::Gauge,
        "Messages remembered from which on no channel is read.",
        u64::from(keep).saturating_add(u64::from(gauge.events_max)),
    )
}

/// Adds how many prunings and deployments are left.
fn add_left(text: &mut String, gauge: Gauge) -> Result<(), AllocError> {
    let prunings_left = PRUNINGS_MAX.saturating_sub(gauge.prunings);
    let deployments_left = DEPLOYMENTS_MAX.saturating_sub(gauge.deployments);
    add_one(
        &mut *text,
        "hl7_book_prunings_left",
        Kind::Gauge,
        "Prunings that can still be made.",
        u64::from(prunings_left),
    )?;
    add_one(
        &mut *text,
        "hl7_book_deployments_left",
        Kind::Gauge,
        "Plans that can still be deployed.",
        u64::from(deployments_left),
    )
}

/// Adds the arrivals that were not booked, by cause.
fn add_unbooked(text: &mut String, unbooked: Unbooked) -> Result<(), AllocError> {
    let Unbooked {
        full,
        plan_changed,
        no_memory,
    } = unbooked;
    let name = "hl7_unbooked_messages_total";
    add_head(
        &mut *text,
        name,
        Kind::Counter,
        "Messages that were not booked, and answered so.",
    )?;
    writeln!(text, "{name}{{cause=\"full\"}} {full}")?;
    writeln!(text, "{name}{{cause=\"plan_changed\"}} {plan_changed}")?;
    writeln!(text, "{name}{{cause=\"no_memory\"}} {no_memory}")
}

/// Adds the blocks that were dropped without an answer, by cause.
fn add_dropped(text: &mut String, dropped: Dropped) -> Result<(), AllocError> {
    let Dropped {
        unreadable,
        acknowledgments,
        broken,
    } = dropped;
    let name = "hl7_dropped_blocks_total";
    add_head(
        &mut *text,
        name,
        Kind::Counter,
        "Blocks that were dropped without an answer.",
    )?;
    writeln!(text, "{name}{{cause=\"unreadable\"}} {unreadable}")?;
    writeln!(text, "{name}{{cause=\"acknowledgment\"}} {acknowledgments}")?;
    writeln!(text, "{name}{{cause=\"broken\"}} {broken}")
}

/// Adds whether the plan in force is neither that of the command line nor one that was deployed since.
fn add_plan(text: &mut String, figures: &Figures) -> Result<(), AllocError> {
    add_one(
        &mut *text,
        "hl7_plan_differs",
        Kind::Gauge,
        "1 where the plan of the command line is not taken, and the one in the store stays in force.",
        u64::from(figures.plan_differs),
    )
}

/// Adds the connections of senders.
fn add_connections(text: &mut String, admitted: u32, figures: &Figures) -> Result<(), AllocError> {
    add_one(
        &mut *text,
        "hl7_open_connections",
        Kind::Gauge,
        "Connections of senders that are open.",
        u64::from(figures.open),
    )?;
    add_one(
        &mut *text,
        "hl7_connections_total",
        Kind::Counter,
        "Connections of senders taken since the start.",
        u64::from(admitted),
    )?;
    add_one(
        &mut *text,
        "hl7_refused_connections_total",
        Kind::Counter,
        "Connections closed because no number or no memory was left for them.",
        figures.refused,
    )
}

/// Microseconds as seconds, with six decimals.
#[derive(Clone, Copy)]
struct Seconds(u64);

impl fmt::Display for Seconds {
    fn fmt<W: fmt::Write>(&self, f: &mut fmt::Formatter<W>) -> fmt::Result {
        let Seconds(micros) = self;
        write!(f, "{}.{:06}", micros / 1_000_000, micros % 1_000_000)
    }
}

/// Adds how long commits took.
fn add_commit_times(text: &mut String, store: &StoreNumbers) -> Result<(), AllocError> {
    let (all, longest) = (Seconds(store.micros), Seconds(store.longest));
    let name = "hl7_store_commit_seconds_total";
    let help = "How long the commits of the store took.";
    add_head(&mut *text, name, Kind::Counter, help)?;
    writeln!(text, "{name} {all}")?;
    let name = "hl7_store_longest_commit_seconds";
    let help = "How long the longest commit of the store took since the start.";
    add_head(&mut *text, name, Kind::Gauge, help)?;
    writeln!(text, "{name} {longest}")
}

/// Adds what was written to the store, where there is one.
fn add_store(text: &mut String, store: Option<StoreNumbers>) -> Result<(), AllocError> {
    let Some(store) = store else {
        return Ok(());
    };
    add_one(
        &mut *text,
        "hl7_store_commits_total",
        Kind::Counter,
        "Commits of the store since the start.",
        store.commits,
    )?;
    add_one(
        &mut *text,
        "hl7_store_changes_total",
        Kind::Counter,
        "Changes of the book that were written to the store since the start.",
        store.changes,
    )?;
    add_commit_times(&mut *text, &store)?;
    add_one(
        &mut *text,
        "hl7_store_full",
        Kind::Gauge,
        "Whether the disk of the store has no room, so that nothing is acknowledged.",
        u64::from(store.has_no_room),
    )
}

/// The numbers of a service in the text format of Prometheus, version 0.0.4.
///
/// # Errors
///
/// Where memory is refused.
pub fn metrics_text(
    alloc: Global,
    plan: &Plan,
    status: &Status,
    figures: &Figures,
) -> Result<String, AllocError> {
    let mut text = String::new(alloc);
    add_one(
        &mut text,
        "hl7_start_time_seconds",
        Kind::Gauge,
        "When the service started, in seconds since 1970.",
        figures.started,
    )?;
    add_channels(&mut text, plan, &status.counts)?;
    add_destinations(&mut text, plan, &status.counts)?;
    add_places(&mut text, plan, figures)?;
    add_moments(&mut text, plan, figures)?;
    add_connected(&mut text, plan, figures)?;
    add_sent_again(&mut text, plan, figures)?;
    add_entries(&mut text, status.gauge)?;
    add_messages(&mut text, status.gauge, figures.keep)?;
    add_left(&mut text, status.gauge)?;
    add_plan(&mut text, figures)?;
    add_store(&mut text, figures.store)?;
    add_connections(&mut text, status.gauge.admitted, figures)?;
    add_unbooked(&mut text, figures.unbooked)?;
    add_one(
        &mut text,
        "hl7_repeats_unbooked_total",
        Kind::Counter,
        "Messages that were answered as repeats without being booked, since the book was full.",
        figures.repeats_unbooked,
    )?;
    add_dropped(&mut text, figures.dropped)?;
    writeln!(text, "")?;
    Ok(text)
}
