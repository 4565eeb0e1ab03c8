//! The statistics of a book, as they are printed.

ghost use Rattle.std.specs.Prelude.{◌≡◌, ◌++◌, string_bytes, IfOk, OnOk};
ghost use Rattle.engine_report.specs.Lines.{channel_line, channel_lines, destination_line, destination_lines, statistics_lines};

use plan_text::Plan;
use stat_count::{ChannelCounts, Counts, DestinationCounts};
use std::alloc::{AllocError, Global};

/// Adds the line of a channel.
#[tactic(auto, unfolding(crate::specs::Lines::channel_line))]
fn add_channel(text: &mut String, name: &str, counts: ChannelCounts) -> Result<(), AllocError>
    ensures { OnOk result (string_bytes text.new ≡ string_bytes text.old ++ channel_line name.now counts) }
{
    let ChannelCounts {
        received,
        filtered,
        accepted,
        refused,
        repeats,
    } = counts;
    writeln!(
        text,
        "channel {name} received {received} filtered {filtered} accepted {accepted} refused {refused} repeats {repeats}"
    )
}

/// Adds the line of a destination.
#[tactic(auto, unfolding(crate::specs::Lines::destination_line))]
fn add_destination(
    text: &mut String,
    name: &str,
    counts: DestinationCounts,
) -> Result<(), AllocError>
    ensures { OnOk result (string_bytes text.new ≡ string_bytes text.old ++ destination_line name.now counts) }
{
    let DestinationCounts {
        waiting,
        inflight,
        delivered,
        failed,
        attempts,
    } = counts;
    writeln!(
        text,
        "destination {name} waiting {waiting} inflight {inflight} delivered {delivered} failed {failed} attempts {attempts}"
    )
}

/// Adds a line for each channel, in the order of the plan.
fn add_channels(text: &mut String, plan: &Plan, counts: &Counts) -> Result<(), AllocError>
    ensures { OnOk result (string_bytes text.new ≡ string_bytes text.old ++ channel_lines plan.now counts.now) }
{
    plan.rules();
    for place in 0..plan.channels() {
        if let Some(channel) = plan.channel(place) {
            add_channel(&mut *text, channel.name(), counts.channel(place))?;
        }
    }
    Ok(())
}

/// Adds a line for each destination, in the order of the plan.
fn add_destinations(text: &mut String, plan: &Plan, counts: &Counts) -> Result<(), AllocError>
    ensures { OnOk result (string_bytes text.new ≡ string_bytes text.old ++ destination_lines plan.now counts.now) }
{
    plan.rules();
    for place in 0..plan.destinations() {
        if let Some(destination) = plan.destination(place) {
            add_destination(&mut *text, destination.name(), counts.destination(place))?;
        }
    }
    Ok(())
}

/// The statistics by a plan: a line for each channel, and then one for each destination.
///
/// # Errors
///
/// Where memory is refused.
pub fn statistics_text(alloc: Global, plan: &Plan, counts: &Counts) -> Result<String, AllocError>
    ensures { IfOk result (λ text. string_bytes text ≡ statistics_lines plan.now counts.now) }
{
    let mut text = String::new(alloc);
    add_channels(&mut text, plan, counts)?;
    add_destinations(&mut text, plan, counts)?;
    Ok(text)
}
