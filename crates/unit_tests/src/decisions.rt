//! Tests of what is decided without a socket.

use book_core::NotBooked;
use book_lock::{Gauge, Status};
use plan_text::Plan;
use service_workers::{PauseCause, Stage, Tallies, Unbooked, pause_cause, paused_by};
use stat_count::Counts;
use std::alloc::AllocError;

/// The status of a book that may hold `events_max` entries, with `messages` accepted and none forgotten, of which one
/// waits.
fn status(events_max: u32, messages: u32) -> Status {
    let mut counts = Counts::new();
    counts.count_waiting(0);
    Status {
        gauge: Gauge {
            held: 0,
            owed: 0,
            events_max,
            messages,
            first: 0,
            prunings: 0,
            deployments: 0,
            admitted: 0,
        },
        counts,
        fronts: [None; 32],
        first_live: None,
    }
}

#[test]
fn a_channel_pauses_while_a_queue_may_take_half_of_the_book(
    rt: HostRuntime,
) -> Result<(), AllocError> {
    // A message at the built-in plan's destination, which is tried three times, owes seven entries.
    let plan = Plan::built_in(rt.alloc())?;
    assert_eq!(&rt; paused_by(&plan, &status(14, 1), 100, 0), 0);
    assert_eq!(&rt; paused_by(&plan, &status(13, 1), 100, 0), 1);
    Ok(())
}

#[test]
fn a_paused_channel_goes_on_once_a_queue_may_take_a_quarter(
    rt: HostRuntime,
) -> Result<(), AllocError> {
    let plan = Plan::built_in(rt.alloc())?;
    assert_eq!(&rt; paused_by(&plan, &status(27, 1), 100, 1), 1);
    assert_eq!(&rt; paused_by(&plan, &status(28, 1), 100, 1), 0);
    Ok(())
}

#[test]
fn all_channels_pause_while_too_many_messages_are_remembered(
    rt: HostRuntime,
) -> Result<(), AllocError> {
    let plan = Plan::built_in(rt.alloc())?;
    assert_eq!(&rt; paused_by(&plan, &status(20, 29), 10, 0), 0);
    assert_eq!(&rt; paused_by(&plan, &status(20, 30), 10, 0), 1);
    let Some(channel) = plan.channel(0) else {
        return Ok(());
    };
    let cause = pause_cause(&plan, &status(20, 30), 10, channel);
    assert!(&rt; cause == Some(PauseCause::Remembered));
    Ok(())
}

#[test]
fn what_is_not_booked_is_counted_by_cause(rt: HostRuntime) {
    let tallies = Tallies::new();
    tallies.count_unbooked(NotBooked::Full);
    tallies.count_unbooked(NotBooked::Full);
    tallies.count_unbooked(NotBooked::PlanChanged);
    tallies.count_refused();
    let unbooked = tallies.unbooked();
    assert!(&rt;
        unbooked
            == Unbooked {
                full: 2,
                plan_changed: 1,
                no_memory: 0,
            }
    );
    assert_eq!(&rt; unbooked.total(), 3);
    assert_eq!(&rt; tallies.refused(), 1);
}

#[test]
fn the_last_message_of_each_channel_is_noted(rt: HostRuntime) {
    let tallies = Tallies::new();
    tallies.note_received(63, 1_700_000_000);
    tallies.note_received(64, 1_700_000_001);
    tallies.note_delivered(31, 1_700_000_002);
    assert_eq!(&rt; tallies.received(63), 1_700_000_000);
    assert_eq!(&rt; tallies.received(62), 0);
    assert_eq!(&rt; tallies.received(64), 0);
    assert_eq!(&rt; tallies.delivered(31), 1_700_000_002);
    assert_eq!(&rt; tallies.delivered(0), 0);
}

#[test]
fn stages_follow_one_another(rt: HostRuntime) {
    assert!(&rt; Stage::Open.number() < Stage::Closing.number());
    assert!(&rt; Stage::of(Stage::Halted.number()) == Stage::Halted);
    assert!(&rt; Stage::of(7) == Stage::Halted);
}
