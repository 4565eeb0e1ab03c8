//! The warden: it has reading pause where the book has no room, and reports what runs out.

use crate::draining::Drain;
use crate::pauses::{
    PauseCause, frees_enough, has_channel, held_back_by, is_filling, is_overfull, pause_cause,
    paused_by,
};
use crate::site::{Crew, Site};
use crate::stage::Stage;
use book_lock::{Gauge, Sharing, Status};
use fixed_numbers::{DEPLOYMENTS_MAX, DESTINATIONS, PRUNINGS_MAX};
use log::{Log, info, warn};
use plan_text::{Channel, Plan};
use std::thread;
use std::time::Duration;

/// How many milliseconds pass between two looks.
const LOOK_MILLIS: u64 = 50;

/// How few prunings or deployments are left where that is logged first: a tenth.
const FEW: u32 = 100;

/// After how many looks it is logged again that all connections of a channel are taken: a minute.
const LOOKS_OF_A_MINUTE: u32 = 1_200;

/// How few are left where it is logged again.
const VERY_FEW: u32 = 10;

/// How little is left of what can be done a limited number of times.
#[derive(Clone, Copy, PartialEq, Eq, PartialOrd, Ord)]
enum Left {
    Many,
    Few,
    VeryFew,
}

impl Left {
    /// How little a number is.
    fn of(left: u32) -> Left {
        if left <= VERY_FEW {
            Left::VeryFew
        } else if left <= FEW {
            Left::Few
        } else {
            Left::Many
        }
    }
}

/// How many messages are remembered beside how many may be.
#[derive(Clone, Copy, PartialEq, Eq, PartialOrd, Ord)]
enum Remembered {
    /// Fewer than half.
    Few,
    /// Half, and fewer than four fifths.
    Half,
    /// Four fifths and more.
    FourFifths,
}

impl Remembered {
    /// How many are, by the book and how many a pruning keeps.
    fn of(gauge: Gauge, keep: u32) -> Remembered {
        let most = u64::from(keep).saturating_add(u64::from(gauge.events_max));
        if is_filling(gauge, keep) {
            Remembered::FourFifths
        } else if u64::from(gauge.remembered()).saturating_mul(2) >= most {
            Remembered::Half
        } else {
            Remembered::Few
        }
    }
}

/// What the last look found, so that each change is logged once.
#[derive(Clone, Copy)]
struct Watch {
    /// The channels that pause by what waits or is remembered, until much less is.
    paused: u64,
    /// The channels of which all connections are taken, one bit each.
    taken: u64,
    /// How many looks were made since it was last logged that this is so of a channel.
    looks: u32,
    /// These, and those whose arrivals are held back.
    unread: u64,
    remembered: Remembered,
    prunings: Left,
    deployments: Left,
    drain: Drain,
}

impl Watch {
    fn new() -> Self {
        Watch {
            paused: 0,
            taken: 0,
            looks: 0,
            unread: 0,
            remembered: Remembered::Few,
            prunings: Left::Many,
            deployments: Left::Many,
            drain: Drain::new(),
        }
    }

    /// Logs that few prunings or deployments are left, where fewer are than at the last look.
    fn log_left<H: Log>(&mut self, rt: &H, gauge: Gauge) {
        let left = PRUNINGS_MAX.saturating_sub(gauge.prunings);
        if Left::of(left) > self.prunings {
            warn!(rt; left; "few prunings are left");
            self.prunings = Left::of(left);
        }
        let left = DEPLOYMENTS_MAX.saturating_sub(gauge.deployments);
        if Left::of(left) > self.deployments {
            warn!(rt; left; "few deployments are left");
            self.deployments = Left::of(left);
        }
    }
}

/// The channels of a plan of which all connections are taken, one bit each.
fn all_taken<A: Sharing, H: Crew>(site: &Site<'_, A, H>, plan: &Plan) -> u64 {
    plan.rules();
    let mut mask = 0;
    for index in 0..plan.channels() {
        let places = site.channel_places(index);
        if places > 0 && site.channel_open(index) >= places {
            mask |= 1 << index;
        }
    }
    mask
}

/// Logs of which channels all connections are taken: once, and then once a minute.
fn log_taken<A: Sharing, H: Crew>(site: &Site<'_, A, H>, plan: &Plan, watch: &mut Watch) {
    plan.rules();
    let taken = all_taken(site, plan);
    watch.looks = watch.looks.saturating_add(1);
    let again = watch.looks >= LOOKS_OF_A_MINUTE;
    for index in 0..plan.channels() {
        let is_new = !has_channel(watch.taken, index);
        if has_channel(taken, index)
            && (is_new || again)
            && let Some(channel) = plan.channel(index)
        {
            let (channel, connections) = (channel.name(), site.channel_places(index));
            warn!(site.rt; channel, connections; "all connections of the channel are taken: further senders wait unanswered");
        }
    }
    if again || taken != watch.taken {
        watch.looks = 0;
    }
    watch.taken = taken;
}

/// The first destination with this message at the front of its queue.
fn first_at(status: &Status, number: u32) -> Option<u32> {
    for (index, front) in (0..DESTINATIONS).zip(status.fronts.iter()) {
        if let Some(front) = front
            && front.number == number
        {
            return Some(index);
        }
    }
    None
}

/// The message that a pause waits for, with the index of the destination that holds it up, where they are known.
fn holder(status: &Status, cause: PauseCause) -> Option<(u32, u32)> {
    match cause {
        PauseCause::Queue(index) | PauseCause::Share(index) => {
            let front = (*status.fronts.get(index as usize)?)?;
            Some((front.number, index))
        }
        PauseCause::Remembered | PauseCause::Filling => {
            let number = status.first_live?;
            Some((number, first_at(status, number)?))
        }
    }
}

/// Logs that half or four fifths as many messages are remembered as may be, where fewer were at the last look and one message holds
/// them up: which, at which destination, and the command that ends it.
fn log_remembered<H: Log>(watch: &mut Watch, rt: &H, plan: &Plan, status: &Status, keep: u32) {
    let now = Remembered::of(status.gauge, keep);
    let is_more = now > watch.remembered;
    watch.remembered = now;
    if is_more
        && let Some((message, index)) = holder(status, PauseCause::Filling)
        && let Some(destination) = plan.destination(index)
    {
        let (destination, remembered) = (destination.name(), status.gauge.remembered());
        let most = u64::from(keep).saturating_add(u64::from(status.gauge.events_max));
        let share = match now {
            Remembered::FourFifths => "four fifths",
            Remembered::Few | Remembered::Half => "half",
        };
        warn!(rt; target: "always", destination, message, remembered, most; "{share} as many messages are remembered as may be: this one keeps all behind it from being forgotten until it is delivered, or cancelled by 'cancel'");
    }
}

/// Logs that the reading of a channel begins to pause, why, and which message holds it up at which destination.
fn log_pause<H: Log>(rt: &H, plan: &Plan, status: &Status, keep: u32, channel: &Channel) {
    let Some(cause) = pause_cause(plan, status, keep, channel) else {
        return;
    };
    let why = match cause {
        PauseCause::Remembered => "as many messages are remembered as may be",
        PauseCause::Filling =>
            "four fifths as many messages are remembered as may be, and one for a destination of the channel holds them up",
        PauseCause::Queue(_) => "what waits for a destination may take half of the book",
        PauseCause::Share(_) =>
            "the book is three quarters full, and a destination owes an equal share",
    };
    let channel = channel.name();
    if let Some((message, index)) = holder(status, cause)
        && let Some(destination) = plan.destination(index)
    {
        let destination = destination.name();
        warn!(rt; channel, destination, message; "reading paused: {why}");
    } else {
        warn!(rt; channel; "reading paused: {why}");
    }
}

/// Logs which channels pause that didn't at the last look, and which go on.
fn log_changes<H: Log>(rt: &H, plan: &Plan, status: &Status, keep: u32, before: u64, after: u64) {
    plan.rules();
    for index in 0..plan.channels() {
        let Some(channel) = plan.channel(index) else {
            return;
        };
        match (has_channel(before, index), has_channel(after, index)) {
            (false, true) => log_pause(rt, plan, status, keep, channel),
            (true, false) => info!(rt; channel = channel.name(); "reading again"),
            _ => {}
        }
    }
}

/// Forgets what is settled, where as many messages are remembered as may be. No arrival does it then, since no channel is
/// read. No pruning is made where none is left, or where it would forget no more messages than an eighth of the bound of
/// entries.
fn make_room<A: Sharing, H: Crew>(site: &Site<'_, A, H>, status: &Status) {
    if !is_overfull(status.gauge, site.keep)
        || status.gauge.prunings >= PRUNINGS_MAX
        || !frees_enough(status, site.keep)
    {
        return;
    }
    match site.shared.prune_settled(site.rt, site.keep) {
        Ok(before) => info!(site.rt; before; "settled messages forgotten"),
        Err(refusal) => warn!(site.rt; "settled messages can't be forgotten: {refusal}"),
    }
}

/// Looks at the book once: which channels pause, and what runs out.
fn look<A: Sharing, H: Crew>(site: &Site<'_, A, H>, watch: &mut Watch) {
    // Where the plan can't be shared, all stays as it is until the next look.
    let Ok((status, plan)) = site.shared.status(site.rt) else {
        return;
    };
    let paused = paused_by(&plan, &status, site.keep, watch.paused);
    let held_back = held_back_by(&plan, &status);
    let unread = paused | held_back;
    site.hold_back(held_back);
    site.pause(unread);
    log_changes(site.rt, &plan, &status, site.keep, watch.unread, unread);
    watch.paused = paused;
    log_taken(site, &plan, watch);
    watch.unread = unread;
    log_remembered(watch, site.rt, &plan, &status, site.keep);
    watch.log_left(site.rt, status.gauge);
    make_room(site, &status);
    site.forget_notes(status.gauge.first);
    watch.drain.log(site, &plan, &status.counts);
    site.note_look();
    site.rt.flush();
}

/// Whether nothing is left to look after: the service is halted, or it closes and no post works.
fn is_over<A: Sharing, H: Crew>(site: &Site<'_, A, H>) -> bool {
    match site.stage() {
        Stage::Open => false,
        Stage::Closing => site.posts() == 0,
        Stage::Halted => true,
    }
}

/// Looks at the book 20 times a second, until the service is halted, or closes and no post works. Reading pauses at the
/// channels that the book has no room for, and goes on once it has. Lines that the log holds back are written at each look.
pub fn work_warden<A: Sharing, H: Crew>(site: &Site<'_, A, H>) {
    let mut watch = Watch::new();
    for _ in site.rt.forever() {
        if is_over(site) {
            return;
        }
        look(site, &mut watch);
        thread::sleep(site.rt, Duration::from_millis(LOOK_MILLIS));
    }
}
