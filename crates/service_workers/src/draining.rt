//! What a service that stops waits for.

use crate::site::{Crew, Site};
use crate::stage::Stage;
use book_lock::Sharing;
use fixed_numbers::DESTINATIONS;
use log::{Log, info};
use plan_text::Plan;
use stat_count::{Counts, DestinationCounts};
use std::fmt;

/// After how many looks it is logged again what is waited for: ten seconds.
const LOOKS_OF_TEN_SECONDS: u32 = 200;

/// How many messages of the destination at an index are waiting or in flight, or in flight alone where it is held; 0 at an index
/// that no plan has.
fn left_at(counts: &Counts, destination: u32, is_held: bool) -> u64 {
    if destination >= DESTINATIONS {
        return 0;
    }
    let DestinationCounts {
        waiting,
        inflight,
        ..
    } = counts.destination(destination);
    if is_held {
        inflight
    } else {
        waiting.saturating_add(inflight)
    }
}

/// The destinations for which messages are waiting or in flight, each with how many: `LAB:2,ARCHIVE:1`. Of one that is held nothing
/// is waited for but what is in flight.
#[derive(Clone, Copy)]
struct Remainder<'a> {
    plan: &'a Plan,
    counts: &'a Counts,
    /// The destinations that are held, one bit each.
    held: u32,
}

impl Remainder<'_> {
    /// How many messages of the destination at an index are waited for.
    fn left_at(&self, index: u32) -> u64 {
        left_at(
            self.counts,
            index,
            self.held.checked_shr(index).unwrap_or(0) % 2 == 1,
        )
    }

    /// Whether there are any.
    fn is_any(&self) -> bool {
        (0..self.plan.destinations()).any(|index| self.left_at(index) > 0)
    }
}

impl fmt::Display for Remainder<'_> {
    fn fmt<W: fmt::Write>(&self, f: &mut fmt::Formatter<W>) -> fmt::Result {
        let mut before = "";
        for index in 0..self.plan.destinations() {
            let left = self.left_at(index);
            if left > 0
                && let Some(destination) = self.plan.destination(index)
            {
                write!(f, "{before}{}:{left}", destination.name())?;
                before = ",";
            }
        }
        Ok(())
    }
}

/// When it was last logged what a service that stops waits for.
#[derive(Clone, Copy)]
pub(crate) struct Drain {
    /// How many looks were made since then; none where it was never logged.
    looks: Option<u32>,
}

impl Drain {
    /// Of a service that doesn't stop yet.
    pub(crate) fn new() -> Drain {
        Drain { looks: None }
    }

    /// Whether it is to be logged at this look.
    fn is_due(&mut self) -> bool {
        let looks = self.looks.unwrap_or(LOOKS_OF_TEN_SECONDS).saturating_add(1);
        let is_due = looks > LOOKS_OF_TEN_SECONDS;
        self.looks = Some(if is_due { 1 } else { looks });
        is_due
    }

    /// Logs what a service that stops waits for, where messages are left: at once, and then every ten seconds.
    pub(crate) fn log<A: Sharing, H: Crew>(
        &mut self,
        site: &Site<'_, A, H>,
        plan: &Plan,
        counts: &Counts,
    ) {
        let left = Remainder {
            plan,
            counts,
            held: site.held(),
        };
        if site.stage() == Stage::Closing && left.is_any() && self.is_due() {
            info!(site.rt; target: "always", messages:% = left; "stopping: messages wait for delivery, or are in flight");
        }
    }
}
