//! The way to a destination, as the plan in force has it.

ghost use Rattle.std.specs.Prelude.{◌≡◌};

use crate::site::{Crew, Site};
use crate::stage::Stage;
use book_lock::Sharing;
use delivery_worker::{Cause, Way};
use dest_queue::Outcome;
use plan_text::{Destination, Plan};
use std::sync::Arc;

/// The way to the destination at an index of the plan in force.
#[derive(Drop)]
pub struct PlanWay<'s, 'x, A: Sharing, H> {
    site: &'s Site<'x, A, H>,
    index: u32,
    /// The plan that was taken up last, if one could be.
    plan: Option<Arc<Plan>>,
}

/// Whether two plans have the same address and timeout of a destination, or neither has it.
fn is_same_way(old: &Plan, new: &Plan, index: u32) -> bool {
    match (old.destination(index), new.destination(index)) {
        (Some(before), Some(after)) => {
            before.address() == after.address() && before.timeout() == after.timeout()
        }
        (None, None) => true,
        _ => false,
    }
}

impl<'s, 'x, A: Sharing, H: Crew> PlanWay<'s, 'x, A, H> {
    /// The way by the plan in force at this moment.
    pub fn new(site: &'s Site<'x, A, H>, index: u32) -> Self
        ensures { result.index ≡ index }
    {
        PlanWay {
            site,
            index,
            plan: site.shared.plan(site.rt).ok(),
        }
    }
}

impl<A: Sharing, H: Crew> Way for PlanWay<'_, '_, A, H> {
    ghost use Rattle.std.specs.Prelude.{option_map};
    ghost use Rattle.std.specs.Arc.{arc_value};

    ghost leads_to = { λ way. way.index };

    ghost plan = { λ way. option_map arc_value way.plan };

    fn destination(&self) -> Option<&Destination> {
        match &self.plan {
            Some(plan) => plan.destination(self.index),
            None => None,
        }
    }

    fn renew(&mut self) -> bool {
        // Where the plan can't be shared, the one before stays.
        let Ok(new) = self.site.shared.plan(self.site.rt) else {
            return false;
        };
        let is_changed = match &self.plan {
            Some(old) => !is_same_way(old, &new, self.index),
            None => true,
        };
        self.plan = Some(new);
        is_changed
    }

    fn is_halted(&self) -> bool {
        self.site.stage() == Stage::Halted
    }

    fn can_halt(&self) -> bool {
        true
    }

    fn note(&mut self, outcome: Outcome) {
        if outcome == Outcome::Delivered {
            self.site.note_delivered(self.index);
        }
    }

    fn note_sent_again(&mut self) {
        self.site.count_sent_again(self.index);
    }

    fn note_cut(&mut self) {
        self.site.count_cut();
    }

    fn note_connected(&mut self) {
        self.site.note_connected(self.index);
    }

    fn note_fault(&mut self, cause: &Cause, wait: Option<u32>) {
        self.site.note_fault(self.index, cause, wait);
    }

    fn note_moved(&mut self) {
        self.site.note_moved(self.index);
    }
}
