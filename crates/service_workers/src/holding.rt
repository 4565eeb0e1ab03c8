//! Which destinations a site holds.

use crate::held::{HeldNames, has_destination};
use crate::site::{Crew, Site};
use book_lock::Sharing;
use fixed_numbers::DESTINATIONS;
use plan_text::Plan;
use std::alloc::{AllocError, Global};
use std::sync::Mutex;
use std::sync::atomic::{AtomicU32, Ordering};

/// The destinations that are held: their names, and which of the plan in force these are.
#[derive(Drop)]
pub(crate) struct Holding {
    names: Mutex<HeldNames>,
    /// The destinations of the plan in force that are held, one bit each. What delivers reads it before each message.
    mask: AtomicU32,
}

impl Holding {
    /// None is held.
    pub(crate) fn new(alloc: Global) -> Holding {
        Holding {
            names: Mutex::new(HeldNames::new(Vec::new(alloc))),
            mask: AtomicU32::new(0),
        }
    }
}

impl<A: Sharing, H: Crew> Site<'_, A, H> {
    /// The destinations of the plan in force that are held, one bit each.
    pub fn held(&self) -> u32 {
        self.holding.mask.load(Ordering::SeqCst)
    }

    /// Whether the destination at this index is held.
    pub fn is_held_at(&self, destination: u32) -> bool {
        destination < DESTINATIONS && has_destination(self.held(), destination)
    }

    /// The names of the destinations that are held, also of those that the plan in force doesn't have.
    ///
    /// # Errors
    ///
    /// Where memory is refused.
    pub fn held_names(&self) -> Result<HeldNames, AllocError> {
        self.holding.names.lock(self.rt).copy(self.alloc)
    }

    /// Holds the destinations of these names, and no other, where this plan is in force. What is in flight is settled.
    pub fn set_held(&self, names: HeldNames, plan: &Plan) {
        let mut held = self.holding.names.lock(self.rt);
        self.holding.mask.store(names.mask(plan), Ordering::SeqCst);
        *held = names;
    }

    /// Holds the destinations of the held names in either of two plans: so, while one of them replaces the other, none is released.
    pub fn hold_by_either(&self, one: &Plan, other: &Plan) {
        let names = self.holding.names.lock(self.rt);
        let mask = names.mask(one) | names.mask(other);
        self.holding.mask.store(mask, Ordering::SeqCst);
    }

    /// Holds the destinations of the held names in this plan, which is in force, and no other.
    pub fn hold_by(&self, plan: &Plan) {
        let names = self.holding.names.lock(self.rt);
        self.holding.mask.store(names.mask(plan), Ordering::SeqCst);
    }
}
