//! The desk of an operator, by which commands wait until what they changed survives a crash.

use crate::site::{Crew, Site};
use book_lock::{Desk, Sharing};
use std::sync::Mutex;

/// The desk of an operator. Nothing is booked at it.
#[derive(Drop)]
pub struct OperatorDesk<A: Sharing> {
    desk: Mutex<Desk<A>>,
}

impl<A: Sharing> OperatorDesk<A> {
    /// An operator with this desk.
    pub fn new(desk: Desk<A>) -> Self {
        OperatorDesk {
            desk: Mutex::new(desk),
        }
    }

    /// Waits until all that was booked before the call survives a crash, where the history is written to a store. Returns
    /// whether it does, where it is; the store may have failed.
    pub fn wait_durable<H: Crew>(&self, site: &Site<'_, A, H>) -> bool {
        if !site.is_stored {
            return true;
        }
        let mut desk = self.desk.lock(site.rt);
        site.shared.wait_durable(site.rt, &mut desk).is_ok()
    }

    /// The desk, once the operator has ended.
    pub fn into_desk(self) -> Desk<A> {
        let OperatorDesk { desk } = self;
        desk.into_inner()
    }
}
