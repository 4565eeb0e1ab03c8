//! What all workers share.

use book_core::BookRows;
use book_lock::{Shared, Sharing};
use plan_text::Plan;
use std::alloc::Global;
use std::sync::atomic::{AtomicBool, Ordering};

/// What all workers share: the runtime, the book, the plan, which names channels and destinations in the log, the clock that
/// each has a copy of, and whether a thread or memory was refused, after which no further worker is started.
#[derive(Drop)]
pub struct Context<'x, A: Sharing, S: BookRows, C, H> {
    pub rt: &'x H,
    pub alloc: Global,
    pub shared: &'x Shared<A, S>,
    pub plan: &'x Plan,
    pub clock: C,
    stopped: AtomicBool,
}

impl<'x, A: Sharing, S: BookRows, C, H> Context<'x, A, S, C, H> {
    /// A context in which nothing was refused yet.
    pub fn new(
        rt: &'x H,
        alloc: Global,
        shared: &'x Shared<A, S>,
        plan: &'x Plan,
        clock: C,
    ) -> Self {
        Context {
            rt,
            alloc,
            shared,
            plan,
            clock,
            stopped: AtomicBool::new(false),
        }
    }

    /// The name of a channel, by its index in the plan, for the log.
    pub fn channel_name(&self, channel: u32) -> &str {
        match self.plan.channel(channel) {
            Some(channel) => channel.name(),
            None => "",
        }
    }

    /// The name of a destination, by its index in the plan, for the log.
    pub fn destination_name(&self, destination: u32) -> &str {
        match self.plan.destination(destination) {
            Some(destination) => destination.name(),
            None => "",
        }
    }

    /// Notes that a thread or memory was refused.
    pub fn stop(&self) {
        self.stopped.store(true, Ordering::SeqCst);
    }

    /// Whether a thread or memory was refused.
    pub fn is_stopped(&self) -> bool {
        self.stopped.load(Ordering::SeqCst)
    }
}
