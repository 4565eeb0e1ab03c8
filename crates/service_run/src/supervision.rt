//! What a service says to the service manager that started it: that it is ready, that it works, how it is, and that it ends.

ghost use Rattle.std.specs.Prelude.{◌≡◌};
ghost use Rattle.service_run.specs.inner.Progress.{has_moved, has_stepped};

use crate::figures::Watch;
use book_journal::StoreFigures;
use book_lock::Sharing;
use notify_socket::{Notice, NotifySocket, write_notices};
use service_workers::{Crew, Site, Stage, has_ended};
use std::alloc::{AllocError, Global};
use std::time::Duration;
use std::{env, thread};

/// The environment variable in which a service manager gives the address of its socket.
const SOCKET_VARIABLE: &str = "NOTIFY_SOCKET";

/// How many milliseconds pass between two looks.
const LOOK_MILLIS: u64 = 100;

/// After how many looks it is said again that the service works, and how it is: a second.
const LOOKS_OF_A_SECOND: u32 = 10;

/// How far the threads of a service had come at a moment: those that have to go on for messages to be taken and acknowledged.
#[derive(Clone, Copy, Debug, PartialEq, Eq)]
pub struct Progress {
    /// How often the warden had looked at the book, for which it takes the book's lock.
    pub looks: u64,
    /// How many steps the journal had begun, where there is a store.
    pub steps: Option<u64>,
}

/// Whether a journal has begun a step between two moments, by how many it had begun; so where there is none.
fn has_stepped(before: Option<u64>, now: Option<u64>) -> bool
    ensures { result ≡ has_stepped before now }
{
    match (before, now) {
        (Some(before), Some(now)) => now != before,
        _ => true,
    }
}

impl Progress {
    /// Whether the warden and, where there is a store, the journal have gone on since an earlier moment.
    pub fn has_moved_since(self, earlier: Progress) -> bool
        ensures { result ≡ has_moved earlier self }
    {
        self.looks != earlier.looks && has_stepped(earlier.steps, self.steps)
    }

    /// How far the threads of a service are.
    fn of<A: Sharing, H: Crew>(site: &Site<'_, A, H>, store: Option<&StoreFigures>) -> Progress {
        Progress {
            looks: site.looks(),
            steps: store.map(steps_of),
        }
    }
}

/// How many steps a journal has begun.
fn steps_of(figures: &StoreFigures) -> u64 {
    figures.report().steps
}

/// The socket to the service manager, where the environment names one and it can be used.
pub(crate) fn notify_socket(rt: &HostRuntime) -> Option<NotifySocket> {
    let name = env::var(rt, SOCKET_VARIABLE).ok()?;
    NotifySocket::open(name.as_bytes())
}

/// Says something to the service manager. Where memory is refused, or the manager takes nothing, it isn't said.
pub(crate) fn say_notices(alloc: Global, manager: &NotifySocket, notices: &[Notice<'_>]) {
    if let Ok(text) = write_notices(alloc, notices) {
        manager.send(text.as_bytes());
    }
}

/// How a service is, in a line: how many connections are open, messages received, and messages that wait for delivery.
///
/// # Errors
///
/// Where memory is refused.
fn state_line<A: Sharing, H: Crew>(site: &Site<'_, A, H>) -> Result<String, AllocError> {
    let (status, plan) = site.shared.status(site.rt)?;
    plan.rules();
    let mut waiting: u64 = 0;
    for index in 0..plan.destinations() {
        let counts = status.counts.destination(index);
        waiting = waiting
            .saturating_add(counts.waiting)
            .saturating_add(counts.inflight);
    }
    let (connections, messages) = (site.open(), status.gauge.messages);
    format!(in site.alloc;
        "{connections} connections, {messages} messages, {waiting} deliveries to come"
    )
}

/// Says to the manager how the service is.
fn say_state<A: Sharing, H: Crew>(site: &Site<'_, A, H>, manager: &NotifySocket) {
    if let Ok(line) = state_line(site) {
        say_notices(site.alloc, manager, &[Notice::Status(&line)]);
    }
}

/// Says to the service manager that the service is ready, and each second how it is; that it works, where the warden and the journal
/// have gone on since that was said last; and once that it ends, until all workers have ended.
pub(crate) fn supervise<A: Sharing, H: Crew>(
    site: &Site<'_, A, H>,
    manager: &NotifySocket,
    watch: Watch<'_>,
) {
    let (mut looks, mut ends) = (0u32, false);
    let mut before = Progress::of(site, watch.store);
    say_notices(site.alloc, manager, &[Notice::Ready]);
    for _ in site.rt.forever() {
        if site.stage() != Stage::Open {
            if !ends {
                ends = true;
                say_notices(site.alloc, manager, &[Notice::Stopping]);
            }
            if has_ended(site) {
                return;
            }
        }
        if looks == 0 {
            let now = Progress::of(site, watch.store);
            if now.has_moved_since(before) {
                before = now;
                say_notices(site.alloc, manager, &[Notice::Watchdog]);
            }
            say_state(site, manager);
        }
        looks = looks.saturating_add(1) % LOOKS_OF_A_SECOND;
        thread::sleep(site.rt, Duration::from_millis(LOOK_MILLIS));
    }
}
