//! The threads of a service.

use crate::execution::execute_all;
use crate::figures::{Counted, Watch};
use crate::settings::Settings;
use crate::supervision::supervise;
use crate::workers::Workers;
use book_lock::Sharing;
use log::{Log, info, warn};
use notify_socket::NotifySocket;
use service_web::{Door, answer_requests};
use service_workers::{
    Crew, Gate, Place, Post, Site, StopMode, stop, work_place, work_post, work_warden,
};
use std::thread;
use std::thread::{Builder, Scope, Threads};
use std::time::Duration;

/// The stack of a worker's thread, in bytes. The system gives memory to the part that is used alone.
pub(crate) const STACK_BYTES: usize = 262_144;

/// Starts a thread for each post. Returns how many threads were refused.
fn start_posts<'s, 'x: 's, E: 's, A: Sharing + Send + Sync + 's, H: Crew + Sync + 's>(
    scope: &Scope<'s, E>,
    site: &'s Site<'x, A, H>,
    posts: &'s [Post<A>],
) -> u32 {
    let mut refused: u32 = 0;
    for post in posts {
        site.begin_post();
        let started = Builder::new()
            .stack_size(STACK_BYTES)
            .spawn_scoped(scope, move || work_post(site, post));
        if started.is_err() {
            site.end_post();
            refused = refused.saturating_add(1);
        }
    }
    refused
}

/// The listener of the place at an index: the channels take turns.
fn gate_of(gates: &[Gate], index: u32) -> Option<&Gate> {
    let channels = gates.len().max(1);
    gates.get(index as usize % channels)
}

/// Starts a thread for each place. Returns how many threads were refused.
fn start_places<'s, 'x: 's, E: 's, A: Sharing + Send + Sync + 's, H: Crew + Sync + 's>(
    scope: &Scope<'s, E>,
    site: &'s Site<'x, A, H>,
    gates: &'s [Gate],
    places: &'s [Place<A>],
) -> u32 {
    let mut refused: u32 = 0;
    for (place, index) in places.iter().zip(0..u32::MAX) {
        let Some(gate) = gate_of(gates, index) else {
            break;
        };
        site.begin_place(gate.channel());
        let started = Builder::new()
            .stack_size(STACK_BYTES)
            .spawn_scoped(scope, move || work_place(site, gate, place));
        if started.is_err() {
            site.lose_place(gate.channel());
            refused = refused.saturating_add(1);
        }
    }
    refused
}

/// Starts the thread that watches how full the book is. Returns whether it was started.
fn start_warden<'s, 'x: 's, E: 's, A: Sharing + Send + Sync + 's, H: Crew + Sync + 's>(
    scope: &Scope<'s, E>,
    site: &'s Site<'x, A, H>,
) -> bool {
    Builder::new()
        .stack_size(STACK_BYTES)
        .spawn_scoped(scope, move || work_warden(site))
        .is_ok()
}

/// Starts the thread that answers requests over HTTP. Returns whether it was started.
fn start_answers<'s, 'x: 's, E: 's, A: Sharing + Send + Sync + 's, H: Crew + Sync + 's>(
    scope: &Scope<'s, E>,
    site: &'s Site<'x, A, H>,
    door: &'s Door,
    watch: Watch<'s>,
) -> bool {
    Builder::new()
        .stack_size(STACK_BYTES)
        .spawn_scoped(scope, move || {
            answer_requests(site, door, Counted { site, watch })
        })
        .is_ok()
}

/// Starts the thread that says to the service manager how the service is. Returns whether it was started.
fn start_supervision<'s, 'x: 's, E: 's, A: Sharing + Send + Sync + 's, H: Crew + Sync + 's>(
    scope: &Scope<'s, E>,
    site: &'s Site<'x, A, H>,
    manager: &'s NotifySocket,
    watch: Watch<'s>,
) -> bool {
    Builder::new()
        .stack_size(STACK_BYTES)
        .spawn_scoped(scope, move || supervise(site, manager, watch))
        .is_ok()
}

/// Starts all workers. Returns whether enough threads could be started: that of each post, the warden's, that of the first
/// place of each channel, the one that answers requests over HTTP, where there is an address for it, and the one that says to the
/// service manager how the service is, where there is one.
pub(crate) fn start_all<'s, 'x: 's, E: 's, A: Sharing + Send + Sync + 's, H: Crew + Sync + 's>(
    scope: &Scope<'s, E>,
    site: &'s Site<'x, A, H>,
    workers: &'s Workers<A>,
    watch: Watch<'s>,
) -> bool {
    if start_posts(scope, site, &workers.posts) > 0 || !start_warden(scope, site) {
        return false;
    }
    if let Some(door) = &workers.door
        && !start_answers(scope, site, door, watch)
    {
        return false;
    }
    let gates = &workers.gates;
    let channels = gates.len().min(workers.places.len());
    let (first, others) = workers.places.split_at(channels);
    if start_places(scope, site, gates, first) > 0 {
        return false;
    }
    let refused = start_places(scope, site, gates, others);
    if refused > 0 {
        let started = site.places();
        warn!(site.rt; refused, started; "not all threads could be started, fewer connections are served at once");
    }
    match &workers.manager {
        Some(manager) => start_supervision(scope, site, manager, watch),
        None => true,
    }
}

/// Ends all workers at once.
pub(crate) fn halt<A: Sharing, H: Crew>(site: &Site<'_, A, H>, workers: &Workers<A>) {
    stop(
        site,
        &workers.gates,
        &workers.places,
        StopMode::Now,
        Duration::ZERO,
    );
}

/// Starts all workers, and obeys commands until they have ended. Returns whether enough threads could be started; where not,
/// those that were are ended.
fn work_within<'s, 'x: 's, E: 's, A: Sharing + Send + Sync + 's, H: Crew + Sync + 's>(
    scope: &Scope<'s, E>,
    rt: &HostRuntime,
    site: &'s Site<'x, A, H>,
    workers: &'s Workers<A>,
    settings: &Settings,
    watch: Watch<'s>,
) -> bool {
    let is_staffed = start_all(scope, site, workers, watch);
    if is_staffed {
        info!(site.rt; "the service is ready");
        execute_all(rt, site, workers, settings, watch, None);
    } else {
        halt(site, workers);
    }
    is_staffed
}

/// Works until all workers have ended. Returns whether enough threads could be started.
pub(crate) fn work<'y, 'x: 'y, A: Sharing + Send + Sync, H: Crew + Threads + Sync>(
    rt: &HostRuntime,
    handle: &H,
    site: &'y Site<'x, A, H>,
    workers: &'y Workers<A>,
    settings: &Settings,
    watch: Watch<'y>,
) -> bool {
    let mut is_staffed = false;
    let staffed = &mut is_staffed;
    thread::scope(thread::scope_env(), handle, |scope| {
        *staffed = work_within(scope, rt, site, workers, settings, watch);
    });
    is_staffed
}
