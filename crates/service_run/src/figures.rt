//! What a service counts beside its book.

use book_journal::StoreFigures;
use book_lock::Sharing;
use service_answers::{Dropped, Figures, StoreNumbers, Unbooked};
use service_web::Counting;
use service_workers::{Crew, LinkState, Site};
use stat_count::DESTINATIONS;

/// What is counted of a service beside its workers.
#[derive(Clone, Copy)]
pub(crate) struct Watch<'s> {
    /// When the service started, in seconds since 1970.
    pub(crate) started: u64,
    /// What its journal has written, where it has a store.
    pub(crate) store: Option<&'s StoreFigures>,
}

/// The figures of a store, as they are shown.
fn numbers_of(figures: &StoreFigures) -> StoreNumbers {
    let report = figures.report();
    StoreNumbers {
        commits: report.commits,
        changes: report.changes,
        micros: report.micros,
        longest: report.longest,
        has_no_room: report.has_no_room,
    }
}

/// The destinations that are connected, and those to which there is no connection since one failed or could not be opened, as masks.
fn links_of<A: Sharing, H: Crew>(site: &Site<'_, A, H>) -> (u32, u32) {
    let (mut connected, mut unconnected) = (0u32, 0u32);
    for index in 0..DESTINATIONS {
        match site.link_state(index) {
            LinkState::Untried => {}
            LinkState::Connected(_) => connected |= 1 << index,
            LinkState::Unconnected(_) => unconnected |= 1 << index,
        }
    }
    (connected, unconnected)
}

/// What the workers of a service have counted so far.
pub(crate) fn figures_of<A: Sharing, H: Crew>(site: &Site<'_, A, H>, watch: Watch<'_>) -> Figures {
    let (unbooked, dropped) = (site.unbooked(), site.dropped());
    let mut received = [0; 64];
    for (moment, channel) in received.iter_mut().zip(0..u32::MAX) {
        *moment = site.last_received(channel);
    }
    let mut delivered = [0; 32];
    for (moment, destination) in delivered.iter_mut().zip(0..u32::MAX) {
        *moment = site.last_delivered(destination);
    }
    let (mut open_by_channel, mut places) = ([0; 64], [0; 64]);
    for (count, channel) in open_by_channel.iter_mut().zip(0..u32::MAX) {
        *count = site.channel_open(channel);
    }
    for (count, channel) in places.iter_mut().zip(0..u32::MAX) {
        *count = site.channel_places(channel);
    }
    let mut sent_again = [0; 32];
    for (count, destination) in sent_again.iter_mut().zip(0..u32::MAX) {
        *count = site.sent_again(destination);
    }
    let (connected, unconnected) = links_of(site);
    Figures {
        started: watch.started,
        now: site.seconds(),
        keep: site.keep,
        open: site.open(),
        refused: site.refused(),
        unbooked: Unbooked {
            full: unbooked.full,
            plan_changed: unbooked.plan_changed,
            no_memory: unbooked.no_memory,
        },
        repeats_unbooked: site.repeats_unbooked(),
        dropped: Dropped {
            unreadable: dropped.unreadable,
            acknowledgments: dropped.acknowledgments,
            broken: dropped.broken,
        },
        paused: site.paused(),
        held: site.held(),
        connected,
        unconnected,
        open_by_channel,
        places,
        received,
        delivered,
        sent_again,
        plan_differs: site.plan_differs(),
        store: watch.store.map(numbers_of),
    }
}

/// What is counted of a service, for answers over HTTP.
#[derive(Drop)]
pub(crate) struct Counted<'s, 'x, A: Sharing, H> {
    pub(crate) site: &'s Site<'x, A, H>,
    pub(crate) watch: Watch<'s>,
}

impl<A: Sharing, H: Crew> Counting for Counted<'_, '_, A, H> {
    fn figures(&self) -> Figures {
        figures_of(self.site, self.watch)
    }
}
