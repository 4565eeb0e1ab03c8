//! Delivering the messages of the destinations.

ghost use Rattle.std.specs.Prelude.{◌≡◌, ◌+◌, ◌++◌, ◌∷◌, [], IfOk, OnOk, map};
ghost use Rattle.std.specs.List.{filter_map};
ghost use Rattle.std.specs.Option.{ForSome};
ghost use Rattle.delivery_worker.specs.Sent.{IsUnused};
ghost use Rattle.delivery_worker.specs.inner.Works.{HasDelivered};

use crate::door::{Door, Incoming};
use crate::inlet::{ChannelWork, open_doors};
use crate::loan::TakeCell;
use crate::site::Context;
use book_core::BookRows;
use book_lock::{Sharing, Station};
use conn_worker::Clock;
use delivery_worker::{DeliverReport, Link, deliver};
use log::{Log, warn};
use std::alloc::{AllocError, Global};
use std::io::Write;
use std::sync::Wait;
use std::thread::{Scope, Threads};
use std::{thread, time};

/// What delivers the messages of a destination: its index in the plan, its link, the station of its takes and
/// settlements, how many takes the station had counted before, and the outcome of delivering, once it ended. The
/// report is of this station: the station has counted as many takes since as the report has attempts, and its calls are
/// those of these attempts, for this destination. Without a report it has made no call. The link leads to this destination.
#[derive(Drop)]
pub struct DestinationWork<A: Sharing, L: Link> {
    pub destination: u32,
    pub link: L,
    pub before: u64,
    pub station: Station<A>,
    pub report: Option<DeliverReport>,
    ghost counted: { ForSome report (λ r. station.counts.takes ≡ before + r.taken) },
    ghost delivered: { ∥ HasDelivered A.opening destination station.seat report ∥₁ },
    ghost leads: { L.leads_to link ≡ destination },
}

impl<A: Sharing, L: Link> DestinationWork<A, L> {
    /// The work of a destination to which nothing was delivered yet, with a station that has made no call.
    pub fn new(destination: u32, link: L, station: Station<A>) -> Self
        requires unused { IsUnused station.seat }
        requires leads { L.leads_to link ≡ destination }
        ensures destination { result.destination ≡ destination }
        ensures link { result.link ≡ link }
        ensures station { result.station ≡ station }
    {
        DestinationWork {
            destination,
            link,
            before: station.taken(),
            station,
            report: None,
        }
    }
}

/// Adds the station of an outlet to others, and its report, if it has one. The link is dropped.
fn add_outlet<A: Sharing, L: Link + Drop>(
    stations: &mut Vec<Station<A>>,
    reports: &mut Vec<DeliverReport>,
    outlet: DestinationWork<A, L>,
) -> Result<(), AllocError>
    ensures stations { OnOk result (stations.new.items ≡ stations.old.items ++ outlet.station ∷ []) }
    ensures reports { OnOk result (reports.new.items ≡ reports.old.items ++ filter_map (λ o. o.report) (outlet ∷ [])) }
{
    let DestinationWork {
        station,
        report,
        ..
    } = outlet;
    stations.push(station)?;
    if let Some(report) = report {
        reports.push(report)?;
    }
    Ok(())
}

/// The stations of all outlets, and the reports of those that delivered, both in the order of the outlets. The links are
/// dropped.
///
/// # Errors
///
/// Where memory is refused.
#[tactic(auto, using(crate::proofs::Parts::map_more, crate::proofs::Parts::filter_map_more))]
pub fn stations_and_reports<A: Sharing, L: Link + Drop>(
    alloc: Global,
    outlets: Vec<DestinationWork<A, L>>,
) -> Result<(Vec<Station<A>>, Vec<DeliverReport>), AllocError>
    ensures stations { IfOk result (λ r. r.0.items ≡ map (λ o. o.station) outlets.items) }
    ensures reports { IfOk result (λ r. r.1.items ≡ filter_map (λ o. o.report) outlets.items) }
{
    let (mut stations, mut reports) = (Vec::new(alloc), Vec::new(alloc));
    for outlet in outlets {
        add_outlet(&mut stations, &mut reports, outlet)?;
    }
    Ok((stations, reports))
}

/// Delivers the messages of a destination, and leaves the report with it. Where there is a report already, nothing is done.
fn deliver_all<
    A: Sharing,
    S: BookRows,
    C: Clock + Copy,
    H: Wait + time::Clock + Log,
    L: Link + Drop,
>(site: &Context<'_, A, S, C, H>, place: &TakeCell<DestinationWork<A, L>>) {
    let Some(outlet) = place.take(site.rt) else {
        return;
    };
    if outlet.report.is_some() {
        place.give_back(site.rt, outlet);
        return;
    }
    let DestinationWork {
        destination,
        mut link,
        mut station,
        ..
    } = outlet;
    let before = station.taken();
    let mut clock = site.clock;
    let report = deliver(
        site.rt,
        site.alloc,
        site.shared,
        &mut station,
        &mut link,
        destination,
        &mut clock,
        u64::MAX,
    );
    place.give_back(
        site.rt,
        DestinationWork {
            destination,
            link,
            before,
            station,
            report: Some(report),
        },
    );
}

/// Starts a thread that delivers the messages of a destination. Returns whether it was started.
fn start_delivering<
    's,
    'x: 's,
    E: 's,
    A: Sharing + Send + Sync + 's,
    S: BookRows + Send + 's,
    C: Clock + Copy + Sync + 's,
    H: Wait + time::Clock + Log + Sync + 's,
    L: Link + Send + Drop + 's,
>(
    scope: &Scope<'s, E>,
    site: &'s Context<'x, A, S, C, H>,
    destination: u32,
    outlet: &'s TakeCell<DestinationWork<A, L>>,
) -> bool {
    let started = scope.spawn(move || deliver_all(site, outlet)).is_ok();
    if !started {
        site.stop();
        warn!(site.rt; destination = site.destination_name(destination); "no thread for the destination, nothing is delivered to it");
    }
    started
}

/// Starts to deliver to all destinations, until a thread is refused.
fn start_delivering_all<
    's,
    'x: 's,
    E: 's,
    A: Sharing + Send + Sync + 's,
    S: BookRows + Send + 's,
    C: Clock + Copy + Sync + 's,
    H: Wait + time::Clock + Log + Sync + 's,
    L: Link + Send + Drop + 's,
>(
    scope: &Scope<'s, E>,
    site: &'s Context<'x, A, S, C, H>,
    outlets: &'s [TakeCell<DestinationWork<A, L>>],
) {
    for (destination, outlet) in (0..u32::MAX).zip(outlets) {
        if !start_delivering(scope, site, destination, outlet) {
            break;
        }
    }
}

/// Delivers to all destinations, each on a thread of its own, while the doors of all channels are opened. Once the last
/// connection is served, it is noted that no arrival will follow. It returns once the queues are empty.
pub(crate) fn work_all<
    'y,
    'x: 'y,
    A: Sharing + Send + Sync,
    S: BookRows + Send,
    C: Clock + Copy + Sync,
    H: Wait + Threads + time::Clock + Log + Sync,
    R: Incoming + Send + Drop,
    W: Write + Send + Drop,
    D: Door<Reader = R, Writer = W> + Send + Drop,
    L: Link + Send + Drop,
>(
    site: &'y Context<'x, A, S, C, H>,
    inlets: &'y [ChannelWork<A, D>],
    outlets: &'y [TakeCell<DestinationWork<A, L>>],
) {
    thread::scope(thread::scope_env(), site.rt, |scope| {
        start_delivering_all(scope, &*site, outlets);
        open_doors(&*site, inlets);
        site.shared.finish(site.rt);
    });
}
