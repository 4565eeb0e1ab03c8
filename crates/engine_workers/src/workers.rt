//! Running all workers.

ghost use Rattle.std.specs.Prelude.{◌≡◌, ◌<◌, All, OnOk};
ghost use Rattle.std.specs.Vec.Iter.{into_iter_items};
ghost use Rattle.delivery_worker.specs.Sent.{IsUnused};
ghost use Rattle.engine_workers.specs.inner.Order.{AreFrom, are_from_prop};

use crate::connection_work::ConnectionWork;
use crate::door::{Door, Incoming};
use crate::inlet::ChannelWork;
use crate::loan::TakeCell;
use crate::outlet::{DestinationWork, work_all};
use crate::site::Context;
use book_core::BookRows;
use book_lock::{Desk, Shared, Sharing, Station};
use conn_worker::Clock;
use delivery_worker::Link;
use log::Log;
use plan_text::Plan;
use std::alloc::{AllocError, Global};
use std::io::Write;
use std::sync::Wait;
use std::thread::Threads;
use std::{time, vec};
use thiserror::Error;

/// Not all workers could be started, because memory or a thread was refused. Those that were started have ended.
#[derive(Clone, Copy, Debug, PartialEq, Eq, Error)]
#[error("not all workers could be started")]
pub struct StartError;

impl From<AllocError> for StartError {
    fn from(_: AllocError) -> Self {
        StartError
    }
}

/// What the workers work with: a desk for each connection, a door for each channel, and for each destination a station and
/// a link that leads there. No call was made at a desk or a station yet.
#[derive(Drop)]
pub struct Workers<A: Sharing, D, L: Link> {
    /// The desks of the connections, those of the first channel's first.
    pub desks: Vec<Desk<A>>,
    /// The doors, in the order of the plan's channels.
    pub doors: Vec<D>,
    /// The stations, in the order of the plan's destinations.
    pub stations: Vec<Station<A>>,
    /// The links, in the order of the plan's destinations.
    pub links: Vec<L>,
    ghost unused_desks: { All (λ d. IsUnused d.seat) desks.items },
    ghost unused_stations: { All (λ s. IsUnused s.seat) stations.items },
    ghost links_in_order: { AreFrom L.leads_to 0 links.items } by { are_from_prop L.leads_to 0 links.items },
}

/// The result of the work: what the workers worked with, each report with the desk or the station that it is of.
#[derive(Drop)]
pub struct Finished<A: Sharing, D, L: Link> {
    /// The connections, in the order of their numbers.
    pub connections: Vec<ConnectionWork<A>>,
    /// The doors, in the order of the plan's channels.
    pub doors: Vec<D>,
    /// The work of the destinations, in the order of the plan.
    pub outlets: Vec<DestinationWork<A, L>>,
}

/// Where the workers work.
#[derive(Drop)]
struct Work<A: Sharing, D, L: Link> {
    /// The inlets, in the order of the plan's channels.
    inlets: Vec<ChannelWork<A, D>>,
    /// The outlets, in the order of the plan's destinations.
    outlets: Vec<TakeCell<DestinationWork<A, L>>>,
}

/// The work of a channel's connections, at the next desks.
#[tactic(auto, using(delivery_worker::proofs::Unused::unused_desk))]
fn connections_at<A: Sharing>(
    alloc: Global,
    desks: &mut vec::IntoIter<Desk<A>>,
    channel: u32,
    accept: u32,
) -> Result<Vec<TakeCell<ConnectionWork<A>>>, AllocError>
    requires channel { channel < A.channels }
    requires unused { All (λ d. IsUnused d.seat) (into_iter_items desks.old) }
    ensures unused { OnOk result (All (λ d. IsUnused d.seat) (into_iter_items desks.new)) }
{
    let first = channel.saturating_mul(accept);
    let mut connections = Vec::new(alloc);
    for k in 0..accept {
        let Some(desk) = desks.next() else {
            break;
        };
        let work = ConnectionWork::new(first.saturating_add(k), channel, desk);
        connections.push(TakeCell::new(work))?;
    }
    Ok(connections)
}

/// The work of the channels, each with that of its connections.
fn inlets_of<A: Sharing, D: Drop>(
    alloc: Global,
    channels: u32,
    accept: u32,
    desks: Vec<Desk<A>>,
    doors: Vec<D>,
) -> Result<Vec<ChannelWork<A, D>>, AllocError>
    requires channels { channels ≡ A.channels }
    requires unused { All (λ d. IsUnused d.seat) desks.items }
{
    let mut desks = desks.into_iter();
    let mut doors = doors.into_iter();
    let mut inlets = Vec::new(alloc);
    for channel in 0..channels {
        let Some(door) = doors.next() else {
            break;
        };
        let connections = connections_at(alloc, &mut desks, channel, accept)?;
        inlets.push(ChannelWork {
            channel,
            door: TakeCell::new(door),
            connections,
        })?;
    }
    Ok(inlets)
}

/// The work of the destinations.
fn outlets_of<A: Sharing, L: Link + Drop>(
    alloc: Global,
    stations: Vec<Station<A>>,
    links: Vec<L>,
) -> Result<Vec<TakeCell<DestinationWork<A, L>>>, AllocError>
    requires unused { All (λ s. IsUnused s.seat) stations.items }
    requires in_order { AreFrom L.leads_to 0 links.items }
{
    let mut stations = stations.into_iter();
    let mut links = links.into_iter();
    let mut outlets = Vec::new(alloc);
    for destination in 0..u32::MAX {
        let Some(station) = stations.next() else {
            break;
        };
        let Some(link) = links.next() else {
            break;
        };
        outlets.push(TakeCell::new(DestinationWork::new(destination, link, station)))?;
    }
    Ok(outlets)
}

/// The work of all channels and destinations, made of what the workers work with.
fn posts_of<A: Sharing, D: Drop, L: Link + Drop>(
    alloc: Global,
    channels: u32,
    accept: u32,
    staff: Workers<A, D, L>,
) -> Result<Work<A, D, L>, AllocError>
    requires { channels ≡ A.channels }
{
    let Workers {
        desks,
        doors,
        stations,
        links,
    } = staff;
    let inlets = inlets_of(alloc, channels, accept, desks, doors)?;
    let outlets = outlets_of(alloc, stations, links)?;
    Ok(Work { inlets, outlets })
}

/// Takes in the door of a channel, and its connections.
fn take_inlet<A: Sharing, D: Drop>(
    connections: &mut Vec<ConnectionWork<A>>,
    doors: &mut Vec<D>,
    inlet: ChannelWork<A, D>,
) -> Result<(), AllocError> {
    if let Some(door) = inlet.door.into_inner() {
        doors.push(door)?;
    }
    for place in inlet.connections {
        if let Some(work) = place.into_inner() {
            connections.push(work)?;
        }
    }
    Ok(())
}

/// Takes in what delivered to all destinations.
fn outlets_back<A: Sharing, L: Link + Drop>(
    alloc: Global,
    places: Vec<TakeCell<DestinationWork<A, L>>>,
) -> Result<Vec<DestinationWork<A, L>>, AllocError> {
    let mut outlets = Vec::new(alloc);
    for place in places {
        if let Some(outlet) = place.into_inner() {
            outlets.push(outlet)?;
        }
    }
    Ok(outlets)
}

/// What the workers worked with, once they have ended.
fn gather<A: Sharing, D: Drop, L: Link + Drop>(
    alloc: Global,
    posts: Work<A, D, L>,
) -> Result<Finished<A, D, L>, AllocError> {
    let Work { inlets, outlets } = posts;
    let (mut connections, mut doors) = (Vec::new(alloc), Vec::new(alloc));
    for inlet in inlets {
        take_inlet(&mut connections, &mut doors, inlet)?;
    }
    let outlets = outlets_back(alloc, outlets)?;
    Ok(Finished {
        connections,
        doors,
        outlets,
    })
}

/// Starts a thread for each channel and each destination, and waits until all have ended. Returns whether all could be started.
fn work_at<
    A: Sharing + Send + Sync,
    S: BookRows + Send,
    C: Clock + Copy + Sync,
    H: Wait + Threads + time::Clock + Log + Sync,
    R: Incoming + Send + Drop,
    W: Write + Send + Drop,
    D: Door<Reader = R, Writer = W> + Send + Drop,
    L: Link + Send + Drop,
>(
    rt: &H,
    alloc: Global,
    shared: &Shared<A, S>,
    plan: &Plan,
    posts: &Work<A, D, L>,
    clock: C,
) -> bool {
    let site = Context::new(rt, alloc, shared, plan, clock);
    work_all(&site, &posts.inlets, &posts.outlets);
    !site.is_stopped()
}

/// Runs the engine until all connections have ended and all queues are empty, with each worker on a thread of its own: for
/// each channel one that opens its door `accept` times, for each accepted connection one that serves it, and for each
/// destination one that delivers from the start on. Connection `k` of channel `c`, both from 0, has number
/// `c * accept + k`. The moments are those of copies of the clock.
///
/// A door is closed after the last connection was taken, and after it failed: a peer that connects then is refused.
///
/// What the workers worked with is returned, each report in one value with the desk or the station that it is of,
/// which has counted as many arrivals as the report has receipts, or as many takes as it has attempts. A connection
/// that was never accepted has no report. Whether all desks and stations were returned is decided by
/// closing the book.
///
/// # Errors
///
/// Where memory or a thread is refused, no further worker is started. Those that were started work to their end, and what
/// all worked with is dropped. A channel that waits for a connection goes on waiting until one comes, which is closed
/// unserved.
pub fn run_workers<
    A: Sharing + Send + Sync,
    S: BookRows + Send,
    C: Clock + Copy + Sync,
    H: Wait + Threads + time::Clock + Log + Sync,
    R: Incoming + Send + Drop,
    W: Write + Send + Drop,
    D: Door<Reader = R, Writer = W> + Send + Drop,
    L: Link + Send + Drop,
>(
    rt: &H,
    alloc: Global,
    shared: &Shared<A, S>,
    staff: Workers<A, D, L>,
    accept: u32,
    clock: C,
) -> Result<Finished<A, D, L>, StartError> {
    let plan = shared.plan(rt)?;
    let posts = posts_of(alloc, plan.channels(), accept, staff)?;
    if !work_at(rt, alloc, shared, &plan, &posts, clock) {
        return Err(StartError);
    }
    Ok(gather(alloc, posts)?)
}
