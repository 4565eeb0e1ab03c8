//! The end of a run.

ghost use Rattle.std.specs.Prelude.{◌≡◌, List, IfOk, IfSome, IsTrue, is_some, vec_len};
ghost use Rattle.std.specs.List.{filter_map, flat_map};
ghost use Rattle.delivery_worker.specs.Sent.{IsTraced, StationWork};

use crate::connection_work::desks_and_reports;
use crate::outlet::stations_and_reports;
use crate::workers::Finished;
use book_core::BookRows;
use book_lock::{Closed, Shared, Sharing};
use conn_worker::ServeReport;
use delivery_worker::{DeliverReport, Link};
use std::alloc::{AllocError, Global};

/// How a run ended: the closed book, unless shares of it are missing, the report of each connection that was served, and that
/// of each destination, both in the order of what the workers worked with.
#[derive(Drop)]
pub struct RunEnd<S: BookRows> {
    pub closed: Option<Closed<S>>,
    pub served: Vec<ServeReport>,
    pub delivered: Vec<DeliverReport>,
}

/// Takes the book out of its lock, once the workers have ended, with all desks and stations that they worked with. Doors and
/// links are dropped. The messages of a closed book are traced: each arrival since the book was shared has one of the
/// receipts, and each message that was delivered since was sent at one of the stations. The book is there where all desks and
/// stations are.
///
/// # Errors
///
/// Where memory is refused.
pub fn close_book<A: Sharing, S: BookRows + Drop, D: Drop, L: Link + Drop>(
    alloc: Global,
    shared: Shared<A, S>,
    worked: Finished<A, D, L>,
) -> Result<RunEnd<S>, AllocError>
    ensures opening { IfOk result (λ ended. IfSome ended.closed (λ closed.
        (closed.opening ≡ A.counts) × (closed.first ≡ A.first))) }
    ensures whole { (vec_len worked.connections ≡ A.desks) × (vec_len worked.outlets ≡ A.stations)
        → IfOk result (λ ended. IsTrue (is_some ended.closed)) }
    ensures served { IfOk result (λ ended.
        ended.served.items ≡ filter_map (λ s. s.report) worked.connections.items) }
    ensures delivered { IfOk result (λ ended.
        ended.delivered.items ≡ filter_map (λ o. o.report) worked.outlets.items) }
    ensures traced { IfOk result (λ ended. IfSome ended.closed (λ closed.
        ∥ ((works : List (StationWork A.opening)) × IsTraced A.opening
        (flat_map (λ r. r.receipts.items) ended.served.items) works closed.book) ∥₁)) }
{
    let Finished {
        connections,
        outlets,
        ..
    } = worked;
    let (desks, served) = desks_and_reports(alloc, connections)?;
    let (stations, delivered) = stations_and_reports(alloc, outlets)?;
    let closed = shared.close(desks, stations).ok();
    Ok(RunEnd {
        closed,
        served,
        delivered,
    })
}
