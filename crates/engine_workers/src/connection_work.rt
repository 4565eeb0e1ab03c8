//! The work of connections.

ghost use Rattle.std.specs.Prelude.{◌≡◌, ◌+◌, ◌<◌, ◌++◌, ◌∷◌, [], IfOk, OnOk, map, vec_len};
ghost use Rattle.std.specs.List.{filter_map};
ghost use Rattle.std.specs.Option.{ForSome};
ghost use Rattle.delivery_worker.specs.Sent.{IsUnused};
ghost use Rattle.engine_workers.specs.inner.Works.{HasServed};

use book_lock::{Desk, Sharing};
use conn_worker::ServeReport;
use std::alloc::{AllocError, Global};

/// The work of a connection: its number, the index of its channel in the plan, the desk that its messages are booked
/// at, how many arrivals the desk had counted before, and the outcome of serving the connection, once it was served.
/// The report is of this desk: the desk has counted as many arrivals since as the report has receipts, and what it added
/// to the book's log is the arrivals of these receipts. Without a report it has added nothing.
#[derive(Drop)]
pub struct ConnectionWork<A: Sharing> {
    pub connection: u32,
    pub channel: u32,
    pub before: u64,
    pub desk: Desk<A>,
    pub report: Option<ServeReport>,
    ghost known: { channel < A.channels },
    ghost counted: { ForSome report (λ r. desk.made ≡ before + vec_len r.receipts) },
    ghost served: { ∥ HasServed A.opening desk.seat report ∥₁ },
}

impl<A: Sharing> ConnectionWork<A> {
    /// The work of a connection that was not served yet, with a desk at which nothing was booked.
    pub fn new(connection: u32, channel: u32, desk: Desk<A>) -> Self
        requires channel { channel < A.channels }
        requires unused { IsUnused desk.seat }
        ensures connection { result.connection ≡ connection }
        ensures channel { result.channel ≡ channel }
        ensures desk { result.desk ≡ desk }
    {
        ConnectionWork {
            connection,
            channel,
            before: desk.made(),
            desk,
            report: None,
        }
    }
}

/// Adds the desk of a connection to others, and its report, if it was served.
fn add_connection<A: Sharing>(
    desks: &mut Vec<Desk<A>>,
    reports: &mut Vec<ServeReport>,
    work: ConnectionWork<A>,
) -> Result<(), AllocError>
    ensures desks { OnOk result (desks.new.items ≡ desks.old.items ++ work.desk ∷ []) }
    ensures reports { OnOk result (reports.new.items ≡ reports.old.items ++ filter_map (λ s. s.report) (work ∷ [])) }
{
    let ConnectionWork { desk, report, .. } = work;
    desks.push(desk)?;
    if let Some(report) = report {
        reports.push(report)?;
    }
    Ok(())
}

/// The desks of all connections, and the reports of those that were served, both in the order of the connections.
///
/// # Errors
///
/// Where memory is refused.
#[tactic(auto, using(crate::proofs::Parts::map_more, crate::proofs::Parts::filter_map_more))]
pub fn desks_and_reports<A: Sharing>(
    alloc: Global,
    connections: Vec<ConnectionWork<A>>,
) -> Result<(Vec<Desk<A>>, Vec<ServeReport>), AllocError>
    ensures desks { IfOk result (λ r. r.0.items ≡ map (λ s. s.desk) connections.items) }
    ensures reports { IfOk result (λ r. r.1.items ≡ filter_map (λ s. s.report) connections.items) }
{
    let (mut desks, mut reports) = (Vec::new(alloc), Vec::new(alloc));
    for work in connections {
        add_connection(&mut desks, &mut reports, work)?;
    }
    Ok((desks, reports))
}
