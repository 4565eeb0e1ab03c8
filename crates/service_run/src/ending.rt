//! The end of a service: what was left undelivered, and the closed book.

use crate::output::{tell, tell_text, write_text};
use crate::service::RunEnd;
use crate::workers::{Returned, Workers};
use book_lock::{Desk, Shared, Sharing};
use engine_report::{Fault, Finding, statistics_text};
use plan_text::Plan;
use service_answers::{Listed, left_behind};
use service_web::queued;
use service_workers::{Crew, ServiceRows, Site, close_book};
use stat_count::{Counts, DestinationCounts};
use std::alloc::{AllocError, Global};

/// What is said on standard error of standard output that can't be written, where messages are left undelivered besides.
const WRITE_FAULT: &str = "device: write";

/// Names each message that is left undelivered at a destination, a line each on standard error, as long as it is read. How many
/// there are.
fn name_left_at<A: Sharing, H: Crew>(
    rt: &HostRuntime,
    site: &Site<'_, A, H>,
    destination: u32,
    name: &str,
) -> Result<usize, AllocError> {
    let left = queued(site, destination, usize::MAX)?;
    let count = left.len();
    for front in left {
        let found = site.shared.message(site.rt, front.number)?;
        let listed = Listed {
            front,
            found,
            note: None,
        };
        let line = left_behind(site.alloc, name, &listed)?;
        if !tell(rt, &line) {
            break;
        }
    }
    Ok(count)
}

/// Names each message that is left undelivered, by destination. How many there are.
///
/// # Errors
///
/// Where memory is refused: some may not have been named.
pub(crate) fn name_left<A: Sharing, H: Crew>(
    rt: &HostRuntime,
    site: &Site<'_, A, H>,
) -> Result<usize, AllocError> {
    let plan = site.shared.plan(site.rt)?;
    let mut count: usize = 0;
    for index in 0..plan.destinations() {
        if let Some(destination) = plan.destination(index) {
            let left = name_left_at(rt, site, index, destination.name())?;
            count = count.saturating_add(left);
        }
    }
    Ok(count)
}

/// Whether a message waits for a destination, or is in flight there.
fn is_any_left(plan: &Plan, counts: &Counts) -> bool {
    plan.rules();
    for index in 0..plan.destinations() {
        let DestinationCounts {
            waiting,
            inflight,
            ..
        } = counts.destination(index);
        if waiting > 0 || inflight > 0 {
            return true;
        }
    }
    false
}

/// Prints the statistics of a book that is closed. Where standard output can't be written, they go to standard error; then messages
/// that are left undelivered count for more than that, so that the run does not end as if the output alone were lost.
fn print_counts<'f>(
    rt: &HostRuntime,
    plan: &Plan,
    counts: &Counts,
    text: &str,
) -> Result<RunEnd, Fault<'f>> {
    let is_left = is_any_left(plan, counts);
    if write_text(rt, text).is_err() {
        tell_text(rt, text);
        if !is_left {
            return Err(Fault::Write);
        }
        let _ = tell(rt, WRITE_FAULT);
    }
    if is_left {
        Ok(RunEnd::Undelivered)
    } else {
        Ok(RunEnd::Drained)
    }
}

/// Closes the book with what its workers returned, and prints the statistics, on standard error where standard output can't be
/// written.
fn conclude<'f, A: Sharing>(
    rt: &HostRuntime,
    alloc: Global,
    plan: &Plan,
    shared: Shared<A, ServiceRows>,
    returned: Returned<A>,
) -> Result<RunEnd, Fault<'f>> {
    let Returned { desks, posts } = returned;
    let Some(closed) = close_book(alloc, shared, desks, posts)? else {
        return Err(Fault::Audit(Finding::SharesMissing));
    };
    let (_rows, counts) = closed.promise();
    let text = statistics_text(alloc, plan, counts)?;
    print_counts(rt, plan, counts, &text)
}

/// Closes the book once all workers have ended, with their desks and that of the journal, where there is one, and prints the
/// statistics.
///
/// # Errors
///
/// `Audit` where the shares of the workers don't add up, `Write` where standard output can't be written or nobody reads it for
/// five seconds and no message is left undelivered, `Memory`.
pub(crate) fn end<'f, A: Sharing, H: Crew>(
    rt: &HostRuntime,
    handle: &H,
    shared: Shared<A, ServiceRows>,
    workers: Workers<A>,
    journal: Option<Desk<A>>,
) -> Result<RunEnd, Fault<'f>> {
    let alloc = rt.alloc();
    let returned = workers.into_returned(alloc, journal)?;
    let plan = shared.plan(handle)?;
    conclude(rt, alloc, &plan, shared, returned)
}
