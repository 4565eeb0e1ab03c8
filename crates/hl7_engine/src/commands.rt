//! Doing what the command line requests.

ghost use Rattle.engine_report.specs.Request.{IsWithinLimits};

mod answer;
mod check;
mod devices;
mod run;

use crate::handle::Handle;
use answer::answer;
use book_core::{Book, Outbound};
use check::check;
use dest_queue::Queued;
use engine_report::{Fault, Request, read_plan, warned_plan};
use plan_text::Plan;
use record_list::RecordList;
use run::run;
use std::alloc::AllocError;
use std::sync::Arc;

/// The store of a book's rows: linked nodes.
type EngineRows = RecordList<Queued<Outbound>>;

/// The book of the program.
type EngineBook = Book<EngineRows>;

/// The plan in a file, to be shared, with the warnings of [`warned_plan`].
fn warned_shared_plan<'a>(
    rt: &HostRuntime,
    path: &'a str,
    events: u32,
) -> Result<Arc<Plan>, Fault<'a>> {
    let plan = warned_plan(rt, path, events)?;
    Ok(Arc::new(rt.alloc(), plan).map_err(AllocError::from)?)
}

/// A plan to be shared: that in a file, or the built-in one.
fn shared_plan<'a>(rt: &HostRuntime, path: Option<&'a str>) -> Result<Arc<Plan>, Fault<'a>> {
    let plan = match path {
        Some(path) => read_plan(rt, path)?,
        None => Plan::built_in(rt.alloc())?,
    };
    Ok(Arc::new(rt.alloc(), plan).map_err(AllocError::from)?)
}

/// Does what is requested. Threads are started, and waited for, by `handle`.
///
/// # Errors
///
/// The first fault that was found.
pub(crate) fn execute<'a, H: Handle + Eprint>(
    rt: &HostRuntime,
    handle: &H,
    request: &Request<'a>,
) -> Result<(), Fault<'a>>
    requires limits { IsWithinLimits request.now }
{
    match request {
        Request::Answer { plan, now, events } => answer(rt, *plan, *now, *events),
        Request::Run {
            plan,
            accept,
            events,
        } => run(rt, handle, *plan, *accept, *events),
        Request::Check { plan } => check(rt, *plan),
    }
}
