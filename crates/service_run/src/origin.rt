//! Where the plan in force comes from, and the commands about that plan.

use crate::settings::Settings;
use book_lock::Sharing;
use service_answers::{Origin, document_text, origin_text};
use service_workers::{Crew, Site};
use std::alloc::AllocError;
use std::str;

/// A plan that was deployed by a command.
#[derive(Drop)]
struct Deployed {
    /// The path of its file.
    path: String,
    /// When it was deployed, in seconds since 1970.
    second: u64,
}

/// Where the plan in force comes from, and since when it is.
#[derive(Drop)]
pub(crate) struct PlanOrigin<'a> {
    /// What the plan of the start was read from.
    first: Origin<'a>,
    /// When the service was started, in seconds since 1970.
    started: u64,
    /// The plan that was deployed last, if one was.
    last: Option<Deployed>,
}

impl<'a> PlanOrigin<'a> {
    /// The origin of the plan of a start.
    pub(crate) fn new(settings: &Settings<'a>, started: u64) -> PlanOrigin<'a> {
        PlanOrigin {
            first: settings.plan,
            started,
            last: None,
        }
    }

    /// Notes that the plan in the file of this path is in force from this second on.
    pub(crate) fn note(&mut self, path: String, second: u64) {
        self.last = Some(Deployed { path, second });
    }

    /// What the plan in force was read from, and since when it is in force.
    fn current(&self) -> (Origin<'_>, u64) {
        match &self.last {
            Some(Deployed { path, second }) => (Origin::File(path), *second),
            None => (self.first, self.started),
        }
    }
}

/// Where the plan in force comes from.
///
/// # Errors
///
/// Where memory is refused, or the plan has more owners than can be counted.
pub(crate) fn ask_plan<A: Sharing, H: Crew>(
    site: &Site<'_, A, H>,
    origin: &PlanOrigin<'_>,
) -> Result<String, AllocError> {
    let (status, plan) = site.shared.status(site.rt)?;
    let (origin, since) = origin.current();
    origin_text(site.alloc, &plan, origin, since, status.gauge.deployments)
}

/// The document of the plan in force.
///
/// # Errors
///
/// Where memory is refused, or the plan has more owners than can be counted.
pub(crate) fn ask_plan_text<A: Sharing, H: Crew>(
    site: &Site<'_, A, H>,
) -> Result<String, AllocError> {
    let plan = site.shared.plan(site.rt)?;
    // A plan's document is UTF-8.
    document_text(site.alloc, str::from_utf8(plan.document()).unwrap_or(""))
}
