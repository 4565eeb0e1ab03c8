//! The commands that ask the book something, and those that change it.

ghost use Rattle.std.specs.Prelude.{◌<◌};

use crate::figures::{Watch, figures_of};
use crate::holding::add_held_gone;
use crate::origin::PlanOrigin;
use book_core::Failure;
use book_lock::{Gauge, Sharing, Status};
use log::{Log, info, warn};
use log_text::Escaped;
use plan_notes::{Line, fault_notes, warnings};
use plan_text::{Plan, PlanFault};
use service_answers::{
    Listed, ListedFailure, Rename, SHOWN_MAX, add_listener, bad_plan_text, deployed_text,
    failed_text, few_prunings_text, found_text, frees_little_text, long_file_text, message_text,
    metrics_text, no_file_text, no_regular_file_text, pruned_text, refused_plan_text, rename_at,
    status_text, unpruned_text, waiting_text,
};
use service_commands::Refused;
use service_web::{Failures, destination_named, failures_at, numbers_meant, queued};
use service_workers::{Crew, Gate, PruneRefusal, Site, prune_refusal};
use stat_count::{Counts, DESTINATIONS, DestinationCounts};
use std::alloc::{AllocError, Global};
use std::fs;
use std::io::ErrorKind;
use std::sync::Arc;

/// The most bytes of a file that is read as a plan.
pub const PLAN_BYTES: u64 = 4_194_304;

/// The service's status.
///
/// # Errors
///
/// Where memory is refused, or the plan has more owners than can be counted.
pub(crate) fn ask_status<A: Sharing, H: Crew>(
    site: &Site<'_, A, H>,
    watch: Watch<'_>,
) -> Result<String, AllocError> {
    let (status, plan) = site.shared.status(site.rt)?;
    status_text(site.alloc, &plan, &status, &figures_of(site, watch))
}

/// The service's numbers for Prometheus.
///
/// # Errors
///
/// Where memory is refused, or the plan has more owners than can be counted.
pub(crate) fn ask_metrics<A: Sharing, H: Crew>(
    site: &Site<'_, A, H>,
    watch: Watch<'_>,
) -> Result<String, AllocError> {
    let (status, plan) = site.shared.status(site.rt)?;
    metrics_text(site.alloc, &plan, &status, &figures_of(site, watch))
}

/// Where a message is.
///
/// # Errors
///
/// Where memory is refused, or the plan has more owners than can be counted.
pub(crate) fn ask_message<A: Sharing, H: Crew>(
    site: &Site<'_, A, H>,
    number: u32,
) -> Result<String, AllocError> {
    let plan = site.shared.plan(site.rt)?;
    let found = site.shared.message(site.rt, number)?;
    message_text(site.alloc, &plan, &found, &site.note(number)?)
}

/// The remembered messages with a control id (MSH-10). Where none has the id as given, it is read as the log shows ids.
///
/// # Errors
///
/// Where memory is refused.
pub(crate) fn ask_find<A: Sharing, H: Crew>(
    site: &Site<'_, A, H>,
    id: &[u8],
) -> Result<String, AllocError> {
    found_text(site.alloc, &numbers_meant(site, id)?)
}

/// The answer to a command about a destination that the plan doesn't have.
///
/// # Errors
///
/// Where memory is refused.
pub(crate) fn no_destination_text(alloc: Global) -> Result<String, AllocError> {
    format!(in alloc; "{}", Refused("the plan has no destination of that name"))
}

/// The first messages that wait for a destination, as they are listed.
fn listed_at<A: Sharing, H: Crew>(
    site: &Site<'_, A, H>,
    destination: u32,
) -> Result<Vec<Listed>, AllocError> {
    let mut listed = Vec::new(site.alloc);
    for front in queued(site, destination, SHOWN_MAX)? {
        let found = site.shared.message(site.rt, front.number)?;
        let note = site.note(front.number)?;
        listed.push(Listed { front, found, note })?;
    }
    Ok(listed)
}

/// What waits for the destination of a name.
///
/// # Errors
///
/// Where memory is refused, or the plan has more owners than can be counted.
pub(crate) fn ask_waiting<A: Sharing, H: Crew>(
    site: &Site<'_, A, H>,
    name: &[u8],
) -> Result<String, AllocError> {
    let (status, plan) = site.shared.status(site.rt)?;
    let Some(destination) = destination_named(&plan, name) else {
        return no_destination_text(site.alloc);
    };
    let held = match plan.destination(destination) {
        Some(named) if site.is_held_at(destination) => Some(named.name()),
        _ => None,
    };
    let DestinationCounts {
        waiting,
        inflight,
        ..
    } = status.counts.destination(destination);
    let all = waiting.saturating_add(inflight);
    let listed = listed_at(site, destination)?;
    waiting_text(site.alloc, held, destination, &listed, all)
}

/// Messages that failed at a destination, as they are listed.
fn listed_failures<A: Sharing, H: Crew>(
    site: &Site<'_, A, H>,
    failures: Vec<Failure>,
) -> Result<Vec<ListedFailure>, AllocError> {
    let mut listed = Vec::new(site.alloc);
    for failure in failures {
        let found = site.shared.message(site.rt, failure.number)?;
        let note = site.note(failure.number)?;
        listed.push(ListedFailure {
            failure,
            found,
            note,
        })?;
    }
    Ok(listed)
}

/// How many messages have failed at a destination.
fn failed_at<A: Sharing, H: Crew>(
    site: &Site<'_, A, H>,
    destination: u32,
) -> Result<u64, AllocError>
    requires { destination < 32 }
{
    let (status, _plan) = site.shared.status(site.rt)?;
    Ok(status.counts.destination(destination).failed)
}

/// What failed at the destination of a name: the last messages that are remembered, newest first, and how many there are. They are
/// counted behind the search, so the count has what failed meanwhile.
///
/// # Errors
///
/// Where memory is refused, or the plan has more owners than can be counted.
pub(crate) fn ask_failed<A: Sharing, H: Crew>(
    site: &Site<'_, A, H>,
    name: &[u8],
) -> Result<String, AllocError> {
    let plan = site.shared.plan(site.rt)?;
    let Some(destination) = destination_named(&plan, name) else {
        return no_destination_text(site.alloc);
    };
    let Failures { newest, remembered } = failures_at(site, destination)?;
    let listed = listed_failures(site, newest)?;
    let all = failed_at(site, destination)?;
    failed_text(site.alloc, destination, &listed, remembered, all)
}

/// Whether a pruning that keeps the last `keep` messages would change nothing: the book holds no entry that it would fold, as those
/// of filtered and refused messages, and each message that it would forget is forgotten.
fn is_pruned(status: &Status, keep: u32) -> bool {
    let Gauge {
        held,
        messages,
        first,
        ..
    } = status.gauge;
    let before = messages
        .saturating_sub(keep)
        .min(status.first_live.unwrap_or(messages));
    held == 0 && before <= first
}

/// Forgets what is settled, and says what was forgotten, what stays and why. Where nothing or little would change, or few are left,
/// no pruning is made, since their number is limited.
///
/// # Errors
///
/// Where memory is refused, or the plan has more owners than can be counted.
pub(crate) fn do_prune<A: Sharing, H: Crew>(site: &Site<'_, A, H>) -> Result<String, AllocError> {
    let (status, _plan) = site.shared.status(site.rt)?;
    if is_pruned(&status, site.keep) {
        return unpruned_text(site.alloc, site.keep, status.first_live);
    }
    match prune_refusal(&status, site.keep) {
        Some(PruneRefusal::FewLeft) => return few_prunings_text(site.alloc),
        Some(PruneRefusal::FreesLittle) => {
            return frees_little_text(site.alloc, status.gauge.events_max);
        }
        None => {}
    }
    match site.shared.prune_settled(site.rt, site.keep) {
        Ok(before) => {
            info!(site.rt; target: "always", before; "settled messages are forgotten");
            let live = site.shared.first_live(site.rt);
            pruned_text(
                site.alloc,
                before,
                site.keep,
                live.map(|(number, _)| number),
            )
        }
        Err(refusal) => format!(in site.alloc; "{}", Refused(refusal)),
    }
}

/// The bytes of a file, or the answer that says why they can't be read. What is no regular file is not opened: opening a FIFO that
/// nobody writes to has no end, and neither has reading some devices. A file of more than 4 MiB is not opened either: while it was
/// read, no command would be obeyed.
fn read_file<A: Sharing, H: Crew>(
    rt: &HostRuntime,
    site: &Site<'_, A, H>,
    path: &str,
) -> Result<Result<Vec<u8>, String>, AllocError> {
    let read = match fs::metadata(rt, path) {
        Ok(found) if !found.is_file() => {
            return Ok(Err(no_regular_file_text(site.alloc, path)?));
        }
        Ok(found) if found.len() > PLAN_BYTES => {
            return Ok(Err(long_file_text(site.alloc, path, PLAN_BYTES)?));
        }
        Ok(_) => fs::read(rt, path),
        Err(error) => Err(error),
    };
    match read {
        Ok(text) => Ok(Ok(text)),
        Err(error) if error.kind() == ErrorKind::OutOfMemory => Err(AllocError),
        Err(error) => Ok(Err(no_file_text(site.alloc, path, &error)?)),
    }
}

/// A plan that was read from a file.
#[derive(Drop)]
struct Proposal {
    plan: Arc<Plan>,
    /// What `check` warns of in the plan.
    warnings: Vec<Line>,
}

/// The answer to a text that is no plan: its first fault, and where `check` finds it.
///
/// # Errors
///
/// Where memory is refused.
fn no_plan_text(alloc: Global, text: &[u8], fault: &PlanFault) -> Result<String, AllocError> {
    let mut answer = bad_plan_text(alloc, fault)?;
    for note in &fault_notes(alloc, text, fault)? {
        writeln!(answer, "{note}")?;
    }
    writeln!(answer, "")?;
    Ok(answer)
}

/// The plan in a file, or the answer that says why there is none.
fn read_plan<A: Sharing, H: Crew>(
    rt: &HostRuntime,
    site: &Site<'_, A, H>,
    path: &str,
) -> Result<Result<Proposal, String>, AllocError> {
    let text = match read_file(rt, site, path)? {
        Ok(text) => text,
        Err(refused) => return Ok(Err(refused)),
    };
    let plan = match Plan::read(site.alloc, &text) {
        Ok(plan) => plan,
        Err(fault) => return Ok(Err(no_plan_text(site.alloc, &text, &fault)?)),
    };
    let warned = warnings(site.alloc, &text, &plan)?;
    let plan = Arc::new(site.alloc, plan).map_err(AllocError::from)?;
    Ok(Ok(Proposal {
        plan,
        warnings: warned,
    }))
}

/// The answer to a plan that is deployed, where `before` is the plan in force until then: for each channel whose address it changes,
/// that the listener stays; for each destination of which something was counted and whose name it changes, how that is shown from
/// now on; each name that is held and that the plan has no destination of; and what `check` warns of.
fn deployed<A: Sharing, H: Crew>(
    site: &Site<'_, A, H>,
    gates: &[Gate],
    before: &Plan,
    proposal: &Proposal,
    counts: &Counts,
) -> Result<String, AllocError> {
    let plan = &proposal.plan;
    let mut text = deployed_text(site.alloc)?;
    for gate in gates {
        if let Some(channel) = plan.channel(gate.channel())
            && channel.listen() != gate.listen()
        {
            add_listener(&mut text, gate.name(), gate.listen())?;
        }
    }
    for index in 0..DESTINATIONS {
        if let Some(rename) = rename_at(before, plan, counts, index) {
            writeln!(text, "{rename}")?;
        }
    }
    add_held_gone(site, &mut text, plan)?;
    for warning in &proposal.warnings {
        writeln!(text, "{warning}")?;
    }
    writeln!(text, "")?;
    Ok(text)
}

/// Logs that a plan is in force, and each destination of which something was counted and whose name it changes.
fn log_deployed<A: Sharing, H: Crew>(
    site: &Site<'_, A, H>,
    path: Escaped<'_>,
    before: &Plan,
    now: &Plan,
    counts: &Counts,
) {
    info!(site.rt; target: "always", path:% = path; "plan deployed");
    for index in 0..DESTINATIONS {
        match rename_at(before, now, counts, index) {
            Some(Rename::Renamed { index, before, now }) => {
                warn!(site.rt; target: "always", index, before, now; "destination renamed: its counts and states are shown under the new name");
            }
            Some(Rename::Gone { index, before }) => {
                warn!(site.rt; target: "always", index, before; "destination gone: its counts and states are no longer shown");
            }
            Some(Rename::Filled { index, now }) => {
                warn!(site.rt; target: "always", index, now; "destination added where one was before: the counts and states of that one are shown under its name");
            }
            None => {}
        }
    }
}

/// Replaces the plan in force, and logs the result. Returns the answer to a plan that was refused.
fn put_in_force<A: Sharing, H: Crew>(
    site: &Site<'_, A, H>,
    origin: &mut PlanOrigin<'_>,
    path: &str,
    before: &Plan,
    now: &Arc<Plan>,
    counts: &Counts,
) -> Result<Option<String>, AllocError> {
    let name = String::from_str(site.alloc, path)?;
    let path = Escaped(path);
    let shared = Arc::try_clone(now)?;
    site.hold_by_either(before, now);
    match site.shared.deploy(site.rt, shared) {
        Ok(()) => {
            site.note_deployed(before, now);
            origin.note(name, site.seconds());
            log_deployed(site, path, before, now, counts);
            Ok(None)
        }
        Err(refusal) => {
            site.hold_by(before);
            warn!(site.rt; target: "always", path:% = path; "plan not deployed: {refusal}");
            Ok(Some(refused_plan_text(site.alloc, before, refusal)?))
        }
    }
}

/// Replaces the plan in force by another one, and says what the result is.
fn deploy<A: Sharing, H: Crew>(
    site: &Site<'_, A, H>,
    gates: &[Gate],
    origin: &mut PlanOrigin<'_>,
    path: &str,
    proposal: &Proposal,
) -> Result<String, AllocError> {
    let (status, before) = site.shared.status(site.rt)?;
    let text = deployed(site, gates, &before, proposal, &status.counts)?;
    match put_in_force(site, origin, path, &before, &proposal.plan, &status.counts)? {
        Some(refused) => Ok(refused),
        None => Ok(text),
    }
}

/// Replaces the plan in force by the plan in a file, and says what the result is.
///
/// # Errors
///
/// Where memory is refused, or a plan has more owners than can be counted.
pub(crate) fn do_deploy<A: Sharing, H: Crew>(
    rt: &HostRuntime,
    site: &Site<'_, A, H>,
    gates: &[Gate],
    origin: &mut PlanOrigin<'_>,
    path: &str,
) -> Result<String, AllocError> {
    match read_plan(rt, site, path)? {
        Ok(proposal) => deploy(site, gates, origin, path, &proposal),
        Err(refused) => Ok(refused),
    }
}
