//! The commands that hold destinations and release them, and what is known of the connections to destinations.

use crate::questions::no_destination_text;
use book_lock::Sharing;
use log::{Log, info, warn};
use plan_text::Plan;
use service_answers::{
    LinkState, LinkView, add_held_without, held_already_text, held_text, links_text, not_held_text,
    released_text,
};
use service_commands::Refused;
use service_store::{HoldsFault, HoldsFile};
use service_web::destination_named;
use service_workers::{Crew, HeldNames, LinkNote, LinkTrouble, Site, Stage};
use std::alloc::{AllocError, Global};
use std::str;

/// The answer to a command that the store can't keep, and that is refused therefore.
fn not_kept_text(alloc: Global, fault: &HoldsFault) -> Result<String, AllocError> {
    format!(in alloc; "{}", Refused(fault))
}

/// Holds the destinations of these names, and no other, once the store has them, where there is one.
///
/// # Errors
///
/// Where the store can't keep them. The same destinations as before are held then, and the store has the former names or these.
fn hold_just<A: Sharing, H: Crew>(
    rt: &HostRuntime,
    site: &Site<'_, A, H>,
    file: Option<&HoldsFile>,
    names: HeldNames,
    plan: &Plan,
) -> Result<(), HoldsFault> {
    if let Some(file) = file
        && let Err(fault) = file.replace(rt, names.names())
    {
        warn!(site.rt; target: "always", "the held destinations can't be kept in the store: {fault}");
        return Err(fault);
    }
    site.set_held(names, plan);
    Ok(())
}

/// Holds the destination of a name, and says what the result is. What is in flight there is settled.
///
/// # Errors
///
/// Where memory is refused, or the plan has more owners than can be counted.
pub(crate) fn do_hold<A: Sharing, H: Crew>(
    rt: &HostRuntime,
    site: &Site<'_, A, H>,
    file: Option<&HoldsFile>,
    name: &[u8],
) -> Result<String, AllocError> {
    let plan = site.shared.plan(site.rt)?;
    let (Some(_), Ok(name)) = (destination_named(&plan, name), str::from_utf8(name)) else {
        return no_destination_text(site.alloc);
    };
    let mut names = site.held_names()?;
    if names.has(name.as_bytes()) {
        return held_already_text(site.alloc, name);
    }
    names.hold(site.alloc, name)?;
    let text = held_text(site.alloc, name)?;
    match hold_just(rt, site, file, names, &plan) {
        Ok(()) => {
            info!(site.rt; target: "always", destination = name; "destination held");
            Ok(text)
        }
        Err(fault) => not_kept_text(site.alloc, &fault),
    }
}

/// Releases the destination of a name, also of one that the plan doesn't have, and says what the result is.
///
/// # Errors
///
/// Where memory is refused, or the plan has more owners than can be counted.
pub(crate) fn do_release<A: Sharing, H: Crew>(
    rt: &HostRuntime,
    site: &Site<'_, A, H>,
    file: Option<&HoldsFile>,
    name: &[u8],
) -> Result<String, AllocError> {
    let plan = site.shared.plan(site.rt)?;
    let mut names = site.held_names()?;
    let is_held = names.has(name);
    if !is_held && destination_named(&plan, name).is_none() {
        return no_destination_text(site.alloc);
    }
    // The names of a plan are text.
    let shown = str::from_utf8(name).unwrap_or("");
    if !is_held {
        return not_held_text(site.alloc, shown);
    }
    names.release(name);
    let text = released_text(site.alloc, shown, site.stage() != Stage::Open)?;
    match hold_just(rt, site, file, names, &plan) {
        Ok(()) => {
            info!(site.rt; target: "always", destination = shown; "destination released");
            Ok(text)
        }
        Err(fault) => not_kept_text(site.alloc, &fault),
    }
}

/// Logs each destination that is held at a start, and whether the plan has it.
pub(crate) fn log_held<H: Log>(handle: &H, plan: &Plan, names: &HeldNames) {
    for name in names.names() {
        let destination = name.as_str();
        if destination_named(plan, name.as_bytes()).is_some() {
            warn!(handle; target: "always", destination; "the destination is held since before the start: nothing is sent to it until 'release'");
        } else {
            warn!(handle; target: "always", destination; "a destination is held that the plan doesn't have");
        }
    }
}

/// Adds to the answer to a plan that is to be deployed each name that is held and that it has no destination of.
///
/// # Errors
///
/// Where memory is refused.
pub(crate) fn add_held_gone<A: Sharing, H: Crew>(
    site: &Site<'_, A, H>,
    text: &mut String,
    plan: &Plan,
) -> Result<(), AllocError> {
    for name in site.held_names()?.names() {
        if destination_named(plan, name.as_bytes()).is_none() {
            add_held_without(&mut *text, name)?;
        }
    }
    Ok(())
}

/// What is known of a connection, as answers show it.
fn view_of(note: LinkNote) -> LinkView {
    let LinkNote { state, trouble, .. } = note;
    LinkView {
        state: match state {
            service_workers::LinkState::Untried => LinkState::Untried,
            service_workers::LinkState::Connected(since) => LinkState::Connected(since),
            service_workers::LinkState::Unconnected(next) => LinkState::Unconnected(next),
        },
        trouble: trouble.map(|LinkTrouble { second, words }| (second, words)),
    }
}

/// What is known of the connection to each destination.
///
/// # Errors
///
/// Where memory is refused, or the plan has more owners than can be counted.
pub(crate) fn ask_links<A: Sharing, H: Crew>(site: &Site<'_, A, H>) -> Result<String, AllocError> {
    let plan = site.shared.plan(site.rt)?;
    let mut views = Vec::new(site.alloc);
    for index in 0..plan.destinations() {
        views.push(view_of(site.link(index)?))?;
    }
    links_text(site.alloc, &plan, &views, site.held(), site.seconds())
}
