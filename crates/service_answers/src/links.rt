//! What is known of the connections to the destinations.

use crate::time::Utc;
use plan_text::Plan;
use std::alloc::{AllocError, Global};

/// Whether a destination is connected. Moments are in seconds since 1970.
#[derive(Clone, Copy, Debug, PartialEq, Eq)]
pub enum LinkState {
    /// No connection was tried yet.
    Untried,
    /// It is connected since this moment.
    Connected(u64),
    /// It is not connected. Where a connection could not be opened, no other is tried before this moment.
    Unconnected(Option<u64>),
}

/// What is known of the connection to a destination.
#[derive(Drop)]
pub struct LinkView {
    /// Whether it is connected.
    pub state: LinkState,
    /// When the connection failed last, in seconds since 1970, and why.
    pub trouble: Option<(u64, String)>,
}

/// Adds whether a destination is connected.
fn add_state(text: &mut String, state: LinkState) -> Result<(), AllocError> {
    match state {
        LinkState::Untried => write!(text, "never tried"),
        LinkState::Connected(since) => write!(text, "connected since {}", Utc(since)),
        LinkState::Unconnected(_) => write!(text, "not connected"),
    }
}

/// Adds when a destination that is not connected is tried next: a connection is opened for a message that is due, and not before a
/// moment. One that is held is not tried.
fn add_next(
    text: &mut String,
    next: Option<u64>,
    now: u64,
    is_held: bool,
) -> Result<(), AllocError> {
    match next {
        _ if is_held => write!(text, "; not tried while it is held"),
        Some(next) if next > now => write!(text, "; tried next at {}", Utc(next)),
        _ => write!(text, "; tried with the next message that is due"),
    }
}

/// Adds the line of a destination.
fn add_link(
    text: &mut String,
    name: &str,
    view: &LinkView,
    now: u64,
    is_held: bool,
) -> Result<(), AllocError> {
    write!(text, "link {name} ")?;
    add_state(&mut *text, view.state)?;
    if let Some((second, words)) = &view.trouble {
        write!(text, "; last fault {}: {words}", Utc(*second))?;
    }
    if let LinkState::Unconnected(next) = view.state {
        add_next(&mut *text, next, now, is_held)?;
    }
    writeln!(text, "")
}

/// A line for each destination: whether it is connected and since when, when the connection failed last and why, and when it is
/// tried next. `views` has what is known of each, by index, `held` a bit for each that is held, and `now` is in seconds since 1970.
///
/// # Errors
///
/// Where memory is refused.
pub fn links_text(
    alloc: Global,
    plan: &Plan,
    views: &[LinkView],
    held: u32,
    now: u64,
) -> Result<String, AllocError> {
    let mut text = String::new(alloc);
    for (index, view) in (0..plan.destinations()).zip(views.iter()) {
        if let Some(destination) = plan.destination(index) {
            let is_held = held.checked_shr(index).unwrap_or(0) % 2 == 1;
            add_link(&mut text, destination.name(), view, now, is_held)?;
        }
    }
    writeln!(text, "")?;
    Ok(text)
}
