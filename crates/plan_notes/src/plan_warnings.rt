//! Warnings of what a plan that can be read is unlikely to mean.

use crate::address::Address;
use crate::explain::list_at;
use crate::line::Line;
use crate::lines::Lines;
use crate::shown::Quoted;
use plan_text::{Channel, Destination, Plan};
use std::alloc::{AllocError, Global};
use std::str;
use toml::{Table, Value};

/// Warns of an address that can't be one.
fn warn_of_address(
    notes: &mut Lines,
    owner: &str,
    key: &str,
    text: &str,
) -> Result<(), AllocError> {
    let alloc = notes.alloc;
    match Address::of(text) {
        Err(flaw) => {
            let words = flaw.words();
            notes.warn(&format!(in alloc; "{owner}: {key} = {} {words}", Quoted(text))?)
        }
        Ok(address) if address.port == 0 => notes.warn(&format!(in alloc;
            "{owner}: {key} = {} has port 0, which is no port to connect to",
            Quoted(text)
        )?),
        Ok(_) => Ok(()),
    }
}

/// Whether two channels have the same address.
fn have_one_address(one: &Channel, other: &Channel) -> bool {
    match (Address::of(one.listen()), Address::of(other.listen())) {
        (Ok(one), Ok(other)) => one.meets(&other),
        _ => false,
    }
}

/// Whether a destination is a channel.
fn is_channel(destination: &Destination, channel: &Channel) -> bool {
    match (
        Address::of(destination.address()),
        Address::of(channel.listen()),
    ) {
        (Ok(address), Ok(listener)) => address.leads_to(&listener),
        _ => false,
    }
}

/// Warns of the channels before one that have its address.
fn warn_of_same_address(
    notes: &mut Lines,
    plan: &Plan,
    place: u32,
    channel: &Channel,
) -> Result<(), AllocError> {
    for earlier in 0..place {
        if let Some(other) = plan.channel(earlier)
            && have_one_address(other, channel)
        {
            let (name, first, listen) = (channel.name(), other.name(), Quoted(channel.listen()));
            let text = format!(in notes.alloc;
                "channel {name}: listen = {listen} is the address of channel {first} too"
            )?;
            notes.warn(&text)?;
        }
    }
    Ok(())
}

/// Warns of what a channel lacks.
fn warn_of_lacks(notes: &mut Lines, channel: &Channel, table: &Table) -> Result<(), AllocError> {
    let (alloc, name) = (notes.alloc, channel.name());
    if channel.routes().is_empty() {
        notes.warn(&format!(in alloc; "channel {name} has no route: what it takes goes nowhere")?)?;
    }
    for key in ["types", "processing", "versions"] {
        if list_at(table, key).is_empty() {
            notes.warn(&format!(in alloc;
                "channel {name} has no {key}: it refuses every message"
            )?)?;
        }
    }
    Ok(())
}

/// Warns of what is wrong with a channel.
fn warn_of_channel(
    notes: &mut Lines,
    plan: &Plan,
    place: u32,
    table: &Table,
) -> Result<(), AllocError> {
    let Some(channel) = plan.channel(place) else {
        return Ok(());
    };
    let owner = format!(in notes.alloc; "channel {}", channel.name())?;
    warn_of_address(notes, &owner, "listen", channel.listen())?;
    warn_of_same_address(notes, plan, place, channel)?;
    warn_of_lacks(notes, channel, table)
}

/// Whether a route of a channel leads to the destination with this index.
fn is_named(plan: &Plan, destination: u32) -> bool {
    for place in 0..plan.channels() {
        if let Some(channel) = plan.channel(place)
            && channel
                .routes()
                .iter()
                .any(|route| route.to() == destination)
        {
            return true;
        }
    }
    false
}

/// Warns of what is wrong with a destination.
fn warn_of_destination(notes: &mut Lines, plan: &Plan, place: u32) -> Result<(), AllocError> {
    let Some(destination) = plan.destination(place) else {
        return Ok(());
    };
    let (alloc, name) = (notes.alloc, destination.name());
    let owner = format!(in alloc; "destination {name}")?;
    warn_of_address(notes, &owner, "address", destination.address())?;
    for other in 0..plan.channels() {
        if let Some(channel) = plan.channel(other)
            && is_channel(destination, channel)
        {
            let (own, address) = (channel.name(), Quoted(destination.address()));
            notes.warn(&format!(in alloc;
                "{owner}: address = {address} is channel {own} of this plan"
            )?)?;
        }
    }
    if !is_named(plan, place) {
        notes.warn(&format!(in alloc; "{owner}: no route leads to it")?)?;
    }
    Ok(())
}

/// Warns of all that is wrong, channel by channel in the order of the plan, and then destination by destination.
fn warn_of_all(notes: &mut Lines, plan: &Plan, document: &Table) -> Result<(), AllocError> {
    for (place, value) in (0..plan.channels()).zip(list_at(document, "channel")) {
        if let Value::Table(table) = value {
            warn_of_channel(notes, plan, place, table)?;
        }
    }
    for place in 0..plan.destinations() {
        warn_of_destination(notes, plan, place)?;
    }
    Ok(())
}

/// The warnings of a plan that was read from this text, one line each: an address that is no HOST:PORT, or whose port is
/// none; two channels with one address; a destination that is a channel of the plan; a channel without a route, or that
/// takes no type, no processing id or no version; and a destination to which no route leads.
///
/// # Errors
///
/// Where memory is refused. There are no warnings then.
pub fn warnings(alloc: Global, text: &[u8], plan: &Plan) -> Result<Vec<Line>, AllocError> {
    let mut notes = Lines::new(alloc);
    if let Ok(text) = str::from_utf8(text) {
        match toml::table_from_str(alloc, text) {
            Ok(document) => warn_of_all(&mut notes, plan, &document)?,
            Err(error) if error.is_memory() => return Err(AllocError),
            Err(_) => {}
        }
    }
    Ok(notes.into_lines())
}
