//! The destinations of a plan.

ghost use Rattle.std.specs.Prelude.{◌≡◌, [], IfOk, Ok, refl};
ghost use Rattle.toml.specs.Data.{Data};
ghost use Rattle.toml.specs.View.{table_view};
ghost use Rattle.plan_text.specs.inner.AtKey.{at_key};
ghost use Rattle.plan_text.specs.inner.Fault.{Gives};
ghost use Rattle.plan_text.specs.Entries.{DestinationEntry};
ghost use Rattle.plan_text.specs.Keys.{or_else, table_at, only_keys};
ghost use Rattle.plan_text.specs.Kinds.{text_as, await_word};
ghost use Rattle.plan_text.specs.Destinations.{sending, destination_keys, destination, destinations};
ghost use Rattle.plan_text.specs.declared.destination.Await.TheVariants as await;

use crate::destination::{Await, Destination};
use crate::fault::{PlanFaultKind, Stop};
use crate::from_toml::keys::{Key, Keys};
use crate::from_toml::kinds::await_word;
use crate::from_toml::members::{Reader, each};
use crate::from_toml::names::new_name;
use crate::literal::Literal;
use fixed_numbers::DESTINATIONS_MAX;
use std::alloc::{AllocError, Global};
use toml::Value;

fn await_of(key: &Key<'_>) -> Result<Await, Stop>
    ensures { Gives (λ w. w) result (at_key key.now (or_else await.Ack (text_as await_word))) }
{
    let Some(value) = key.value else {
        return Ok(Await::Ack);
    };
    let Some(text) = value.as_str() else {
        return Err(key.fault(PlanFaultKind::BadRange));
    };
    match await_word(text) {
        Some(wait) => Ok(wait),
        None => Err(key.fault(PlanFaultKind::BadRange)),
    }
}

/// How messages are sent to a destination.
#[derive(Clone, Copy)]
pub(crate) struct Sending {
    attempts: u32,
    interval: u32,
    timeout: u32,
    wait: Await,
}

#[tactic(auto, unfolding(crate::specs::Destinations::sending))]
fn sending_of(keys: &Keys<'_>) -> Result<Sending, Stop>
    ensures { Gives (λ s. s) result (sending keys.now.at.now (table_view keys.now.table.now)) }
{
    let attempts = keys.key("attempts").number_or(3, 1, 100)?;
    let interval = keys.key("interval").number_or(10, 0, 86_400)?;
    let timeout = keys.key("timeout").number_or(30, 1, 3_600)?;
    let wait = await_of(&keys.key("await"))?;
    Ok(Sending {
        attempts,
        interval,
        timeout,
        wait,
    })
}

/// Refuses keys other than those of a destination.
fn only_destination_keys(keys: &Keys<'_>) -> Result<(), Stop>
    ensures { Gives (λ _. tt) result (only_keys destination_keys keys.now.at.now (table_view keys.now.table.now)) }
{
    keys.only(&[
        "name", "address", "attempts", "interval", "timeout", "await",
    ])
}

/// The destination of this name and address.
fn named_destination(
    alloc: Global,
    name: &str,
    address: &str,
    sending: Sending,
) -> Result<Destination, AllocError>
    ensures { IfOk result (λ d. d ≡ record {
      name = name.now;
      address = address.now;
      attempts = sending.attempts;
      interval = sending.interval;
      timeout = sending.timeout;
      wait = sending.wait;
    }) }
{
    let name = Literal::new(alloc, name)?;
    let address = Literal::new(alloc, address)?;
    Ok(Destination {
        name,
        address,
        attempts: sending.attempts,
        interval: sending.interval,
        timeout: sending.timeout,
        wait: sending.wait,
    })
}

/// The destination of a table that has no key but those of a destination.
#[tactic(auto, unfolding(crate::specs::Destinations::destination))]
fn destination_of(keys: &Keys<'_>, before: &[Destination]) -> Result<Destination, Stop>
    ensures { let at = keys.now.at.now in let t = table_view keys.now.table.now in
        (d : Data) → table_at at d ≡ Ok t → only_keys destination_keys at t ≡ Ok tt →
        Gives (λ d. d) result (destination before.now at d) }
{
    let name = new_name(&keys.key("name"), before)?;
    let address = keys.key("address").text(1, 255)?;
    let sending = sending_of(keys)?;
    Ok(named_destination(keys.alloc, name, address, sending)?)
}

/// The reader of destinations.
#[derive(Clone, Copy)]
struct Destinations;

impl Reader for Destinations {
    type Item = Destination;

    ghost Said = { DestinationEntry };

    ghost said = { λ d. d };

    ghost all_said = { λ ds. ds };

    ghost reading = { λ s. destination };

    ghost none_said = { refl };

    ghost one_more = { λ xs x. refl };

    ghost as_many = { λ xs. refl };

    #[tactic(auto, unfolding(crate::specs::Destinations::destination))]
    fn read(
        &self,
        alloc: Global,
        before: &[Destination],
        at: &str,
        value: &Value,
    ) -> Result<Destination, Stop> {
        let keys = Keys::of(alloc, at, value)?;
        only_destination_keys(&keys)?;
        destination_of(&keys, before)
    }
}

/// The destinations of a document.
#[tactic(auto, unfolding(crate::specs::Destinations::destinations))]
pub(crate) fn destinations_of(alloc: Global, document: &Keys<'_>) -> Result<Vec<Destination>, Stop>
    requires { document.now.at.now ≡ [] }
    ensures { Gives (λ v. v.items) result (destinations (table_view document.now.table.now)) }
{
    let values = document.key("destination").list(DESTINATIONS_MAX)?;
    each(alloc, &Destinations, "destination", values)
}
