//! The plan of a document.

ghost use Rattle.std.specs.Prelude.{◌≡◌, [], ◌≤◌, length, IsUtf8, IsErrAnd, IfOk};
ghost use Rattle.toml.specs.View.{array_view, table_view};
ghost use Rattle.plan_text.specs.declared.fault.PlanFaultKind.TheVariants as name;
ghost use Rattle.plan_text.specs.inner.AtKey.{at_key};
ghost use Rattle.plan_text.specs.Fault.{fault_at};
ghost use Rattle.plan_text.specs.inner.Fault.{Gives, Reads};
ghost use Rattle.plan_text.specs.Keys.{required};
ghost use Rattle.plan_text.specs.Entries.{IsPlan};
ghost use Rattle.plan_text.specs.Document.{some_within, plan_of, plan_in};

use crate::channel::Channel;
use crate::destination::Destination;
use crate::fault::{PlanFault, PlanFaultKind, Stop};
use crate::from_toml::channels::channels_of;
use crate::from_toml::destinations::destinations_of;
use crate::from_toml::keys::{Key, Keys};
use crate::plan::Plan;
use fixed_numbers::CHANNELS_MAX;
use std::alloc::Global;
use toml::Table;
use toml::value::Array;

/// A required list of at least one member and at most `most`.
#[tactic(auto, using(crate::proofs::Items::item_count_view))]
fn some_of<'a>(key: &Key<'a>, most: usize) -> Result<&'a Array, Stop>
    ensures { Gives (λ v. array_view v.now) result (at_key key.now (required (some_within most))) }
{
    let values = key.list(most)?;
    if values.is_empty() {
        return Err(key.fault(PlanFaultKind::Missing));
    }
    Ok(values)
}

#[tactic(auto, unfolding(crate::specs::Document::plan_of))]
fn plan_of(alloc: Global, document: &Table) -> Result<(Vec<Destination>, Vec<Channel>), Stop>
    ensures read { Gives (λ p. record { destinations = p.0.items; channels = p.1.items }) result (plan_of (table_view document.now)) }
    ensures rules { IfOk result (λ p. IsPlan (record { destinations = p.0.items; channels = p.1.items })) }
{
    let keys = Keys {
        alloc,
        at: "",
        table: document,
    };
    keys.only(&["destination", "channel"])?;
    let destinations = destinations_of(alloc, &keys)?;
    let channels = channels_of(
        alloc,
        destinations.as_slice(),
        some_of(&keys.key("channel"), CHANNELS_MAX)?,
    )?;
    Ok((destinations, channels))
}

impl Plan {
    /// The plan of a TOML text.
    ///
    /// # Errors
    ///
    /// The first fault of the text: `NotToml` where the bytes aren't UTF-8 or no TOML document; `NoMemory`
    /// where memory is refused.
    #[tactic(auto, unfolding(crate::specs::Document::plan_in))]
    pub fn read(alloc: Global, text: &[u8]) -> Result<Plan, PlanFault>
        ensures text { IsUtf8 text.now → Reads result (plan_in text.now) }
        ensures no_text { ¬ (IsUtf8 text.now) → IsErrAnd result (λ e. e ≡ fault_at name.NotToml []) }
    {
        let Ok(text) = std::str::from_utf8(text) else {
            return Err(PlanFault::of_text(alloc, PlanFaultKind::NotToml));
        };
        match toml::table_from_str(alloc, text) {
            Ok(document) => match plan_of(alloc, &document) {
                Ok((destinations, channels)) => match Vec::from_slice(alloc, text.as_bytes()) {
                    Ok(document) => Ok(Plan {
                        document,
                        destinations,
                        channels,
                    }),
                    Err(_) => Err(PlanFault::of_text(alloc, PlanFaultKind::NoMemory)),
                },
                Err(Stop::NoMemory) => Err(PlanFault::of_text(alloc, PlanFaultKind::NoMemory)),
                Err(Stop::Fault(fault)) => Err(fault),
            },
            Err(e) if e.is_memory() => Err(PlanFault::of_text(alloc, PlanFaultKind::NoMemory)),
            Err(_) => Err(PlanFault::of_text(alloc, PlanFaultKind::NotToml)),
        }
    }
}
