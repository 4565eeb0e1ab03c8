//! The plan.

ghost use Rattle.std.specs.Prelude.{◌≡◌, IsUtf8, Ok, length, slice_get, option_map};
ghost use Rattle.std.specs.Bool.{Decides};
ghost use Rattle.std.specs.Option.{option_copied};
ghost use Rattle.plan_text.specs.Document.{plan_in};
ghost use Rattle.plan_text.specs.Entries.{IsPlan};

use crate::channel::Channel;
use crate::destination::Destination;
use std::marker::Model;

/// The destinations that messages go to, and the channels that they arrive on. An index counts from 0.
///
/// Two plans are equal where they say the same, wherever they lie in memory.
#[derive(Drop)]
pub struct Plan {
    /// The document that it was read from. Two plans of equal documents are equal, which one comparison of bytes decides.
    pub(crate) document: Vec<u8>,
    pub(crate) destinations: Vec<Destination>,
    pub(crate) channels: Vec<Channel>,
}

impl Model for Plan {
    ghost use Rattle.std.specs.Prelude.{◌≡◌, IsUtf8, Ok};
    ghost use Rattle.plan_text.specs.Document.{plan_in};
    ghost use Rattle.plan_text.specs.Entries.{PlanEntry, IsPlan};
    ghost use Rattle.plan_text.specs.inner.Coding.{plan_code};

    ghost Value = { PlanEntry };

    ghost coded = { plan_code };

    ghost view = { λ p. record {
      destinations = p.destinations.items;
      channels = p.channels.items;
    } };

    ghost invariant = { λ p. record {
      rules : IsPlan (record { destinations = p.destinations.items; channels = p.channels.items });
      text : IsUtf8 p.document.items;
      read : plan_in p.document.items ≡ Ok (record { destinations = p.destinations.items; channels = p.channels.items });
    } };
}

impl Plan {
    /// The channel with this index.
    pub fn channel(&self, place: u32) -> Option<&Channel>
        ensures { option_copied result ≡ slice_get self.now.channels place }
    {
        self.channels.as_slice().get(place as usize)
    }

    /// The destination with this index.
    pub fn destination(&self, place: u32) -> Option<&Destination>
        ensures { option_copied result ≡ slice_get self.now.destinations place }
    {
        self.destinations.as_slice().get(place as usize)
    }

    /// The number of channels, at most 64.
    pub fn channels(&self) -> u32
        ensures { result ≡ length self.now.channels }
    {
        self.channels.len() as u32
    }

    /// The number of destinations, at most 32.
    pub fn destinations(&self) -> u32
        ensures { result ≡ length self.now.destinations }
    {
        self.destinations.len() as u32
    }

    /// The TOML text that the plan was read from. Reading it again gives this plan.
    pub fn document(&self) -> &[u8]
        ensures text { IsUtf8 result.now }
        ensures read { plan_in result.now ≡ Ok self.now }
    {
        self.document.as_slice()
    }

    /// What holds of every plan.
    pub fn rules(&self)
        ensures { IsPlan self.now }
    {
        let _ = &self.destinations;
    }

    /// Whether two plans say the same.
    pub fn same(&self, other: &Plan) -> bool
        ensures { Decides result (self.now ≡ other.now) }
    {
        self.document.as_slice() == other.document.as_slice() || self == other
    }
}

impl PartialEq for Plan {
    ghost use Rattle.plan_text.specs.inner.Same.{same_plan, plan_laws};

    ghost eq = { same_plan };

    ghost laws = { plan_laws };

    fn eq(&self, other: &Plan) -> bool {
        self.destinations.as_slice() == other.destinations.as_slice()
            && self.channels.as_slice() == other.channels.as_slice()
    }
}
