//! Where messages come from, which of them are taken, and where each goes.

ghost use Rattle.std.specs.Prelude.{◌≡◌, ◌&&◌, option_map, length, slice_get};
ghost use Rattle.std.specs.Cmp.Lexicographic.{pointwise};
ghost use Rattle.std.specs.List.{list_any};
ghost use Rattle.std.specs.Option.{option_eq};
ghost use Rattle.hl7_filter.specs.inner.Same.{same_condition};
ghost use Rattle.hl7_filter.specs.inner.View.{view as condition_view};
ghost use Rattle.hl7_transform.specs.inner.Same.{same_edit};
ghost use Rattle.hl7_transform.specs.inner.View.{steps_view};
ghost use Rattle.plan_text.specs.Entries.{matches_type, matches_processing, matches_version, takes_type, takes_processing, takes_version};
ghost use Rattle.plan_text.specs.inner.Same.{same_route};

use crate::literal::Literal;
use hl7_filter::Cond;
use hl7_transform::Step;
use std::marker::Model;

/// An entry of a channel's list of message types (MSH-9).
#[derive(Drop)]
pub enum MessageType {
    /// Any message type, of a nonempty MSH-9.1.
    Any,
    /// The message code MSH-9.1, with any trigger event.
    Code(Literal),
    /// The message code MSH-9.1 and the trigger event MSH-9.2.
    CodeAndEvent(Literal, Literal),
}

/// Table 0103: the processing id (MSH-11.1).
#[derive(Clone, Copy, Debug, PartialEq, Eq)]
pub enum ProcessingId {
    Production,
    Training,
    Debugging,
}

/// An entry of a channel's list of versions (MSH-12.1).
#[derive(Drop)]
pub enum VersionId {
    /// Any version, also an empty one.
    Any,
    /// This version.
    Exactly(Literal),
}

/// The way from a channel to a destination.
#[derive(Drop)]
pub struct Route {
    pub(crate) to: u32,
    pub(crate) filter: Option<Cond>,
    pub(crate) steps: Vec<Step>,
}

impl Model for Route {
    ghost use Rattle.std.specs.Prelude.{option_map};
    ghost use Rattle.hl7_filter.specs.inner.View.{view as condition_view};
    ghost use Rattle.hl7_transform.specs.inner.View.{steps_view};
    ghost use Rattle.plan_text.specs.Entries.{RouteEntry};
    ghost use Rattle.plan_text.specs.inner.Coding.{route_code};

    ghost Value = { RouteEntry };

    ghost coded = { route_code };

    ghost view = { λ r. record {
      to = r.to;
      filter = option_map condition_view r.filter;
      steps = steps_view r.steps.items;
    } };
}

impl Route {
    /// The index of the destination in the plan.
    pub fn to(&self) -> u32
        ensures { result ≡ self.now.to }
    {
        self.to
    }

    /// The condition of the messages that take this way; none where all of them do.
    pub fn filter(&self) -> Option<&Cond>
        ensures { option_map (λ c. condition_view c.now) result ≡ self.now.filter }
    {
        self.filter.as_ref()
    }

    /// The steps that change a message on its way, in their order.
    pub fn steps(&self) -> &[Step]
        ensures { steps_view result.now ≡ self.now.steps }
    {
        &self.steps
    }
}

/// Where messages come from: a listener, which messages it takes, and their routes.
#[derive(Drop)]
pub struct Channel {
    pub(crate) name: Literal,
    pub(crate) listen: Literal,
    pub(crate) types: Vec<MessageType>,
    pub(crate) processing: Vec<ProcessingId>,
    pub(crate) versions: Vec<VersionId>,
    pub(crate) filter: Option<Cond>,
    pub(crate) steps: Vec<Step>,
    pub(crate) routes: Vec<Route>,
}

impl Model for Channel {
    ghost use Rattle.std.specs.Prelude.{option_map};
    ghost use Rattle.hl7_filter.specs.inner.View.{view as condition_view};
    ghost use Rattle.hl7_transform.specs.inner.View.{steps_view};
    ghost use Rattle.plan_text.specs.Entries.{ChannelEntry};
    ghost use Rattle.plan_text.specs.inner.Coding.{channel_code};

    ghost Value = { ChannelEntry };

    ghost coded = { channel_code };

    ghost view = { λ c. record {
      name = c.name;
      listen = c.listen;
      types = c.types.items;
      processing = c.processing.items;
      versions = c.versions.items;
      filter = option_map condition_view c.filter;
      steps = steps_view c.steps.items;
      routes = c.routes.items;
    } };
}

impl MessageType {
    /// Whether a message of this code and event, MSH-9.1 and MSH-9.2 as they are written there, is meant.
    pub fn matches(&self, code: &[u8], event: &[u8]) -> bool
        ensures { result ≡ matches_type code.now event.now self.now }
    {
        match self {
            MessageType::Any => !code.is_empty(),
            MessageType::Code(wanted) => code == wanted.as_bytes(),
            MessageType::CodeAndEvent(wanted, trigger) => {
                code == wanted.as_bytes() && event == trigger.as_bytes()
            }
        }
    }
}

impl ProcessingId {
    /// Whether this is the processing id that MSH-11.1 writes.
    pub fn matches(self, code: &[u8]) -> bool
        ensures { result ≡ matches_processing code.now self }
    {
        match self {
            ProcessingId::Production => code == b"P".as_slice(),
            ProcessingId::Training => code == b"T".as_slice(),
            ProcessingId::Debugging => code == b"D".as_slice(),
        }
    }
}

impl VersionId {
    /// Whether a message of this version, MSH-12.1 as it is written there, is meant.
    pub fn matches(&self, version: &[u8]) -> bool
        ensures { result ≡ matches_version version.now self.now }
    {
        match self {
            VersionId::Any => true,
            VersionId::Exactly(wanted) => version == wanted.as_bytes(),
        }
    }
}

impl Channel {
    /// The name, which no other channel of the plan has.
    pub fn name(&self) -> &str
        ensures { result.now ≡ self.now.name }
    {
        self.name.as_str()
    }

    /// The address to listen at, as `127.0.0.1:6660`.
    pub fn listen(&self) -> &str
        ensures { result.now ≡ self.now.listen }
    {
        self.listen.as_str()
    }

    /// The message types that are taken, in the order of the plan.
    pub fn types(&self) -> &[MessageType]
        ensures { result.now ≡ self.now.types }
    {
        self.types.as_slice()
    }

    /// The condition of the messages that pass; none where all of them do.
    pub fn filter(&self) -> Option<&Cond>
        ensures { option_map (λ c. condition_view c.now) result ≡ self.now.filter }
    {
        self.filter.as_ref()
    }

    /// The steps that change a message on its way, in their order.
    pub fn steps(&self) -> &[Step]
        ensures { steps_view result.now ≡ self.now.steps }
    {
        self.steps.as_slice()
    }

    /// The routes, in the order of the plan.
    pub fn routes(&self) -> &[Route]
        ensures { result.now ≡ self.now.routes }
    {
        self.routes.as_slice()
    }

    /// Whether a message of this code and event, MSH-9.1 and MSH-9.2 as they are written there, is taken.
    pub fn takes_type(&self, code: &[u8], event: &[u8]) -> bool
        ensures { result ≡ takes_type self.now code.now event.now }
    {
        self.types.iter().any(|entry| entry.matches(code, event))
    }

    /// Whether a message of this processing id, MSH-11.1 as it is written there, is taken.
    pub fn takes_processing(&self, code: &[u8]) -> bool
        ensures { result ≡ takes_processing self.now code.now }
    {
        self.processing.iter().any(|entry| entry.matches(code))
    }

    /// Whether a message of this version, MSH-12.1 as it is written there, is taken.
    pub fn takes_version(&self, version: &[u8]) -> bool
        ensures { result ≡ takes_version self.now version.now }
    {
        self.versions.iter().any(|entry| entry.matches(version))
    }

    /// Whether two channels do the same with the messages that they take.
    fn same_work(&self, other: &Channel) -> bool
        ensures { result ≡ (option_eq same_condition self.now.filter other.now.filter
            && (pointwise same_edit self.now.steps other.now.steps && pointwise same_route self.now.routes other.now.routes)) }
    {
        self.filter == other.filter
            && same_steps(self.steps.as_slice(), other.steps.as_slice())
            && self.routes.as_slice() == other.routes.as_slice()
    }
}

/// Whether two lists of steps do the same.
fn same_steps(steps: &[Step], others: &[Step]) -> bool
    ensures { result ≡ pointwise same_edit (steps_view steps.now) (steps_view others.now) }
{
    steps == others
}

impl PartialEq for MessageType {
    ghost use Rattle.plan_text.specs.inner.Same.{same_type, type_laws};

    ghost eq = { same_type };

    ghost laws = { type_laws };

    fn eq(&self, other: &MessageType) -> bool {
        match (self, other) {
            (MessageType::Any, MessageType::Any) => true,
            (MessageType::Code(code), MessageType::Code(code2)) => code == code2,
            (MessageType::CodeAndEvent(code, event), MessageType::CodeAndEvent(code2, event2)) => {
                code == code2 && event == event2
            }
            _ => false,
        }
    }
}

impl PartialEq for VersionId {
    ghost use Rattle.plan_text.specs.inner.Same.{same_version, version_laws};

    ghost eq = { same_version };

    ghost laws = { version_laws };

    fn eq(&self, other: &VersionId) -> bool {
        match (self, other) {
            (VersionId::Any, VersionId::Any) => true,
            (VersionId::Exactly(version), VersionId::Exactly(version2)) => version == version2,
            _ => false,
        }
    }
}

impl PartialEq for Route {
    ghost use Rattle.plan_text.specs.inner.Same.{same_route, route_laws};

    ghost eq = { same_route };

    ghost laws = { route_laws };

    fn eq(&self, other: &Route) -> bool {
        self.to == other.to
            && self.filter == other.filter
            && same_steps(self.steps.as_slice(), other.steps.as_slice())
    }
}

impl PartialEq for Channel {
    ghost use Rattle.plan_text.specs.inner.Same.{same_channel, channel_laws};

    ghost eq = { same_channel };

    ghost laws = { channel_laws };

    fn eq(&self, other: &Channel) -> bool {
        self.name == other.name
            && self.listen == other.listen
            && self.types.as_slice() == other.types.as_slice()
            && self.processing.as_slice() == other.processing.as_slice()
            && self.versions.as_slice() == other.versions.as_slice()
            && self.same_work(other)
    }
}
