//! Where a message goes.

ghost use Rattle.std.specs.Prelude.{◌≡◌, ◌≢◌, ◌<◌, ◌==◌, ◌∷◌, [], ◌++◌, length, IfOk, MatchOption, All, AllPairs, find, option_copied, option_map, true, false};
ghost use Rattle.std.specs.List.{list_any};
ghost use Rattle.std.specs.Result.{result_ok};
ghost use Rattle.hl7_transform.specs.Step.{after_steps};
ghost use Rattle.hl7_transform.specs.inner.View.{steps_view};
ghost use Rattle.plan_text.specs.Entries.{AllStand};
ghost use Rattle.mllp_frame.specs.Framing.{IsData};
ghost use Rattle.er7_tree.specs.Tree.{text_of};
ghost use Rattle.hl7_filter.specs.inner.View.{view as condition_view};
ghost use Rattle.judge_core.specs.inner.Outgoing.{listed, unpacked};
ghost use Rattle.judge_core.specs.Judging.{passes, deliveries_by, is_stopped, open_routes};

use crate::text::Text;
use er7_tree::Message;
use hl7_filter::Cond;
use hl7_transform::{Step, StepFault, apply};
use plan_text::Route;
use std::alloc::{AllocError, Global};
use std::marker::Model;
use std::slice;
use std::sync::Arc;

/// A text for one destination, by its index in the plan.
#[derive(Drop)]
pub struct Delivery {
    pub destination: u32,
    pub payload: Text,
}

/// The texts of a message for its destinations, with a list on the heap only where there are several. It is there for speed: a
/// message for one destination takes a request for memory less.
#[derive(Drop)]
pub(crate) enum Outgoing {
    Nowhere,
    One(Delivery),
    Several(Vec<Delivery>),
}

/// Deliveries as their owners keep them. It exists for speed: a single one is kept inline, and shares its text alone, so
/// that it takes no memory of its own.
#[derive(Drop)]
pub(crate) enum Kept {
    One(Delivery),
    Several(Arc<Vec<Delivery>>),
}

/// Where a message goes and with which texts, held once for all its owners: at most 32 destinations, each once.
#[derive(Drop)]
pub struct Deliveries {
    items: Kept,
}

impl Model for Deliveries {
    ghost use Rattle.std.specs.Prelude.{List};
    ghost use Rattle.judge_core.specs.declared.delivery.Delivery.{Delivery};
    ghost use Rattle.judge_core.specs.inner.Delivering.{AreDeliveries};
    ghost use Rattle.judge_core.specs.inner.Outgoing.{kept};

    ghost Value = { List Delivery };

    ghost view = { λ d. kept d.items };

    ghost invariant = { λ d. AreDeliveries (kept d.items) };
}

/// Deliveries as an owner of very many keeps them, beside small values of its own: the parts of a single one, or what several
/// share.
#[derive(Drop)]
pub enum KeptDeliveries {
    One { destination: u8, payload: Text },
    Several(SharedDeliveries),
}

/// A list of deliveries that many owners share.
#[derive(Drop)]
pub struct SharedDeliveries {
    all: Arc<Vec<Delivery>>,
}

/// Shared deliveries take 8 bytes beside what they share.
const _: () = prove!(size_of::<SharedDeliveries>() == 8);

impl Model for SharedDeliveries {
    ghost use Rattle.std.specs.Prelude.{List};
    ghost use Rattle.std.specs.Arc.{arc_value};
    ghost use Rattle.judge_core.specs.declared.delivery.Delivery.{Delivery};
    ghost use Rattle.judge_core.specs.inner.Delivering.{AreDeliveries};

    ghost Value = { List Delivery };

    ghost view = { λ d. (arc_value d.all).items };

    ghost invariant = { λ d. AreDeliveries (arc_value d.all).items };
}

impl Outgoing {
    /// These deliveries and one more.
    fn with(self, alloc: Global, delivery: Delivery) -> Result<Outgoing, AllocError>
        ensures { IfOk result (λ more. listed more ≡ listed self ++ delivery ∷ []) }
    {
        match self {
            Outgoing::Nowhere => Ok(Outgoing::One(delivery)),
            Outgoing::One(first) => {
                let mut all = Vec::new(alloc);
                all.push(first)?;
                all.push(delivery)?;
                Ok(Outgoing::Several(all))
            }
            Outgoing::Several(mut all) => {
                all.push(delivery)?;
                Ok(Outgoing::Several(all))
            }
        }
    }

    /// Whether there is none.
    pub(crate) fn is_empty(&self) -> bool
        ensures { result ≡ (length (listed self.now) == 0) }
    {
        match self {
            Outgoing::Nowhere => true,
            Outgoing::One(_) => false,
            Outgoing::Several(all) => all.is_empty(),
        }
    }
}

impl Delivery {
    /// The same delivery for one more owner.
    fn share(&self) -> Result<Delivery, AllocError>
        ensures { IfOk result (λ delivery. delivery ≡ self.now) }
    {
        Ok(Delivery {
            destination: self.destination,
            payload: self.payload.share()?,
        })
    }
}

/// Whether a message passes a filter; where there is none each message does.
pub(crate) fn passes(filter: Option<&Cond>, message: &Message) -> Result<bool, AllocError>
    ensures { IfOk result (λ b. b ≡ passes message.now (option_map (λ c. condition_view c.now) filter.entry)) }
{
    match filter {
        Some(condition) => condition.holds(message),
        None => Ok(true),
    }
}

/// The message after the steps, or nothing where one of them can't be taken.
pub(crate) fn transformed(steps: &[Step], message: Message) -> Result<Option<Message>, AllocError>
    requires { AllStand (steps_view steps.now) }
    ensures { IfOk result (λ t. t ≡ result_ok (after_steps (steps_view steps.now) message)) }
{
    match apply(steps, message) {
        Ok(message) => Ok(Some(message)),
        Err(StepFault::Stopped { .. }) => Ok(None),
        Err(StepFault::NoMemory) => Err(AllocError),
    }
}

/// The text of a message after a route's steps, or nothing where one of them can't be taken. It is not inlined, for speed:
/// what it keeps of the changed message would be cleared for each message, some 30 instructions by an estimate.
#[inline(never)]
fn text_after(alloc: Global, steps: &[Step], message: &Message) -> Result<Option<Text>, AllocError>
    requires stand { AllStand (steps_view steps.now) }
    ensures { IfOk result (λ text. text ≡ option_map text_of (result_ok (after_steps (steps_view steps.now) message.now))) }
{
    match transformed(steps, message.clone()?)? {
        Some(message) => Ok(Some(Text::new(alloc, message.print()?)?)),
        None => Ok(None),
    }
}

/// The text of a message after a route's steps, or nothing where one of them can't be taken; `payload` is its text
/// before them.
fn text_by(
    alloc: Global,
    steps: &[Step],
    message: &Message,
    payload: &Text,
) -> Result<Option<Text>, AllocError>
    requires stand { AllStand (steps_view steps.now) }
    requires payload { payload.now ≡ text_of message.now }
    ensures { IfOk result (λ text. text ≡ option_map text_of (result_ok (after_steps (steps_view steps.now) message.now))) }
{
    if steps.is_empty() {
        return Ok(Some(payload.share()?));
    }
    text_after(alloc, steps, message)
}

/// What goes by each route whose filter the message passes, or nothing where the steps of one can't be taken;
/// `payload` is the message's text.
pub(crate) fn by_routes(
    alloc: Global,
    routes: &[Route],
    message: &Message,
    payload: &Text,
) -> Result<Option<Outgoing>, AllocError>
    requires stand { All (λ r. AllStand r.steps) routes.now }
    requires payload { payload.now ≡ text_of message.now }
    ensures { IfOk result (λ all. MatchOption all (list_any (is_stopped message.now) (open_routes routes.now message.now) ≡ true)
        (λ ds. (list_any (is_stopped message.now) (open_routes routes.now message.now) ≡ false)
        × (listed ds ≡ deliveries_by routes.now message.now))) }
{
    let mut all = Outgoing::Nowhere;
    let mut stopped = false;
    for route in routes {
        if passes(route.filter(), message)? {
            match text_by(alloc, route.steps(), message, payload)? {
                Some(text) => {
                    let delivery = Delivery {
                        destination: route.to(),
                        payload: text,
                    };
                    all = all.with(alloc, delivery)?;
                }
                None => stopped = true,
            }
        }
    }
    Ok(if stopped { None } else { Some(all) })
}

impl Deliveries {
    ghost use Rattle.judge_core.specs.inner.Delivering.{AreDeliveries};

    /// Deliveries to at most 32 destinations, to each once.
    pub(crate) fn new(alloc: Global, items: Outgoing) -> Result<Deliveries, AllocError>
        requires { AreDeliveries (listed items) }
        ensures { IfOk result (λ deliveries. deliveries ≡ listed items) }
    {
        let items = match items {
            Outgoing::Nowhere => Kept::Several(Arc::new(alloc, Vec::new(alloc))?),
            Outgoing::One(delivery) => Kept::One(delivery),
            Outgoing::Several(all) => Kept::Several(Arc::new(alloc, all)?),
        };
        Ok(Deliveries { items })
    }

    /// These deliveries, in the order of the routes.
    ///
    /// # Errors
    ///
    /// Where memory is refused.
    pub fn of(alloc: Global, items: Vec<Delivery>) -> Result<Deliveries, AllocError>
        requires { AreDeliveries items.items }
        ensures { IfOk result (λ deliveries. deliveries ≡ items.items) }
    {
        Ok(Deliveries {
            items: Kept::Several(Arc::new(alloc, items)?),
        })
    }

    /// The deliveries, in the order of the routes.
    pub fn as_slice(&self) -> &[Delivery]
        ensures value { result.now ≡ self.now }
        ensures within { All (λ x. x.destination < 32) result.now }
        ensures once { AllPairs (λ x y. x.destination ≢ y.destination) result.now }
        ensures plain { All (λ x. IsData x.payload) result.now }
    {
        match &self.items {
            Kept::One(delivery) => slice::from_ref(delivery),
            Kept::Several(all) => all.as_slice(),
        }
    }

    /// The same deliveries for one more owner.
    ///
    /// # Errors
    ///
    /// Where they have more owners than can be counted.
    pub fn share(&self) -> Result<Deliveries, AllocError>
        ensures { IfOk result (λ deliveries. deliveries ≡ self.now) }
    {
        let items = match &self.items {
            Kept::One(delivery) => Kept::One(delivery.share()?),
            Kept::Several(all) => Kept::Several(Arc::try_clone(all)?),
        };
        Ok(Deliveries { items })
    }

    /// The same deliveries as an owner of very many keeps them.
    ///
    /// # Errors
    ///
    /// Where they have more owners than can be counted.
    pub fn keep(&self) -> Result<KeptDeliveries, AllocError>
        ensures kept { IfOk result (λ kept. unpacked kept ≡ self.now) }
        ensures good { AreDeliveries self.now }
    {
        Ok(match &self.items {
            Kept::One(delivery) => KeptDeliveries::One {
                destination: delivery.destination as u8,
                payload: delivery.payload.share()?,
            },
            Kept::Several(all) => KeptDeliveries::Several(SharedDeliveries {
                all: Arc::try_clone(all)?,
            }),
        })
    }

    /// A single delivery.
    pub fn single(destination: u8, payload: Text) -> Deliveries
        requires { AreDeliveries (record { destination = destination; payload = payload } ∷ []) }
        ensures { result ≡ record { destination = destination; payload = payload } ∷ [] }
    {
        Deliveries {
            items: Kept::One(Delivery {
                destination: u32::from(destination),
                payload,
            }),
        }
    }
}

impl SharedDeliveries {
    /// The deliveries, for one more owner.
    ///
    /// # Errors
    ///
    /// Where they have more owners than can be counted.
    pub fn share(&self) -> Result<Deliveries, AllocError>
        ensures { IfOk result (λ deliveries. deliveries ≡ self.now) }
    {
        Ok(Deliveries {
            items: Kept::Several(Arc::try_clone(&self.all)?),
        })
    }

    /// The text for destination `d`, if there is one.
    pub fn payload(&self, d: u32) -> Option<&Text>
        ensures { option_copied result ≡ option_map (λ x. x.payload)
            (find (λ x. x.destination == d) self.now) }
    {
        self.all
            .iter()
            .find(|x| x.destination == d)
            .map(|x| &x.payload)
    }
}
