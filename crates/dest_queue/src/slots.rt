//! The slots of one message.

ghost use Rattle.std.specs.Prelude.{◌≡◌, ◌==◌, ◌<◌, ◌&&◌, ℕ, Bool, List, [], ◌∷◌, ◌++◌, Some, None, IfOk, OnOk, OnErr, All, not, fold, if◌then◌else◌};
ghost use Rattle.row_store.specs.inner.Rows.{without};
ghost use Rattle.dest_queue.specs.declared.SlotState.{SlotState};
ghost use Rattle.dest_queue.specs.declared.slots.Slot.{Slot};
ghost use Rattle.dest_queue.specs.States.{is_waiting};
ghost use Rattle.dest_queue.specs.inner.Listed.{listed, single};
ghost use Rattle.dest_queue.specs.inner.SlotsBy.{slots_by, is_among};
ghost use Rattle.dest_queue.specs.inner.Queues.{waiting_at, without_each};
ghost use Rattle.std.specs.Int.{bit_at};
ghost use Rattle.dest_queue.specs.Slots.{state_at};
ghost use Rattle.dest_queue.specs.inner.Slots.{new_slot, with_state, waits_at, has_bit, cancelled};

use crate::{ATTEMPTS_MAX, FailCause, SlotState};
use row_store::QUEUES;
use std::alloc::{AllocError, Global};
use std::marker::Model;

/// A message at one of its destinations.
#[derive(Clone, Copy, Debug, PartialEq, Eq)]
pub struct Slot {
    pub destination: u32,
    pub state: SlotState,
}

impl Slot {
    /// Whether it waits at one of the destinations of the mask.
    fn waits_among(self, among: u32) -> bool
        requires { self.destination < QUEUES }
        ensures { result ≡ (has_bit among self.destination && is_waiting self.state) }
    {
        has_bit(among, self.destination) && self.state.is_waiting()
    }
}

/// Whether bit d of a mask is set.
pub(crate) fn has_bit(mask: u32, d: u32) -> bool
    requires { d < QUEUES }
    ensures { result ≡ has_bit mask d }
{
    mask >> d & 1 == 1
}

/// Slots, with a list on the heap only where there are several: a message for one destination takes a request for memory
/// less. A single slot is a variant for each of its states. That takes 16 bytes, where an enum around a [`Slot`] takes 32.
#[derive(Drop)]
enum SlotList {
    Nowhere,
    Waiting {
        destination: u8,
        attempts: u32,
        due: u64,
    },
    InFlight {
        destination: u8,
        attempt: u32,
    },
    Delivered {
        destination: u8,
    },
    Failed {
        destination: u8,
        cause: FailCause,
    },
    Several(Box<Vec<Slot>>),
}

/// A single slot takes 16 bytes.
const _: () = prove!(size_of::<SlotList>() == 16);

impl SlotList {
    /// The list of one slot.
    fn one(slot: Slot) -> SlotList
        requires { slot.destination < QUEUES }
        ensures { listed result ≡ slot ∷ [] }
    {
        let destination = slot.destination as u8;
        match slot.state {
            SlotState::Waiting { attempts, due } => SlotList::Waiting {
                destination,
                attempts,
                due,
            },
            SlotState::InFlight { attempt } => SlotList::InFlight {
                destination,
                attempt,
            },
            SlotState::Delivered => SlotList::Delivered { destination },
            SlotState::Failed(cause) => SlotList::Failed { destination, cause },
        }
    }

    /// The slot, where there is one and no list.
    fn single(&self) -> Option<Slot>
        ensures { result ≡ single self.now }
    {
        let (destination, state) = match self {
            SlotList::Waiting {
                destination,
                attempts,
                due,
            } => {
                let state = SlotState::Waiting {
                    attempts: *attempts,
                    due: *due,
                };
                (*destination, state)
            }
            SlotList::InFlight {
                destination,
                attempt,
            } => (*destination, SlotState::InFlight { attempt: *attempt }),
            SlotList::Delivered { destination } => (*destination, SlotState::Delivered),
            SlotList::Failed { destination, cause } => (*destination, SlotState::Failed(*cause)),
            SlotList::Nowhere | SlotList::Several(_) => return None,
        };
        Some(Slot {
            destination: u32::from(destination),
            state,
        })
    }

    /// Adds a slot.
    fn add(&mut self, alloc: Global, slot: Slot) -> Result<(), AllocError>
        requires { slot.destination < QUEUES }
        ensures ok { OnOk result (listed self.new ≡ listed self.old ++ slot ∷ []) }
        ensures err { OnErr result (listed self.new ≡ listed self.old) }
    {
        if let SlotList::Several(list) = self {
            list.push(slot)?;
        } else {
            *self = match self.single() {
                None => SlotList::one(slot),
                Some(first) => {
                    let both = vec![in alloc; first, slot]?;
                    SlotList::Several(Box::new(alloc, both)?)
                }
            };
        }
        Ok(())
    }

    /// A copy of the slots.
    fn copy(&self) -> Result<SlotList, AllocError>
        requires { All (λ slot. slot.destination < QUEUES) (listed self.now) }
        ensures { IfOk result (λ list. listed list ≡ listed self.now) }
    {
        if let SlotList::Several(list) = self {
            return Ok(SlotList::Several(list.clone()?));
        }
        Ok(match self.single() {
            None => SlotList::Nowhere,
            Some(slot) => SlotList::one(slot),
        })
    }

    /// The slots as a list.
    fn to_vec(&self, alloc: Global) -> Result<Vec<Slot>, AllocError>
        ensures { IfOk result (λ slots. slots.items ≡ listed self.now) }
    {
        if let SlotList::Several(list) = self {
            return list.as_ref().clone();
        }
        let mut slots = Vec::new(alloc);
        if let Some(slot) = self.single() {
            slots.push(slot)?;
        }
        Ok(slots)
    }

    /// The state at d, if there is a slot there.
    fn state_at(&self, d: u32) -> Option<SlotState>
        ensures { result ≡ state_at d (listed self.now) }
    {
        if let SlotList::Several(list) = self {
            return list
                .iter()
                .find(|slot| slot.destination == d)
                .map(|slot| slot.state);
        }
        self.single()
            .filter(|slot| slot.destination == d)
            .map(|slot| slot.state)
    }

    /// Puts the slot at d into a state.
    fn put(&mut self, d: u32, state: SlotState)
        requires { All (λ slot. slot.destination < QUEUES) (listed self.old) }
        ensures { listed self.new ≡ with_state d state (listed self.old) }
    {
        if let SlotList::Several(list) = self {
            put_in(list, d, state);
        } else if let Some(slot) = self.single() {
            let mut slots = [slot];
            put_in(&mut slots, d, state);
            *self = SlotList::one(slots[0]);
        }
    }

    /// Cancels the slots that wait at one of the destinations of the mask `among`, and answers these as a mask.
    fn cancel(&mut self, among: u32) -> u32
        requires { All (λ slot. slot.destination < QUEUES) (listed self.old) }
        ensures slots { listed self.new ≡ cancelled (has_bit among) (listed self.old) }
        ensures mask { (d : ℕ) → (bit_at result d == 1) ≡ (has_bit among d && waits_at d (listed self.old)) }
    {
        if let SlotList::Several(list) = self {
            cancel_in(list, among)
        } else if let Some(slot) = self.single() {
            let mut slots = [slot];
            let mask = cancel_in(&mut slots, among);
            *self = SlotList::one(slots[0]);
            mask
        } else {
            0
        }
    }
}

/// The slots of a message in the order in which it names its destinations, which are all below `QUEUES`.
#[derive(Drop)]
pub struct Slots {
    alloc: Global,
    list: SlotList,
}

impl Model for Slots {
    ghost use Rattle.std.specs.Prelude.{List, ◌<◌, All};
    ghost use Rattle.dest_queue.specs.declared.slots.Slot.{Slot};
    ghost use Rattle.dest_queue.specs.inner.Listed.{listed};

    ghost Value = { List Slot };

    ghost view = { λ s. listed s.list };

    ghost invariant = { λ s. All (λ slot. slot.destination < 32) (listed s.list) };
}

impl Slots {
    /// The slots of a message that names no destination.
    pub fn new(alloc: Global) -> Slots
        ensures { result ≡ [] }
    {
        Slots {
            alloc,
            list: SlotList::Nowhere,
        }
    }

    /// Adds a slot that waits at d for its first attempt.
    ///
    /// # Errors
    ///
    /// Where memory is refused; the slots are as they were.
    pub fn add(&mut self, d: u32) -> Result<(), AllocError>
        requires { d < QUEUES }
        ensures ok { OnOk result (self.new ≡ self.old ++ new_slot d ∷ []) }
        ensures err { OnErr result (self.new ≡ self.old) }
    {
        self.push(Slot {
            destination: d,
            state: SlotState::Waiting {
                attempts: 0,
                due: 0,
            },
        })
    }

    /// Adds a slot in any state behind the others.
    ///
    /// # Errors
    ///
    /// Where memory is refused; the slots are as they were.
    pub fn push(&mut self, slot: Slot) -> Result<(), AllocError>
        requires { slot.destination < QUEUES }
        ensures ok { OnOk result (self.new ≡ self.old ++ slot ∷ []) }
        ensures err { OnErr result (self.new ≡ self.old) }
    {
        self.list.add(self.alloc, slot)
    }

    /// The slots as a list, in their order.
    ///
    /// # Errors
    ///
    /// Where memory is refused.
    pub fn to_vec(&self) -> Result<Vec<Slot>, AllocError>
        ensures value { IfOk result (λ slots. slots.items ≡ self.now) }
        ensures within { All (λ slot. slot.destination < QUEUES) self.now }
    {
        self.list.to_vec(self.alloc)
    }

    /// A copy of the slots.
    ///
    /// # Errors
    ///
    /// Where memory is refused.
    pub fn copy(&self) -> Result<Slots, AllocError>
        ensures { IfOk result (λ slots. slots ≡ self.now) }
    {
        Ok(Slots {
            alloc: self.alloc,
            list: self.list.copy()?,
        })
    }

    /// The state at d, if the message names d.
    pub fn state_at(&self, d: u32) -> Option<SlotState>
        ensures { result ≡ state_at d self.now }
    {
        self.list.state_at(d)
    }

    /// Puts the slot at d into a state.
    pub fn put(&mut self, d: u32, state: SlotState)
        ensures { self.new ≡ with_state d state self.old }
    {
        self.list.put(d, state);
    }

    /// Cancels the slots that wait at one of the destinations of the mask `among`, and answers these: bit d is set where
    /// bit d of `among` is and the message waited at d.
    pub fn cancel(&mut self, among: u32) -> u32
        ensures slots { self.new ≡ cancelled (has_bit among) self.old }
        ensures mask { (d : ℕ) → (bit_at result d == 1) ≡ (has_bit among d && waits_at d self.old) }
    {
        self.list.cancel(among)
    }

    /// Each destination is below `QUEUES`.
    pub(crate) fn destinations_are_few(&self)
        ensures { All (λ slot. slot.destination < QUEUES) self.now }
    {
        let _ = &self.list;
    }
}

/// Puts the slot at d into a state.
fn put_in(slots: &mut [Slot], d: u32, state: SlotState)
    ensures { slots.new ≡ with_state d state slots.old }
{
    for slot in slots {
        if slot.destination == d {
            slot.state = state;
        }
    }
}

/// Cancels the slots that wait at one of the destinations of the mask `among`, and answers these as a mask.
fn cancel_in(slots: &mut [Slot], among: u32) -> u32
    requires { All (λ slot. slot.destination < QUEUES) slots.old }
    ensures slots { slots.new ≡ cancelled (has_bit among) slots.old }
    ensures mask { (d : ℕ) → (bit_at result d == 1) ≡ (has_bit among d && waits_at d slots.old) }
{
    let mut mask = 0;
    for slot in slots {
        if slot.waits_among(among) {
            slot.state = SlotState::Failed(FailCause::Cancelled);
            mask |= 1 << slot.destination;
        }
    }
    mask
}

/// A row's item: what a message is, beside its slots.
#[derive(Drop)]
pub struct Queued<T> {
    pub content: T,
    pub slots: Slots,
}

/// The laws of slots: slots given by a function from a message's destinations to states.
pub fn slot_rules()
    ensures state_at { (state : ℕ → SlotState) (ds : List ℕ) (d : ℕ) →
        state_at d (slots_by state ds) ≡ (if is_among d ds then Some (state d) else None) }
    ensures waits_at { (state : ℕ → SlotState) (ds : List ℕ) (d : ℕ) →
        waits_at d (slots_by state ds) ≡ (is_among d ds && is_waiting (state d)) }
    ensures with_state { (state : ℕ → SlotState) (ds : List ℕ) (d : ℕ) (next : SlotState) →
        with_state d next (slots_by state ds) ≡ slots_by (λ e. if e == d then next else state e) ds }
    ensures cancelled { (among : ℕ → Bool) (state : ℕ → SlotState) (ds : List ℕ) →
        cancelled among (slots_by state ds) ≡
        slots_by (λ e. if among e && is_waiting (state e) then SlotState.Failed FailCause.Cancelled else state e) ds }

    // To cancel takes a row out of the queues where it waits, and out of no other.
    ensures left { (among : ℕ → Bool) (slots : List Slot) (mask d : ℕ) → d < QUEUES →
        (bit_at (without_each (waiting_at among slots) mask) d == 1) ≡ ((bit_at mask d == 1) && not (among d && waits_at d slots)) }
{}
