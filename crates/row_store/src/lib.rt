//! Rows in the order of their numbers, each with an item and the queues that it is in.
#![tactic(auto)]

ghost use Rattle.std.specs.Prelude.{◌≡◌, ◌≢◌, ◌<◌, ◌==◌, ◌↔◌, ℕ, List, [], ◌∷◌, ◌++◌, IfErr, OnSome, OnOk, OnErr, IsTrue, All, false, not, if◌then◌else◌, length, filter, slice_get, option_copied};
ghost use Rattle.std.specs.Borrow.{LendsSo, sem};
ghost use Rattle.std.specs.Option.{option_copied_mut};
ghost use Rattle.row_store.specs.declared.Row.{Row};
ghost use Rattle.row_store.specs.Rows.{is_in_queue, queue_of, item_at};
ghost use Rattle.row_store.specs.inner.Rows.{NumbersRise, without, front_of, with_item, is_linked, unlinked, removed};

use std::alloc::{AllocFailed, Global};

mod plain_rows;

pub use fixed_numbers::QUEUES;
pub use plain_rows::PlainRows;

/// A row: bit d of the mask is set where the row is in queue d.
#[derive(Drop)]
pub struct Row<T> {
    pub number: u32,
    pub mask: u32,
    pub item: T,
}

impl<T> Row<T> {
    /// Whether the row is in queue d. No row is in a queue of `QUEUES` or more.
    pub fn stands_in(&self, d: u32) -> bool
        ensures { result ≡ is_in_queue d self.now }
    {
        let mask = self.mask;
        d < QUEUES && mask >> d & 1 == 1
    }

    /// Takes the row out of queue d.
    pub fn leave(&mut self, d: u32)
        ensures { self.new ≡ record self.old { mask = without d self.old.mask } }
    {
        let mask = self.mask;
        if self.stands_in(d) {
            self.mask = mask - (1 << d);
        }
    }
}

/// Rows by number, in rising order, and the queues that they are in.
pub trait RowStore<T> {
    /// The rows, in the order of their numbers.
    ghost rows: { Self → List (Row T) };

    /// How many rows can be added without requesting memory. A store that makes each row in memory of its own has room for
    /// none.
    ghost room: { Self → ℕ };

    /// A store with no row.
    fn make(alloc: Global) -> Self
        ensures { rows result ≡ [] };

    /// The rows rise by number: each number has one row.
    fn numbers_rise(&self)
        ensures { NumbersRise (rows self.now) };

    /// Adds a row at the end.
    ///
    /// # Errors
    ///
    /// The item, where memory is refused, which it is only where there was no room.
    fn push(&mut self, number: u32, item: T, mask: u32) -> Result<(), AllocFailed<T>>
        requires { All (λ row. row.number < number) (rows self.old) }
        ensures ok { OnOk result (rows self.new ≡ rows self.old ++ record { number = number; item = item; mask = mask } ∷ []) }
        ensures err { OnErr result (rows self.new ≡ rows self.old) }
        ensures missing { OnErr result (room self.old ≡ 0) }
        ensures item_returned { IfErr result (λ failed. failed.value ≡ item) };

    /// The first number in queue d.
    fn front(&mut self, d: u32) -> Option<u32>
        ensures first { result ≡ front_of d (rows self.old) }
        ensures unchanged { rows self.new ≡ rows self.old };

    /// The item of a row.
    fn get(&self, number: u32) -> Option<&T>
        ensures { option_copied result ≡ item_at number (rows self.now) };

    /// The item of a row, to be changed.
    fn get_mut(&mut self, number: u32) -> Option<&mut T>
        ensures* writes_back { sem 𝓛 (LendsSo Self.row T.row self.entry result (λ after item. OnSome result (rows after ≡ with_item number item (rows self.old))) (λ after. rows after ≡ rows self.old)) }
        ensures item { option_copied_mut result ≡ item_at number (rows self.old) };

    /// Takes a row out of queue d, and returns whether it was there.
    fn unlink(&mut self, number: u32, d: u32) -> bool
        ensures stood { result ≡ is_linked number d (rows self.old) }
        ensures unlinked { rows self.new ≡ unlinked number d (rows self.old) };

    /// Drops a row and hands its item out.
    fn remove(&mut self, number: u32) -> Option<T>
        ensures item { result ≡ item_at number (rows self.old) }
        ensures removed { rows self.new ≡ removed number (rows self.old) };

    /// How many rows there are.
    fn len(&self) -> usize
        ensures { result ≡ length (rows self.now) };

    /// Whether there is no row.
    fn is_empty(&self) -> bool
        ensures { IsTrue result ↔ (rows self.now ≡ []) }
    {
        self.len() == 0
    }
}

/// The laws of queues: what a change to a row does to those that it is in.
pub fn queue_rules<T>()
    // The front is the first of the queue.
    ensures front { (rows : List (Row T)) (d : ℕ) → front_of d rows ≡ slice_get (queue_of d rows) 0 }

    // A row that leaves a queue leaves that queue and no other.
    ensures left { (row : Row T) (d : ℕ) → is_in_queue d (record row { mask = without d row.mask }) ≡ false }
    ensures others { (row : Row T) (d e : ℕ) → e ≢ d → is_in_queue e (record row { mask = without d row.mask }) ≡ is_in_queue e row }
    ensures unlinked { (rows : List (Row T)) (number d : ℕ) →
        queue_of d (unlinked number d rows) ≡ filter (λ k. not (k == number)) (queue_of d rows) }
    ensures unlinked_others { (rows : List (Row T)) (number d e : ℕ) → e ≢ d → queue_of e (unlinked number d rows) ≡ queue_of e rows }

    // Another item changes no queue, and a row at the end is last in its own.
    ensures with_item { (rows : List (Row T)) (number d : ℕ) (item : T) → queue_of d (with_item number item rows) ≡ queue_of d rows }
    ensures pushed { (rows : List (Row T)) (row : Row T) (d : ℕ) →
        queue_of d (rows ++ row ∷ []) ≡ (if is_in_queue d row then queue_of d rows ++ row.number ∷ [] else queue_of d rows) }
{}
