//! Notes by number.

ghost use Rattle.std.specs.Prelude.{◌≡◌, ◌≢◌, ◌≤◌, ◌<◌, ◌+◌, ◌-◌, ◌++◌, ℕ, None, Some, IfSome, IsNone, OnErr, OnOk, length, nat_lt, if◌then◌else◌, replicate, option_copied};
ghost use Rattle.message_notes.specs.inner.Notes.{kept};

use std::alloc::{AllocError, Global};
use std::collections::VecDeque;

/// Notes of type `T` about messages, one for each number at most. Those of the numbers below a first one are forgotten. They take
/// room for each number from the first one to the last that has a note.
#[derive(Drop)]
pub struct Notes<T> {
    first: u32,
    slots: VecDeque<Option<T>>,
}

impl<T: Drop> Notes<T> {
    /// No notes. Those of the numbers below `first` will not be kept.
    pub fn new(alloc: Global, first: u32) -> Notes<T>
        ensures first { result.first ≡ first }
        ensures none { (n : ℕ) → kept result.first result.slots.items n ≡ None }
    {
        Notes {
            first,
            slots: VecDeque::new(alloc),
        }
    }

    /// The note about the message of a number, where one is kept.
    pub fn get(&self, number: u32) -> Option<&T>
        ensures { option_copied result ≡ kept self.now.first self.now.slots.items number }
    {
        if number < self.first {
            return None;
        }
        match self.slots.get((number - self.first) as usize) {
            Some(Some(note)) => Some(note),
            _ => None,
        }
    }

    /// Makes room up to the number at this index behind the first one.
    #[tactic(auto, using(crate::proofs::Kept::kept_more))]
    fn reach(&mut self, index: usize) -> Result<(), AllocError>
        ensures first { self.new.first ≡ self.old.first }
        ensures reached { OnOk result (index < length self.new.slots.items) }
        ensures same { (n : ℕ) → kept self.new.first self.new.slots.items n
            ≡ kept self.old.first self.old.slots.items n }
    {
        for _ in self.slots.len()..index.saturating_add(1) {
            self.slots.push_back(None)?;
        }
        Ok(())
    }

    /// Takes the note about the message of a number out of these, where one is kept.
    pub fn take(&mut self, number: u32) -> Option<T>
        ensures note { result ≡ kept self.old.first self.old.slots.items number }
        ensures first { self.new.first ≡ self.old.first }
        ensures gone { kept self.new.first self.new.slots.items number ≡ None }
        ensures others { (n : ℕ) → n ≢ number
            → kept self.new.first self.new.slots.items n ≡ kept self.old.first self.old.slots.items n }
    {
        if number < self.first {
            return None;
        }
        match self.slots.get_mut((number - self.first) as usize) {
            Some(slot) => slot.take(),
            None => None,
        }
    }

    /// Keeps a note about the message of a number in place of the one before. It is dropped where the number is below the first one,
    /// or memory is refused.
    ///
    /// # Errors
    ///
    /// Where memory is refused.
    pub fn put(&mut self, number: u32, note: T) -> Result<(), AllocError>
        ensures first { self.new.first ≡ self.old.first }
        ensures kept { OnOk result (kept self.new.first self.new.slots.items number
            ≡ (if nat_lt number self.old.first then None else Some note)) }
        ensures others { (n : ℕ) → n ≢ number
            → kept self.new.first self.new.slots.items n ≡ kept self.old.first self.old.slots.items n }
    {
        if number < self.first {
            return Ok(());
        }
        let index = (number - self.first) as usize;
        self.reach(index)?;
        self.slots[index] = Some(note);
        Ok(())
    }

    /// Forgets the notes about the messages of the numbers below this one, where it is above the first one.
    #[tactic(auto, using(crate::proofs::Kept::kept_rest))]
    pub fn forget_below(&mut self, first: u32)
        ensures { (n : ℕ) → kept self.new.first self.new.slots.items n
            ≡ (if nat_lt n first then None else kept self.old.first self.old.slots.items n) }
    {
        for next in self.first..first {
            self.slots.pop_front();
            self.first = next + 1;
        }
    }
}
