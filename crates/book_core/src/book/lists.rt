//! Lists of a book's messages.

ghost use Rattle.std.specs.Prelude.{◌≡◌, ◌-◌, IfOk, filter};
ghost use Rattle.std.specs.List.{filter_map, range_with_len};
ghost use Rattle.book_core.specs.inner.Questions.{failed_as, has_control_id, queued_as};

use crate::book::Book;
use crate::letter::BookRows;
use crate::questions::{Failure, Front};
use dest_queue::SlotState;
use std::alloc::AllocError;

impl<S: BookRows> Book<S> {
    /// The messages numbered from `from` up to but not including `to` that are still to be delivered to destination `d`, in
    /// their order. It looks at as many messages as there are numbers.
    ///
    /// # Errors
    ///
    /// Where memory for the answer is refused.
    pub fn queued_among(&self, d: u32, from: u32, to: u32) -> Result<Vec<Front>, AllocError>
        ensures { IfOk result (λ found. found.items ≡ filter_map (queued_as self.now d) (range_with_len from (to - from))) }
    {
        let mut found = Vec::new(self.alloc);
        for number in from..to {
            if let Some(front) = self.queued(d, number) {
                found.push(front)?;
            }
        }
        Ok(found)
    }

    /// Message `number` with why it failed at destination `d`, where it did.
    fn failed(&self, d: u32, number: u32) -> Option<Failure>
        ensures { result ≡ failed_as self.now d number }
    {
        match self.status(number, d) {
            Some(SlotState::Failed(cause)) => Some(Failure { number, cause }),
            _ => None,
        }
    }

    /// The messages numbered from `from` up to but not including `to` that failed at destination `d`, in their order, with
    /// why. It looks at as many messages as there are numbers.
    ///
    /// # Errors
    ///
    /// Where memory for the answer is refused.
    pub fn failed_among(&self, d: u32, from: u32, to: u32) -> Result<Vec<Failure>, AllocError>
        ensures { IfOk result (λ found. found.items ≡ filter_map (failed_as self.now d) (range_with_len from (to - from))) }
    {
        let mut found = Vec::new(self.alloc);
        for number in from..to {
            if let Some(failure) = self.failed(d, number) {
                found.push(failure)?;
            }
        }
        Ok(found)
    }

    /// The numbers from `from` up to but not including `to` of the remembered messages whose control id (MSH-10, raw) is `id`,
    /// in their order. It looks at as many messages as there are numbers.
    ///
    /// # Errors
    ///
    /// Where memory for the answer is refused.
    pub fn found_among(&self, id: &[u8], from: u32, to: u32) -> Result<Vec<u32>, AllocError>
        ensures { IfOk result (λ found. found.items ≡ filter (has_control_id self.now id.now) (range_with_len from (to - from))) }
    {
        let mut found = Vec::new(self.alloc);
        for number in from..to {
            if self.has_control_id(id, number) {
                found.push(number)?;
            }
        }
        Ok(found)
    }
}
