//! What a worker has while it works.

use std::sync::{Mutex, Wait};

/// A value that a worker takes, works with, and puts back. The lock is held while it changes hands, and not in between.
/// Contracts know of the value what its type says, and not whether someone has it.
#[derive(Drop)]
pub struct TakeCell<X> {
    value: Mutex<Option<X>>,
}

impl<X> TakeCell<X> {
    /// A value that nobody has taken.
    pub fn new(value: X) -> Self {
        TakeCell {
            value: Mutex::new(Some(value)),
        }
    }

    /// Takes the value, unless someone has it.
    pub fn take<H: Wait>(&self, rt: &H) -> Option<X> {
        self.value.lock(rt).take()
    }

    /// The value, unless someone has it still.
    pub fn into_inner(self) -> Option<X> {
        let TakeCell { value } = self;
        value.into_inner()
    }
}

impl<X: Drop> TakeCell<X> {
    /// Puts the value back. One that was there is dropped.
    pub fn give_back<H: Wait>(&self, rt: &H, value: X) {
        *self.value.lock(rt) = Some(value);
    }
}
