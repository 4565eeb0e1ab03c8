//! Which control ids were sent over a connection lately.

ghost use Rattle.std.specs.Prelude.{◌≡◌, [], OnOk, OnErr};
ghost use Rattle.delivery_worker.specs.inner.Lately.{mark_of, marks_with, was_sent};

use std::alloc::{AllocError, Global};
use std::marker::Model;

/// How many control ids are remembered.
const REMEMBERED: usize = 100;

/// By what the mark of a control id is multiplied before the next byte is added.
const FACTOR: u64 = 1_099_511_628_211;

/// The mark of a control id: equal ids have equal marks. Others may have equal marks too, though that is rare.
fn mark_of(id: &[u8]) -> u64
    ensures { result ≡ mark_of id.now }
{
    let mut mark: u64 = 0;
    for byte in id {
        mark = mark.wrapping_mul(FACTOR).wrapping_add(u64::from(*byte));
    }
    mark
}

/// The marks of the last 100 control ids (MSH-10) that were sent over a connection. A destination may answer a message twice, as
/// with CA and then AA, and by its MSA-2 the second answer is one of a later message with the same control id, too.
#[derive(Drop)]
pub(crate) struct SentLately {
    marks: Vec<u64>,
}

impl Model for SentLately {
    ghost use Rattle.std.specs.Prelude.{ℕ, List};

    ghost Value = { List ℕ };

    ghost view = { λ lately. lately.marks.items };
}

impl SentLately {
    /// None was sent yet.
    pub(crate) fn new(alloc: Global) -> Self
        ensures { result ≡ [] }
    {
        SentLately {
            marks: Vec::new(alloc),
        }
    }

    /// Whether this control id is one of them, or has the mark of one.
    pub(crate) fn has(&self, id: &[u8]) -> bool
        ensures { result ≡ was_sent id.now self.now }
    {
        self.marks.contains(&mark_of(id))
    }

    /// Notes a control id that was sent.
    ///
    /// # Errors
    ///
    /// Where memory is refused.
    pub(crate) fn note(&mut self, id: &[u8]) -> Result<(), AllocError>
        ensures noted { OnOk result (self.new ≡ marks_with id.now self.old) }
    {
        if self.marks.len() >= REMEMBERED {
            self.marks.remove(0);
        }
        match self.marks.push(mark_of(id)) {
            Ok(()) => Ok(()),
            Err(_) => Err(AllocError),
        }
    }

    /// Forgets them all: another connection is opened.
    pub(crate) fn clear(&mut self)
        ensures { self.new ≡ [] }
    {
        self.marks.clear();
    }
}
