//! Questions about the rows of a book, and of how full it is.

ghost use Rattle.std.specs.Prelude.{◌≡◌, ◌≤◌, ◌+◌, ◌*◌, ◌&&◌, not, nat_lt};
ghost use Rattle.row_store.specs.declared.Row.{Row};
ghost use Rattle.event_log.specs.History.{History};
ghost use Rattle.book_core.specs.inner.Parts.{RowsAgree};
ghost use Rattle.book_core.specs.inner.Questions.{first_live};

use crate::letter::BookRows;
use crate::pruning::lesser;
use dest_queue::{FailCause, SlotState};
use row_store::QUEUES;

/// A message in the queue of a destination, with its state there.
#[derive(Clone, Copy, Debug, PartialEq, Eq)]
pub struct Front {
    /// Its number.
    pub number: u32,
    /// Its state at the destination: it waits or is in flight.
    pub state: SlotState,
}

/// A message that failed at a destination.
#[derive(Clone, Copy, Debug, PartialEq, Eq)]
pub struct Failure {
    /// Its number.
    pub number: u32,
    /// Why it failed.
    pub cause: FailCause,
}

/// The first message that is still to be delivered. It is the least at the front of a queue, so no row is searched.
pub(crate) fn first_queued<S: BookRows>(rows: &mut S) -> Option<u32>
    ensures first { (h : History) → RowsAgree h (S.rows rows.old) → result ≡ first_live h }
    ensures unchanged { S.rows rows.new ≡ S.rows rows.old }
{
    let mut first = None;
    for d in 0..QUEUES {
        first = lesser(first, rows.front(d));
    }
    first
}

/// Whether a book is tight that holds `held` entries, owes `owed` more and may hold `max`: more than three quarters are
/// held or owed, and an eighth at least is held, so that folding makes room.
pub fn is_tight(held: usize, owed: u32, max: u32) -> bool
    requires { held + owed ≤ max }
    ensures { result ≡ (nat_lt (3 * max) (4 * (held + owed)) && not (nat_lt (8 * held) max)) }
{
    let held = held as u64;
    let max = u64::from(max);
    4 * (held + u64::from(owed)) > 3 * max && 8 * held >= max
}
