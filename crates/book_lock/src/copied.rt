//! Changes as a journal copies them.

ghost use Rattle.std.specs.Prelude.{◌≡◌, ◌≤◌, ◌-◌, IfOk, drop, map};
ghost use Rattle.book_lock.specs.declared.log_entry.LogEntry.TheVariants.{Booked};
ghost use Rattle.book_lock.specs.Journal.{change_copied};

use book_core::{Book, BookRows, DeployedPlan, Entry, Ticket, Told};
use dest_queue::{Outcome, SlotState};
use hl7_head::Moment;
use judge_core::Text;
use std::alloc::{AllocError, Global};
use std::sync::Arc;

/// A copy of a change of the book: of an entry, with which it shares the text or the plan, or of a pruning.
#[derive(Drop)]
pub enum Copied {
    /// A text arrived over a connection, on a channel, and was answered.
    Arrival {
        conn: u32,
        channel: u32,
        raw: Text,
        told: Told,
    },
    /// The first message of a queue was taken.
    Take {
        ticket: Ticket,
        now: Moment,
    },
    /// An attempt was settled, which left its slot in this state.
    Settle {
        outcome: Outcome,
        ticket: Ticket,
        now: Moment,
        state: SlotState,
    },
    /// A message was cancelled among the destinations of a mask, where it waited: bit d of `mask` is set for each such destination d.
    Cancel {
        number: u32,
        among: u32,
        mask: u32,
    },
    /// A plan was deployed.
    Deploy {
        plan: DeployedPlan,
    },
    /// The messages numbered below `before` were forgotten, and all entries folded.
    Prune {
        before: u32,
    },
}

/// A copy of an entry.
///
/// # Errors
///
/// Where its text or its plan has more owners than are counted.
pub fn copy_of(entry: &Entry) -> Result<Copied, AllocError>
    ensures { IfOk result (λ copied. change_copied copied ≡ Booked entry.now) }
{
    let copied = match entry {
        Entry::Arrival {
            conn,
            channel,
            raw,
            told,
        } => Copied::Arrival {
            conn: *conn,
            channel: *channel,
            raw: raw.share()?,
            told: *told,
        },
        Entry::Take { ticket, now } => Copied::Take {
            ticket: *ticket,
            now: *now,
        },
        Entry::Settle {
            outcome,
            ticket,
            now,
            state,
        } => Copied::Settle {
            outcome: *outcome,
            ticket: *ticket,
            now: *now,
            state: state.get(),
        },
        Entry::Cancel {
            number,
            among,
            mask,
        } => Copied::Cancel {
            number: *number,
            among: *among,
            mask: *mask,
        },
        Entry::Deploy { plan } => Copied::Deploy {
            plan: DeployedPlan::new(Arc::try_clone(plan.plan())?),
        },
    };
    Ok(copied)
}

/// Copies of the entries of a book from this index on.
///
/// # Errors
///
/// Where memory is refused.
pub fn copies_since<S: BookRows>(
    alloc: Global,
    book: &Book<S>,
    from: usize,
) -> Result<Vec<Copied>, AllocError>
    requires { book.now.opening.places ≤ from }
    ensures { IfOk result (λ copies. map change_copied copies.items
        ≡ map Booked (drop (from - book.now.opening.places) book.now.entries)) }
{
    let mut copies = Vec::new(alloc);
    let end = book.len();
    let _first = book.first_place();
    for place in from..end {
        let Some(entry) = book.entry(place) else {
            unreachable!()
        };
        copies.push(copy_of(entry)?)?;
    }
    Ok(copies)
}
