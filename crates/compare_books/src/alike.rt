//! Whether books and the sequential engine are alike.

ghost use Rattle.std.specs.Prelude.{◌<◌};

use book_core::{Book, Job, Outbound, PruneRefusal, TakeRefusal};
use dest_queue::{Outcome, Queued, SlotState};
use event_log::{Entry, Ticket, Told};
use hl7_head::Moment;
use plan_text::Plan;
use record_list::RecordList;
use row_store::QUEUES;
use sequential_book::SequentialBook;
use stat_count::Counts;
use std::alloc::AllocError;
use std::sync::Arc;

/// The book of the engines, with the rows of the program.
pub type Engine = Book<RecordList<Queued<Outbound>>>;

/// What a book shows: a slot, the length of a queue, the number of entries, the statistics and the plan in force.
#[derive(Drop)]
pub struct View<'a> {
    pub state: Option<SlotState>,
    pub waiting: u64,
    pub len: usize,
    pub counts: &'a Counts,
    pub plan: &'a Arc<Plan>,
}

/// What a book shows of a message at a destination, of the queue there, and of all of it.
pub(crate) fn view_of(book: &Engine, number: u32, d: u32) -> View<'_> {
    View {
        state: book.status(number, d),
        waiting: book.queue_len(d),
        len: book.len(),
        counts: book.counts(),
        plan: book.plan(),
    }
}

/// Whether a destination and a channel are counted alike.
pub(crate) fn is_counted_alike(one: &Counts, other: &Counts, d: u32) -> bool
    requires { d < 32 }
{
    one.destination(d) == other.destination(d) && one.channel(d / 2) == other.channel(d / 2)
}

/// Whether a slot, a queue and the number of entries are the same in a book and in the sequential engine.
///
/// # Errors
///
/// Where memory is refused.
pub(crate) fn is_alike(
    book: &Engine,
    other: &SequentialBook,
    number: u32,
    d: u32,
) -> Result<bool, AllocError> {
    let (state, waiting) = (other.status(number, d)?, other.queue_len(d)?);
    let shown = view_of(book, number, d);
    Ok(
        shown.state == state
            && shown.waiting == waiting as u64
            && shown.len == other.entries().len(),
    )
}

/// Whether two takes gave jobs that send the same, or were refused for the same reason.
pub(crate) fn is_same_take(
    one: &Result<Job, TakeRefusal>,
    other: &Result<Job, TakeRefusal>,
) -> bool {
    match (one, other) {
        (Ok(one), Ok(other)) => is_same_job(one, other),
        (Err(one), Err(other)) => one == other,
        _ => false,
    }
}

/// Whether two jobs are of the same attempt, with the same control id and text, and both or neither answered.
fn is_same_job(one: &Job, other: &Job) -> bool {
    one.ticket == other.ticket
        && one.control_id.as_slice() == other.control_id.as_slice()
        && one.payload.as_slice() == other.payload.as_slice()
        && one.ack == other.ack
}

/// Why the messages below a number may not be forgotten where those below `forgotten` are, by a book that keeps all. None that
/// is forgotten was live.
pub(crate) fn prune_refusal(book: &Engine, forgotten: u32, before: u32) -> Option<PruneRefusal> {
    if before > book.message_count() {
        return Some(PruneRefusal::NoSuchMessage);
    }
    let live = (forgotten..before).find(|number| is_live(book, *number));
    live.map(PruneRefusal::StillLive)
}

/// Whether a message is still to be delivered.
fn is_live(book: &Engine, number: u32) -> bool {
    (0..QUEUES).any(|d| {
        matches!(
            book.status(number, d),
            Some(SlotState::Waiting { .. } | SlotState::InFlight { .. })
        )
    })
}

/// Whether two entries are the same.
pub(crate) fn is_same(one: &Entry, other: &Entry) -> bool {
    match one {
        Entry::Arrival {
            conn,
            channel,
            raw,
            told,
        } => is_arrival(other, (*conn, *channel, *told), raw.as_slice()),
        Entry::Take { ticket, now } => {
            matches!(other, Entry::Take { ticket: taken, now: at } if ticket == taken && now == at)
        }
        Entry::Settle {
            outcome,
            ticket,
            now,
            state,
        } => is_settlement(other, (*outcome, *ticket, *now, state.get())),
        Entry::Cancel {
            number,
            among,
            mask,
        } => is_cancellation(other, (*number, *among, *mask)),
        Entry::Deploy { plan } => {
            matches!(other, Entry::Deploy { plan: due } if plan.plan().same(due.plan()))
        }
    }
}

/// Whether an entry is the cancellation of this message, among these destinations and at these.
fn is_cancellation(entry: &Entry, due: (u32, u32, u32)) -> bool {
    match entry {
        Entry::Cancel {
            number,
            among,
            mask,
        } => (*number, *among, *mask) == due,
        _ => false,
    }
}

/// Whether an entry is the arrival of these bytes, from there and so answered.
fn is_arrival(entry: &Entry, due: (u32, u32, Told), bytes: &[u8]) -> bool {
    let Entry::Arrival {
        conn,
        channel,
        raw,
        told,
    } = entry
    else {
        return false;
    };
    (*conn, *channel, *told) == due && raw.as_slice() == bytes
}

/// Whether an entry is this settlement.
fn is_settlement(entry: &Entry, due: (Outcome, Ticket, Moment, SlotState)) -> bool {
    let Entry::Settle {
        outcome,
        ticket,
        now,
        state,
    } = entry
    else {
        return false;
    };
    (*outcome, *ticket, *now, state.get()) == due
}
