//! Calls of a shared book where one request for memory may be refused, as `rt try --test --fail-alloc N` refuses the Nth. A
//! call that was refused leaves the statistics as they were, and is made again.

ghost use Rattle.std.specs.Prelude.{IsTrue};
ghost use Rattle.judge_core.specs.Judging.{is_bookable};

use crate::stage::{Done, M1, Rows, Task, Undone, empty_book, judged, plan_of, share};
use book_core::{
    Book, BookRows, CancelRefusal, DeployRefusal, EVENTS_MAX, NotBooked, PruneRefusal, Receipt,
    TakeRefusal, Ticket,
};
use book_lock::{Closed, Desk, Shared, Sharing, Station, audit};
use conn_worker::nearest;
use dest_queue::{Outcome, SlotState};
use judge_core::Judged;
use log::Log;
use plan_text::Plan;
use stat_count::{Counts, DestinationCounts};
use std::alloc::Global;
use std::hash::RandomState;
use std::slice;
use std::sync::{Arc, Wait};
use std::test::Fail;

/// A channel whose messages all go to each of three destinations.
const PLAN: &str =
    "[[destination]]\nname = \"A\"\naddress = \"127.0.0.1:6671\"\n[[destination]]\nname = \"B\"\naddress = \"127.0.0.1:6672\"\n[[destination]]\nname = \"C\"\naddress = \"127.0.0.1:6673\"\n[[channel]]\nname = \"ADT\"\nlisten = \"127.0.0.1:6670\"\ntypes = [\"ADT\"]\nprocessing = [\"P\"]\nversions = [\"2.5.1\"]\n[[channel.route]]\nto = \"A\"\n[[channel.route]]\nto = \"B\"\n[[channel.route]]\nto = \"C\"\n";

/// A call of a shared book.
#[derive(Clone, Copy)]
enum Call {
    /// The message comes by connection 0.
    Arrive,
    /// It is taken for a destination.
    Take(u32),
    /// Its first attempt there is settled, which leaves the slot in this state.
    Settle(u32, Outcome, SlotState),
    /// It is cancelled, which it is where it waits: at destinations 1 and 2.
    Cancel,
    /// An equal plan is deployed.
    Deploy,
    /// The message is forgotten.
    Prune,
}

/// A call of each kind. The message is delivered at destination 0, and sent again at 1.
const CALLS: [Call; 8] = [
    Call::Arrive,
    Call::Take(0),
    Call::Settle(0, Outcome::Delivered, SlotState::Delivered),
    Call::Take(1),
    Call::Settle(
        1,
        Outcome::Again,
        SlotState::Waiting {
            attempts: 1,
            due: 10,
        },
    ),
    Call::Cancel,
    Call::Deploy,
    Call::Prune,
];

/// What the calls are made with: a message that is judged by that plan, and an equal plan.
#[derive(Drop)]
struct Parts {
    message: Judged,
    deployed: Arc<Plan>,
    ghost bookable: { IsTrue (is_bookable message.raw) },
}

/// How a call was answered.
#[derive(Clone, Copy)]
enum Answer {
    /// As it is to be.
    Right,
    /// Memory was refused.
    Refused,
    /// Otherwise.
    Wrong,
}

/// The results of all calls: the receipt, how many were refused memory and made again, and the plan in force and the
/// statistics that were shown at the end.
#[derive(Drop)]
struct Answers {
    receipt: Option<Receipt>,
    refused: u32,
    told: Arc<Plan>,
    shown: Counts,
}

/// What calls are made with. None where memory was refused for it.
fn prepared_parts(alloc: Global, plan_in_force: &Arc<Plan>) -> Option<Parts> {
    let message = judged(alloc, plan_in_force, M1)?;
    let deployed = plan_of(alloc, PLAN)?;
    Some(Parts { message, deployed })
}

/// Right, where a call was answered as it is to be.
fn right_if(met: bool) -> Answer {
    if met { Answer::Right } else { Answer::Wrong }
}

/// The first attempt of message 0 at a destination.
fn first_attempt(destination: u32) -> Ticket {
    Ticket {
        number: 0,
        destination,
        attempt: 1,
    }
}

/// Books the message, and keeps its receipt.
fn arrive<A: Sharing, S: BookRows, H: Wait + Log>(
    rt: &H,
    shared: &Shared<A, S>,
    desk: &mut Desk<A>,
    message: &Judged,
    receipt: &mut Option<Receipt>,
) -> Answer
    requires { IsTrue (is_bookable message.now.raw) }
{
    match shared.arrive(rt, desk, 0, message) {
        Ok(made) => {
            *receipt = Some(made);
            Answer::Right
        }
        Err(NotBooked::NoMemory) => Answer::Refused,
        Err(_) => Answer::Wrong,
    }
}

/// Takes the front of queue `d` at the moment 0.
fn take<A: Sharing, S: BookRows, H: Wait + Log>(
    rt: &H,
    shared: &Shared<A, S>,
    station: &mut Station<A>,
    d: u32,
) -> Answer {
    match shared.take(rt, station, d, nearest(0)) {
        Ok(job) => right_if(job.ticket == first_attempt(d)),
        Err(TakeRefusal::NoMemory) => Answer::Refused,
        Err(_) => Answer::Wrong,
    }
}

/// Cancels message 0.
fn cancel<A: Sharing, S: BookRows, H: Wait + Log>(rt: &H, shared: &Shared<A, S>) -> Answer {
    match shared.cancel(rt, 0) {
        Ok(mask) => right_if(mask == 6),
        Err(CancelRefusal::NoMemory) => Answer::Refused,
        Err(_) => Answer::Wrong,
    }
}

/// Puts a plan in force.
fn deploy<A: Sharing, S: BookRows, H: Wait + Log>(
    rt: &H,
    shared: &Shared<A, S>,
    plan: &Arc<Plan>,
) -> Answer {
    let Ok(plan) = Arc::try_clone(plan) else {
        return Answer::Wrong;
    };
    match shared.deploy(rt, plan) {
        Ok(()) => Answer::Right,
        Err(DeployRefusal::NoMemory) => Answer::Refused,
        Err(_) => Answer::Wrong,
    }
}

/// Forgets message 0.
fn prune<A: Sharing, S: BookRows, H: Wait + Log>(rt: &H, shared: &Shared<A, S>) -> Answer {
    match shared.prune(rt, 1) {
        Ok(()) => Answer::Right,
        Err(PruneRefusal::NoMemory) => Answer::Refused,
        Err(_) => Answer::Wrong,
    }
}

/// Makes a call.
fn make<A: Sharing, S: BookRows, H: Wait + Log>(
    rt: &H,
    shared: &Shared<A, S>,
    desk: &mut Desk<A>,
    station: &mut Station<A>,
    parts: &Parts,
    receipt: &mut Option<Receipt>,
    call: Call,
) -> Answer {
    match call {
        Call::Arrive => arrive(rt, shared, desk, &parts.message, receipt),
        Call::Take(d) => take(rt, shared, station, d),
        Call::Settle(d, outcome, due) => {
            let ticket = first_attempt(d);
            right_if(shared.settle(rt, station, &ticket, outcome, nearest(0)) == Ok(due))
        }
        Call::Cancel => cancel(rt, shared),
        Call::Deploy => deploy(rt, shared, &parts.deployed),
        Call::Prune => prune(rt, shared),
    }
}

/// Makes a call, and makes it again where memory was refused. How often that was; none where the call was answered otherwise
/// than it is to be, or a refusal changed the statistics.
fn make_surely<A: Sharing, S: BookRows, H: Wait + Log>(
    rt: &H,
    shared: &Shared<A, S>,
    desk: &mut Desk<A>,
    station: &mut Station<A>,
    parts: &Parts,
    receipt: &mut Option<Receipt>,
    call: Call,
) -> Option<u32> {
    let before = shared.counts(rt, desk);
    match make(rt, shared, desk, station, parts, receipt, call) {
        Answer::Right => return Some(0),
        Answer::Refused => {}
        Answer::Wrong => return None,
    }
    if shared.counts(rt, desk) != before {
        return None;
    }
    match make(rt, shared, desk, station, parts, receipt, call) {
        Answer::Right => Some(1),
        Answer::Refused | Answer::Wrong => None,
    }
}

/// Makes all calls. How many were refused memory; none where one was answered otherwise than it is to be.
fn make_all<A: Sharing, S: BookRows, H: Wait + Log>(
    rt: &H,
    shared: &Shared<A, S>,
    desk: &mut Desk<A>,
    station: &mut Station<A>,
    parts: &Parts,
    receipt: &mut Option<Receipt>,
) -> Option<u32> {
    let mut refused = 0_u32;
    for call in CALLS {
        let times = make_surely(rt, shared, desk, station, parts, receipt, call)?;
        refused = refused.saturating_add(times);
    }
    Some(refused)
}

/// The results of all calls, with what is shown after them.
fn answers_of<A: Sharing, S: BookRows, H: Wait + Log>(
    rt: &H,
    shared: &Shared<A, S>,
    desk: &mut Desk<A>,
    receipt: Option<Receipt>,
    refused: u32,
) -> Option<Answers> {
    Some(Answers {
        receipt,
        refused,
        told: shared.plan(rt).ok()?,
        shown: shared.counts(rt, desk),
    })
}

/// What the statistics count at a destination with one attempt, or none, at which the message was delivered or failed.
fn ended(delivered: u64, attempts: u64) -> DestinationCounts {
    DestinationCounts {
        waiting: 0,
        inflight: 0,
        delivered,
        failed: if delivered == 0 { 1 } else { 0 },
        attempts,
    }
}

/// Whether the book has seven entries that are folded, and nothing of the message in its slots and queues.
fn is_folded<S: BookRows>(book: &Book<S>) -> bool {
    for d in 0..3 {
        if book.status(0, d).is_some() || book.queue_len(d) != 0 {
            return false;
        }
    }
    (book.first_place(), book.len()) == (7, 7)
}

/// Whether the statistics have what became of the message.
fn are_right(counts: &Counts) -> bool {
    counts.destination(0) == ended(1, 1)
        && counts.destination(1) == ended(0, 1)
        && counts.destination(2) == ended(0, 0)
}

/// Whether the receipt that is due is the message's.
fn is_due<S: BookRows>(receipt: &Option<Receipt>, closed: &Closed<S>) -> bool {
    match receipt {
        Some(receipt) => audit(closed, slice::from_ref(receipt)).is_ok(),
        None => false,
    }
}

impl Task for Parts {
    type Answer = Answers;

    /// Makes the calls. The plan and the statistics are shown with no further memory.
    fn work<A: Sharing, S: BookRows, H: Wait + Log>(
        &self,
        rt: &H,
        _: Global,
        shared: &Shared<A, S>,
        desks: &mut [Desk<A>],
        stations: &mut [Station<A>],
    ) -> Option<Answers> {
        let (desk, station) = (desks.first_mut()?, stations.first_mut()?);
        let mut receipt = None;
        let refused = make_all(rt, shared, desk, station, self, &mut receipt)?;
        answers_of(rt, shared, desk, receipt, refused)
    }

    /// Whether the book has what the calls did, each once: entries that are folded, what became of the message in the
    /// statistics, empty queues, and no receipt that is due.
    fn is_right<S: BookRows>(&self, done: &Done<Answers, S>) -> bool {
        let (answers, closed) = (&done.answer, &done.closed);
        let (book, counts) = (closed.book(), closed.book().counts());
        is_folded(book)
            && are_right(counts)
            && answers.shown == *counts
            && *answers.told == *self.deployed
            && **book.plan() == *self.deployed
            && is_due(&answers.receipt, closed)
            && audit(closed, &[]).is_ok()
    }
}

/// How the calls of a book ended.
#[derive(Clone, Copy)]
enum CallsEnd {
    /// There was no memory for the book or what calls of it are made with, or for sharing it.
    NotShared,
    /// A call was answered otherwise than it is to be, or a refusal changed the statistics.
    Wrong,
    /// As many calls were refused memory as are given, and were made again. Whether the book has what they did, each once.
    Made { refused: u32, once: bool },
}

/// Makes the calls of a book.
fn make_calls<S: BookRows + Drop, H: Wait + Log>(
    rt: &H,
    alloc: Global,
    book: Book<S>,
    parts: &Parts,
) -> CallsEnd {
    match share(rt, alloc, book, parts) {
        Ok(done) => CallsEnd::Made {
            refused: done.answer.refused,
            once: parts.is_right(&done),
        },
        Err(Undone::NotShared) => CallsEnd::NotShared,
        Err(_) => CallsEnd::Wrong,
    }
}

/// Makes the calls of an empty book.
fn end_of_calls<H: Wait + Log>(rt: &H, alloc: Global, hasher: RandomState) -> CallsEnd {
    let Some(plan) = plan_of(alloc, PLAN) else {
        return CallsEnd::NotShared;
    };
    let Some(parts) = prepared_parts(alloc, &plan) else {
        return CallsEnd::NotShared;
    };
    let book = empty_book::<Rows>(alloc, hasher, plan, EVENTS_MAX);
    make_calls(rt, alloc, book, &parts)
}

/// Whichever request is refused: the call that was refused changed nothing, and made again it is done.
#[test]
fn holds_where_memory_is_refused(rt: HostRuntime) -> Result<(), Fail> {
    match end_of_calls(&rt, rt.alloc(), RandomState::new(&rt)?) {
        CallsEnd::NotShared => {}
        CallsEnd::Wrong => return Err("a call".into()),
        CallsEnd::Made { refused, once } => assert!(rt; refused <= 1 && once),
    }
    Ok(())
}

/// With memory to spare no call is refused.
#[test]
fn all_is_done_with_memory_to_spare(rt: HostRuntime) -> Result<(), Fail> {
    match end_of_calls(&rt, rt.alloc(), RandomState::new(&rt)?) {
        CallsEnd::NotShared => return Err("memory".into()),
        CallsEnd::Wrong => return Err("a call".into()),
        CallsEnd::Made { refused, once } => assert!(rt; refused == 0 && once),
    }
    Ok(())
}
