//! Books in which messages wait, and what is done with them once they are shared.

ghost use Rattle.std.specs.Prelude.{◌≡◌, ◌+◌, IfSome, IsTrue, length};
ghost use Rattle.std.specs.Arc.{arc_value};
ghost use Rattle.judge_core.specs.Judging.{is_bookable};
ghost use Rattle.event_log.specs.History.{next_place, plan_in_force};
ghost use Rattle.event_log.specs.Counting.{counted};

use book_core::{Book, BookRows, EVENTS_MAX, Outbound, Receipt, Told};
use book_lock::{
    Closed, Crowded, Desk, LogEntry, Opened, Shared, Sharing, Station, Tidied, Tidying,
};
use dest_queue::Queued;
use ghost_log::BlankLog;
use judge_core::{Judged, fits_block, judge};
use log::Log;
use plan_text::Plan;
use record_list::RecordList;
use std::alloc::Global;
use std::hash::RandomState;
use std::marker::Brand;
use std::sync::{Arc, Wait};
use std::test::Fail;

/// The rows of the tests' books.
pub type Rows = RecordList<Queued<Outbound>>;

/// A message with the control id M1, which requests accept acknowledgments (HL7 v2.5.1, 2.9.3).
pub const M1: &str =
    "MSH|^~\\&|REG|HOSP|ENG|HUB|20231114221300||ADT^A01^ADT_A01|M1|P|2.5.1|||AL|NE\rPID|1||77^^^H\r";

/// The same with the control id M2.
pub const M2: &str =
    "MSH|^~\\&|REG|HOSP|ENG|HUB|20231114221300||ADT^A01^ADT_A01|M2|P|2.5.1|||AL|NE\rPID|1||77^^^H\r";

/// An update of an outpatient with an identifier, which goes to B, C and D of four destinations.
pub const UPDATE: &str =
    "MSH|^~\\&|REG|HOSP|ENG|HUB|20231114221300||ADT^A08^ADT_A01|M15|P|2.5.1|||AL|NE\rPID|1||77\rPV1|1|O\r";

/// The built-in plan, with twenty seconds between two attempts.
pub const SLOWER: &str =
    "[[destination]]\nname = \"LAB\"\naddress = \"127.0.0.1:6661\"\ninterval = 20\n[[channel]]\nname = \"ADT\"\nlisten = \"127.0.0.1:6660\"\ntypes = [\"ADT\"]\nprocessing = [\"P\", \"T\"]\nversions = [\"2.5.1\"]\n[[channel.route]]\nto = \"LAB\"\n";

/// A plan of four destinations: inpatients go to A, outpatients to B, patients with an identifier to C, updates to D.
const FOUR: &str =
    "[[destination]]\nname = \"A\"\naddress = \"127.0.0.1:6671\"\n[[destination]]\nname = \"B\"\naddress = \"127.0.0.1:6672\"\n[[destination]]\nname = \"C\"\naddress = \"127.0.0.1:6673\"\n[[destination]]\nname = \"D\"\naddress = \"127.0.0.1:6674\"\n[[channel]]\nname = \"ADT\"\nlisten = \"127.0.0.1:6670\"\ntypes = [\"ADT\"]\nprocessing = [\"P\"]\nversions = [\"2.5.1\"]\n[[channel.route]]\nto = \"A\"\nfilter = { equals = [\"PV1-2\", \"I\"] }\n[[channel.route]]\nto = \"B\"\nfilter = { equals = [\"PV1-2\", \"O\"] }\n[[channel.route]]\nto = \"C\"\nfilter = { exists = \"PID-3.1\" }\n[[channel.route]]\nto = \"D\"\nfilter = { equals = [\"MSH-9.2\", \"A08\"] }\n";

/// A plan by its text. None where it is no plan, or memory is refused.
pub(crate) fn plan_of(alloc: Global, text: &str) -> Option<Arc<Plan>> {
    let plan = Plan::read(alloc, text.as_bytes()).ok()?;
    Arc::new(alloc, plan).ok()
}

/// The built-in plan, or that of four destinations. None where memory is refused.
pub(crate) fn plan(alloc: Global, four: bool) -> Option<Arc<Plan>> {
    match four {
        true => plan_of(alloc, FOUR),
        false => Arc::new(alloc, Plan::built_in(alloc).ok()?).ok(),
    }
}

/// A message on the first channel of a plan, judged by it. None where it is not bookable, or memory is refused.
pub(crate) fn judged(alloc: Global, plan: &Arc<Plan>, text: &str) -> Option<Judged>
    ensures bookable { IfSome result (λ judged. IsTrue (is_bookable judged.raw)) }
    ensures by_plan { IfSome result (λ judged. judged.plan ≡ arc_value plan.now) }
{
    let raw = Vec::from_slice(alloc, text.as_bytes()).ok()?;
    if plan.channels() == 0 || !fits_block(&raw) {
        return None;
    }
    let judged = judge(alloc, plan, 0, raw).ok()?;
    if judged.bookable() {
        Some(judged)
    } else {
        None
    }
}

/// An empty book of a plan with room for a number of entries.
pub(crate) fn empty_book<S: BookRows + Drop>(
    alloc: Global,
    hasher: RandomState,
    plan: Arc<Plan>,
    room: u32,
) -> Book<S> {
    let room = room.clamp(1, EVENTS_MAX);
    Book::new(alloc, plan, room, hasher)
}

/// Books a message by connection 0. Whether it is booked.
fn books<S: BookRows>(alloc: Global, book: &mut Book<S>, text: &str) -> bool {
    match judged(alloc, book.plan(), text) {
        Some(judged) => book.arrive(0, &judged).is_ok(),
        None => false,
    }
}

/// Books messages by connection 0. None where one is not booked.
fn fill<S: BookRows>(alloc: Global, book: &mut Book<S>, messages: &[&str]) -> Option<()> {
    for text in messages {
        if !books(alloc, book, text) {
            return None;
        }
    }
    Some(())
}

/// A book in which messages wait: whether its plan is that of four destinations or the built-in one, and for how many entries
/// it has room.
#[derive(Clone, Copy)]
pub struct Waiting {
    pub four: bool,
    pub room: u32,
    pub messages: &'static [&'static str],
}

/// A book of the built-in plan in which nothing waits.
pub const EMPTY: Waiting = Waiting {
    four: false,
    room: EVENTS_MAX,
    messages: &[],
};

/// A book in which messages wait.
pub(crate) fn filled<S: BookRows + Drop>(
    alloc: Global,
    hasher: RandomState,
    due: &Waiting,
) -> Result<Book<S>, Fail> {
    let Some(plan) = plan(alloc, due.four) else {
        return Err("a plan".into());
    };
    let mut book = empty_book(alloc, hasher, plan, due.room);
    match fill(alloc, &mut book, due.messages) {
        Some(()) => Ok(book),
        None => Err("a message".into()),
    }
}

/// A message judged by the plan in force of a shared book. None where it is not bookable, or memory is refused.
pub(crate) fn judged_now<A: Sharing, S: BookRows, H: Wait + Log>(
    rt: &H,
    alloc: Global,
    shared: &Shared<A, S>,
    text: &str,
) -> Option<Judged>
    ensures { IfSome result (λ judged. IsTrue (is_bookable judged.raw)) }
{
    let plan = shared.plan(rt).ok()?;
    judged(alloc, &plan, text)
}

/// Books a message by a connection. None where it is not booked.
pub(crate) fn bring<A: Sharing, S: BookRows, H: Wait + Log>(
    rt: &H,
    alloc: Global,
    shared: &Shared<A, S>,
    desk: &mut Desk<A>,
    conn: u32,
    text: &str,
) -> Option<Receipt> {
    let judged = judged_now(rt, alloc, shared, text)?;
    shared.arrive(rt, desk, conn, &judged).ok()
}

/// What is done with a shared book, and what is to come of it.
pub trait Task {
    /// What comes of it.
    type Answer: Drop;

    /// Does it, at the desks and the stations of the book. None where nothing comes of it.
    fn work<A: Sharing, S: BookRows, H: Wait + Log>(
        &self,
        rt: &H,
        alloc: Global,
        shared: &Shared<A, S>,
        desks: &mut [Desk<A>],
        stations: &mut [Station<A>],
    ) -> Option<Self::Answer>;

    /// Whether that, and the book after it, are as they are to be.
    fn is_right<S: BookRows>(&self, done: &Done<Self::Answer, S>) -> bool;
}

/// The result of a task, and the book after it.
#[derive(Drop)]
pub struct Done<X, S: BookRows> {
    pub answer: X,
    pub closed: Closed<S>,
}

/// Why a task was not done.
#[derive(Drop)]
pub enum Undone {
    /// The book was not shared, since memory was refused.
    NotShared,
    /// The task had no result.
    Nothing,
    /// A share was missing at the close.
    NotClosed,
}

/// Does a task with a book that was just shared, and closes it.
fn work_and_close<A: Sharing, S: BookRows + Drop, K: Task, H: Wait + Log>(
    rt: &H,
    alloc: Global,
    opened: Opened<A, S>,
    task: &K,
) -> Result<Done<K::Answer, S>, Undone> {
    let Opened {
        shared,
        mut desks,
        mut stations,
    } = opened;
    let Some(answer) = task.work(rt, alloc, &shared, &mut desks, &mut stations) else {
        return Err(Undone::Nothing);
    };
    match shared.close(desks, stations) {
        Ok(closed) => Ok(Done { answer, closed }),
        Err(_) => Err(Undone::NotClosed),
    }
}

/// Shares a book between a desk and a station, does a task with it, and closes it.
fn share_and_close<A: Sharing, S: BookRows + Drop, K: Task, H: Wait + Log>(
    rt: &H,
    alloc: Global,
    book: Book<S>,
    log: BlankLog<LogEntry>,
    task: &K,
) -> Result<Done<K::Answer, S>, Undone>
    requires opening { book ≡ A.opening }
    requires log { log.table.shared.table_id ≡ A.table }
    requires counts { counted book ≡ A.counts }
    requires first { next_place book ≡ A.first }
    requires channels { length (plan_in_force book).channels ≡ A.channels }
    requires seats { (A.desks ≡ 1) × (A.stations ≡ 1) }
{
    match Shared::<A, S>::new(alloc, book, 1, 1, log) {
        Ok(opened) => work_and_close(rt, alloc, opened, task),
        Err(_) => Err(Undone::NotShared),
    }
}

/// Does a task with a book that is shared between a desk and a station.
pub(crate) fn share<S: BookRows + Drop, K: Task, H: Wait + Log>(
    rt: &H,
    alloc: Global,
    book: Book<S>,
    task: &K,
) -> Result<Done<K::Answer, S>, Undone> {
    let Ok(log) = BlankLog::new(alloc) else {
        return Err(Undone::NotShared);
    };
    share_and_close::<Brand, S, K, H>(rt, alloc, book, log, task)
}

/// Whether a task with a shared book comes out as it is to.
pub(crate) fn is_done_right<S: BookRows + Drop, K: Task, H: Wait + Log>(
    rt: &H,
    alloc: Global,
    book: Book<S>,
    task: &K,
) -> bool {
    match share(rt, alloc, book, task) {
        Ok(done) => task.is_right(&done),
        Err(_) => false,
    }
}

/// Whether a task with a shared book, in which messages wait, comes out as it is to.
pub(crate) fn comes_out<K: Task, H: Wait + Log>(
    rt: &H,
    alloc: Global,
    hasher: RandomState,
    due: &Waiting,
    task: &K,
) -> Result<bool, Fail> {
    let book = filled::<Rows>(alloc, hasher, due)?;
    Ok(is_done_right(rt, alloc, book, task))
}

/// What an arrival came to that pruned a tight book first: its answer, if it was booked, and what was done about the book.
#[derive(Clone, Copy)]
pub struct Came {
    pub told: Option<Told>,
    pub tidying: Tidying,
}

impl Came {
    /// What it came to.
    pub fn of(tidied: Tidied) -> Came {
        let Tidied {
            receipt,
            tidying,
            ..
        } = tidied;
        let told = match receipt {
            Ok(receipt) => Some(receipt.told),
            Err(_) => None,
        };
        Came { told, tidying }
    }
}

/// Books a message by connection 7, with the last message kept where the book is pruned. None where memory is refused.
pub(crate) fn bring_tidy<A: Sharing, S: BookRows, H: Wait + Log>(
    rt: &H,
    alloc: Global,
    shared: &Shared<A, S>,
    desk: &mut Desk<A>,
    text: &str,
) -> Option<Result<Came, Crowded>> {
    let judged = judged_now(rt, alloc, shared, text)?;
    match shared.arrive_tidy(rt, desk, 7, &judged, 1) {
        Ok(tidied) => Some(Ok(Came::of(tidied))),
        Err(crowded) => Some(Err(crowded)),
    }
}
