//! A new store with its book, and messages for it.

ghost use Rattle.std.specs.Prelude.{IfOk, IfSome, IsTrue};
ghost use Rattle.judge_core.specs.Judging.{is_bookable};
ghost use Rattle.event_store.specs.Records.{AreDurable, records_in};

use book_core::{Book, EVENTS_MAX, Outbound, Receipt};
use book_lock::{Desk, Shared, Sharing};
use book_recovery::{NewFile, begin_file};
use dest_queue::Queued;
use event_store::{Columns, EventStore, StoredRecord, TABLE_SQL};
use judge_core::{Judged, fits_block, judge};
use plan_text::Plan;
use record_list::RecordList;
use sqlite_trees::memory::MemStore;
use sqlite_trees::schema::Object;
use sqlite_trees::store::{Shape, Store};
use std::alloc::Global;
use std::hash::RandomState;
use std::sync::{Arc, Wait};
use std::test::Fail;

/// The rows of the tests' books.
pub type Rows = RecordList<Queued<Outbound>>;

/// A plan of one channel with one destination.
const PLAN: &str = "[[destination]]\nname = \"LAB\"\naddress = \"127.0.0.1:6661\"\n\n\
    [[channel]]\nname = \"ADT\"\nlisten = \"127.0.0.1:6660\"\ntypes = [\"ADT\"]\nprocessing = [\"P\"]\n\
    versions = [\"2.5.1\"]\n[[channel.route]]\nto = \"LAB\"\n";

/// A message that the channel takes.
const MESSAGE: &str =
    "MSH|^~\\&|REG|HOSP|ENG|HUB|20231114221300||ADT^A01^ADT_A01|M1|P|2.5.1\rPID|1||77^^^H\r";

/// What the row of a header says to people.
const COLUMNS: Columns<'static> = Columns {
    at: 1_700_000_000_000,
    peer: "",
    kind: "header",
    channel: "",
    number: 0,
    control_id: b"",
    destination: "",
    outcome: "",
};

/// The plan.
fn plan(alloc: Global) -> Result<Arc<Plan>, Fail> {
    let Ok(plan) = Plan::read(alloc, PLAN.as_bytes()) else {
        return Err("no plan".into());
    };
    Ok(Arc::new(alloc, plan)?)
}

/// A new file of the plan, and its book.
pub(crate) fn new_file(rt: &HostRuntime) -> Result<NewFile<Rows>, Fail> {
    let hasher = RandomState::new(rt)?;
    let plan = plan(rt.alloc())?;
    Ok(begin_file::<Rows>(rt.alloc(), plan, EVENTS_MAX, "1.2.3", hasher)?)
}

/// An empty store in memory.
pub(crate) fn store_in_memory(alloc: Global) -> Result<EventStore<MemStore>, Fail> {
    let table = Object {
        shape: Shape::Table,
        kind: "table",
        name: "event",
        table: "event",
        reals: 0,
        sql: Some(TABLE_SQL),
    };
    let store = MemStore::new(alloc, &[table])?;
    match EventStore::open(alloc, 1, store) {
        Ok((events, _)) => Ok(events),
        Err(_) => Err("not opened".into()),
    }
}

/// Begins a store with the row of a header.
pub(crate) fn begun<S: Store + Drop>(
    mut events: EventStore<S>,
    header: &[u8],
) -> Result<EventStore<S>, Fail>
    ensures { IfOk result (λ e. AreDurable (S.Store.view e.store) (S.Store.recovers e.store)
        (records_in (S.Store.view e.store).trees)) }
{
    events.append(header, &COLUMNS)?;
    events.commit()?;
    Ok(events)
}

/// A message judged by a plan. None where memory is refused.
fn judged(alloc: Global, plan: &Arc<Plan>) -> Option<Judged>
    ensures bookable { IfSome result (λ judged. IsTrue (is_bookable judged.raw)) }
{
    let raw = Vec::from_slice(alloc, MESSAGE.as_bytes()).ok()?;
    if plan.channels() == 0 || !fits_block(&raw) {
        return None;
    }
    let judged = judge(alloc, plan, 0, raw).ok()?;
    if judged.bookable() {
        Some(judged)
    } else {
        None
    }
}

/// Books the message at a desk, by a connection. None where it is not booked.
pub(crate) fn bring<A: Sharing, H: Wait>(
    rt: &H,
    alloc: Global,
    shared: &Shared<A, Rows>,
    desk: &mut Desk<A>,
    conn: u32,
) -> Option<Receipt> {
    let plan = shared.plan(rt).ok()?;
    let judged = judged(alloc, &plan)?;
    shared.arrive(rt, desk, conn, &judged).ok()
}
