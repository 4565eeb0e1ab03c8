//! Opening the doors of the channels, and serving the connections that come.

ghost use Rattle.std.specs.Prelude.{◌≡◌, ◌+◌, ◌<◌, vec_len};
ghost use Rattle.conn_worker.specs.Arriving.{BooksInLog};
ghost use Rattle.conn_worker.specs.Serving.{Serves};

use crate::connection_work::ConnectionWork;
use crate::door::{Door, DoorFault, Incoming};
use crate::loan::TakeCell;
use crate::site::Context;
use book_core::BookRows;
use book_lock::{Desk, Sharing};
use conn_worker::{Clock, Counted, ServeEnd, ServeReport, log_end, serve};
use log::{Log, info, warn};
use std::io::Write;
use std::sync::Wait;
use std::thread;
use std::thread::{Builder, Scope, Threads};

/// The stack of a thread that serves a connection, in bytes. The system gives memory to the part that is used alone.
const SERVING_STACK: usize = 262_144;

/// Whether it is the engine that ends a connection which serving ended so, while its sender may still be sending.
fn is_ended_here(end: ServeEnd) -> bool {
    matches!(end, ServeEnd::NoMemory | ServeEnd::TurnBound)
}

/// Serves a connection at a desk, on the channel that it was accepted for.
fn serve_accepted<A: Sharing, S: BookRows, C: Clock + Copy, H: Wait + Log, R: Incoming, W: Write>(
    site: &Context<'_, A, S, C, H>,
    desk: &mut Desk<A>,
    connection: u32,
    channel: u32,
    reader: &mut Counted<R>,
    writer: &mut Counted<W>,
) -> ServeReport
    requires known { channel < A.channels }
    requires accepted { R.channel reader.old.inner ≡ channel }

    // The messages read, their answers, and what was written, all on the channel of the reader.
    ensures served { Serves (λ _. ⊥) connection (R.channel reader.old.inner) (R.remaining reader.old.inner) (R.remaining reader.new.inner)
        (W.contents writer.old.inner) (W.contents writer.new.inner) result.receipts.items result }
    ensures booked { BooksInLog A.opening desk.old.seat desk.new.seat result.receipts.items }
    ensures counted { desk.new.made ≡ desk.old.made + vec_len result.receipts }
{
    let mut clock = site.clock;
    serve(
        site.rt,
        site.alloc,
        site.shared,
        desk,
        connection,
        channel,
        reader,
        writer,
        &mut clock,
    )
}

/// Serves a connection, and leaves the report with its work. Where there is a report already, or the connection was accepted for
/// another channel, nothing is done.
#[tactic(auto, using(crate::proofs::Reported::served_once))]
fn serve_connection<
    A: Sharing,
    S: BookRows,
    C: Clock + Copy,
    H: Wait + Log,
    R: Incoming + Drop,
    W: Write + Drop,
>(site: &Context<'_, A, S, C, H>, place: &TakeCell<ConnectionWork<A>>, reader: R, writer: W) {
    let Some(work) = place.take(site.rt) else {
        return;
    };
    if work.report.is_some() {
        place.give_back(site.rt, work);
        return;
    }
    if reader.channel() != work.channel {
        place.give_back(site.rt, work);
        return;
    }
    let ConnectionWork {
        connection,
        channel,
        mut desk,
        ..
    } = work;
    let before = desk.made();
    let (mut reader, mut writer) = (Counted::new(reader), Counted::new(writer));
    let report = serve_accepted(
        site,
        &mut desk,
        connection,
        channel,
        &mut reader,
        &mut writer,
    );
    if is_ended_here(report.end) {
        reader.into_inner().drain();
    }
    let booked = report.receipts.len() as u64;
    log_end(
        site.rt,
        site.channel_name(channel),
        connection,
        booked,
        &report,
        false,
    );
    place.give_back(
        site.rt,
        ConnectionWork {
            connection,
            channel,
            before,
            desk,
            report: Some(report),
        },
    );
}

/// Starts a thread that serves a connection. Returns whether it was started.
fn start_serving<
    's,
    'x: 's,
    E: 's,
    A: Sharing + Send + Sync + 's,
    S: BookRows + Send + 's,
    C: Clock + Copy + Sync + 's,
    H: Wait + Log + Sync + 's,
    R: Incoming + Send + Drop + 's,
    W: Write + Send + Drop + 's,
>(
    scope: &Scope<'s, E>,
    site: &'s Context<'x, A, S, C, H>,
    channel: u32,
    place: &'s TakeCell<ConnectionWork<A>>,
    reader: R,
    writer: W,
) -> bool {
    let started = Builder::new()
        .stack_size(SERVING_STACK)
        .spawn_scoped(scope, move || serve_connection(site, place, reader, writer))
        .is_ok();
    if !started {
        site.stop();
        warn!(site.rt; channel = site.channel_name(channel); "no thread for a connection, no further one is taken");
    }
    started
}

/// Waits at a door for the next connection, and starts to serve it. Returns whether there may be one more.
fn admit<
    's,
    'x: 's,
    E: 's,
    A: Sharing + Send + Sync + 's,
    S: BookRows + Send + 's,
    C: Clock + Copy + Sync + 's,
    H: Wait + Log + Sync + 's,
    R: Incoming + Send + Drop + 's,
    W: Write + Send + Drop + 's,
    D: Door<Reader = R, Writer = W>,
>(
    scope: &Scope<'s, E>,
    site: &'s Context<'x, A, S, C, H>,
    channel: u32,
    door: &mut D,
    place: &'s TakeCell<ConnectionWork<A>>,
) -> bool {
    if site.is_stopped() {
        return false;
    }
    match door.open() {
        Ok((reader, writer)) => !site.is_stopped()
            && start_serving(scope, site, channel, place, reader, writer),
        Err(DoorFault::Device) => false,
        Err(DoorFault::NoMemory) => {
            site.stop();
            false
        }
    }
}

/// Logs that few of a channel's connections are left, where `taken` of `all` is the first of the last tenth, and that none
/// is.
fn log_taken<H: Log>(rt: &H, channel: &str, taken: usize, all: usize) {
    let left = all.saturating_sub(taken);
    if left == 0 {
        info!(rt; channel, taken; "all connections of the channel are taken, its listener is closed");
    } else if left == all / 10 {
        warn!(rt; channel, taken, left; "few connections of the channel are left");
    }
}

/// Opens a door for one connection after another, and starts to serve each. A door that fails is not
/// opened again. Then it is closed.
fn admit_all<
    's,
    'x: 's,
    E: 's,
    A: Sharing + Send + Sync + 's,
    S: BookRows + Send + 's,
    C: Clock + Copy + Sync + 's,
    H: Wait + Log + Sync + 's,
    R: Incoming + Send + Drop + 's,
    W: Write + Send + Drop + 's,
    D: Door<Reader = R, Writer = W>,
>(
    scope: &Scope<'s, E>,
    site: &'s Context<'x, A, S, C, H>,
    channel: u32,
    connections: &'s [TakeCell<ConnectionWork<A>>],
    door: &mut D,
) {
    for (before, place) in connections.iter().enumerate() {
        if !admit(scope, site, channel, door, place) {
            break;
        }
        log_taken(
            site.rt,
            site.channel_name(channel),
            before.saturating_add(1),
            connections.len(),
        );
    }
    door.close();
}

/// Opens a door for one connection after another, and serves each on a thread of its own. It returns once all that
/// were accepted are served.
fn open_all<
    'y,
    'x: 'y,
    A: Sharing + Send + Sync,
    S: BookRows + Send,
    C: Clock + Copy + Sync,
    H: Wait + Threads + Log + Sync,
    R: Incoming + Send + Drop,
    W: Write + Send + Drop,
    D: Door<Reader = R, Writer = W>,
>(
    site: &'y Context<'x, A, S, C, H>,
    channel: u32,
    connections: &'y [TakeCell<ConnectionWork<A>>],
    door: &'y mut D,
) {
    thread::scope(
        thread::scope_env(),
        site.rt,
        |scope| admit_all(scope, site, channel, connections, door),
    );
}

/// Takes a channel's door, and opens it for all connections of the channel.
fn work_door<
    A: Sharing + Send + Sync,
    S: BookRows + Send,
    C: Clock + Copy + Sync,
    H: Wait + Threads + Log + Sync,
    R: Incoming + Send + Drop,
    W: Write + Send + Drop,
    D: Door<Reader = R, Writer = W> + Drop,
>(site: &Context<'_, A, S, C, H>, inlet: &ChannelWork<A, D>) {
    let Some(mut door) = inlet.door.take(site.rt) else {
        return;
    };
    open_all(&*site, inlet.channel, &inlet.connections, &mut door);
    inlet.door.give_back(site.rt, door);
}

/// The work of a channel: its index in the plan, its door, and the connections that the door is opened for.
#[derive(Drop)]
pub struct ChannelWork<A: Sharing, D> {
    pub channel: u32,
    pub door: TakeCell<D>,
    pub connections: Vec<TakeCell<ConnectionWork<A>>>,
}

/// Starts a thread that opens a channel's door. Returns whether it was started.
fn start_opening<
    's,
    'x: 's,
    E: 's,
    A: Sharing + Send + Sync + 's,
    S: BookRows + Send + 's,
    C: Clock + Copy + Sync + 's,
    H: Wait + Threads + Log + Sync + 's,
    R: Incoming + Send + Drop + 's,
    W: Write + Send + Drop + 's,
    D: Door<Reader = R, Writer = W> + Send + Drop + 's,
>(scope: &Scope<'s, E>, site: &'s Context<'x, A, S, C, H>, inlet: &'s ChannelWork<A, D>) -> bool {
    let started = scope.spawn(move || work_door(site, inlet)).is_ok();
    if !started {
        site.stop();
        warn!(site.rt; channel = site.channel_name(inlet.channel); "no thread for the channel, it takes no connection");
    }
    started
}

/// Starts to open the doors of all channels, until a thread is refused.
fn start_opening_all<
    's,
    'x: 's,
    E: 's,
    A: Sharing + Send + Sync + 's,
    S: BookRows + Send + 's,
    C: Clock + Copy + Sync + 's,
    H: Wait + Threads + Log + Sync + 's,
    R: Incoming + Send + Drop + 's,
    W: Write + Send + Drop + 's,
    D: Door<Reader = R, Writer = W> + Send + Drop + 's,
>(scope: &Scope<'s, E>, site: &'s Context<'x, A, S, C, H>, inlets: &'s [ChannelWork<A, D>]) {
    for inlet in inlets {
        if site.is_stopped() || !start_opening(scope, site, inlet) {
            break;
        }
    }
}

/// Opens the doors of all channels, each on a thread of its own. It returns once all accepted connections are served.
pub(crate) fn open_doors<
    'y,
    'x: 'y,
    A: Sharing + Send + Sync,
    S: BookRows + Send,
    C: Clock + Copy + Sync,
    H: Wait + Threads + Log + Sync,
    R: Incoming + Send + Drop,
    W: Write + Send + Drop,
    D: Door<Reader = R, Writer = W> + Send + Drop,
>(site: &'y Context<'x, A, S, C, H>, inlets: &'y [ChannelWork<A, D>]) {
    thread::scope(
        thread::scope_env(),
        site.rt,
        |scope| start_opening_all(scope, site, inlets),
    );
}
