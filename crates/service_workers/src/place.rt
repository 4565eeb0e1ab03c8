//! A place of a channel: it accepts a connection, serves it to its end, and accepts the next.

ghost use Rattle.std.specs.Prelude.{◌≡◌, ◌<◌, IsTrue, List, None};
ghost use Rattle.book_core.specs.declared.receipt.Receipt.{Receipt};
ghost use Rattle.conn_worker.specs.Arriving.{IsKnownIn};
ghost use Rattle.conn_worker.specs.Serving.{Serves};

use crate::at_place::AtPlace;
use crate::gate::{Accepted, ChannelStream, Gate};
use crate::half::{Half, Label, bound_writes};
use crate::hold::Hold;
use crate::kinds::KindCounts;
use crate::site::{Crew, Site};
use crate::stage::Stage;
use book_lock::{Desk, Sharing};
use conn_core::ConnectionId;
use conn_worker::{Counted, Running, ServeEnd, ServeReport, TURNS_MAX, serve_within, why_ended};
use log::{Log, info, log, warn};
use socket_options::keep_alive;
use std::alloc::AllocError;
use std::net::{Shutdown, SocketAddr, TcpStream};
use std::sync::{Arc, Mutex};
use std::time::Duration;
use std::{io, thread};

/// How long a place waits before it accepts again where the system lacked something for a connection, in milliseconds.
const RETRY_MILLIS: u64 = 100;

/// A place of a channel: its desk, and the stream that it serves.
#[derive(Drop)]
pub struct Place<A: Sharing> {
    desk: Mutex<Option<Desk<A>>>,
    hold: Hold,
}

impl<A: Sharing> Place<A> {
    /// A place with this desk.
    pub fn new(desk: Desk<A>) -> Self {
        Place {
            desk: Mutex::new(Some(desk)),
            hold: Hold::new(),
        }
    }

    /// The stream that it serves.
    pub fn hold(&self) -> &Hold {
        &self.hold
    }

    /// The desk of a place that has ended.
    pub fn into_desk(self) -> Option<Desk<A>> {
        let Place { desk, .. } = self;
        desk.into_inner()
    }
}

/// Sets the options of a connection's stream: keepalive, and limits on waiting. Where the system refuses one of them, the
/// connection is served without it.
fn prepare(stream: &TcpStream, idle: u32) {
    let _ = stream.set_nodelay(true);
    let _ = keep_alive(stream);
    let _ = bound_writes(stream);
    if idle > 0 {
        let _ = stream.set_read_timeout(Some(Duration::from_secs(u64::from(idle))));
    }
}

/// The outcome of serving a connection.
#[derive(Drop)]
struct Served {
    report: ServeReport<KindCounts>,
    /// How many bytes were received.
    bytes: u64,
}

/// Serves a connection by its halves, on the channel of the gate that accepted it.
fn serve_halves<A: Sharing, H: Crew>(
    line: &ConnectionId,
    book: &mut AtPlace<'_, '_, A, H>,
    reader: &mut Counted<Half<'_, H>>,
    writer: &mut Counted<Half<'_, H>>,
    clock: &mut Running<'_, H>,
) -> ServeReport<KindCounts>
    requires known { line.now.channel < A.channels }
    requires accepted { reader.old.inner.channel ≡ line.now.channel }
    ensures { (receipts : List Receipt)
        × Serves (IsKnownIn A.opening book.new.desk.now.seat.seen reader.old.inner.channel)
        line.now.conn reader.old.inner.channel
        None None None None receipts result }
{
    serve_within(line, book, reader, writer, clock, TURNS_MAX)
}

/// Serves a connection to its end, and ends it in order.
///
/// # Errors
///
/// Where memory is refused for its stream.
fn serve_stream<A: Sharing, H: Crew>(
    site: &Site<'_, A, H>,
    hold: &Hold,
    desk: &mut Desk<A>,
    accepted: Accepted,
    label: Label<'_>,
) -> Result<Served, AllocError>
    requires { accepted.channel < A.channels }
{
    prepare(&accepted.stream, site.idle);
    let shared = accepted.share(site.alloc)?;
    let mut reader = Counted::new(site.half(&shared, label)?);
    let mut writer = Counted::new(site.half(&shared, label)?);
    let ChannelStream { stream, channel } = shared;
    let link = Arc::try_clone(&stream)?;
    hold.put(site.rt, Some(stream));
    // A stop that began before the stream was put there didn't find it.
    if site.stage() != Stage::Open {
        hold.shut(site.rt, Shutdown::Read);
    }
    let line = ConnectionId {
        alloc: site.alloc,
        conn: label.connection,
        channel,
    };
    let mut book = AtPlace {
        site,
        desk: &mut *desk,
        stream: &link,
        peer: label.peer,
    };
    let report = serve_halves(
        &line,
        &mut book,
        &mut reader,
        &mut writer,
        &mut Running(site.rt),
    );
    writer.into_inner().drain();
    hold.put(site.rt, None);
    Ok(Served {
        report,
        bytes: reader.into_inner().received(),
    })
}

/// Logs that bytes were received over a connection, and no whole block among them.
fn log_unframed<H: Log>(rt: &H, label: Label<'_>, served: &Served) {
    let Served { report, bytes } = served;
    let blocks = [
        report.receipts.total(),
        report.unbooked,
        report.unreadable,
        report.strays,
        report.breaks,
    ];
    if *bytes > 0 && blocks.iter().all(|count| *count == 0) {
        let Label {
            channel,
            connection,
            peer,
        } = label;
        let bytes = *bytes;
        warn!(rt; channel, connection, peer:% = peer, bytes; "no whole block was received: a block is 0x0B, the message, 0x1C and 0x0D");
    }
}

/// Logs how many blocks without a message were received over a connection that ended, where there were any.
fn log_blocks<H: Log>(rt: &H, label: Label<'_>, report: &ServeReport<KindCounts>) {
    let ServeReport {
        unreadable,
        strays,
        breaks,
        ..
    } = *report;
    if unreadable > 0 || strays > 0 || breaks > 0 {
        let Label {
            channel,
            connection,
            ..
        } = label;
        info!(rt; channel, connection, unreadable, strays, breaks; "blocks without a message were received");
    }
}

/// Logs that a connection ended, why, and what became of the messages that were received over it. One that was read to its end ended
/// since the service stops, where it does.
fn log_end<H: Log>(rt: &H, label: Label<'_>, report: &ServeReport<KindCounts>, stops: bool) {
    let Label {
        channel,
        connection,
        ..
    } = label;
    let (level, why) = why_ended(report.end, stops);
    let KindCounts {
        accepted,
        filtered,
        refused,
        repeats,
    } = report.receipts;
    let unbooked = report.unbooked;
    log!(rt; level, channel, connection, accepted, filtered, refused, repeats, unbooked; "connection ended: {why}");
}

/// Logs that a connection ended, why, and what it brought. Returns whether it ended because memory was refused.
fn note_end<A: Sharing, H: Crew>(
    site: &Site<'_, A, H>,
    label: Label<'_>,
    served: Result<Served, AllocError>,
) -> bool {
    let rt = site.rt;
    let Label {
        channel,
        connection,
        ..
    } = label;
    let Ok(served) = served else {
        warn!(rt; channel, connection; "connection ended: out of memory");
        return true;
    };
    log_unframed(rt, label, &served);
    log_blocks(rt, label, &served.report);
    log_end(rt, label, &served.report, site.stage() != Stage::Open);
    served.report.end == ServeEnd::NoMemory
}

/// Serves a connection that was accepted, under a number of its own. Where no number is left, the connection is closed.
fn serve_accepted<A: Sharing, H: Crew>(
    site: &Site<'_, A, H>,
    gate: &Gate,
    hold: &Hold,
    desk: &mut Desk<A>,
    accepted: Accepted,
    peer: SocketAddr,
)
    requires known { gate.now.channel < A.channels }
    requires accepted { accepted.channel ≡ gate.now.channel }
{
    let channel = gate.name();
    let Some(connection) = site.admit() else {
        site.count_refused();
        warn!(site.rt; channel, peer:% = peer; "connection closed: no number is left for it");
        return;
    };
    info!(site.rt; channel, connection, peer:% = peer; "connection opened");
    let label = Label {
        channel,
        connection,
        peer,
    };
    site.count_opened(gate.channel());
    let served = serve_stream(site, hold, desk, accepted, label);
    site.count_ended(gate.channel());
    if note_end(site, label, served) {
        site.count_refused();
        thread::sleep(site.rt, Duration::from_millis(RETRY_MILLIS));
    }
}

/// Waits a moment after a failure to accept. The first of a row is logged.
fn wait_after_failure<A: Sharing, H: Crew>(site: &Site<'_, A, H>, gate: &Gate, error: &io::Error) {
    if gate.count_failure() == 0 {
        let channel = gate.name();
        warn!(site.rt; channel; "accepting a connection failed, trying again: {error}");
    }
    thread::sleep(site.rt, Duration::from_millis(RETRY_MILLIS));
}

/// Logs that connections are accepted again, where accepting failed before.
fn log_recovery<H: Log>(rt: &H, gate: &Gate) {
    let failures = gate.forget_failures();
    if failures > 0 {
        let channel = gate.name();
        info!(rt; channel, failures; "accepting connections again");
    }
}

/// Accepts one connection after another, and serves each to its end, until the service closes.
fn serve_all<A: Sharing, H: Crew>(
    site: &Site<'_, A, H>,
    gate: &Gate,
    hold: &Hold,
    desk: &mut Desk<A>,
)
    requires { gate.now.channel < A.channels }
{
    for _ in site.rt.forever() {
        if site.stage() != Stage::Open {
            return;
        }
        match gate.accept() {
            Ok((accepted, peer)) => {
                log_recovery(site.rt, gate);
                serve_accepted(site, gate, hold, desk, accepted, peer);
            }
            Err(error) => {
                if site.stage() == Stage::Open {
                    wait_after_failure(site, gate, &error);
                }
            }
        }
    }
}

/// Whether the channel of a gate is one of the plan in force, as it is of each gate that was opened for the plan.
fn is_planned<A: Sharing, H: Crew>(site: &Site<'_, A, H>, gate: &Gate) -> bool
    ensures { IsTrue result → gate.now.channel < A.channels }
{
    match site.shared.plan(site.rt) {
        Ok(plan) => gate.channel() < plan.channels(),
        Err(_) => false,
    }
}

/// Works at a place of the gate's channel until the service closes.
pub fn work_place<A: Sharing, H: Crew>(site: &Site<'_, A, H>, gate: &Gate, place: &Place<A>) {
    let taken = place.desk.lock(site.rt).take();
    if let Some(mut desk) = taken {
        if is_planned(site, gate) {
            serve_all(site, gate, &place.hold, &mut desk);
        }
        *place.desk.lock(site.rt) = Some(desk);
    }
    site.end_place();
}
