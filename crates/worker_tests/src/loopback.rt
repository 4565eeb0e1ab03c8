//! Two senders with fifty messages each, which all go to both of two destinations, over sockets of
//! the loopback device.

ghost use Rattle.std.specs.Prelude.{IfSome};
ghost use Rattle.engine_workers.specs.inner.Order.{AreFrom};

use crate::crowd::{BLOCK, MESSAGES, acceptance, replies_to, stream_of};
use crate::runs::{Outcome, plan_of, run_on};
use delivery_worker::{FixedWay, TcpLink};
use engine_workers::TcpDoor;
use log::Log;
use plan_text::Plan;
use std::alloc::Global;
use std::hash::RandomState;
use std::io::{Read, Write};
use std::net::{Net, Shutdown, SocketAddr, TcpListener, TcpStream};
use std::sync::{Arc, Wait};
use std::test::Fail;
use std::thread::{JoinHandle, Threads};
use std::time::{Clock, Duration};
use std::{io, thread};

/// The most connections of a destination.
const CONNECTIONS: u32 = 8;

/// How long a read or a write of a sender or a destination may last, in seconds.
const SECONDS: u64 = 10;

/// A channel that listens where the system chooses, whose messages all go to both of the
/// destinations at these ports, once. None where memory is refused.
fn plan_for(alloc: Global, first: u16, second: u16) -> Option<Arc<Plan>> {
    let text = format!(in alloc;
        "[[destination]]\nname = \"A\"\naddress = \"127.0.0.1:{first}\"\nattempts = 1\n[[destination]]\nname = \"B\"\naddress = \"127.0.0.1:{second}\"\nattempts = 1\n[[channel]]\nname = \"ADT\"\nlisten = \"127.0.0.1:0\"\ntypes = [\"ADT\"]\nprocessing = [\"P\", \"T\"]\nversions = [\"2.5.1\"]\n[[channel.route]]\nto = \"A\"\n[[channel.route]]\nto = \"B\"\n"
    );
    plan_of(alloc, text.ok()?.as_str())
}

/// Bounds each read and write of a stream.
fn bound(stream: &TcpStream) -> io::Result<()> {
    let limit = Some(Duration::from_secs(SECONDS));
    stream.set_read_timeout(limit)?;
    stream.set_write_timeout(limit)
}

/// Accepts each message of a connection, and appends it to what was received. Whether there was
/// one, and each was accepted.
fn accept_messages(stream: &mut TcpStream, received: &mut Vec<u8>) -> io::Result<bool> {
    bound(stream)?;
    let mut block = [0; BLOCK];
    let mut came = false;
    for _ in 0..=2 * MESSAGES {
        if stream.read_exact(&mut block).is_err() {
            return Ok(came);
        }
        let Some(answer) = acceptance(*received.allocator(), &block) else {
            return Ok(false);
        };
        received.extend_from_slice(&block)?;
        stream.write_all(&answer)?;
        came = true;
    }
    Ok(false)
}

/// Accepts each message of each connection, up to one that brings none, and returns what was
/// received.
fn accept_all(alloc: Global, listener: TcpListener) -> Vec<u8> {
    let mut received = Vec::new(alloc);
    for _ in 0..CONNECTIONS {
        let Ok((mut stream, _)) = listener.accept() else {
            break;
        };
        if !matches!(accept_messages(&mut stream, &mut received), Ok(true)) {
            break;
        }
    }
    received
}

/// A destination on a thread of its own.
#[derive(Drop)]
struct Listening {
    address: SocketAddr,
    worker: JoinHandle<Vec<u8>>,
}

/// Starts a destination. None where a socket or a thread is refused.
fn listen<H: Net<Listener = TcpListener, Stream = TcpStream> + Threads>(
    rt: &H,
    alloc: Global,
) -> Option<Listening> {
    let listener = TcpListener::bind(rt, "127.0.0.1:0").ok()?;
    let address = listener.local_addr().ok()?;
    let worker = thread::spawn(rt, move || accept_all(alloc, listener)).ok()?;
    Some(Listening { address, worker })
}

/// Ends a destination by a connection that brings nothing, and returns what it received.
fn received_by<H: Net<Listener = TcpListener, Stream = TcpStream> + Threads>(
    rt: &H,
    destination: Listening,
) -> Vec<u8> {
    let Listening { address, worker } = destination;
    let _ = TcpStream::connect(rt, address);
    worker.join(rt)
}

/// Sends the messages of a sender, and that there are no more.
fn send_all<H: Net<Listener = TcpListener, Stream = TcpStream>>(
    rt: &H,
    address: SocketAddr,
    messages: &[u8],
) -> io::Result<TcpStream> {
    let mut sender = TcpStream::connect(rt, address)?;
    bound(&sender)?;
    sender.write_all(messages)?;
    sender.shutdown(Shutdown::Write)?;
    Ok(sender)
}

/// The links of both destinations. None where memory is refused.
fn links_of<'a, H: Net<Listener = TcpListener, Stream = TcpStream> + Clock + Log>(
    rt: &'a H,
    alloc: Global,
    plan: &'a Plan,
) -> Option<Vec<TcpLink<'a, H, FixedWay<'a>>>>
    ensures { IfSome result (λ links. AreFrom (λ link. link.leads_to) 0 links.items) }
{
    let mut links = Vec::new(alloc);
    links
        .push(TcpLink::new(rt, FixedWay { plan, index: 0 }))
        .ok()?;
    links
        .push(TcpLink::new(rt, FixedWay { plan, index: 1 }))
        .ok()?;
    Some(links)
}

/// Runs the workers of a book of a plan behind a door. None where memory is refused.
fn run_behind<
    'a,
    H: Wait + Threads + Clock + Log + Sync + Net<Listener = TcpListener, Stream = TcpStream>,
>(
    rt: &'a H,
    alloc: Global,
    plan: &'a Arc<Plan>,
    hasher: RandomState,
    door: TcpDoor<'a, H>,
) -> Option<Outcome> {
    let links = links_of(rt, alloc, plan)?;
    let mut doors = Vec::new(alloc);
    doors.push(door).ok()?;
    let (plan, each) = (Arc::try_clone(plan).ok()?, u64::from(MESSAGES));
    Some(run_on(rt, alloc, plan, hasher, doors, links, each))
}

/// Whether a sender was sent the replies to its messages, and nothing else.
fn is_told(alloc: Global, sender: &mut TcpStream, number: u32) -> bool {
    let mut told = Vec::new(alloc);
    let (read, due) = (sender.read_to_end(&mut told), replies_to(alloc, number));
    read.is_ok() && matches!(due, Ok(due) if told == due)
}

/// Whether bytes are the blocks of both streams, each stream's in its order.
fn has_both(bytes: &[u8], streams: &[Vec<u8>; 2]) -> bool {
    let (mut first, mut second) = (streams[0].as_slice(), streams[1].as_slice());
    for block in bytes.chunks(BLOCK) {
        if let Some(rest) = first.strip_prefix(block) {
            first = rest;
        } else if let Some(rest) = second.strip_prefix(block) {
            second = rest;
        } else {
            return false;
        }
    }
    first.is_empty() && second.is_empty()
}

/// Both senders send their messages.
fn send_both<H: Net<Listener = TcpListener, Stream = TcpStream>>(
    rt: &H,
    address: SocketAddr,
    streams: &[Vec<u8>; 2],
) -> io::Result<[TcpStream; 2]> {
    let first = send_all(rt, address, &streams[0])?;
    Ok([first, send_all(rt, address, &streams[1])?])
}

/// Whether both senders are answered, and the run of the workers behind a door comes out as it has
/// to.
fn comes_out<
    H: Wait + Threads + Clock + Log + Sync + Net<Listener = TcpListener, Stream = TcpStream>,
>(
    rt: &H,
    alloc: Global,
    plan: &Arc<Plan>,
    hasher: RandomState,
    streams: &[Vec<u8>; 2],
) -> io::Result<bool> {
    let Some(channel) = plan.channel(0) else {
        return Ok(false);
    };
    let door = TcpDoor::bind(rt, alloc, channel, 0, 0)?;
    let [mut first, mut second] = send_both(rt, door.address()?, streams)?;
    let ended = run_behind(rt, alloc, plan, hasher, door);
    let told = is_told(alloc, &mut first, 0) && is_told(alloc, &mut second, 1);
    Ok(told && matches!(ended, Some(Outcome::Right)))
}

/// All messages of both senders are acknowledged and booked once, and received by both destinations
/// once and in the order of each sender, and the audit finds nothing wrong.
#[test]
fn two_senders(rt: HostRuntime) -> Result<(), Fail> {
    let alloc = rt.alloc();
    let hasher = RandomState::new(&rt)?;
    let streams = [stream_of(alloc, 0)?, stream_of(alloc, 1)?];
    let (Some(first), Some(second)) = (listen(&rt, alloc), listen(&rt, alloc)) else {
        return Err("no destination".into());
    };
    let Some(plan) = plan_for(alloc, first.address.port(), second.address.port()) else {
        return Err("no plan".into());
    };
    let right = comes_out(&rt, alloc, &plan, hasher, &streams);
    let (first, second) = (received_by(&rt, first), received_by(&rt, second));
    assert!(rt; matches!(right, Ok(true)));
    assert!(rt; has_both(&first, &streams) && has_both(&second, &streams));
    Ok(())
}
