//! The link over TCP, on the loopback device.

use delivery_worker::{FixedWay, Link, LinkFault, TcpLink, Way};
use plan_text::{Destination, Plan};
use std::alloc::Global;
use std::cell::Cell;
use std::io::{Read, Write};
use std::net::{TcpListener, TcpStream};
use std::test::Fail;
use std::time::{Clock, Duration};

/// A plan whose one destination is at this port, with a timeout in seconds and an interval of a minute.
fn plan_for(alloc: Global, port: u16, timeout: u32) -> Result<Plan, Fail> {
    let text = format!(in alloc;
        "[[destination]]\nname = \"LAB\"\naddress = \"127.0.0.1:{port}\"\ntimeout = {timeout}\ninterval = 60\n[[channel]]\nname = \"ADT\"\nlisten = \"127.0.0.1:6660\"\ntypes = [\"ADT\"]\nprocessing = [\"P\"]\nversions = [\"2.5.1\"]\n[[channel.route]]\nto = \"LAB\"\n"
    )?;
    match Plan::read(alloc, text.as_bytes()) {
        Ok(plan) => Ok(plan),
        Err(_) => Err("the plan".into()),
    }
}

/// Whether the peer gets what was sent, and what it answers is received.
fn is_told(
    link: &mut TcpLink<'_, HostRuntime, FixedWay<'_>>,
    peer: &mut TcpStream,
) -> Result<bool, Fail> {
    let mut asked = [0; 5];
    peer.read_exact(&mut asked)?;
    peer.write_all(b"told")?;
    let mut buffer = [0; 16];
    let told = link.receive(&mut buffer) == Ok(4) && buffer.starts_with(b"told");
    Ok(told && asked == *b"asked" && link.faults() == 0)
}

/// Whether silence is a fault, and what is sent after a fault is one too.
fn is_lost(link: &mut TcpLink<'_, HostRuntime, FixedWay<'_>>) -> bool {
    let mut buffer = [0; 16];
    link.receive(&mut buffer) == Err(LinkFault)
        && link.send(b"again") == Err(LinkFault)
        && link.faults() == 2
}

/// Whether a connection after a fault is a new one, whose end is seen.
fn sees_the_end(
    link: &mut TcpLink<'_, HostRuntime, FixedWay<'_>>,
    listener: &TcpListener,
) -> Result<bool, Fail> {
    if link.connect().is_err() {
        return Ok(false);
    }
    let (peer, _) = listener.accept()?;
    drop(peer);
    Ok(link.receive(&mut [0; 16]) == Ok(0))
}

/// Whether what is sent arrives, what is answered is received, silence and a closed port are faults, and a connection after
/// a fault is a new one.
fn comes_out(
    listener: TcpListener,
    link: &mut TcpLink<'_, HostRuntime, FixedWay<'_>>,
) -> Result<bool, Fail> {
    if link.connect().is_err() || link.send(b"asked").is_err() {
        return Ok(false);
    }
    let (mut peer, _) = listener.accept()?;
    let came_out = is_told(link, &mut peer)? && is_lost(link) && sees_the_end(link, &listener)?;
    drop(listener);
    Ok(came_out && link.connect() == Err(LinkFault) && link.faults() == 3)
}

#[test]
fn loopback(rt: HostRuntime) -> Result<(), Fail> {
    let listener = TcpListener::bind(&rt, "127.0.0.1:0")?;
    let plan = plan_for(rt.alloc(), listener.local_addr()?.port(), 1)?;
    let way = FixedWay {
        plan: &plan,
        index: 0,
    };
    assert!(rt; comes_out(listener, &mut TcpLink::new(&rt, way))?);
    Ok(())
}

/// Whether the peer's answer is the next that is received, though something had arrived before the link was prepared.
fn drops_what_arrived(
    link: &mut TcpLink<'_, HostRuntime, FixedWay<'_>>,
    peer: &mut TcpStream,
) -> Result<bool, Fail> {
    peer.write_all(b"stale")?;
    if link.prepare().is_err() || link.send(b"asked").is_err() {
        return Ok(false);
    }
    is_told(link, peer)
}

/// Whether a link is prepared over the connection that is open, then over a new one where that was ended, and no connect
/// follows at once on one that failed.
fn is_readied(
    listener: TcpListener,
    link: &mut TcpLink<'_, HostRuntime, FixedWay<'_>>,
) -> Result<bool, Fail> {
    if link.prepare().is_err() {
        return Ok(false);
    }
    let (mut peer, _) = listener.accept()?;
    let dropped = drops_what_arrived(link, &mut peer)?;
    drop(peer);
    if link.prepare().is_err() {
        return Ok(false);
    }
    let (peer, _) = listener.accept()?;
    drop(peer);
    drop(listener);
    let refused = link.prepare() == Err(LinkFault) && link.faults() == 1;
    Ok(dropped && refused && link.prepare() == Err(LinkFault) && link.faults() == 1)
}

#[test]
fn readied(rt: HostRuntime) -> Result<(), Fail> {
    let listener = TcpListener::bind(&rt, "127.0.0.1:0")?;
    let plan = plan_for(rt.alloc(), listener.local_addr()?.port(), 1)?;
    let way = FixedWay {
        plan: &plan,
        index: 0,
    };
    assert!(rt; is_readied(listener, &mut TcpLink::new(&rt, way))?);
    Ok(())
}

/// A way that is halted after a number of looks.
#[derive(Drop)]
struct Halting<'a> {
    plan: &'a Plan,
    looks: Cell<u32>,
}

impl Way for Halting<'_> {
    ghost use Rattle.std.specs.Prelude.{Some};

    ghost leads_to = { λ _. 0 };

    ghost plan = { λ way. Some way.plan.now };

    fn destination(&self) -> Option<&Destination> {
        self.plan.destination(0)
    }

    fn is_halted(&self) -> bool {
        let left = self.looks.get();
        self.looks.set(left.saturating_sub(1));
        left == 0
    }

    fn can_halt(&self) -> bool {
        true
    }
}

/// A read of a minute ends once it is halted.
#[test]
fn halted(rt: HostRuntime) -> Result<(), Fail> {
    let listener = TcpListener::bind(&rt, "127.0.0.1:0")?;
    let plan = plan_for(rt.alloc(), listener.local_addr()?.port(), 60)?;
    let way = Halting {
        plan: &plan,
        looks: Cell::new(8),
    };
    let mut link = TcpLink::new(&rt, way);
    let begun = rt.monotonic()?;
    assert_eq!(rt; link.connect(), Ok(()));
    assert_eq!(rt; link.send(b"asked"), Ok(()));
    assert_eq!(rt; link.receive(&mut [0; 16]), Err(LinkFault));
    let lasted = rt.monotonic()?.saturating_sub(begun);
    assert!(rt; lasted < Duration::from_secs(30));
    Ok(())
}
