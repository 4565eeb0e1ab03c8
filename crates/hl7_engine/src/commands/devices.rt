//! The doors of the channels and the links of the destinations, over TCP.

ghost use Rattle.std.specs.Prelude.{◌≡◌, ◌⊎◌, Some, IfErr, IfOk, length, map, vec_len};
ghost use Rattle.engine_workers.specs.inner.Order.{AreFrom, are_from_prop};
ghost use Rattle.engine_report.specs.Findings.{failed_channels};
ghost use Rattle.engine_report.specs.inner.Findings.{NamesChannel, listening};

use delivery_worker::{FixedWay, TcpLink};
use engine_report::{Fault, add_listen_fault, tell_lines};
use engine_workers::{Door, TcpDoor};
use log::Log;
use plan_notes::listen_note;
use plan_text::Plan;
use std::alloc::{AllocError, Global};
use std::net::{Net, TcpListener, TcpStream};
use std::time::Clock;

/// What an engine meets the world by.
#[derive(Drop)]
pub struct Devices<'a, H> {
    /// The doors, in the order of the plan's channels.
    pub doors: Vec<TcpDoor<'a, H>>,
    /// The links, in the order of the plan's destinations.
    pub links: Vec<TcpLink<'a, H, FixedWay<'a>>>,
    ghost links_in_order: { AreFrom (λ link. link.leads_to) 0 links.items } by { are_from_prop (λ link. link.leads_to) 0 links.items },
}

/// The doors of all channels, the first connection of each with the number that follows from `accept`.
///
/// The fault names the first channel of the plan that can't listen. A note on standard error says why.
fn open_doors<'a, 'f, H: Net<Listener = TcpListener, Stream = TcpStream> + Clock + Log>(
    rt: &HostRuntime,
    handle: &'a H,
    alloc: Global,
    plan: &'a Plan,
    accept: u32,
) -> Result<Vec<TcpDoor<'a, H>>, Fault<'f>>
    ensures doors { IfOk result (λ doors. vec_len doors ≡ length plan.now.channels) }
    ensures fault { IfErr result (λ fault. (fault ≡ Fault.Memory) ⊎ NamesChannel plan.now.channels fault) }
{
    let mut doors = Vec::new(alloc);
    for place in 0..plan.channels() {
        let Some(channel) = plan.channel(place) else {
            break;
        };
        let first = place.saturating_mul(accept);
        match TcpDoor::bind(handle, alloc, channel, place, first) {
            Ok(door) => doors.push(door).map_err(AllocError::from)?,
            Err(error) => {
                tell_lines(rt, listen_note(alloc, channel, &error));
                return Err(Fault::Listen(channel.name().to_string(alloc)?));
            }
        }
    }
    Ok(doors)
}

/// The links of all destinations, none of which is connected yet.
#[tactic(auto, using(engine_workers::proofs::Parts::more_from))]
fn make_links<'a, H: Net<Listener = TcpListener, Stream = TcpStream> + Clock + Log>(
    rt: &'a H,
    alloc: Global,
    plan: &'a Plan,
) -> Result<Vec<TcpLink<'a, H, FixedWay<'a>>>, AllocError>
    ensures links { IfOk result (λ links. vec_len links ≡ length plan.now.destinations) }
    ensures in_order { IfOk result (λ links. AreFrom (λ link. link.leads_to) 0 links.items) }
{
    let mut links = Vec::new(alloc);
    for index in 0..plan.destinations() {
        links.push(TcpLink::new(rt, FixedWay { plan, index }))?;
    }
    Ok(links)
}

/// Prints where each channel listens.
fn tell_doors<H: Net<Listener = TcpListener, Stream = TcpStream> + Clock + Log>(
    rt: &HostRuntime,
    plan: &Plan,
    doors: &[TcpDoor<'_, H>],
) {
    for (place, door) in (0..plan.channels()).zip(doors) {
        if let (Some(channel), Ok(address)) = (plan.channel(place), door.address()) {
            let name = channel.name();
            let _ = eprintln!(rt; "listening on {address} for channel {name}");
        }
    }
}

/// Opens the doors of all channels, prints where they listen, and makes the links of all destinations.
///
/// # Errors
///
/// The first channel of the plan that can't listen, or `Memory`.
pub(crate) fn open_devices<
    'a,
    'f,
    H: Net<Listener = TcpListener, Stream = TcpStream> + Clock + Log,
>(
    rt: &HostRuntime,
    handle: &'a H,
    alloc: Global,
    plan: &'a Plan,
    accept: u32,
) -> Result<Devices<'a, H>, Fault<'f>>
    ensures doors { IfOk result (λ devices. vec_len devices.doors ≡ length plan.now.channels) }
    ensures links { IfOk result (λ devices. vec_len devices.links ≡ length plan.now.destinations) }
    ensures fault { IfErr result (λ fault. (fault ≡ Fault.Memory) ⊎ NamesChannel plan.now.channels fault) }
{
    let links = make_links(handle, alloc, plan)?;
    let doors = open_doors(rt, handle, alloc, plan, accept)?;
    tell_doors(rt, plan, &doors);
    Ok(Devices { doors, links })
}

/// A fault for each channel whose door failed, in the order of the plan.
///
/// # Errors
///
/// Where memory is refused.
pub(crate) fn listen_faults<'f, D: Door>(
    alloc: Global,
    plan: &Plan,
    doors: &[D],
) -> Result<Vec<Fault<'f>>, AllocError>
    ensures { IfOk result (λ faults. map listening faults.items ≡ map Some (failed_channels plan.now.channels (map D.fault_count doors.now))) }
{
    let mut faults = Vec::new(alloc);
    for place in 0..plan.channels() {
        let (Some(channel), Some(door)) = (plan.channel(place), doors.get(place as usize)) else {
            break;
        };
        add_listen_fault(alloc, &mut faults, channel, door.faults())?;
    }
    Ok(faults)
}
