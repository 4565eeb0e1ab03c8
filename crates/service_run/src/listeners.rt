//! The listeners of the channels, that of the HTTP address, and the socket to the service manager.

use crate::settings::Settings;
use crate::supervision::notify_socket;
use engine_report::{Fault, tell_lines};
use log::{Log, warn};
use notify_socket::NotifySocket;
use plan_notes::listen_note;
use plan_text::Plan;
use service_web::Door;
use service_workers::{Crew, Gate};
use std::alloc::AllocError;

/// The listeners of a service.
#[derive(Drop)]
pub struct Listeners {
    /// Those of the channels, in the order of the plan.
    pub gates: Vec<Gate>,
    /// That of the HTTP address, where there is one.
    pub door: Option<Door>,
    /// The socket to the service manager, where the environment names one.
    pub manager: Option<NotifySocket>,
}

/// Says on standard error where a channel listens.
fn tell_gate(rt: &HostRuntime, gate: &Gate) {
    if let Ok(address) = gate.address() {
        let name = gate.name();
        let _ = eprintln!(rt; "listening on {address} for channel {name}");
    }
}

/// Says on standard error where requests over HTTP are answered, and logs where others than this machine may reach the address.
fn tell_door<H: Log>(rt: &HostRuntime, handle: &H, door: &Door) {
    if let Ok(address) = door.address() {
        let _ = eprintln!(rt; "listening on {address} for HTTP");
        if !address.ip().is_loopback() {
            warn!(handle; target: "always", address:% = address; "whoever reaches the HTTP address can read the state of the service");
        }
    }
}

/// Listens at the addresses of all channels of a plan.
///
/// # Errors
///
/// `Listen` of the first channel that can't listen, after a note that says why; `Memory`.
fn open_gates<'f, H: Crew>(
    rt: &HostRuntime,
    handle: &H,
    plan: &Plan,
) -> Result<Vec<Gate>, Fault<'f>> {
    let alloc = rt.alloc();
    let mut gates = Vec::new(alloc);
    for index in 0..plan.channels() {
        let Some(channel) = plan.channel(index) else {
            break;
        };
        match Gate::open(handle, alloc, channel, index)? {
            Ok(gate) => gates.push(gate).map_err(AllocError::from)?,
            Err(error) => {
                tell_lines(rt, listen_note(alloc, channel, &error));
                return Err(Fault::Listen(channel.name().to_string(alloc)?));
            }
        }
    }
    Ok(gates)
}

/// Listens at the HTTP address, where there is one.
///
/// # Errors
///
/// `Listen` where that is refused, after a note that says why; `Memory`.
fn open_door<'f, H: Crew>(
    rt: &HostRuntime,
    handle: &H,
    settings: &Settings,
) -> Result<Option<Door>, Fault<'f>> {
    let alloc = rt.alloc();
    let Some(http) = settings.http else {
        return Ok(None);
    };
    match Door::open(handle, alloc, http)? {
        Ok(door) => Ok(Some(door)),
        Err(error) => {
            let address = http.address;
            let _ = eprintln!(rt; "note: --http {address}: {error}");
            Err(Fault::Listen("HTTP".to_string(alloc)?))
        }
    }
}

/// Listens at the addresses of all channels of a plan, and at the HTTP address where there is one, and says where. The socket to the
/// service manager is opened, too.
///
/// # Errors
///
/// `Listen` of the first that can't listen, after a note that says why; `Memory`.
pub(crate) fn open_listeners<'f, H: Crew>(
    rt: &HostRuntime,
    handle: &H,
    plan: &Plan,
    settings: &Settings,
) -> Result<Listeners, Fault<'f>> {
    let gates = open_gates(rt, handle, plan)?;
    let door = open_door(rt, handle, settings)?;
    for gate in &gates {
        tell_gate(rt, gate);
    }
    if let Some(door) = &door {
        tell_door(rt, handle, door);
    }
    Ok(Listeners {
        gates,
        door,
        manager: notify_socket(rt),
    })
}
