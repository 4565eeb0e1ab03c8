//! A door over TCP.

ghost use Rattle.std.specs.Prelude.{◌≡◌, true, IfOk};
ghost use Rattle.conn_worker.specs.Faults.{with_fault};

use crate::door::{Door, DoorFault};
use crate::half::{Half, Label, bound_writes};
use crate::lacks::{PAUSE, WAITS_MAX, accept_once, is_passing};
use log::{Log, info, warn};
use plan_text::Channel;
use socket_options::keep_alive;
use std::alloc::{AllocError, Global};
use std::io::ErrorKind;
use std::marker::Model;
use std::net::{Net, SocketAddr, TcpListener, TcpStream};
use std::sync::Arc;
use std::time::{Clock, Duration};
use std::{io, thread};

/// The door of a channel of the plan: it listens at the channel's address.
#[derive(Drop)]
pub struct TcpDoor<'a, H> {
    rt: &'a H,
    alloc: Global,
    channel: &'a Channel,
    /// The index of the channel in the plan.
    index: u32,
    /// None once it is closed.
    listener: Option<TcpListener>,
    /// The number of the next connection.
    next: u32,
    faults: u64,
}

impl<'a, H> Model for TcpDoor<'a, H> {
    ghost use Rattle.engine_workers.specs.inner.Doors.{DoorView};

    /// How many calls failed, other than because memory was refused, and the index of its channel.
    ghost Value = { DoorView };

    ghost view = { λ door. record { faults = door.faults; channel = door.index } };
}

/// The error of a call on a listener that is closed.
fn is_closed() -> io::Error {
    io::Error::from(ErrorKind::NotConnected)
}

impl<'a, H: Net<Listener = TcpListener, Stream = TcpStream> + Clock + Log> TcpDoor<'a, H> {
    /// Listens at the address of a channel, the one at this index of its plan. No call failed so far, and the first connection
    /// will have number `first`.
    ///
    /// # Errors
    ///
    /// Where the channel can't listen there.
    pub fn bind(
        rt: &'a H,
        alloc: Global,
        channel: &'a Channel,
        index: u32,
        first: u32,
    ) -> io::Result<Self>
        ensures faults { IfOk result (λ door. door.faults ≡ 0) }
        ensures channel { IfOk result (λ door. door.channel ≡ index) }
    {
        let listener = TcpListener::bind(rt, channel.listen())?;
        Ok(TcpDoor {
            rt,
            alloc,
            channel,
            index,
            listener: Some(listener),
            next: first,
            faults: 0,
        })
    }

    /// The address that it listens at.
    ///
    /// # Errors
    ///
    /// Where the system doesn't say, or the door is closed.
    pub fn address(&self) -> io::Result<SocketAddr> {
        match &self.listener {
            Some(listener) => listener.local_addr(),
            None => Err(is_closed()),
        }
    }

    /// Logs that an accept failed, where it is the first of a row.
    fn log_lack(&self, failures: u32, error: &io::Error) {
        if failures == 0 {
            let channel = self.channel.name();
            warn!(self.rt; channel; "accepting a connection failed, trying again for up to 60 s: {error}");
        }
    }

    /// Logs that connections are accepted again, where accepting failed before.
    fn log_recovery(&self, failures: u32) {
        if failures > 0 {
            let channel = self.channel.name();
            info!(self.rt; channel, failures; "accepting connections again");
        }
    }

    /// Waits for the next connection. Where an accept fails for what passes, it is tried again 100 ms later, until it has
    /// failed for 60 seconds.
    fn accept(&self) -> io::Result<(TcpStream, SocketAddr)> {
        let Some(listener) = &self.listener else {
            return Err(is_closed());
        };
        for failures in 0..WAITS_MAX {
            match accept_once(listener) {
                Ok(came) => {
                    self.log_recovery(failures);
                    return Ok(came);
                }
                Err(error) if is_passing(&error) => {
                    self.log_lack(failures, &error);
                    thread::sleep(self.rt, Duration::from_millis(PAUSE));
                }
                Err(error) => return Err(error),
            }
        }
        accept_once(listener)
    }

    /// Both halves of an accepted connection.
    fn halves(
        &mut self,
        stream: TcpStream,
        peer: SocketAddr,
    ) -> Result<(Half<'a, H>, Half<'a, H>), AllocError>
        ensures same { self.new ≡ self.old }
        ensures accepted { IfOk result (λ halves. halves.0.channel ≡ self.old.channel) }
    {
        // Where the system refuses one of these, the connection is served without it.
        let _ = stream.set_nodelay(true);
        let _ = keep_alive(&stream);
        let _ = bound_writes(&stream);
        let (channel, connection) = (self.channel.name(), self.next);
        self.next = self.next.saturating_add(1);
        info!(self.rt; channel, connection, peer:% = peer; "connection opened");
        let label = Label {
            channel,
            connection,
            peer,
        };
        let stream = Arc::new(self.alloc, stream).map_err(AllocError::from)?;
        let reader = Half::new(self.rt, Arc::try_clone(&stream)?, self.index, label);
        Ok((reader, Half::new(self.rt, stream, self.index, label)))
    }

    /// Logs that no further connection is taken, and counts the fault.
    fn fault(&mut self, error: io::Error) -> DoorFault
        ensures counted { self.new.faults ≡ with_fault true self.old.faults }
        ensures same { self.new.channel ≡ self.old.channel }
        ensures device { result ≡ DoorFault.Device }
    {
        let channel = self.channel.name();
        warn!(self.rt; channel; "accepting a connection failed, no further one is taken: {error}");
        self.faults = self.faults.saturating_add(1);
        DoorFault::Device
    }
}

impl<'a, H: Net<Listener = TcpListener, Stream = TcpStream> + Clock + Log> Door for TcpDoor<'a, H> {
    type Reader = Half<'a, H>;

    type Writer = Half<'a, H>;

    ghost fault_count = { λ door. door.faults };

    ghost channel = { λ door. door.channel };

    fn open(&mut self) -> Result<(Half<'a, H>, Half<'a, H>), DoorFault> {
        let (stream, peer) = match self.accept() {
            Ok(came) => came,
            Err(error) => return Err(self.fault(error)),
        };
        match self.halves(stream, peer) {
            Ok(halves) => Ok(halves),
            Err(AllocError) => {
                let channel = self.channel.name();
                warn!(self.rt; channel; "out of memory for a connection");
                Err(DoorFault::NoMemory)
            }
        }
    }

    fn close(&mut self) {
        self.listener = None;
    }

    fn faults(&self) -> u64 {
        self.faults
    }
}
