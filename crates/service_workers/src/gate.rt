//! The listener of a channel.

ghost use Rattle.std.specs.Prelude.{◌≡◌, IfOk};

use libc::net as c;
use plan_text::Channel;
use std::alloc::{AllocError, Global};
use std::io;
use std::net::{Net, SocketAddr, TcpListener, TcpStream};
use std::os::fd::AsRawFd;
use std::sync::Arc;
use std::sync::atomic::{AtomicU32, Ordering};

/// How often one call may be interrupted before that is a fault.
const INTERRUPTIONS_MAX: u32 = 1_000;

/// A connection that was accepted: its stream, and the index of the channel whose gate accepted it.
#[derive(Drop)]
pub struct Accepted {
    pub(crate) stream: TcpStream,
    pub(crate) channel: u32,
}

/// The stream of a connection, which its halves share, and the index of its channel.
#[derive(Drop)]
pub(crate) struct ChannelStream {
    pub(crate) stream: Arc<TcpStream>,
    pub(crate) channel: u32,
}

impl Accepted {
    /// The connection with a stream that its halves can share.
    ///
    /// # Errors
    ///
    /// Where memory is refused.
    pub(crate) fn share(self, alloc: Global) -> Result<ChannelStream, AllocError>
        ensures { IfOk result (λ shared. shared.channel ≡ self.channel) }
    {
        let Accepted { stream, channel } = self;
        let stream = Arc::new(alloc, stream).map_err(AllocError::from)?;
        Ok(ChannelStream { stream, channel })
    }
}

/// The listener of a channel, by which all places of the channel accept.
#[derive(Drop)]
pub struct Gate {
    name: String,
    listen: String,
    channel: u32,
    listener: TcpListener,
    failures: AtomicU32,
}

impl Gate {
    /// Listens at the address of a channel, the one at this index of its plan.
    ///
    /// # Errors
    ///
    /// `AllocError` where memory for the name or the address is refused. The result within is an error where the channel can't
    /// listen there.
    pub fn open<R: Net<Listener = TcpListener, Stream = TcpStream>>(
        rt: &R,
        alloc: Global,
        channel: &Channel,
        index: u32,
    ) -> Result<io::Result<Gate>, AllocError>
        ensures { IfOk result (λ opened. IfOk opened (λ gate. gate.channel ≡ index)) }
    {
        let name = channel.name().to_string(alloc)?;
        let listen = channel.listen().to_string(alloc)?;
        let listener: io::Result<TcpListener> = TcpListener::bind(rt, channel.listen());
        Ok(match listener {
            Ok(listener) => Ok(Gate {
                name,
                listen,
                channel: index,
                listener,
                failures: AtomicU32::new(0),
            }),
            Err(error) => Err(error),
        })
    }

    /// The channel's name.
    pub fn name(&self) -> &str {
        self.name.as_str()
    }

    /// The address that it listens at, as the plan had it at the start. A later plan changes nothing of that.
    pub fn listen(&self) -> &str {
        self.listen.as_str()
    }

    /// The channel's index in the plan.
    pub fn channel(&self) -> u32
        ensures { result ≡ self.now.channel }
    {
        self.channel
    }

    /// The address that it listens at, as the system has it.
    ///
    /// # Errors
    ///
    /// Where the system can't report it.
    pub fn address(&self) -> io::Result<SocketAddr> {
        self.listener.local_addr()
    }

    /// Waits for the next connection, again where that was interrupted.
    fn accept_stream(&self) -> io::Result<(TcpStream, SocketAddr)> {
        for _ in 0..INTERRUPTIONS_MAX {
            match self.listener.accept() {
                Err(error) if error.kind() == io::ErrorKind::Interrupted => {}
                answer => return answer,
            }
        }
        Err(io::Error::from(io::ErrorKind::Interrupted))
    }

    /// Waits for the next connection, and the address of its sender.
    ///
    /// # Errors
    ///
    /// Where none can be accepted at this time, or the gate is shut.
    pub fn accept(&self) -> io::Result<(Accepted, SocketAddr)>
        ensures { IfOk result (λ came. came.0.channel ≡ self.now.channel) }
    {
        let (stream, peer) = self.accept_stream()?;
        let channel = self.channel;
        Ok((Accepted { stream, channel }, peer))
    }

    /// Counts a failure to accept, and returns how many there had been before it since the last connection.
    pub fn count_failure(&self) -> u32 {
        self.failures.fetch_add(1, Ordering::SeqCst)
    }

    /// Sets the failures to 0, and returns how many there were.
    pub fn forget_failures(&self) -> u32 {
        self.failures.swap(0, Ordering::SeqCst)
    }

    /// Ends the calls that wait in [`accept`](Self::accept), and later ones.
    pub fn shut(&self) {
        let _ = c::shutdown(self.listener.as_raw_fd(), c::SHUT_RDWR);
    }
}
