//! The listener of the HTTP address.

use std::alloc::{AllocError, Global};
use std::io;
use std::net::{Net, SocketAddr, TcpListener, TcpStream};

/// The most connections at once.
pub(crate) const PEERS_MAX: usize = 32;

/// How many sockets there are at most: those of all connections, and the listener.
pub const SOCKETS: usize = 33;

/// Where requests are answered, and for which hosts.
#[derive(Clone, Copy, Debug, PartialEq, Eq)]
pub struct HttpSettings<'a> {
    /// The address to listen at.
    pub address: SocketAddr,
    /// The names of hosts for which requests are answered beside `localhost` and IP addresses, with commas between them.
    pub names: &'a str,
}

/// The listener of the HTTP address.
#[derive(Drop)]
pub struct Door {
    pub(crate) listener: TcpListener,
    /// The names of hosts for which requests are answered.
    pub(crate) names: Vec<String>,
}

/// The names in a list with commas between them.
fn names_in(alloc: Global, list: &str) -> Result<Vec<String>, AllocError> {
    let mut names = Vec::new(alloc);
    for name in list.split(',') {
        let name = name.trim();
        if !name.is_empty() {
            names.push(name.to_string(alloc)?)?;
        }
    }
    Ok(names)
}

impl Door {
    /// Listens at an address.
    ///
    /// # Errors
    ///
    /// `AllocError` where memory for the names is refused. The result within is an error where the system refuses the address.
    pub fn open<R: Net<Listener = TcpListener, Stream = TcpStream>>(
        rt: &R,
        alloc: Global,
        settings: HttpSettings<'_>,
    ) -> Result<io::Result<Door>, AllocError> {
        let names = names_in(alloc, settings.names)?;
        let listener: io::Result<TcpListener> = TcpListener::bind(rt, settings.address);
        let listener = match listener {
            Ok(listener) => listener,
            Err(error) => return Ok(Err(error)),
        };
        Ok(match listener.set_nonblocking(true) {
            Ok(()) => Ok(Door { listener, names }),
            Err(error) => Err(error),
        })
    }

    /// The address that it listens at, as the system has it.
    ///
    /// # Errors
    ///
    /// Where the system can't report it.
    pub fn address(&self) -> io::Result<SocketAddr> {
        self.listener.local_addr()
    }
}
