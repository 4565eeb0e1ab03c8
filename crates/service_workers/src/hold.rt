//! A stream that another thread may shut down.

use std::net::{Shutdown, TcpStream};
use std::sync::{Arc, Mutex, Wait};

/// The stream that a worker reads and writes by, where it has one: another thread may shut it down, so that a read or a
/// write that waits comes to an end.
#[derive(Drop)]
pub struct Hold {
    stream: Mutex<Option<Arc<TcpStream>>>,
}

impl Hold {
    /// A hold without a stream.
    pub fn new() -> Self {
        Hold {
            stream: Mutex::new(None),
        }
    }

    /// Puts a stream here, or none, and replaces the one before.
    pub fn put<H: Wait>(&self, rt: &H, stream: Option<Arc<TcpStream>>) {
        *self.stream.lock(rt) = stream;
    }

    /// Shuts the stream down, if there is one.
    pub fn shut<H: Wait>(&self, rt: &H, how: Shutdown) {
        let held = self.stream.lock(rt);
        if let Some(stream) = &*held {
            let _ = stream.shutdown(how);
        }
    }
}
