//! Doors, by which connections are accepted.

use std::io::{Read, Write};
use thiserror::Error;

/// Why no connection could be opened.
#[derive(Clone, Copy, Debug, PartialEq, Eq, Error)]
pub enum DoorFault {
    /// The door failed, and brings no further connection.
    #[error("no connection could be opened")]
    Device,
    /// Memory was refused.
    #[error("out of memory")]
    NoMemory,
}

/// What a connection is read by.
pub trait Incoming: Read {
    ghost use Rattle.std.specs.Prelude.{◌≡◌, ℕ};

    /// The index in the plan of the channel that the connection was accepted for.
    ghost channel: { Self → ℕ };

    /// Ends the connection in order, where it is not the peer that ended it: no more is sent, and what still comes is read
    /// and dropped, for a bounded time, so that what was written is not lost to a peer that is still sending.
    fn drain(&mut self) {}

    /// The index in the plan of the channel that the connection was accepted for.
    fn channel(&self) -> u32
        ensures { result ≡ channel self.now };
}

/// A door, by which connections of a channel come.
pub trait Door {
    ghost use Rattle.std.specs.Prelude.{◌≡◌, ℕ, IfOk};
    ghost use Rattle.conn_worker.specs.Faults.{with_fault};
    ghost use Rattle.engine_workers.specs.inner.Doors.{is_device_fault};

    /// What a connection is read by.
    type Reader: Incoming + Drop;

    /// What it is written by.
    type Writer: Write + Drop;

    /// How many calls failed so far, other than because memory was refused. The number stays at its greatest value.
    ghost fault_count: { Self → ℕ };

    /// The index in the plan of the channel whose connections come by the door. It never changes.
    ghost channel: { Self → ℕ };

    /// Waits for the next connection.
    ///
    /// # Errors
    ///
    /// `Device` where none can be opened, `NoMemory` where memory is refused.
    fn open(&mut self) -> Result<(Self::Reader, Self::Writer), DoorFault>
        ensures faults { fault_count self.new ≡ with_fault (is_device_fault result) (fault_count self.old) }
        ensures accepted { IfOk result (λ halves. Self.Reader.channel halves.0 ≡ channel self.old) }
        ensures same { channel self.new ≡ channel self.old };

    /// Closes the door, so that a peer that connects afterwards is refused and doesn't wait.
    fn close(&mut self)
        ensures faults { fault_count self.new ≡ fault_count self.old }
        ensures same { channel self.new ≡ channel self.old }
    {}

    /// How many calls failed so far, other than because memory was refused.
    fn faults(&self) -> u64
        ensures { result ≡ fault_count self.now };
}
