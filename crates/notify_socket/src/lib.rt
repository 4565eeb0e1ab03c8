//! What a process says to the service manager that started it, by sd_notify(3) of systemd: over a Unix datagram socket.
#![tactic(auto)]

mod address;
mod notice;
mod socket;

pub use notice::{Notice, write_notices};
pub use socket::NotifySocket;
