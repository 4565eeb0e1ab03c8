//! The address of a service manager's socket.

ghost use Rattle.std.specs.Prelude.{◌≡◌, ◌+◌, ◌≤◌, IfSome, length};
ghost use Rattle.notify_socket.specs.inner.Address as spec;

use libc::net as c;

/// The most bytes of a name: the system takes 108 with the zero behind a path.
const NAME_BYTES: usize = 107;

/// The byte with which the name of a socket in Linux's abstract namespace is written.
const ABSTRACT: u8 = b'@';

/// Writes bytes over others from an index on.
fn put(raw: &mut [u8; c::_SS_SIZE], at: usize, bytes: &[u8])
    requires { at + length bytes.now ≤ 128 }
    ensures { raw.new ≡ spec.put raw.old at bytes.now }
{
    raw[at..at + bytes.len()].copy_from_slice(bytes);
}

/// The bytes of an address without a name.
fn unnamed() -> [u8; c::_SS_SIZE]
    ensures { result ≡ spec.unnamed }
{
    let mut raw = [0u8; c::_SS_SIZE];
    put(&mut raw, 0, &(c::AF_UNIX as u16).to_ne_bytes());
    raw
}

/// The bytes of C's `sockaddr_un` for a socket whose name is a path, and how many of them count.
fn path_address(path: &[u8]) -> ([u8; c::_SS_SIZE], u32)
    requires { length path.now ≤ 107 }
    ensures { result ≡ spec.path_address path.now }
{
    let mut raw = unnamed();
    put(&mut raw, 2, path);
    (raw, path.len() as u32 + 3)
}

/// The bytes of C's `sockaddr_un` for a socket with a name in Linux's abstract namespace, and how many of them count.
fn abstract_address(name: &[u8]) -> ([u8; c::_SS_SIZE], u32)
    requires { length name.now ≤ 107 }
    ensures { result ≡ spec.abstract_address name.now }
{
    let mut raw = unnamed();
    put(&mut raw, 3, name);
    (raw, name.len() as u32 + 3)
}

/// The bytes of C's `sockaddr_un` for a socket, and how many of them count: of the path that is its name, or of a name in Linux's
/// abstract namespace, which is written behind an `@`. None where it is neither, or longer than 107 bytes.
pub(crate) fn address_of(name: &[u8]) -> Option<([u8; c::_SS_SIZE], u32)>
    ensures value { result ≡ spec.address_of name.now }
    ensures len { IfSome result (λ a. a.1 ≤ 110) }
{
    if name.len() > NAME_BYTES {
        return None;
    }
    let (first, others) = name.split_first()?;
    match *first {
        b'/' => Some(path_address(name)),
        ABSTRACT => Some(abstract_address(others)),
        _ => None,
    }
}
