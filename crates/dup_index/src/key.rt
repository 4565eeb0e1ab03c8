//! The key of a message that is judged. For speed and memory a short key is kept in place: 32 bytes, where a list of bytes takes
//! 24 and a block of its own, of 32 bytes or more.

ghost use Rattle.std.specs.Prelude.{◌≡◌, ◌≤◌, ◌++◌, [], take, IfOk};

use std::alloc::{AllocError, Global};
use std::marker::Model;

/// The most bytes of a key that is kept in place.
const SHORT_MAX: usize = 30;

/// The bytes of a key.
#[derive(Drop)]
enum Bytes {
    /// The length of the key, and a buffer that begins with its bytes.
    Short(u8, [u8; SHORT_MAX]),
    /// More than [`SHORT_MAX`] bytes.
    Long(Vec<u8>),
}

/// The key of a message that is judged.
#[derive(Drop)]
pub struct Key {
    bytes: Bytes,
}

/// A key takes 32 bytes.
const _: () = prove!(size_of::<Key>() == 32);

impl Model for Key {
    ghost use Rattle.std.specs.Prelude.{List, ℕ};
    ghost use Rattle.dup_index.specs.inner.Key.{bytes_of, IsKept};

    ghost Value = { List ℕ };

    ghost view = { λ k. bytes_of k.bytes };

    ghost invariant = { λ k. IsKept k.bytes };
}

/// The key of the first `len` of `bytes`, followed by `more`.
///
/// # Errors
///
/// Where memory is refused for a key of more than thirty bytes.
#[inline(always)]
fn short_with(
    alloc: Global,
    len: u8,
    bytes: [u8; SHORT_MAX],
    more: &[u8],
) -> Result<Key, AllocError>
    requires { len ≤ 30 }
    ensures { IfOk result (λ key. key ≡ take len bytes ++ more.now) }
{
    let from = len as usize;
    if more.len() <= SHORT_MAX - from {
        let to = from + more.len();
        let mut bytes = bytes;
        bytes[from..to].copy_from_slice(more);
        return Ok(Key {
            bytes: Bytes::Short(to as u8, bytes),
        });
    }
    let mut long = Vec::with_capacity(alloc, from + more.len())?;
    long.extend_from_slice(&bytes[..from])?;
    long.extend_from_slice(more)?;
    Ok(Key {
        bytes: Bytes::Long(long),
    })
}

impl Key {
    /// The key of no bytes.
    pub fn new() -> Key
        ensures { result ≡ [] }
    {
        Key {
            bytes: Bytes::Short(0, [0; SHORT_MAX]),
        }
    }

    /// The key followed by `more`.
    ///
    /// # Errors
    ///
    /// Where memory is refused for a key of more than thirty bytes.
    #[inline(always)]
    pub fn with(self, alloc: Global, more: &[u8]) -> Result<Key, AllocError>
        ensures { IfOk result (λ key. key ≡ self ++ more.now) }
    {
        match self.bytes {
            Bytes::Short(len, bytes) => short_with(alloc, len, bytes, more),
            Bytes::Long(mut long) => {
                long.extend_from_slice(more)?;
                Ok(Key {
                    bytes: Bytes::Long(long),
                })
            }
        }
    }

    /// Its bytes.
    pub fn as_slice(&self) -> &[u8]
        ensures { result.now ≡ self.now }
    {
        match &self.bytes {
            Bytes::Short(len, bytes) => &bytes[..*len as usize],
            Bytes::Long(bytes) => bytes.as_slice(),
        }
    }
}
