//! Numbers of connections that outlive a process.

ghost use Rattle.std.specs.Prelude.{◌≡◌, ◌≢◌, ◌≤◌, ◌<◌, ◌+◌, ◌^◌, ℕ, None, Some, IfOk, IfSome, IsNone, OnOk, OnErr, string_bytes};
ghost use Rattle.service_store.specs.inner.Numbers.{first_unused, number_text};

use crate::fault::NumbersFault;
use crate::replacing::replace;
use std::alloc::{AllocError, Global};
use std::{fs, io, str};

/// How many numbers are reserved at once.
const RESERVED_AT_ONCE: u32 = 1_000;

/// The numbers of a service's connections. The number of a connection is part of the message control ids of its acknowledgments
/// (MSH-10), which differ from all others of the sender (HL7 v2.5.1, 2.15.9.10): so no number is used by two starts.
#[derive(Drop)]
pub struct ConnectionNumbers {
    /// The folder of the store.
    folder: String,
    /// The first number that no earlier start has reserved.
    first: u32,
    /// The first number that isn't reserved.
    end: u32,
    ghost ordered: { first ≤ end },
}

/// A number as its file has it.
fn text_of(alloc: Global, number: u32) -> Result<String, AllocError>
    ensures { IfOk result (λ text. string_bytes text ≡ number_text number) }
{
    format!(in alloc; "{number}\n")
}

/// The number that digits are.
fn number_of(digits: &[u8]) -> Option<u32> {
    str::from_utf8(digits).ok()?.parse::<u32>().ok()
}

/// The number that the bytes of its file say, in the one way in which it is written.
fn number_in(alloc: Global, bytes: &[u8]) -> Result<Option<u32>, AllocError>
    ensures { IfOk result (λ found. IfSome found (λ n. bytes.now ≡ number_text n)) }
{
    let Some(digits) = bytes.strip_suffix(b"\n") else {
        return Ok(None);
    };
    let Some(number) = number_of(digits) else {
        return Ok(None);
    };
    let text = text_of(alloc, number)?;
    Ok((text.as_bytes() == bytes).then_some(number))
}

/// The first number that is unused, by what the file says and by the last connection of which the store knows. None where there is
/// none left.
fn first_unused(stored: u32, last: Option<u32>) -> Option<u32>
    ensures first { IfSome result (λ first. first ≡ first_unused stored last) }
    ensures none { IsNone result → last ≡ Some u32.MAX }
{
    let behind = match last {
        Some(last) => last.checked_add(1)?,
        None => 0,
    };
    Some(stored.max(behind))
}

/// The end of the numbers that are reserved next behind this one. None where there is none.
fn next_end(end: u32) -> Option<u32>
    ensures more { IfSome result (λ next. (end < next) × (next ≤ end + 1000)) }
    ensures none { IsNone result → end ≡ u32.MAX }
{
    if end == u32::MAX {
        return None;
    }
    Some(end.saturating_add(RESERVED_AT_ONCE))
}

/// Replaces the file with a number. The file has the old number or the new one at any moment, and the new one once this returns.
fn replace_number(rt: &HostRuntime, folder: &str, number: u32) -> io::Result<()> {
    let text = text_of(rt.alloc(), number)?;
    replace(rt, folder, "connections", text.as_bytes())
}

/// The number in the file, or 0 where there is no file.
fn stored(rt: &HostRuntime, folder: &str) -> Result<u32, NumbersFault> {
    let alloc = rt.alloc();
    let Ok(path) = format!(in alloc; "{folder}/connections") else {
        return Err(NumbersFault::NoMemory);
    };
    let bytes = match fs::read(rt, path.as_str()) {
        Ok(bytes) => bytes,
        Err(error) => match error.kind() {
            io::ErrorKind::NotFound => return Ok(0),
            io::ErrorKind::OutOfMemory => return Err(NumbersFault::NoMemory),
            _ => return Err(NumbersFault::Read(error)),
        },
    };
    match number_in(alloc, bytes.as_slice()) {
        Ok(Some(number)) => Ok(number),
        Ok(None) => Err(NumbersFault::Damaged),
        Err(_) => Err(NumbersFault::NoMemory),
    }
}

impl ConnectionNumbers {
    /// The numbers of a folder that this process alone has open, none of which is reserved yet. The store knows of this last
    /// connection.
    ///
    /// # Errors
    ///
    /// Where the file can't be read or is damaged, or no number is left.
    pub fn open(
        rt: &HostRuntime,
        folder: &str,
        last_connection: Option<u32>,
    ) -> Result<ConnectionNumbers, NumbersFault>
        ensures unreserved { IfOk result (λ numbers. numbers.end ≡ numbers.first) }
        ensures unused { IfOk result (λ numbers. IfSome last_connection (λ last. last < numbers.first)) }
    {
        let Some(first) = first_unused(stored(rt, folder)?, last_connection) else {
            return Err(NumbersFault::UsedUp);
        };
        let Ok(folder) = String::from_str(rt.alloc(), folder) else {
            return Err(NumbersFault::NoMemory);
        };
        Ok(ConnectionNumbers {
            folder,
            first,
            end: first,
        })
    }

    /// The first number that no earlier start has reserved.
    pub fn first(&self) -> u32
        ensures { result ≡ self.now.first }
    {
        self.first
    }

    /// The first number that isn't reserved. No connection may have it, or one behind it.
    pub fn end(&self) -> u32
        ensures { result ≡ self.now.end }
    {
        self.end
    }

    /// Reserves 1,000 more numbers, or as many as are left, so that no later start uses them. Returns the new end.
    ///
    /// # Errors
    ///
    /// Where the file can't be replaced, or no number is left. Nothing more is reserved then.
    pub fn reserve(&mut self, rt: &HostRuntime) -> Result<u32, NumbersFault>
        ensures end { IfOk result (λ end. end ≡ self.new.end) }
        ensures more { OnOk result (self.old.end < self.new.end) }
        ensures few { OnOk result (self.new.end ≤ self.old.end + 1000) }
        ensures first { self.new.first ≡ self.old.first }
        ensures unchanged { OnErr result (self.new.end ≡ self.old.end) }
    {
        let Some(end) = next_end(self.end) else {
            return Err(NumbersFault::UsedUp);
        };
        match replace_number(rt, self.folder.as_str(), end) {
            Ok(()) => {
                self.end = end;
                Ok(end)
            }
            Err(error) => Err(NumbersFault::of_write(error)),
        }
    }
}
