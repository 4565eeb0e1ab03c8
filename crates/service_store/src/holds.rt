//! The names of the destinations that a service holds, which outlive a process.

ghost use Rattle.std.specs.Prelude.{◌≡◌, IfOk, IfSome};
ghost use Rattle.service_store.specs.inner.Holds.{holds_text};

use crate::fault::HoldsFault;
use crate::replacing::replace;
use std::alloc::{AllocError, Global};
use std::{fs, io, str};

/// The file of a store's folder.
const FILE_NAME: &str = "holds";

/// The most bytes of a name of a plan.
const NAME_MAX: usize = 32;

/// The file that keeps the names of the destinations that a service holds.
#[derive(Drop)]
pub struct HoldsFile {
    /// The folder of the store.
    folder: String,
}

/// What a service holds at its start.
#[derive(Drop)]
pub struct StoredHolds {
    /// The file that keeps the names.
    pub file: HoldsFile,
    /// The names in it, each once.
    pub names: Vec<String>,
}

/// Names as their file has them: each with a line feed behind it.
fn text_of(alloc: Global, names: &[String]) -> Result<Vec<u8>, AllocError>
    ensures { IfOk result (λ text. text.items ≡ holds_text names.now) }
{
    let mut text = Vec::new(alloc);
    for name in names {
        text.extend_from_slice(name.as_bytes())?;
        text.push(b'\n')?;
    }
    Ok(text)
}

/// The name that a line is, as a plan may have it, unless it is among these already.
fn name_in<'a>(line: &'a [u8], names: &[String]) -> Option<&'a str> {
    let is_name = (1..=NAME_MAX).contains(&line.len())
        && line.iter().all(|byte| byte.is_ascii_alphanumeric() || matches!(*byte, b'_' | b'-'));
    let is_new = names.iter().all(|name| name.as_bytes() != line);
    if is_name && is_new {
        str::from_utf8(line).ok()
    } else {
        None
    }
}

/// The names that the lines of a file are, where each is one, and none is there twice.
fn names_of(alloc: Global, lines: &[u8]) -> Result<Option<Vec<String>>, AllocError> {
    let mut names = Vec::new(alloc);
    for line in lines.split(|byte| *byte == b'\n') {
        let Some(name) = name_in(line, &names) else {
            return Ok(None);
        };
        names.push(String::from_str(alloc, name)?)?;
    }
    Ok(Some(names))
}

/// The names that the bytes of their file say, in the one way in which they are written.
fn names_in(alloc: Global, bytes: &[u8]) -> Result<Option<Vec<String>>, AllocError>
    ensures { IfOk result (λ found. IfSome found (λ names. bytes.now ≡ holds_text names.items)) }
{
    let found = match bytes.strip_suffix(b"\n") {
        Some(lines) => names_of(alloc, lines)?,
        None => Some(Vec::new(alloc)),
    };
    let Some(names) = found else {
        return Ok(None);
    };
    let text = text_of(alloc, &names)?;
    Ok((text.as_slice() == bytes).then_some(names))
}

/// The names in the file; none where there is no file.
fn stored(rt: &HostRuntime, folder: &str) -> Result<Vec<String>, HoldsFault> {
    let alloc = rt.alloc();
    let Ok(path) = format!(in alloc; "{folder}/{FILE_NAME}") else {
        return Err(HoldsFault::NoMemory);
    };
    let bytes = match fs::read(rt, path.as_str()) {
        Ok(bytes) => bytes,
        Err(error) => match error.kind() {
            io::ErrorKind::NotFound => return Ok(Vec::new(alloc)),
            io::ErrorKind::OutOfMemory => return Err(HoldsFault::NoMemory),
            _ => return Err(HoldsFault::Read(error)),
        },
    };
    match names_in(alloc, bytes.as_slice()) {
        Ok(Some(names)) => Ok(names),
        Ok(None) => Err(HoldsFault::Damaged),
        Err(_) => Err(HoldsFault::NoMemory),
    }
}

impl StoredHolds {
    /// What the file of a folder that this process alone has open says.
    ///
    /// # Errors
    ///
    /// Where the file can't be read, or is damaged.
    pub fn open(rt: &HostRuntime, folder: &str) -> Result<StoredHolds, HoldsFault> {
        let names = stored(rt, folder)?;
        match String::from_str(rt.alloc(), folder) {
            Ok(folder) => Ok(StoredHolds {
                file: HoldsFile { folder },
                names,
            }),
            Err(_) => Err(HoldsFault::NoMemory),
        }
    }
}

impl HoldsFile {
    /// Keeps these names in place of the former ones, so that they survive a crash.
    ///
    /// # Errors
    ///
    /// Where the file can't be replaced. It has the former names then, or these.
    pub fn replace(&self, rt: &HostRuntime, names: &[String]) -> Result<(), HoldsFault> {
        let Ok(text) = text_of(rt.alloc(), names) else {
            return Err(HoldsFault::NoMemory);
        };
        match replace(rt, self.folder.as_str(), FILE_NAME, &text) {
            Ok(()) => Ok(()),
            Err(error) => Err(HoldsFault::of_write(error)),
        }
    }
}
