//! A lower bound on how many records of a store were acknowledged.

use crate::fault::StartFault;
use std::fs::{OpenOptions, Permissions};
use std::io::Write;
use std::os::unix::fs::{OpenOptionsExt, PermissionsExt};
use std::{fs, io, str};

/// Only its owner may read the file and write to it.
const FILE_MODE: u32 = 0o600;

/// How many records a store has had at least, in the file `records` beside it. Damage in the log of a store isn't noticed when it is
/// opened: what lies behind it is gone without a word. A start compares this number with the records that it finds.
///
/// The file has one line of fixed length, which lies in one sector and is written in place. It is synced once: after a power cut it
/// may be some seconds old, and is a lower bound still.
#[derive(Drop)]
pub struct Witness {
    /// The path of the file.
    path: String,
    /// How many records the store had before the first change of this process was written.
    base: u64,
    /// The number in the file.
    noted: u64,
    /// Whether this process has synced the file.
    is_synced: bool,
}

/// The number that the bytes of the file say.
fn number_in(bytes: &[u8]) -> Option<u64> {
    let digits = bytes.strip_suffix(b"\n")?;
    str::from_utf8(digits).ok()?.parse::<u64>().ok()
}

/// How many records the store in a folder has had at least; 0 where there is no file that says it.
fn noted(rt: &HostRuntime, path: &str) -> Result<u64, StartFault> {
    match fs::read(rt, path) {
        Ok(bytes) => Ok(number_in(bytes.as_slice()).unwrap_or(0)),
        Err(error) => match error.kind() {
            io::ErrorKind::OutOfMemory => Err(StartFault::NoMemory),
            _ => Ok(0),
        },
    }
}

impl Witness {
    /// The witness of the store in a folder, in which this many records were found.
    ///
    /// # Errors
    ///
    /// `Lost` where it has had more.
    pub(crate) fn open(rt: &HostRuntime, folder: &str, found: u64) -> Result<Witness, StartFault> {
        let Ok(path) = format!(in rt.alloc(); "{folder}/records") else {
            return Err(StartFault::NoMemory);
        };
        let noted = noted(rt, path.as_str())?;
        if found < noted {
            return Err(StartFault::Lost { found, noted });
        }
        Ok(Witness {
            path,
            base: found,
            noted,
            is_synced: false,
        })
    }

    /// Counts records that were appended at the start.
    pub fn count_appended(&mut self, records: usize) {
        self.base = self.base.saturating_add(records as u64);
    }

    /// Writes the number into the file.
    fn write(&mut self, rt: &HostRuntime, number: u64) -> io::Result<()> {
        let text = format!(in rt.alloc(); "{number:020}\n")?;
        let mut file = OpenOptions::new()
            .write(true)
            .create(true)
            .mode(FILE_MODE)
            .open(rt, self.path.as_str())?;
        file.set_permissions(Permissions::from_mode(FILE_MODE))?;
        file.write_all(text.as_bytes())?;
        if !self.is_synced {
            file.sync_all()?;
            self.is_synced = true;
        }
        Ok(())
    }

    /// Notes that this many records were committed since the start, where these are more than at the last note.
    ///
    /// # Errors
    ///
    /// Where the file can't be written. It has the number of before, then.
    pub fn note(&mut self, rt: &HostRuntime, records: u64) -> io::Result<()> {
        let number = self.base.saturating_add(records);
        if number > self.noted {
            self.write(rt, number)?;
            self.noted = number;
        }
        Ok(())
    }
}
