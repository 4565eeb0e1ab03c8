use crate::Failed;
use sqlite_disk::Disk;
use thiserror::Error;

/// Why a file of records is not opened or made.
#[derive(Clone, Copy, Debug, Error)]
pub enum FileError {
    /// The path: a file that cannot be read, one that another process or handle has open, or one with a journal.
    #[error("{0}")]
    Path(sqlite_std_file::OpenError),
    #[error("out of memory")]
    OutOfMemory,
    /// The database: files that don't fit the schema or its sums, a failed call of the disk, or a limit of the format.
    #[error("{0}")]
    Database(sqlite_store::OpenError),
    /// The user version of the file is this number and not 0: another program, or another version of it, wrote the file.
    #[error("the file is of format {0}, and this program reads format 0")]
    Format(u32),
    /// The table of the records.
    #[error("{0}")]
    Records(event_store::OpenError),
}

impl<D: Disk + Drop> From<Failed<D>> for FileError {
    fn from(failed: Failed<D>) -> FileError {
        match failed {
            Failed::Database(error, _) => FileError::Database(error),
            Failed::Format(format, _) => FileError::Format(format),
            Failed::Records(error, _) => FileError::Records(error),
        }
    }
}
