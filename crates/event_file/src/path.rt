ghost use Rattle.std.specs.Prelude.{◌≡◌, [], map, IfOk};
ghost use Rattle.sqlite_wal.specs.Files.{image_at};
ghost use Rattle.sqlite_trees.specs.View.{IsClean};
ghost use Rattle.sqlite_store.specs.Unopened.{AreUsable, image};
ghost use Rattle.sqlite_store.specs.FileStore.{view};
ghost use Rattle.event_store.specs.Records.{records_in, contents_in, contents_of};
ghost use Rattle.event_file.specs.Found.{AreHeldIn};

use crate::{FileError, create, open, prepare};
use event_store::Opened;
use sqlite_std_file::{FileFrom, Start};
use sqlite_store::{FileStore, Unopened};

fn files_at<S: Start>(
    rt: &HostRuntime,
    path: &str,
    seed: u64,
    start: S,
) -> Result<Unopened<FileFrom<S>>, FileError>
    ensures usable { IfOk result AreUsable }
    ensures held { IfOk result (λ files. image files ≡ image_at S.Start) }
{
    let files = match sqlite_std_file::open(rt, path, start) {
        Ok(files) => files,
        Err(error) => return Err(FileError::Path(error)),
    };
    prepare(rt.alloc(), files, seed)
}

/// Opens the file at a path, and its log `PATH-wal`, and reads exactly the records that they hold. `S` is what the two
/// held, whatever a crash made of them; `first` is the number of the first record, and `seed` a random number.
///
/// # Errors
///
/// As [`open`]; [`FileError::Path`] where a file cannot be opened or made, or is in use.
pub fn open_at<S: Start>(
    rt: &HostRuntime,
    path: &str,
    first: u64,
    seed: u64,
    start: S,
) -> Result<Opened<FileStore<FileFrom<S>>>, FileError>
    ensures held { IfOk result (λ r. IsClean (view r.0.store)
        → AreHeldIn (image_at S.Start) (map contents_of r.1.items)) }
    ensures read { IfOk result (λ r. IsClean (view r.0.store)
        → map contents_of r.1.items ≡ contents_in (view r.0.store).trees) }
    ensures first { IfOk result (λ r. r.0.first ≡ first) }
{
    let files = files_at(rt, path, seed, start)?;
    match open(rt.alloc(), first, files) {
        Ok(opened) => Ok(opened),
        Err(failed) => Err(FileError::from(failed)),
    }
}

/// Makes a file with no record at a path, and its log. A file that holds a database is left as it is; one whose making a
/// crash cut off is finished. `first` is the number that the first record will have, and `seed` a random number.
///
/// # Errors
///
/// As [`create`]; [`FileError::Path`] where a file cannot be opened or made, or is in use.
pub fn create_at<S: Start>(
    rt: &HostRuntime,
    path: &str,
    first: u64,
    seed: u64,
    start: S,
) -> Result<Opened<FileStore<FileFrom<S>>>, FileError>
    ensures empty { IfOk result (λ r. IsClean (view r.0.store)
        → records_in (view r.0.store).trees ≡ []) }
    ensures read { IfOk result (λ r. IsClean (view r.0.store)
        → map contents_of r.1.items ≡ contents_in (view r.0.store).trees) }
    ensures first { IfOk result (λ r. r.0.first ≡ first) }
{
    let files = files_at(rt, path, seed, start)?;
    match create(rt.alloc(), first, files) {
        Ok(opened) => Ok(opened),
        Err(failed) => Err(FileError::from(failed)),
    }
}
