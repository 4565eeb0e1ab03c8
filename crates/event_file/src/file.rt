ghost use Rattle.std.specs.Prelude.{◌≡◌, [], map, IfOk, IsTrue};
ghost use Rattle.sqlite_trees.specs.View.{IsClean};
ghost use Rattle.sqlite_store.specs.Unopened.{AreUsable, image};
ghost use Rattle.sqlite_store.specs.FileStore.{view};
ghost use Rattle.sqlite_wal.specs.Files.{seen_image};
ghost use Rattle.event_store.specs.Records.{records_in, contents_in, contents_of};
ghost use Rattle.event_file.specs.Found.{AreHeldBy};

use crate::{FORMAT, FileError, PAGE_SIZE};
use event_store::{EventStore, Opened, TABLE_SQL};
use sqlite_disk::{Disk, Files};
use sqlite_pager::{Options, Pager};
use sqlite_store::{FileStore, Unopened};
use sqlite_trees::schema::Object;
use sqlite_trees::store::{Alter, Shape};
use sqlite_wal::PageSize;
use std::alloc::Global;

/// Why files are not opened or made, with what is left of them.
pub enum Failed<D: Disk> {
    /// The files don't fit the schema or its sums, or a call of the disk failed.
    Database(sqlite_store::OpenError, Unopened<D>),
    /// The user version is this number and not 0.
    Format(u32, FileStore<D>),
    /// The table of the records.
    Records(event_store::OpenError, FileStore<D>),
}

/// The files, with the schema of a file of records. `seed` is a random number, for the salts of the log.
///
/// # Errors
///
/// [`FileError::OutOfMemory`].
pub fn prepare<D: Disk + Drop>(
    alloc: Global,
    files: Files<D>,
    seed: u64,
) -> Result<Unopened<D>, FileError>
    requires log { IsTrue (D.Disk.is_usable files.log) }
    requires db { IsTrue (D.Disk.is_usable files.db) }
    ensures usable { IfOk result AreUsable }
    ensures held { IfOk result (λ it. image it ≡ seen_image D.Disk files.log files.db) }
{
    let size = PageSize::new(PAGE_SIZE).unwrap();
    let Ok(pager) = Pager::new(alloc, files, size, Options::new(seed)) else {
        return Err(FileError::OutOfMemory);
    };
    let table = Object {
        shape: Shape::Table,
        kind: "table",
        name: "event",
        table: "event",
        reals: 0,
        sql: Some(TABLE_SQL),
    };
    match Unopened::with_sums(alloc, pager, &[table], true) {
        Ok(files) => Ok(files),
        Err(_) => Err(FileError::OutOfMemory),
    }
}

/// Opens the files, which a crash may have left, and reads exactly the records that they hold. `first` is the number of
/// the first record.
///
/// # Errors
///
/// [`Failed::Database`] where the files are no database of this schema, are damaged or cannot be read;
/// [`Failed::Format`] where their user version is not 0; [`Failed::Records`] where the table holds something else than
/// records from `first` on.
pub fn open<D: Disk>(
    alloc: Global,
    first: u64,
    files: Unopened<D>,
) -> Result<Opened<FileStore<D>>, Failed<D>>
    requires { AreUsable files }
    ensures held { IfOk result (λ r. IsClean (view r.0.store)
        → AreHeldBy files (map contents_of r.1.items)) }
    ensures read { IfOk result (λ r. IsClean (view r.0.store)
        → map contents_of r.1.items ≡ contents_in (view r.0.store).trees) }
    ensures first { IfOk result (λ r. r.0.first ≡ first) }
{
    let store = match files.open() {
        Ok(store) => store,
        Err((error, files)) => return Err(Failed::Database(error, files)),
    };
    let format = store.version();
    if format != FORMAT {
        return Err(Failed::Format(format, store));
    }
    match EventStore::open(alloc, first, store) {
        Ok(opened) => Ok(opened),
        Err((error, store)) => Err(Failed::Records(error, store)),
    }
}

/// Makes a file with no record, the first of which will have the number `first`. Files that hold a database are left as
/// they are; those that a crash left in a creation are finished.
///
/// # Errors
///
/// [`Failed::Database`] where the files hold a database, or a call of the disk failed.
pub fn create<D: Disk>(
    alloc: Global,
    first: u64,
    files: Unopened<D>,
) -> Result<Opened<FileStore<D>>, Failed<D>>
    requires { AreUsable files }
    ensures empty { IfOk result (λ r. IsClean (view r.0.store)
        → records_in (view r.0.store).trees ≡ []) }
    ensures read { IfOk result (λ r. IsClean (view r.0.store)
        → map contents_of r.1.items ≡ contents_in (view r.0.store).trees) }
    ensures first { IfOk result (λ r. r.0.first ≡ first) }
{
    let store = match files.create() {
        Ok(store) => store,
        Err((error, files)) => return Err(Failed::Database(error, files)),
    };
    match EventStore::open(alloc, first, store) {
        Ok(created) => Ok(created),
        Err((error, store)) => Err(Failed::Records(error, store)),
    }
}
