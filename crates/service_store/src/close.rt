//! Closing a store in order.

use event_store::EventStore;
use sqlite_disk::Files;
use sqlite_std_file::File;
use sqlite_store::FileStore;
use sqlite_trees::error::StoreError;
use sqlite_trees::store::Store;

/// Copies what the log of a store has into its file. Returns the files, which stay locked for other processes until they are dropped.
///
/// # Errors
///
/// The store's. All that was committed is in the log then.
pub(crate) fn settled(events: EventStore<FileStore<File>>) -> Result<Files<File>, StoreError> {
    let mut store = events.into_store();
    store.rollback();
    let copied = store.checkpoint();
    let files = store.close();
    match copied {
        Ok(()) => Ok(files),
        Err(error) => Err(error),
    }
}

/// Closes a store in order: what its log has is copied into the database file. Without that the next open does it.
///
/// # Errors
///
/// The store's. All that was committed is in the log then.
pub fn close_store(events: EventStore<FileStore<File>>) -> Result<(), StoreError> {
    match settled(events) {
        Ok(_) => Ok(()),
        Err(error) => Err(error),
    }
}
