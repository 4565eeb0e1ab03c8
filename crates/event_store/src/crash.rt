ghost use Rattle.std.specs.Prelude.{◌≡◌, ◌⊎◌, ◌++◌, [], ◌∷◌, map, IfSome};
ghost use Rattle.sqlite_trees.specs.View.{IsClean};
ghost use Rattle.event_store.specs.Records.{records_in, record_of, contents, contents_of};

use crate::columns::Columns;
use crate::open::Opened;
use crate::records::EventStore;
use sqlite_trees::store::Reopen;
use std::alloc::Global;

/// A record is appended and committed, another is appended and its commit answers anything, and the machine crashes.
/// What is read then is all that was committed and the first record, or these and the second.
pub fn committed_outlives_a_crash<S: Reopen + Drop>(
    alloc: Global,
    mut events: EventStore<S>,
    first: &[u8],
    second: &[u8],
    columns: &Columns<'_>,
) -> Option<Opened<S>>
    ensures { let before = records_in (S.Store.view events.store).trees in
        let one = before ++ record_of first.now columns.now ∷ [] in
        let two = one ++ record_of second.now columns.now ∷ [] in
        IfSome result (λ r. IsClean (S.Store.view r.0.store)
        → (map contents_of r.1.items ≡ map contents one)
        ⊎ (map contents_of r.1.items ≡ map contents two)) }
{
    events.append(first, columns).ok()?;
    events.commit().ok()?;
    events.append(second, columns).ok()?;
    let _ = events.commit();
    match events.crash_and_reopen(alloc) {
        Ok(opened) => Some(opened),
        Err(_) => None,
    }
}
