//! What a store is said to hold when it is published.

ghost use Rattle.std.specs.Prelude.{◌≡◌};

use crate::journal::Journaling;
use book_lock::{DurableStore, LogEntry};
use event_store::EventStore;
use sqlite_trees::store::Store;
use std::marker::{Brand, PhantomData};

/// Which changes a store holds. The call that publishes them picks them.
pub trait HeldChanges {
    ghost use Rattle.std.specs.Prelude.{List};
    ghost use Rattle.book_lock.specs.declared.log_entry.LogEntry.{LogEntry};

    /// The changes, in order.
    ghost changes: { List LogEntry };
}

impl HeldChanges for Brand {
    ghost use Rattle.std.specs.Prelude.{[]};

    ghost changes = { [] };
}

/// A store that holds the changes of `N`, behind the rows that it had when the book was shared.
#[derive(Drop)]
pub struct Held<'a, A: Journaling, S: Store, N: HeldChanges> {
    store: &'a EventStore<S>,
    of: PhantomData<(A, N)>,
}

impl<'a, A: Journaling, S: Store, N: HeldChanges> Held<'a, A, S, N> {
    /// The store.
    pub fn of(store: &'a EventStore<S>) -> Held<'a, A, S, N>
        ensures { result.store.now ≡ store.now }
    {
        Held {
            store,
            of: PhantomData,
        }
    }
}

impl<'a, A: Journaling, S: Store, N: HeldChanges> DurableStore for Held<'a, A, S, N> {
    ghost use Rattle.std.specs.Prelude.{◌≡◌};
    ghost use Rattle.std.proofs.Common.{◌∙◌, sym};
    ghost use Rattle.book_journal.specs.inner.Held.{AreHeld};

    ghost holds = { λ x changes. (changes ≡ N.changes)
        × AreHeld (S.Store.view x.store.now.store) (S.Store.recovers x.store.now.store)
        A.before changes };

    ghost exact = { λ x es fs h k. h.0 ∙ sym k.0 };
}
