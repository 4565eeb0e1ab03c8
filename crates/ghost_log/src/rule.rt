//! The rule of a log, which says what its passes know together, and the steps that keep it.

ghost use Rattle.std.specs.Prelude.{◌≡◌, []};
ghost use Rattle.ghost_log.specs.inner.Passes.{keeper_view};

use atomic_table::{Join, Play, Split, Table, TableRule};
use std::alloc::{AllocError, Global};
use std::collections::LinkedList;
use std::marker::{Brand, PhantomData};

/// What a pass knows. The keeper's pass knows the whole log and how many seats were issued. Each pass knows the seats that
/// it holds, each by its number and what it has seen: a seat's pass holds that seat. No value of it is made.
pub struct PassView<E> {
    pub keeps: bool,
    pub log: LinkedList<(u64, E)>,
    pub issued: u64,
    pub held: LinkedList<(u64, LinkedList<(u64, E)>)>,
}

/// The rule: one pass at most keeps the log, no number is held twice, and each seat has seen a prefix of the log.
pub struct LogRule;

impl<E> TableRule<(), PassView<E>, ()> for LogRule {
    ghost use Rattle.ghost_log.specs.inner.Passes.{IsConsistent, keeper_view};
    ghost use Rattle.std.specs.Prelude.{[]};

    ghost holds = { λ _ s. IsConsistent s.views };

    ghost first = { λ _. keeper_view [] 0 };
}

/// Which log a value belongs to. Each call that opens a log picks it.
pub trait Naming {
    ghost use Rattle.atomic_table.specs.Seated.{TableId};

    /// The table in which the log's passes are kept.
    ghost table: { TableId };
}

impl Naming for Brand {
    ghost use Rattle.ghost_log.specs.inner.Passes.{no_table};

    ghost table = { no_table };
}

/// The entries that a call adds. The call picks them.
pub trait Entries<E> {
    ghost use Rattle.std.specs.Prelude.{List};

    /// The entries in their order.
    ghost entries: { List E };
}

impl<E> Entries<E> for Brand {
    ghost use Rattle.std.specs.Prelude.{[]};

    ghost entries = { [] };
}

/// The step that adds the entries of a call.
pub struct AddsEntries<N> {
    of: PhantomData<N>,
}

impl<E, N: Entries<E>> Play<(), PassView<E>> for AddsEntries<N> {
    ghost use Rattle.ghost_log.specs.inner.Passes.{HasAdded};

    ghost then = { λ _ v _ w. HasAdded N.entries v w };
}

/// The step that compares the seats that are joined with the log and with each other.
pub struct Compares;

impl<E> Play<(), PassView<E>> for Compares {
    ghost use Rattle.ghost_log.specs.inner.Passes.{HasCompared};

    ghost then = { λ _ v _ w. HasCompared v w };
}

/// The steps by which a seat's pass joins the keeper's, and leaves it again.
pub struct Visits;

impl<E> Join<PassView<E>> for Visits {
    ghost use Rattle.ghost_log.specs.inner.Passes.{joined_views, empty_view};

    ghost both = { joined_views };

    ghost spent = { empty_view };
}

impl<E> Split<PassView<E>> for Visits {
    ghost use Rattle.ghost_log.specs.inner.Passes.{keeper_part, seat_part};

    ghost left = { keeper_part };

    ghost right = { seat_part };
}

/// The step that issues a seat.
pub struct Issues;

impl<E> Split<PassView<E>> for Issues {
    ghost use Rattle.ghost_log.specs.inner.Passes.{with_new_seat, new_seat_view};

    ghost left = { with_new_seat };

    ghost right = { new_seat_view };
}

/// An empty log that belongs to no one yet.
#[derive(Drop)]
pub struct BlankLog<E> {
    pub table: Table<(), PassView<E>, (), LogRule, Global>,
    pub keeper: atomic_table::Seat<(), PassView<E>>,
    pub ghost one_word: { table.shared.table_id.words ≡ 1 },
    pub ghost same_table: { keeper.table_id ≡ table.shared.table_id },
    pub ghost is_empty: { keeper.me ≡ (keeper_view [] 0, []) },
}

impl<E> BlankLog<E> {
    /// An empty log. Contracts know it by the table of its passes, which no other log has.
    ///
    /// # Errors
    ///
    /// Where memory for one word is refused.
    pub fn new(alloc: Global) -> Result<BlankLog<E>, AllocError> {
        let (table, keeper) = Table::of_words(alloc, &[0], &())?;
        Ok(BlankLog { table, keeper })
    }
}
