//! The log, and the seats through which entries are added to it.

ghost use Rattle.std.specs.Prelude.{◌≡◌, ◌<◌, ◌+◌, ◌++◌, ◌∷◌, ◌^◌, [], All};
ghost use Rattle.ghost_log.specs.Seats.{Agrees};
ghost use Rattle.ghost_log.specs.inner.Passes.{seat_view, seen_of};
ghost use Rattle.ghost_log.specs.inner.Seats.{entries_by};

use crate::rule::{BlankLog, Entries, LogRule, Naming, PassView};
use crate::steps::{Memory, Pass, add, attach, compare, detach, issue, show, survey};
use atomic_table::Badge;
use std::marker::{Model, PhantomData};
use std::mem::replace;

/// A seat of the log: contracts see its number and the prefix of the log that it has seen. No other seat of the log has
/// its number.
#[derive(Drop)]
pub struct Seat<J: Naming, E> {
    pub(crate) number: u64,
    pub(crate) badge: Badge<PassView<E>>,
    of: PhantomData<J>,
}

impl<J: Naming, E> Model for Seat<J, E> {
    ghost use Rattle.std.specs.Prelude.{◌≡◌, ◌∷◌, [], ℕ, List};
    ghost use Rattle.ghost_log.specs.inner.Passes.{seat_view, seen_of};

    ghost Value = { ℕ × List (ℕ × E) };

    ghost view = { λ s. (s.number, seen_of s.badge.views) };

    ghost invariant = { λ s.
        (s.badge.table_id ≡ J.table)
        × (s.badge.views ≡ seat_view s.number (seen_of s.badge.views) ∷ []) };
}

/// The log: contracts see its entries, each with the number of the seat that added it, and how many seats were issued.
#[derive(Drop)]
pub struct GhostLog<J: Naming, E> {
    pub(crate) table: Memory<E>,
    pub(crate) keeper: Pass<E>,
    pub(crate) issued: u64,
    pub(crate) of: PhantomData<J>,
}

impl<J: Naming, E> Model for GhostLog<J, E> {
    ghost use Rattle.std.specs.Prelude.{◌≡◌, [], ℕ, List};
    ghost use Rattle.ghost_log.specs.inner.Passes.{keeper_view};

    ghost Value = { List (ℕ × E) × ℕ };

    ghost view = { λ l. (l.keeper.me.0.log, l.issued) };

    ghost invariant = { λ l.
        (l.table.shared.table_id.words ≡ 1)
        × (l.table.shared.table_id ≡ J.table)
        × (l.keeper.table_id ≡ J.table)
        × (l.keeper.me ≡ (keeper_view l.keeper.me.0.log l.issued, [])) };
}

impl<J: Naming, E> Seat<J, E> {
    /// The seat of a number, by its pass.
    pub(crate) fn of_badge(number: u64, badge: Badge<PassView<E>>) -> Seat<J, E>
        requires table { badge.table_id ≡ J.table }
        requires views { badge.views ≡ seat_view number (seen_of badge.views) ∷ [] }
        ensures { result ≡ (number, seen_of badge.views) }
    {
        Seat {
            number,
            badge,
            of: PhantomData,
        }
    }

    /// The number of the seat.
    pub fn number(&self) -> u64
        ensures { result ≡ self.now.0 }
    {
        self.number
    }
}

impl<J: Naming, E> GhostLog<J, E> {
    /// An empty log with no seats.
    pub fn open(blank: BlankLog<E>) -> GhostLog<J, E>
        requires table { blank.table.shared.table_id ≡ J.table }
        ensures { result ≡ ([], 0) }
    {
        let BlankLog { table, keeper } = blank;
        GhostLog {
            table,
            keeper,
            issued: 0,
            of: PhantomData,
        }
    }

    /// A new seat, which has seen nothing. Its number is that of the seats issued before it.
    pub fn issue(&mut self) -> Seat<J, E>
        requires { self.old.1 + 1 < 2 ^ 64 }
        ensures log { self.new ≡ (self.old.0, self.old.1 + 1) }
        ensures seat { result ≡ (self.old.1, []) }
    {
        let number = self.issued;
        let badge = issue(&self.table, &mut self.keeper, number);
        self.issued += 1;
        Seat {
            number,
            badge,
            of: PhantomData,
        }
    }

    /// Adds entries for the seat, which has then seen the whole log. The call picks them from the value that they are about.
    pub fn push<X, N: Entries<E>>(&mut self, seat: &mut Seat<J, E>, about: &X)
        ensures log { self.new ≡ (self.old.0 ++ entries_by seat.old.0 N.entries, self.old.1) }
        ensures seat { seat.new ≡ (seat.old.0, self.new.0) }
        ensures agreed { Agrees seat.old.0 seat.old.1 self.old.0 }
    {
        let number = seat.number;
        let badge = replace(&mut seat.badge, Badge::blank());
        attach(&self.table, &mut self.keeper, badge, number);
        add::<N, E>(&self.table, &mut self.keeper, number);
        let _ = about;
        seat.badge = detach(&self.table, &mut self.keeper, number);
    }

    /// Shows the whole log to the seat, and adds nothing.
    pub fn observe(&mut self, seat: &mut Seat<J, E>)
        ensures same { self.new ≡ self.old }
        ensures seat { seat.new ≡ (seat.old.0, self.old.0) }
        ensures agreed { Agrees seat.old.0 seat.old.1 self.old.0 }
    {
        let number = seat.number;
        let badge = replace(&mut seat.badge, Badge::blank());
        attach(&self.table, &mut self.keeper, badge, number);
        show(&self.table, &mut self.keeper, number);
        seat.badge = detach(&self.table, &mut self.keeper, number);
    }

    /// Compares the seat with the log: what it has seen is a prefix of the log, with all entries of its number.
    pub fn audit(&mut self, seat: &mut Seat<J, E>)
        ensures same { (self.new ≡ self.old) × (seat.new ≡ seat.old) }
        ensures agreed { Agrees seat.old.0 seat.old.1 self.old.0 }
    {
        let number = seat.number;
        let badge = replace(&mut seat.badge, Badge::blank());
        attach(&self.table, &mut self.keeper, badge, number);
        compare(&self.table, &mut self.keeper, number);
        seat.badge = detach(&self.table, &mut self.keeper, number);
    }

    /// Compares the log with the seats issued: each entry has the number of one of them.
    pub fn audit_numbers(&mut self)
        ensures same { self.new ≡ self.old }
        ensures within { All (λ x. x.0 < self.old.1) self.old.0 }
    {
        survey(&self.table, &mut self.keeper);
    }
}
