//! A log whose seats are handed in.

ghost use Rattle.std.specs.Prelude.{◌≡◌, ◌≢◌, ◌<◌, ◌∷◌, [], All, AllPairs};
ghost use Rattle.ghost_log.specs.Seats.{Agrees};
ghost use Rattle.ghost_log.specs.inner.Passes.{IsFirst};

use crate::log::{GhostLog, Seat};
use crate::rule::Naming;
use crate::steps::{Memory, Pass, hold, release, review};
use std::marker::{Model, PhantomData};

/// A log whose seats are handed in, and may be handed back. Contracts see its entries, how many seats were issued, and the
/// seats that it holds, the last one first, each by its number and what it has seen.
#[derive(Drop)]
pub struct Roll<J: Naming, E> {
    table: Memory<E>,
    keeper: Pass<E>,
    issued: u64,
    of: PhantomData<J>,
}

impl<J: Naming, E> Model for Roll<J, E> {
    ghost use Rattle.std.specs.Prelude.{◌≡◌, [], ℕ, List};
    ghost use Rattle.ghost_log.specs.inner.Passes.{roll_view};

    ghost Value = { List (ℕ × E) × ℕ × List (ℕ × List (ℕ × E)) };

    ghost view = { λ r. (r.keeper.me.0.log, r.issued, r.keeper.me.0.held) };

    ghost invariant = { λ r.
        (r.table.shared.table_id.words ≡ 1)
        × (r.table.shared.table_id ≡ J.table)
        × (r.keeper.table_id ≡ J.table)
        × (r.keeper.me ≡ (roll_view r.keeper.me.0.log r.issued r.keeper.me.0.held, [])) };
}

impl<J: Naming, E> Roll<J, E> {
    /// The log, which holds no seat yet.
    pub fn of(log: GhostLog<J, E>) -> Roll<J, E>
        ensures { result ≡ (log.0, log.1, []) }
    {
        let GhostLog {
            table,
            keeper,
            issued,
            ..
        } = log;
        Roll {
            table,
            keeper,
            issued,
            of: PhantomData,
        }
    }

    /// Holds the seat from now on.
    pub fn hold(&mut self, seat: Seat<J, E>)
        ensures { self.new ≡ (self.old.0, self.old.1, seat ∷ self.old.2) }
    {
        let Seat { number, badge, .. } = seat;
        hold(&self.table, &mut self.keeper, badge, number);
    }

    /// Hands back the seat that it has held for the shortest time, which has this number.
    pub fn release(&mut self, number: u64) -> Seat<J, E>
        requires { IsFirst number self.old.2 }
        ensures seat { result ∷ self.new.2 ≡ self.old.2 }
        ensures same { (self.new.0 ≡ self.old.0) × (self.new.1 ≡ self.old.1) }
    {
        let badge = release(&self.table, &mut self.keeper, number);
        Seat::of_badge(number, badge)
    }

    /// The log, once all seats were handed back.
    pub fn into_log(self) -> GhostLog<J, E>
        requires { self.2 ≡ [] }
        ensures { result ≡ (self.0, self.1) }
    {
        let Roll {
            table,
            keeper,
            issued,
            ..
        } = self;
        GhostLog {
            table,
            keeper,
            issued,
            of: PhantomData,
        }
    }

    /// Compares the seats that it holds with the log and with each other: each has seen a prefix of the log, with all
    /// entries of its number, and no two have the same number.
    pub fn compare(&mut self)
        ensures same { self.new ≡ self.old }
        ensures agreed { All (λ s. Agrees s.0 s.1 self.old.0) self.old.2 }
        ensures apart { AllPairs (λ s t. s.0 ≢ t.0) self.old.2 }
        ensures issued { All (λ s. s.0 < self.old.1) self.old.2 }
        ensures within { All (λ x. x.0 < self.old.1) self.old.0 }
    {
        review(&self.table, &mut self.keeper);
    }
}
