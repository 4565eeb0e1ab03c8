//! The steps over the passes of a log.

ghost use Rattle.std.specs.Prelude.{◌≡◌, ◌<◌, ◌+◌, ◌∷◌, [], All};
ghost use Rattle.ghost_log.specs.inner.Passes.{IsAlone, IsFirst, IsFitting, IsJoint, IsRoll, extended, first_seen, joint_view, keeper_view, others_held, roll_view, seat_view, seen_of};
ghost use Rattle.ghost_log.specs.Seats.{Agrees};

use crate::rule::{AddsEntries, Compares, Entries, Issues, LogRule, PassView, Visits};
use atomic_table::{Badge, Table};
use std::alloc::Global;
use std::marker::Brand;

/// The table in which the passes are kept.
pub type Memory<E> = Table<(), PassView<E>, (), LogRule, Global>;

/// A pass of that table.
pub type Pass<E> = atomic_table::Seat<(), PassView<E>>;

/// The pass of a new seat.
pub fn issue<E>(table: &Memory<E>, keeper: &mut Pass<E>, number: u64) -> Badge<PassView<E>>
    requires words { table.now.shared.table_id.words ≡ 1 }
    requires table { keeper.old.table_id ≡ table.now.shared.table_id }
    requires keeper { keeper.old.me ≡ (keeper_view keeper.old.me.0.log number, []) }
    ensures table { keeper.new.table_id ≡ keeper.old.table_id }
    ensures keeper { keeper.new.me ≡ (keeper_view keeper.old.me.0.log (number + 1), []) }
    ensures same { result.table_id ≡ keeper.old.table_id }
    ensures badge { result.views ≡ seat_view number [] ∷ [] }
{
    let _ = number;
    table.shared.split_seat::<Issues>(keeper).into_badge()
}

/// Joins the pass of a seat to the keeper's.
pub fn attach<E>(table: &Memory<E>, keeper: &mut Pass<E>, badge: Badge<PassView<E>>, number: u64)
    requires words { table.now.shared.table_id.words ≡ 1 }
    requires table { keeper.old.table_id ≡ table.now.shared.table_id }
    requires same { badge.table_id ≡ table.now.shared.table_id }
    requires keeper { IsAlone keeper.old.me }
    requires badge { badge.views ≡ seat_view number (seen_of badge.views) ∷ [] }
    ensures table { keeper.new.table_id ≡ keeper.old.table_id }
    ensures keeper { keeper.new.me
        ≡ (joint_view keeper.old.me.0.log keeper.old.me.0.issued number (seen_of badge.views), []) }
{
    let _ = number;
    let pass = badge.into_seat();
    table.shared.join_seat::<Visits>(keeper, pass);
}

/// Joins the pass of one more seat to the keeper's.
pub fn hold<E>(table: &Memory<E>, keeper: &mut Pass<E>, badge: Badge<PassView<E>>, number: u64)
    requires words { table.now.shared.table_id.words ≡ 1 }
    requires table { keeper.old.table_id ≡ table.now.shared.table_id }
    requires same { badge.table_id ≡ table.now.shared.table_id }
    requires keeper { IsRoll keeper.old.me }
    requires badge { badge.views ≡ seat_view number (seen_of badge.views) ∷ [] }
    ensures table { keeper.new.table_id ≡ keeper.old.table_id }
    ensures keeper { keeper.new.me
        ≡ (
          roll_view keeper.old.me.0.log keeper.old.me.0.issued
              ((number, seen_of badge.views) ∷ keeper.old.me.0.held),
          [],
        ) }
{
    let _ = number;
    let pass = badge.into_seat();
    table.shared.join_seat::<Visits>(keeper, pass);
}

/// Takes the pass of the seat that was joined last out of the keeper's again.
pub fn release<E>(table: &Memory<E>, keeper: &mut Pass<E>, number: u64) -> Badge<PassView<E>>
    requires words { table.now.shared.table_id.words ≡ 1 }
    requires table { keeper.old.table_id ≡ table.now.shared.table_id }
    requires keeper { IsRoll keeper.old.me }
    requires first { IsFirst number keeper.old.me.0.held }
    ensures table { keeper.new.table_id ≡ keeper.old.table_id }
    ensures same { result.table_id ≡ keeper.old.table_id }
    ensures keeper { keeper.new.me
        ≡ (
          roll_view keeper.old.me.0.log keeper.old.me.0.issued (others_held keeper.old.me.0.held),
          [],
        ) }
    ensures badge { result.views ≡ seat_view number (first_seen keeper.old.me.0.held) ∷ [] }
{
    let _ = number;
    table.shared.split_seat::<Visits>(keeper).into_badge()
}

/// Takes the pass of the seat out of the keeper's again.
pub fn detach<E>(table: &Memory<E>, keeper: &mut Pass<E>, number: u64) -> Badge<PassView<E>>
    requires words { table.now.shared.table_id.words ≡ 1 }
    requires table { keeper.old.table_id ≡ table.now.shared.table_id }
    requires keeper { IsJoint number keeper.old.me }
    ensures table { keeper.new.table_id ≡ keeper.old.table_id }
    ensures same { result.table_id ≡ keeper.old.table_id }
    ensures keeper { keeper.new.me ≡ (keeper_view keeper.old.me.0.log keeper.old.me.0.issued, []) }
    ensures badge { result.views ≡ seat_view number (first_seen keeper.old.me.0.held) ∷ [] }
{
    let _ = number;
    table.shared.split_seat::<Visits>(keeper).into_badge()
}

/// Adds entries for the seat whose pass is joined.
pub fn add<N: Entries<E>, E>(table: &Memory<E>, keeper: &mut Pass<E>, number: u64)
    requires words { table.now.shared.table_id.words ≡ 1 }
    requires table { keeper.old.table_id ≡ table.now.shared.table_id }
    requires keeper { IsJoint number keeper.old.me }
    ensures table { keeper.new.table_id ≡ keeper.old.table_id }
    ensures keeper { keeper.new.me
        ≡ (
          joint_view (extended number N.entries keeper.old.me.0.log) keeper.old.me.0.issued
              number (extended number N.entries keeper.old.me.0.log),
          [],
        ) }
    ensures agreed { Agrees number (first_seen keeper.old.me.0.held) keeper.old.me.0.log }
{
    let _ = number;
    table.shared.load::<AddsEntries<N>>(keeper, 0);
}

/// Shows the log to the seat whose pass is joined.
pub fn show<E>(table: &Memory<E>, keeper: &mut Pass<E>, number: u64)
    requires words { table.now.shared.table_id.words ≡ 1 }
    requires table { keeper.old.table_id ≡ table.now.shared.table_id }
    requires keeper { IsJoint number keeper.old.me }
    ensures table { keeper.new.table_id ≡ keeper.old.table_id }
    ensures keeper { keeper.new.me
        ≡ (joint_view keeper.old.me.0.log keeper.old.me.0.issued number keeper.old.me.0.log, []) }
    ensures agreed { Agrees number (first_seen keeper.old.me.0.held) keeper.old.me.0.log }
{
    add::<Brand, E>(table, keeper, number);
}

/// Compares what the seat whose pass is joined has seen with the log.
pub fn compare<E>(table: &Memory<E>, keeper: &mut Pass<E>, number: u64)
    requires words { table.now.shared.table_id.words ≡ 1 }
    requires table { keeper.old.table_id ≡ table.now.shared.table_id }
    requires keeper { IsJoint number keeper.old.me }
    ensures table { keeper.new.table_id ≡ keeper.old.table_id }
    ensures keeper { keeper.new.me ≡ keeper.old.me }
    ensures agreed { Agrees number (first_seen keeper.old.me.0.held) keeper.old.me.0.log }
{
    let _ = number;
    table.shared.load::<Compares>(keeper, 0);
}

/// Compares the numbers in the log with the seats issued.
pub fn survey<E>(table: &Memory<E>, keeper: &mut Pass<E>)
    requires words { table.now.shared.table_id.words ≡ 1 }
    requires table { keeper.old.table_id ≡ table.now.shared.table_id }
    requires keeper { IsAlone keeper.old.me }
    ensures table { keeper.new.table_id ≡ keeper.old.table_id }
    ensures keeper { keeper.new.me ≡ keeper.old.me }
    ensures within { All (λ x. x.0 < keeper.old.me.0.issued) keeper.old.me.0.log }
{
    table.shared.load::<Compares>(keeper, 0);
}

/// Compares all seats that are joined with the log and with each other.
pub fn review<E>(table: &Memory<E>, keeper: &mut Pass<E>)
    requires words { table.now.shared.table_id.words ≡ 1 }
    requires table { keeper.old.table_id ≡ table.now.shared.table_id }
    requires keeper { IsRoll keeper.old.me }
    ensures table { keeper.new.table_id ≡ keeper.old.table_id }
    ensures keeper { keeper.new.me ≡ keeper.old.me }
    ensures fitting { IsFitting keeper.old.me.0 }
{
    table.shared.load::<Compares>(keeper, 0);
}
