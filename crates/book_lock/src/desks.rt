//! The counts of the arrivals, of the takes and of the settlements, and the seats of those who make them.

ghost use Rattle.std.specs.Prelude.{◌≡◌, ◌+◌, ◌++◌, ◌∷◌, ◌<◌, ◌≤◌, ◌^◌, [], All, map, vec_capacity, vec_len, IfOk, OnOk};
ghost use Rattle.ghost_log.specs.Seats.{Agrees};
ghost use Rattle.book_lock.specs.inner.Counts.{arrival_entry, count_in, count_of, is_arrival, is_settlement, is_take, settlement_entry, take_entry};
ghost use Rattle.book_lock.specs.inner.Log.{AreInLog, desk_seat, new_seats, station_seat};
ghost use Rattle.book_lock.specs.Shares.{DeskView, StationView, arrivals_of, settlements_of, takes_of};
ghost use Rattle.book_lock.specs.inner.Shares.{no_calls, with_settlement, with_take};

use crate::locked::Sharing;
use crate::log_entry::LogEntry;
use book_core::{Receipt, Ticket};
use dest_queue::{Outcome, SlotState};
use ghost_log::{GhostLog, Roll, Seat};
use hl7_head::Moment;
use std::alloc::{AllocError, Global};
use std::marker::{Brand, Model};

/// A settlement: its outcome, the ticket, the moment, and the slot's new state.
pub type Settled = (Outcome, Ticket, Moment, SlotState);

/// A worker's share of the arrivals, and its seat: contracts see how many arrivals were booked at it since the book was
/// shared, how many plans had been deployed when it was last given the plan to judge by, and what the seat has seen of the
/// log. Those arrivals are the ones that its seat added to the log.
#[derive(Drop)]
pub struct Desk<A: Sharing> {
    made: u64,
    deployed: u32,
    seat: Seat<A, LogEntry>,
}

impl<A: Sharing> Model for Desk<A> {
    ghost use Rattle.std.specs.Prelude.{◌≡◌, ◌<◌};
    ghost use Rattle.book_lock.specs.Shares.{DeskView};
    ghost use Rattle.book_lock.specs.inner.Coding.{desk_code};
    ghost use Rattle.book_lock.specs.inner.Counts.{count_of, is_arrival};

    ghost Value = { DeskView };

    ghost coded = { desk_code };

    ghost view = { λ d. record {
      made = d.made;
      deployed = d.deployed;
      seat = record { number = d.seat.0; seen = d.seat.1 };
    } };

    ghost invariant = { λ d.
        (d.seat.0 < A.desks) × (d.made ≡ count_of is_arrival d.seat.0 d.seat.1) };
}

/// A worker's shares of the takes and of the settlements, and its seat: contracts see how many of each were made at it, and
/// what the seat has seen of the log. Those takes and settlements are the ones that its seat added to the log.
#[derive(Drop)]
pub struct Station<A: Sharing> {
    taken: u64,
    settled: u64,
    seat: Seat<A, LogEntry>,
}

impl<A: Sharing> Model for Station<A> {
    ghost use Rattle.std.specs.Prelude.{◌≡◌, ◌+◌, ◌<◌, ◌≤◌};
    ghost use Rattle.book_lock.specs.Shares.{StationView};
    ghost use Rattle.book_lock.specs.inner.Coding.{station_code};
    ghost use Rattle.book_lock.specs.inner.Counts.{count_of, is_settlement, is_take};

    ghost Value = { StationView };

    ghost coded = { station_code };

    ghost view = { λ s. record {
      counts = record { takes = s.taken; settlements = s.settled };
      seat = record { number = s.seat.0; seen = s.seat.1 };
    } };

    ghost invariant = { λ s.
        (A.desks ≤ s.seat.0)
        × (s.seat.0 < A.desks + A.stations)
        × (s.taken ≡ count_of is_take s.seat.0 s.seat.1)
        × (s.settled ≡ count_of is_settlement s.seat.0 s.seat.1) };
}

impl<A: Sharing> Desk<A> {
    /// How many arrivals were booked at this desk.
    pub fn made(&self) -> u64
        ensures { result ≡ self.now.made }
    {
        self.made
    }

    /// How many plans had been deployed, in all, when the desk was last given the plan to judge by.
    pub fn deployed(&self) -> u32
        ensures { result ≡ self.now.deployed }
    {
        self.deployed
    }

    /// Remembers how many plans had been deployed, in all, when the desk is given the plan to judge by.
    pub(crate) fn remember(&mut self, deployed: u32)
        ensures { self.new ≡ record self.old { deployed = deployed } }
    {
        self.deployed = deployed;
    }

    /// Compares the desk with the log, which has at least the arrivals that this desk made.
    pub fn audit(&mut self, log: &mut GhostLog<A, LogEntry>)
        ensures same { (self.new ≡ self.old) × (log.new ≡ log.old) }
        ensures bound { self.old.made ≤ count_in is_arrival log.old.0 }
        ensures agreed { Agrees self.old.seat.number self.old.seat.seen log.old.0 }
    {
        log.audit(&mut self.seat);
    }

    /// Counts an arrival, and adds it to the log for the desk's seat, which has then seen all of the log.
    pub fn add_arrival(&mut self, log: &mut GhostLog<A, LogEntry>, receipt: &Receipt)
        requires { count_in is_arrival log.old.0 + 1 < 2 ^ 64 }
        ensures made { self.new.made ≡ self.old.made + 1 }
        ensures log { log.new
            ≡ (log.old.0 ++ (self.old.seat.number, arrival_entry receipt.now) ∷ [], log.old.1) }
        ensures seat { self.new.seat ≡ record self.old.seat { seen = log.new.0 } }
    {
        log.push::<Receipt, Brand>(&mut self.seat, receipt);
        self.made += 1;
    }

    /// Shows the whole log to the desk's seat.
    pub fn observe(&mut self, log: &mut GhostLog<A, LogEntry>)
        ensures log { log.new ≡ log.old }
        ensures made { self.new.made ≡ self.old.made }
        ensures deployed { self.new.deployed ≡ self.old.deployed }
        ensures seat { self.new.seat ≡ record self.old.seat { seen = log.old.0 } }
        ensures number { self.old.seat.number < A.desks }
        ensures agreed { Agrees self.old.seat.number self.old.seat.seen log.old.0 }
    {
        log.observe(&mut self.seat);
    }
}

impl<A: Sharing> Station<A> {
    /// How many takes were made at this station.
    pub fn taken(&self) -> u64
        ensures { result ≡ self.now.counts.takes }
    {
        self.taken
    }

    /// How many settlements were made at this station.
    pub fn settled(&self) -> u64
        ensures { result ≡ self.now.counts.settlements }
    {
        self.settled
    }

    /// Counts a take, and adds it to the log for the station's seat, which has then seen all of the log.
    pub fn add_take(&mut self, log: &mut GhostLog<A, LogEntry>, ticket: &Ticket, now: Moment)
        requires { count_in is_take log.old.0 + 1 < 2 ^ 64 }
        ensures counts { self.new.counts ≡ with_take self.old.counts }
        ensures log { log.new
            ≡ (log.old.0 ++ (self.old.seat.number, take_entry ticket.now now) ∷ [], log.old.1) }
        ensures seat { self.new.seat ≡ record self.old.seat { seen = log.new.0 } }
    {
        log.push::<(Ticket, Moment), Brand>(&mut self.seat, &(*ticket, now));
        self.taken += 1;
    }

    /// Counts a settlement, and adds it to the log for the station's seat, which has then seen all of the log.
    pub fn add_settlement(&mut self, log: &mut GhostLog<A, LogEntry>, made: &Settled)
        requires { count_in is_settlement log.old.0 + 1 < 2 ^ 64 }
        ensures counts { self.new.counts ≡ with_settlement self.old.counts }
        ensures log { log.new
            ≡ (
              log.old.0
                  ++ (self.old.seat.number, settlement_entry made.now.0 made.now.1 made.now.2 made.now.3) ∷ [],
              log.old.1,
            ) }
        ensures seat { self.new.seat ≡ record self.old.seat { seen = log.new.0 } }
    {
        log.push::<Settled, Brand>(&mut self.seat, made);
        self.settled += 1;
    }

    /// Shows the whole log to the station's seat.
    pub fn observe(&mut self, log: &mut GhostLog<A, LogEntry>)
        ensures log { log.new ≡ log.old }
        ensures counts { self.new.counts ≡ self.old.counts }
        ensures seat { self.new.seat ≡ record self.old.seat { seen = log.old.0 } }
        ensures number { (A.desks ≤ self.old.seat.number)
            × (self.old.seat.number < A.desks + A.stations) }
        ensures agreed { Agrees self.old.seat.number self.old.seat.seen log.old.0 }
    {
        log.observe(&mut self.seat);
    }
}

/// The arrivals that were booked at these desks.
pub fn made_by<A: Sharing>(desks: &[Desk<A>]) -> u128
    ensures { result ≡ arrivals_of desks.now }
{
    desks.iter().map(|desk| u128::from(desk.made())).sum()
}

/// The takes that were made at these stations.
pub fn taken_at<A: Sharing>(stations: &[Station<A>]) -> u128
    ensures { result ≡ takes_of stations.now }
{
    stations
        .iter()
        .map(|station| u128::from(station.taken()))
        .sum()
}

/// The settlements that were made at these stations.
pub fn settled_at<A: Sharing>(stations: &[Station<A>]) -> u128
    ensures { result ≡ settlements_of stations.now }
{
    stations
        .iter()
        .map(|station| u128::from(station.settled()))
        .sum()
}

/// Issues the seats of `count` desks.
///
/// # Errors
///
/// Where memory is refused.
pub fn open_desks<A: Sharing>(
    alloc: Global,
    log: &mut GhostLog<A, LogEntry>,
    count: usize,
) -> Result<Vec<Desk<A>>, AllocError>
    requires log { (log.old.1 ≡ 0) × (count ≡ A.desks) }
    ensures log { OnOk result (log.new ≡ (log.old.0, log.old.1 + count)) }
    ensures few { OnOk result (count < 2 ^ 63) }
    ensures desks { IfOk result (λ d. (vec_len d ≡ count) × All (λ d. d.made ≡ 0) d.items) }
    ensures seats { IfOk result (λ d. map (λ d. d.seat) d.items ≡ new_seats log.old.1 count) }
{
    let mut desks = Vec::with_capacity(alloc, count)?;
    for _ in 0..count {
        desks.push_reserved(Desk {
            made: 0,
            deployed: 0,
            seat: log.issue(),
        });
    }
    Ok(desks)
}

/// Issues the seats of `count` stations, after those of all desks.
///
/// # Errors
///
/// Where memory is refused.
pub fn open_stations<A: Sharing>(
    alloc: Global,
    log: &mut GhostLog<A, LogEntry>,
    count: usize,
) -> Result<Vec<Station<A>>, AllocError>
    requires log { (log.old.1 ≡ A.desks) × (log.old.1 < 2 ^ 63) × (count ≡ A.stations) }
    ensures log { OnOk result (log.new ≡ (log.old.0, log.old.1 + count)) }
    ensures few { OnOk result (count < 2 ^ 63) }
    ensures stations { IfOk result (λ s.
        (vec_len s ≡ count) × All (λ s. s.counts ≡ no_calls) s.items) }
    ensures seats { IfOk result (λ s. map (λ s. s.seat) s.items ≡ new_seats log.old.1 count) }
{
    let mut stations = Vec::with_capacity(alloc, count)?;
    for _ in 0..count {
        stations.push_reserved(Station {
            taken: 0,
            settled: 0,
            seat: log.issue(),
        });
    }
    Ok(stations)
}

/// Compares the seats of all desks with the log and with those that it holds: each agrees with the log, and no two have the
/// same number. What each desk made is what its seat added to the log.
pub fn compare_desks<A: Sharing>(roll: &mut Roll<A, LogEntry>, desks: &mut Vec<Desk<A>>)
    ensures roll { roll.new ≡ roll.old }
    ensures desks { (desks.new.items ≡ desks.old.items) × (vec_capacity desks.new ≡ vec_capacity desks.old) }
    ensures held { AreInLog roll.old.0 (map desk_seat desks.old.items ++ roll.old.2) }
    ensures numbers { All (λ d. d.seat.number < A.desks) desks.old.items }
    ensures made { All (λ d. d.made ≡ count_of is_arrival d.seat.number d.seat.seen)
        desks.old.items }
{
    let Some(desk) = desks.pop() else {
        roll.compare();
        return;
    };
    let Desk {
        made,
        deployed,
        seat,
    } = desk;
    let number = seat.number();
    roll.hold(seat);
    compare_desks(roll, desks);
    let seat = roll.release(number);
    desks.push_reserved(Desk {
        made,
        deployed,
        seat,
    });
}

/// Compares the seats of all stations with the log, as [`compare_desks`] does with those of desks.
pub fn compare_stations<A: Sharing>(roll: &mut Roll<A, LogEntry>, stations: &mut Vec<Station<A>>)
    ensures roll { roll.new ≡ roll.old }
    ensures stations { (stations.new.items ≡ stations.old.items)
        × (vec_capacity stations.new ≡ vec_capacity stations.old) }
    ensures held { AreInLog roll.old.0 (map station_seat stations.old.items ++ roll.old.2) }
    ensures numbers { All (λ s. (A.desks ≤ s.seat.number) × (s.seat.number < A.desks + A.stations))
        stations.old.items }
    ensures taken { All (λ s. s.counts.takes ≡ count_of is_take s.seat.number s.seat.seen)
        stations.old.items }
    ensures settled { All (λ s. s.counts.settlements
        ≡ count_of is_settlement s.seat.number s.seat.seen) stations.old.items }
{
    let Some(station) = stations.pop() else {
        roll.compare();
        return;
    };
    let Station {
        taken,
        settled,
        seat,
    } = station;
    let number = seat.number();
    roll.hold(seat);
    compare_stations(roll, stations);
    let seat = roll.release(number);
    stations.push_reserved(Station {
        taken,
        settled,
        seat,
    });
}

/// Hands in the seats of all desks, which the log holds from then on. What each desk made is what its seat added to the log.
pub fn hand_in_desks<A: Sharing>(roll: &mut Roll<A, LogEntry>, mut desks: Vec<Desk<A>>)
    ensures roll { roll.new
        ≡ (
          roll.old.0,
          roll.old.1,
          map (λ d. (d.seat.number, d.seat.seen)) desks.items ++ roll.old.2,
        ) }
    ensures made { All (λ d. d.made ≡ count_of is_arrival d.seat.number d.seat.seen) desks.items }
{
    while let Some(desk) = desks.pop() {
        let Desk { seat, .. } = desk;
        roll.hold(seat);
    }
}

/// Hands in the seats of all stations, as [`hand_in_desks`] does with those of desks.
pub fn hand_in_stations<A: Sharing>(roll: &mut Roll<A, LogEntry>, mut stations: Vec<Station<A>>)
    ensures roll { roll.new
        ≡ (
          roll.old.0,
          roll.old.1,
          map (λ s. (s.seat.number, s.seat.seen)) stations.items ++ roll.old.2,
        ) }
    ensures taken { All (λ s. s.counts.takes ≡ count_of is_take s.seat.number s.seat.seen)
        stations.items }
    ensures settled { All (λ s. s.counts.settlements
        ≡ count_of is_settlement s.seat.number s.seat.seen) stations.items }
{
    while let Some(station) = stations.pop() {
        let Station { seat, .. } = station;
        roll.hold(seat);
    }
}
