//! A desk of a shared book that prunes itself, at which the messages of a channel are booked.

ghost use Rattle.std.specs.Prelude.{◌≡◌, ◌↔◌, Err, IfOk, IfSome, IsErrOf, IsNone, IsTrue, OnErr};
ghost use Rattle.judge_core.specs.Judging.{is_bookable};
ghost use Rattle.book_lock.specs.inner.Planning.{WasInForce};
ghost use Rattle.book_lock.specs.inner.Tidies.{ArrivesAtTidied};
ghost use Rattle.service_workers.specs.inner.Answering.{outcome_of};

use crate::pauses::paused_by;
use crate::site::{Crew, Site};
use book_core::{NotBooked, Receipt};
use book_lock::{Crowded, Desk, NotDurable, Sharing, Tidied, Tidying};
use conn_core::{Booking, NotPersisted, Unbooked};
use conn_worker::{log_arrival, log_break, log_cut, log_fill, log_passed_over, log_repeat};
use event_log::Told;
use judge_core::{Judged, judge};
use log::{Log, info, warn};
use mllp_frame::Break;
use plan_text::Plan;
use socket_options::is_broken;
use std::alloc::AllocError;
use std::net::{SocketAddr, TcpStream};
use std::sync::Arc;

/// An arrival looks at how full the book is, for the log and for pausing, where the index of its entry is a multiple of this.
const FILL_STEP: usize = 16;

/// A desk of a shared book. An arrival that finds the book tight, or without room for it, first forgets what is settled, but
/// for the last messages that the site keeps. One whose channel has a route to a crowded destination waits, and what its sender
/// sends next isn't read meanwhile. One for which there is no room, and which repeats a message that the book has, is answered as a
/// repeat, and not booked. A call holds the book's lock for a moment; one that forgets messages holds it in proportion
/// to what is remembered. What is not booked is counted at once.
#[derive(Drop)]
pub struct AtPlace<'a, 'x, A: Sharing, H> {
    pub site: &'a Site<'x, A, H>,
    pub desk: &'a mut Desk<A>,
    /// The connection over which the messages are received.
    pub stream: &'a TcpStream,
    /// The address of the connection's peer.
    pub peer: SocketAddr,
}

/// Logs what was done about a tight book.
fn log_tidying<H: Log>(rt: &H, tidying: Tidying) {
    match tidying {
        Tidying::NotTight => {}
        Tidying::Pruned { before } => info!(rt; before; "settled messages forgotten"),
        Tidying::Refused(refusal) => warn!(rt; "the book is tight and can't be pruned: {refusal}"),
    }
}

/// Whether an arrival was refused because another plan was deployed after its message was judged.
fn is_plan_changed(receipt: &Result<Receipt, NotBooked>) -> bool
    ensures { IsTrue result ↔ IsErrOf receipt.now NotBooked.PlanChanged }
{
    matches!(receipt, Err(NotBooked::PlanChanged))
}

/// Books an arrival, unless its channel has a route to a crowded destination. `by_desk` says that the message was judged by the
/// plan that the desk was given.
fn book_tidied<A: Sharing, H: Crew>(
    site: &Site<'_, A, H>,
    desk: &mut Desk<A>,
    conn: u32,
    judged: &Judged,
    by_desk: bool,
) -> Result<Tidied, Crowded>
    requires bookable { IsTrue (is_bookable judged.now.raw) }
    requires by_plan { IsTrue by_desk → WasInForce A.opening
        desk.old.seat.seen desk.old.deployed judged.now.plan }
    ensures arrives { IfOk result (ArrivesAtTidied A.opening conn judged.now desk.old desk.new) }
    ensures same { OnErr result (desk.new ≡ desk.old) }
{
    if by_desk {
        return site
            .shared
            .arrive_tidy_judged(site.rt, desk, conn, judged, site.keep);
    }
    site.shared
        .arrive_tidy(site.rt, desk, conn, judged, site.keep)
}

/// Books an arrival once its channel has no route to a crowded destination. Nothing is booked where the service stops before
/// that, or the connection was reset: its sender has to send again what was not acknowledged.
fn book_when_free<A: Sharing, H: Crew>(
    site: &Site<'_, A, H>,
    stream: &TcpStream,
    desk: &mut Desk<A>,
    conn: u32,
    judged: &Judged,
    by_desk: bool,
) -> Option<Tidied>
    requires bookable { IsTrue (is_bookable judged.now.raw) }
    requires by_plan { IsTrue by_desk → WasInForce A.opening
        desk.old.seat.seen desk.old.deployed judged.now.plan }
    ensures arrives { IfSome result (ArrivesAtTidied A.opening conn judged.now desk.old desk.new) }
    ensures same { IsNone result → desk.new ≡ desk.old }
{
    let channel = judged.channel();
    'tries: for _ in site.rt.forever() {
        if is_broken(stream) {
            return None;
        }
        match book_tidied(site, desk, conn, judged, by_desk) {
            Ok(tidied) => return Some(tidied),
            Err(crowded) => log_tidying(site.rt, crowded.tidying),
        }
        site.hold_back_also(channel);
        if !site.wait_for_room(channel, stream) {
            return None;
        }
    }
    None
}

/// Has reading pause at the channels that the book has no room for, at once: many messages may be received before the warden
/// looks. It is the warden that logs it, and has reading go on.
fn pause_early<A: Sharing, H: Crew>(site: &Site<'_, A, H>) {
    // Where the plan can't be shared, the warden looks soon.
    if let Ok((status, plan)) = site.shared.status(site.rt) {
        site.pause_also(paused_by(&plan, &status, site.keep, site.paused()));
    }
}

impl<'a, 'x, A: Sharing, H: Crew> AtPlace<'a, 'x, A, H> {
    /// Notes the time of an arrival that was accepted or filtered, and looks from time to time how full the book is.
    fn note_receipt(&self, receipt: &Receipt) {
        if matches!(receipt.told, Told::Accepted(_) | Told::Filtered) {
            self.site.note_received(receipt.channel);
        }
        if let Told::Accepted(number) = receipt.told {
            self.site.note_accepted(number, self.peer);
        }
        if receipt.entry % FILL_STEP == 0 {
            log_fill(self.site.rt, self.site.shared.gauge(self.site.rt));
            pause_early(self.site);
        }
    }

    /// Logs and counts a message that is answered as a repeat without being booked.
    fn note_repeat(&self, conn: u32, judged: &Judged) {
        log_repeat(self.site.rt, conn, judged);
        self.site.count_repeat_unbooked();
    }

    /// Logs what became of an arrival, and counts one that was not booked.
    fn note_arrival(&self, conn: u32, judged: &Judged, tidied: Tidied) -> Result<Receipt, Unbooked>
        ensures { result ≡ outcome_of tidied.receipt tidied.repeats }
    {
        let Tidied {
            receipt,
            repeats,
            tidying,
        } = tidied;
        log_tidying(self.site.rt, tidying);
        if let Some(first) = repeats {
            self.note_repeat(conn, judged);
            return Err(Unbooked::Repeat(first));
        }
        log_arrival(self.site.rt, self.site.alloc, conn, judged, &receipt);
        match receipt {
            Ok(receipt) => {
                self.note_receipt(&receipt);
                Ok(receipt)
            }
            Err(cause) => {
                self.site.count_unbooked(cause);
                Err(Unbooked::Refused(cause))
            }
        }
    }

    /// Logs and counts an arrival that is not booked: the service stops while a destination of its channel is crowded, or the
    /// connection was reset. It is answered as one for which there is no room; over a connection that was reset nobody reads that.
    fn note_stop(&self, conn: u32, judged: &Judged) -> Result<Receipt, Unbooked>
        ensures { result ≡ Err (Unbooked.Refused NotBooked.Full) }
    {
        let refused = Err(Unbooked::Refused(NotBooked::Full));
        if is_broken(self.stream) {
            log_cut(self.site.rt, conn, judged);
            return refused;
        }
        log_arrival(
            self.site.rt,
            self.site.alloc,
            conn,
            judged,
            &Err(NotBooked::Full),
        );
        self.site.count_unbooked(NotBooked::Full);
        refused
    }

    /// A message judged once more, by the plan that is in force now. Nothing where memory is refused for that, or the plan
    /// doesn't have the message's channel.
    fn judged_anew(&self, judged: &Judged) -> Option<Judged>
        ensures channel { IfSome result (λ anew. anew.channel ≡ judged.now.channel) }
        ensures raw { IfSome result (λ anew. anew.raw ≡ judged.now.raw) }
    {
        let site = self.site;
        let plan = site.shared.plan(site.rt).ok()?;
        let channel = judged.channel();
        if channel >= plan.channels() {
            return None;
        }
        let raw = Vec::from_slice(site.alloc, judged.raw().as_slice()).ok()?;
        judge(site.alloc, &plan, channel, raw).ok()
    }
}

impl<'a, 'x, A: Sharing, H: Crew> Booking for AtPlace<'a, 'x, A, H> {
    ghost use Rattle.std.specs.Prelude.{refl, ⊤, IsTrue};
    ghost use Rattle.book_lock.specs.Durable.{AreArrivalsDurable, AreCommitted};
    ghost use Rattle.conn_worker.specs.Arriving.{IsDurablyKnown, IsKnownIn};
    ghost use Rattle.conn_worker.specs.inner.Arriving.{BooksAtDesk, desk_after, desk_nothing, desk_still_knows};

    /// The arrivals of these receipts were booked at the desk, in this order, and nothing else was. It is the same desk.
    ghost books = { λ old new receipts.
        BooksAtDesk A.opening old.desk.now new.desk.now receipts
        old.desk.ghost_name new.desk.ghost_name };

    ghost channels = { λ _. A.channels };

    ghost judges = { λ _ _. ⊤ };

    /// The plan was in force at a moment that the seat has seen, when as many plans had been deployed as the desk remembers.
    ghost judged_by = { λ x plan.
        WasInForce A.opening x.desk.now.seat.seen x.desk.now.deployed plan };

    ghost outcomes = { λ _ _ _. ⊤ };

    /// The book had the message at a moment that the seat has seen.
    ghost knows = { λ x. IsKnownIn A.opening x.desk.now.seat.seen };

    /// Where the history is written to a store, each arrival that was booked at the desk is durable, and what is durable follows
    /// its commit.
    ghost survives = { λ x. IsTrue x.site.now.is_stored →
        AreArrivalsDurable A.opening x.desk.now.seat
        × AreCommitted A.opening A.committed x.desk.now.seat.seen };

    /// Where the history is written to a store, all that the book had at that moment is durable.
    ghost outlives = { λ x channel raw. IsTrue x.site.now.is_stored →
        IsDurablyKnown A.opening x.desk.now.seat.seen channel raw };

    fn plan(&mut self) -> Result<Arc<Plan>, AllocError> {
        self.site.shared.plan_at(self.site.rt, self.desk)
    }

    fn arrive(&mut self, conn: u32, judged: &Judged) -> Result<Receipt, Unbooked> {
        match book_when_free(self.site, self.stream, self.desk, conn, judged, false) {
            Some(tidied) => self.note_arrival(conn, judged, tidied),
            None => self.note_stop(conn, judged),
        }
    }

    /// A message for which another plan was deployed since it was judged is judged once more. Where another one is
    /// deployed at that moment too, or memory is refused, it is not booked.
    fn arrive_judged(&mut self, conn: u32, judged: &Judged) -> Result<Receipt, Unbooked> {
        let booked = book_when_free(self.site, self.stream, self.desk, conn, judged, true);
        let Some(tidied) = booked else {
            return self.note_stop(conn, judged);
        };
        if is_plan_changed(&tidied.receipt)
            && let Some(anew) = self.judged_anew(judged)
        {
            log_tidying(self.site.rt, tidied.tidying);
            return self.arrive(conn, &anew);
        }
        self.note_arrival(conn, judged, tidied)
    }

    fn persist(&mut self) -> Result<(), NotPersisted> {
        if !self.site.is_stored {
            return Ok(());
        }
        match self.site.shared.wait_durable(self.site.rt, self.desk) {
            Ok(()) => Ok(()),
            Err(NotDurable) => Err(NotPersisted),
        }
    }

    fn pass_over(&mut self, conn: u32, judged: &Judged) {
        self.site.count_passed_over(judged);
        log_passed_over(self.site.rt, self.site.alloc, conn, judged);
    }

    fn note_break(&mut self, conn: u32, channel: u32, cause: Break) {
        self.site.count_broken();
        if let Ok(plan) = self.site.shared.plan(self.site.rt) {
            log_break(self.site.rt, &plan, conn, channel, cause);
        }
    }

    ghost nothing = { λ x. desk_nothing A.opening x.desk.now x.desk.ghost_name };

    ghost after = { λ x y z rs ss.
        desk_after A.opening x.desk.now y.desk.now z.desk.now rs ss
        x.desk.ghost_name y.desk.ghost_name z.desk.ghost_name };

    ghost same_channels = { λ _ _ _ _. refl };

    ghost same_outcomes = { λ _ _ _ _ _ may. may };

    ghost still_knows = { λ x y rs.
        desk_still_knows A.opening x.desk.now y.desk.now rs x.desk.ghost_name y.desk.ghost_name };
}
