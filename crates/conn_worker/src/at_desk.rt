//! Serving a connection at a desk of a shared book.

ghost use Rattle.std.specs.Prelude.{◌≡◌, ◌+◌, ◌<◌, false, vec_len};
ghost use Rattle.conn_worker.specs.Arriving.{BooksInLog};
ghost use Rattle.conn_worker.specs.Serving.{Serves};
ghost use Rattle.conn_worker.specs.Faults.{Rose};

use crate::clock::Clock;
use crate::counted::Counted;
use crate::lines::{log_arrival, log_break, log_fill, log_passed_over};
use crate::report::{ServeEnd, ServeReport};
use crate::session::serve_within;
use book_core::{BookRows, NotBooked, Receipt};
use book_lock::{Desk, Shared, Sharing};
use conn_core::{Booking, ConnectionId, NotPersisted, Unbooked};
use fixed_numbers::TURNS_MAX;
use judge_core::Judged;
use log::Log;
use mllp_frame::Break;
use plan_text::Plan;
use std::alloc::{AllocError, Global};
use std::io::{Read, Write};
use std::sync::{Arc, Wait};

/// An arrival looks at how full the book is, for the log, where the index of its entry is a multiple of this.
const FILL_STEP: usize = 16;

/// A desk of a shared book, at which messages are booked. Each call takes the book's lock for a moment.
#[derive(Drop)]
pub struct AtDesk<'a, A: Sharing, S: BookRows, H> {
    pub rt: &'a H,
    pub alloc: Global,
    pub shared: &'a Shared<A, S>,
    pub desk: &'a mut Desk<A>,
}

impl<'a, A: Sharing, S: BookRows, H: Wait + Log> AtDesk<'a, A, S, H> {
    /// Logs what became of an arrival, and from time to time how full the book is.
    fn log_outcome(&self, conn: u32, judged: &Judged, outcome: &Result<Receipt, NotBooked>) {
        log_arrival(self.rt, self.alloc, conn, judged, outcome);
        if outcome
            .as_ref()
            .is_ok_and(|receipt| receipt.entry % FILL_STEP == 0)
        {
            log_fill(self.rt, self.shared.gauge(self.rt));
        }
    }
}

impl<'a, A: Sharing, S: BookRows, H: Wait + Log> Booking for AtDesk<'a, A, S, H> {
    ghost use Rattle.std.specs.Prelude.{refl, ⊤};
    ghost use Rattle.book_lock.specs.inner.Planning.{WasInForce};
    ghost use Rattle.conn_worker.specs.inner.Arriving.{BooksAtDesk, desk_after, desk_nothing};

    /// The arrivals of these receipts were booked at the desk, in this order, and nothing else was. It is the same desk.
    ghost books = { λ old new receipts.
        BooksAtDesk A.opening old.desk.now new.desk.now receipts
        old.desk.ghost_name new.desk.ghost_name };

    ghost channels = { λ _. A.channels };

    ghost judges = { λ _ _. ⊤ };

    /// The plan was in force at a moment that the seat has seen, when as many plans had been deployed as the desk remembers.
    ghost judged_by = { λ x plan.
        WasInForce A.opening x.desk.now.seat.seen x.desk.now.deployed plan };

    ghost outcomes = { λ _ _ _. ⊤ };

    /// Each message that isn't booked is refused.
    ghost knows = { λ _ _ _. ⊥ };

    /// The book ends with its process.
    ghost survives = { λ _. ⊤ };

    ghost outlives = { λ _ _ _. ⊤ };

    fn plan(&mut self) -> Result<Arc<Plan>, AllocError> {
        self.shared.plan_at(self.rt, self.desk)
    }

    fn arrive(&mut self, conn: u32, judged: &Judged) -> Result<Receipt, Unbooked> {
        let outcome = self.shared.arrive(self.rt, self.desk, conn, judged);
        self.log_outcome(conn, judged, &outcome);
        match outcome {
            Ok(receipt) => Ok(receipt),
            Err(refusal) => Err(Unbooked::Refused(refusal)),
        }
    }

    fn arrive_judged(&mut self, conn: u32, judged: &Judged) -> Result<Receipt, Unbooked> {
        let outcome = self.shared.arrive_judged(self.rt, self.desk, conn, judged);
        self.log_outcome(conn, judged, &outcome);
        match outcome {
            Ok(receipt) => Ok(receipt),
            Err(refusal) => Err(Unbooked::Refused(refusal)),
        }
    }

    fn persist(&mut self) -> Result<(), NotPersisted> {
        Ok(())
    }

    fn pass_over(&mut self, conn: u32, judged: &Judged) {
        log_passed_over(self.rt, self.alloc, conn, judged);
    }

    fn note_break(&mut self, conn: u32, channel: u32, cause: Break) {
        if let Ok(plan) = self.shared.plan(self.rt) {
            log_break(self.rt, &plan, conn, channel, cause);
        }
    }

    ghost nothing = { λ x. desk_nothing A.opening x.desk.now x.desk.ghost_name };

    ghost after = { λ x y z rs ss.
        desk_after A.opening x.desk.now y.desk.now z.desk.now rs ss
        x.desk.ghost_name y.desk.ghost_name z.desk.ghost_name };

    ghost same_channels = { λ _ _ _ _. refl };

    ghost same_outcomes = { λ _ _ _ _ _ may. may };

    ghost still_knows = { λ _ _ _ _ _ _ known. known };
}

/// Serves a connection to its reader's end, or to a fault, or for [`TURNS_MAX`] reads or events, as connection `conn` of a
/// channel given by its index in the plan: each message is booked at the desk and acknowledged as its header requests
/// (HL7 v2.5.1, 2.9.2 and 2.9.3). The lock of the book is held neither while a message is judged, nor while the reader or
/// the writer waits. The moments of the replies are the clock's.
pub fn serve<A: Sharing, S: BookRows, R: Read, W: Write, C: Clock, H: Wait + Log>(
    rt: &H,
    alloc: Global,
    shared: &Shared<A, S>,
    desk: &mut Desk<A>,
    conn: u32,
    channel: u32,
    reader: &mut Counted<R>,
    writer: &mut Counted<W>,
    clock: &mut C,
) -> ServeReport
    requires channel { channel < A.channels }

    // The messages read, their answers, and what was written. None is answered as a repeat without being booked.
    ensures served { Serves (λ _. ⊥) conn channel (R.remaining reader.old.inner) (R.remaining reader.new.inner)
        (W.contents writer.old.inner) (W.contents writer.new.inner) result.receipts.items result }

    // What the desk added to the one history of the book is the arrivals of these receipts, in their order.
    ensures booked { BooksInLog A.opening desk.old.seat desk.new.seat result.receipts.items }

    // The receipts are as many as the arrivals that the desk counted.
    ensures counted { desk.new.made ≡ desk.old.made + vec_len result.receipts }

    // A fault is reported only where the device failed.
    ensures read_fault { result.end ≡ ServeEnd.ReadFault → Rose reader.old.faults reader.new.faults }
    ensures write_fault { result.end ≡ ServeEnd.WriteFault → Rose writer.old.faults writer.new.faults }

    // At the reader's end all that was written is flushed.
    ensures flushed { result.end ≡ ServeEnd.End → writer.old.unflushed ≡ false → writer.new.unflushed ≡ false }
{
    let line = ConnectionId {
        alloc,
        conn,
        channel,
    };
    let mut place = AtDesk {
        rt,
        alloc,
        shared,
        desk,
    };
    serve_within(&line, &mut place, reader, writer, clock, TURNS_MAX)
}
