//! One record is booked again.

ghost use Rattle.std.specs.Prelude.{◌≡◌, ℕ, IsTrue, IfErr, IfOk, Ok, OnOk};
ghost use Rattle.std.specs.Arc.{arc_value};
ghost use Rattle.judge_core.specs.Judging.{is_bookable};
ghost use Rattle.plan_text.specs.Document.{plan_in};
ghost use Rattle.event_log.specs.declared.entry.Told.{Told as Answer};
ghost use Rattle.event_log.specs.History.{History, plan_in_force};
ghost use Rattle.event_records.specs.declared.record.Record.TheVariants.{Arrival, Cancel, Deploy, Prune, Settle, Take};
ghost use Rattle.book_replay.specs.Replay.{IsBooked, StopsAt};

use crate::fault::ReplayFault;
use book_core::{Book, BookRows};
use dest_queue::Outcome;
use event_log::{Ticket, Told};
use event_records::Record;
use hl7_head::Moment;
use judge_core::{Judged, Text, fits_block, judge};
use plan_text::{Plan, PlanFaultKind};
use std::alloc::Global;
use std::str;
use std::sync::Arc;

/// Books a message again that was judged by the plan in force, and compares its answer with the recorded one.
#[tactic(auto, using(crate::proofs::Arrivals::arrival_booked, crate::proofs::Arrivals::arrival_differs, crate::proofs::Arrivals::arrival_refused))]
fn book_again<S: BookRows>(
    book: &mut Book<S>,
    conn: u32,
    judged: &Judged,
    told: Told,
) -> Result<(), ReplayFault>
    requires bookable { IsTrue (is_bookable judged.now.raw) }
    requires same_plan { judged.now.plan ≡ plan_in_force book.old }
    ensures booked { OnOk result (IsBooked book.old book.new (Arrival conn judged.now.channel judged.now.raw told)) }
    ensures stops { IfErr result (λ fault. StopsAt fault book.old book.new (Arrival conn judged.now.channel judged.now.raw told)) }
{
    match book.book_arrival(conn, judged) {
        Ok(receipt) if receipt.told == told => Ok(()),
        Ok(_) => Err(ReplayFault::Differs),
        Err(refusal) => Err(ReplayFault::of_arrival(refusal)),
    }
}

/// The text that arrived, judged by the plan in force.
fn judged_again<S: BookRows>(
    alloc: Global,
    book: &Book<S>,
    channel: u32,
    raw: &Text,
) -> Result<Judged, ReplayFault>
    ensures judged { IfOk result (λ judged. judged ≡ record { plan = plan_in_force book.now; channel = channel; raw = raw.now }) }
    ensures bookable { OnOk result (IsTrue (is_bookable raw.now)) }
    ensures reason { (conn : ℕ) (told : Answer) → IfErr result (λ fault. StopsAt fault book.now book.now (Arrival conn channel raw.now told)) }
{
    let plan = Arc::try_clone(book.plan())?;
    if channel >= plan.channels() || !fits_block(raw.as_slice()) {
        return Err(ReplayFault::Invalid);
    }
    let bytes = Vec::from_slice(alloc, raw.as_slice())?;
    let judged = judge(alloc, &plan, channel, bytes)?;
    if !judged.bookable() {
        return Err(ReplayFault::Invalid);
    }
    Ok(judged)
}

/// Books an arrival again, by the plan in force, and compares its answer with the recorded one.
fn redo_arrival<S: BookRows>(
    alloc: Global,
    book: &mut Book<S>,
    conn: u32,
    channel: u32,
    raw: &Text,
    told: Told,
) -> Result<(), ReplayFault>
    ensures booked { OnOk result (IsBooked book.old book.new (Arrival conn channel raw.now told)) }
    ensures stops { IfErr result (λ fault. StopsAt fault book.old book.new (Arrival conn channel raw.now told)) }
{
    match judged_again(alloc, book, channel, raw) {
        Ok(judged) => book_again(book, conn, &judged, told),
        Err(fault) => Err(fault),
    }
}

/// Takes the front of a queue again.
#[tactic(auto, using(crate::proofs::Steps::take_booked, crate::proofs::Steps::take_stops))]
fn redo_take<S: BookRows>(book: &mut Book<S>, d: u32, now: Moment) -> Result<(), ReplayFault>
    ensures booked { OnOk result (IsBooked book.old book.new (Take d now)) }
    ensures stops { IfErr result (λ fault. StopsAt fault book.old book.new (Take d now)) }
{
    match book.take(d, now) {
        Ok(_) => Ok(()),
        Err(refusal) => Err(ReplayFault::of_take(refusal)),
    }
}

/// Settles an attempt again.
#[tactic(auto, using(crate::proofs::Steps::settle_booked, crate::proofs::Steps::settle_stops))]
fn redo_settlement<S: BookRows>(
    book: &mut Book<S>,
    ticket: &Ticket,
    outcome: Outcome,
    now: Moment,
) -> Result<(), ReplayFault>
    ensures booked { OnOk result (IsBooked book.old book.new (Settle ticket.now outcome now)) }
    ensures stops { IfErr result (λ fault. StopsAt fault book.old book.new (Settle ticket.now outcome now)) }
{
    match book.settle(ticket, outcome, now) {
        Ok(_) => Ok(()),
        Err(_) => Err(ReplayFault::Refused),
    }
}

/// Cancels a message again, among the same destinations.
#[tactic(auto, using(crate::proofs::Steps::cancel_booked, crate::proofs::Steps::cancel_stops))]
fn redo_cancellation<S: BookRows>(
    book: &mut Book<S>,
    number: u32,
    among: u32,
) -> Result<(), ReplayFault>
    ensures booked { OnOk result (IsBooked book.old book.new (Cancel number among)) }
    ensures stops { IfErr result (λ fault. StopsAt fault book.old book.new (Cancel number among)) }
{
    match book.cancel_among(number, among) {
        Ok(_) => Ok(()),
        Err(refusal) => Err(ReplayFault::of_cancellation(refusal)),
    }
}

/// The plan of a document.
fn plan_again(alloc: Global, document: &Text) -> Result<Arc<Plan>, ReplayFault>
    ensures read { IfOk result (λ plan. plan_in document.now ≡ Ok (arc_value plan)) }
    ensures reason { (h : History) → IfErr result (λ fault. StopsAt fault h h (Deploy document.now)) }
{
    if str::from_utf8(document.as_slice()).is_err() {
        return Err(ReplayFault::Invalid);
    }
    match Plan::read(alloc, document.as_slice()) {
        Ok(plan) => Ok(Arc::new(alloc, plan)?),
        Err(fault) => Err(match fault.name {
            PlanFaultKind::NoMemory => ReplayFault::NoMemory,
            _ => ReplayFault::Invalid,
        }),
    }
}

/// Deploys the plan of a document again.
#[tactic(auto, using(crate::proofs::Steps::deploy_booked, crate::proofs::Steps::deploy_stops))]
fn redo_deployment<S: BookRows>(
    alloc: Global,
    book: &mut Book<S>,
    document: &Text,
) -> Result<(), ReplayFault>
    ensures booked { OnOk result (IsBooked book.old book.new (Deploy document.now)) }
    ensures stops { IfErr result (λ fault. StopsAt fault book.old book.new (Deploy document.now)) }
{
    let plan = match plan_again(alloc, document) {
        Ok(plan) => plan,
        Err(fault) => return Err(fault),
    };
    match book.deploy(plan) {
        Ok(()) => Ok(()),
        Err(refusal) => Err(ReplayFault::of_deployment(refusal)),
    }
}

/// Forgets messages again.
#[tactic(auto, using(crate::proofs::Steps::prune_stops))]
fn redo_pruning<S: BookRows>(book: &mut Book<S>, before: u32) -> Result<(), ReplayFault>
    ensures booked { OnOk result (IsBooked book.old book.new (Prune before)) }
    ensures stops { IfErr result (λ fault. StopsAt fault book.old book.new (Prune before)) }
{
    match book.prune(before) {
        Ok(()) => Ok(()),
        Err(refusal) => Err(ReplayFault::of_pruning(refusal)),
    }
}

/// Books the event of a record again.
pub(crate) fn redo<S: BookRows>(
    alloc: Global,
    book: &mut Book<S>,
    event: &Record,
) -> Result<(), ReplayFault>
    ensures booked { OnOk result (IsBooked book.old book.new event.now) }
    ensures stops { IfErr result (λ fault. StopsAt fault book.old book.new event.now) }
{
    match event {
        Record::Arrival {
            conn,
            channel,
            raw,
            told,
        } => redo_arrival(alloc, book, *conn, *channel, raw, *told),
        Record::Take { destination, now } => redo_take(book, *destination, *now),
        Record::Settle {
            ticket,
            outcome,
            now,
        } => redo_settlement(book, ticket, *outcome, *now),
        Record::Cancel { number, among } => redo_cancellation(book, *number, *among),
        Record::Deploy { document } => redo_deployment(alloc, book, document),
        Record::Prune { before } => redo_pruning(book, *before),
    }
}
