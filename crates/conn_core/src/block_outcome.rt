//! What becomes of a block.

ghost use Rattle.std.specs.Prelude.{◌≡◌, ◌+◌, ◌<◌, ◌≤◌, [], IfOk, OnErr};
ghost use Rattle.mllp_frame.specs.Framing.{IsBlockData};
ghost use Rattle.conn_core.specs.inner.Outcomes.{AppendsReplies, BooksAndReplies, IsOutcome, KnowsRepeat, MayBecome, MayHave, dues_in, is_whole, receipts_in};
ghost use Rattle.conn_core.specs.inner.Replies.{told_by};

use crate::booking::{Booking, Unbooked};
use crate::line::ConnectionId;
use crate::replies::Replies;
use book_core::Receipt;
use event_log::Told;
use hl7_head::Moment;
use judge_core::{Judged, JudgedMessage};
use std::alloc::AllocError;

/// What became of a message.
#[derive(Drop)]
pub struct Booked {
    /// Its receipt, or what became of it where it was not booked.
    pub outcome: Result<Receipt, Unbooked>,
    /// Whether all replies that it is due were made, none of them refused memory.
    pub whole: bool,
}

/// What became of a block.
#[derive(Drop)]
pub enum BlockOutcome {
    /// It is no message: it has no header that can be read.
    Unreadable,
    /// It is an acknowledgment, which requests no answer.
    Stray,
    /// It is a message, which was booked or not, and answered.
    Message(Booked),
}

impl BlockOutcome {
    /// Whether all replies to the block were made.
    pub fn is_whole(&self) -> bool
        ensures { result ≡ is_whole self.now }
    {
        match self {
            BlockOutcome::Unreadable | BlockOutcome::Stray => true,
            BlockOutcome::Message(booked) => booked.whole,
        }
    }
}

/// The answer to a message, or what became of it where it was not booked.
fn told_by(outcome: &Result<Receipt, Unbooked>) -> Result<Told, Unbooked>
    ensures { result ≡ told_by outcome.now }
{
    match outcome {
        Ok(receipt) => Ok(receipt.told),
        Err(unbooked) => Err(*unbooked),
    }
}

/// Books a message, and appends its replies, at most two.
pub fn book_and_reply<B: Booking>(
    line: &ConnectionId,
    book: &mut B,
    message: &JudgedMessage<'_>,
    now: Moment,
    replies: &mut Replies,
) -> Booked
    requires few { replies.old.made + 2 ≤ u32.MAX }
    ensures does { BooksAndReplies B.books B.outcomes B.knows line.now.conn message.now now
        book.old book.new replies.old replies.new result }
    ensures few { replies.new.made ≤ replies.old.made + 2 }
{
    let outcome = book.arrive(line.conn, message.judged());
    let told = told_by(&outcome);
    let whole = replies
        .append(line.conn, message.header(), told, now)
        .is_ok();
    Booked { outcome, whole }
}

/// Books a message that was judged by the plan that `book` remembers, and appends its replies, as [`book_and_reply`] does.
fn book_judged<B: Booking>(
    line: &ConnectionId,
    book: &mut B,
    message: &JudgedMessage<'_>,
    now: Moment,
    replies: &mut Replies,
) -> Booked
    requires by_plan { B.judged_by book.old message.now.plan }
    requires few { replies.old.made + 2 ≤ u32.MAX }
    ensures does { BooksAndReplies B.books B.outcomes B.knows line.now.conn message.now now
        book.old book.new replies.old replies.new result }
    ensures few { replies.new.made ≤ replies.old.made + 2 }
{
    let outcome = book.arrive_judged(line.conn, message.judged());
    let told = told_by(&outcome);
    let whole = replies
        .append(line.conn, message.header(), told, now)
        .is_ok();
    Booked { outcome, whole }
}

/// Answers a block that was judged by the plan that `book` remembers, as [`answer_block`] does.
fn answer_judged<B: Booking>(
    line: &ConnectionId,
    book: &mut B,
    judged: &Judged,
    now: Moment,
    replies: &mut Replies,
) -> BlockOutcome
    requires few { replies.old.made + 2 ≤ u32.MAX }
    requires by_plan { B.judged_by book.old judged.now.plan }
    ensures kind { IsOutcome line.now.conn judged.now.channel judged.now.raw result }
    ensures booked { B.books book.old book.new (receipts_in result) }
    ensures told { MayHave (B.outcomes book.old judged.now) result }
    ensures known { KnowsRepeat (B.knows book.new judged.now.channel judged.now.raw) result }
    ensures replies { AppendsReplies line.now.conn (dues_in judged.now.raw now result)
        (is_whole result) replies.old replies.new }
    ensures few { replies.new.made ≤ replies.old.made + 2 }
{
    let Some(message) = judged.message() else {
        book.pass_over(line.conn, judged);
        return match judged.header() {
            None => BlockOutcome::Unreadable,
            Some(_) => BlockOutcome::Stray,
        };
    };
    BlockOutcome::Message(book_judged(line, book, &message, now, replies))
}

/// Answers a block that was received over a connection: what is no message, and what is an acknowledgment, is passed
/// over; a message is booked and acknowledged as its header requests (HL7 v2.5.1, 2.9.2 and 2.9.3).
///
/// # Errors
///
/// Where memory is refused before a message is booked; nothing is booked and nothing replied then.
pub fn answer_block<B: Booking>(
    line: &ConnectionId,
    book: &mut B,
    raw: Vec<u8>,
    now: Moment,
    replies: &mut Replies,
) -> Result<BlockOutcome, AllocError>
    requires channel { line.now.channel < B.channels book.old }
    requires data { IsBlockData raw.items }
    requires few { replies.old.made + 2 ≤ u32.MAX }

    // What the block is. The receipt of a message has the connection, the channel and the bytes.
    ensures kind { IfOk result (λ outcome. IsOutcome line.now.conn line.now.channel raw.items outcome) }

    // A message is booked here, or nothing is; and its answer is one that may be given.
    ensures booked { IfOk result (λ outcome. B.books book.old book.new (receipts_in outcome)) }
    ensures told { IfOk result (λ outcome.
        MayBecome (B.judges book.old) (B.outcomes book.old) line.now.channel raw.items outcome) }

    // One that is answered as a repeat without being booked is known here.
    ensures known { IfOk result (λ outcome.
        KnowsRepeat (B.knows book.new line.now.channel raw.items) outcome) }

    // The replies that it is due are appended, or the first of them where memory was refused.
    ensures replies { IfOk result (λ outcome. AppendsReplies line.now.conn (dues_in raw.items now outcome)
        (is_whole outcome) replies.old replies.new) }
    ensures few { replies.new.made ≤ replies.old.made + 2 }

    // Without an answer nothing changes.
    ensures unbooked { OnErr result (B.books book.old book.new []) }
    ensures unchanged { OnErr result (replies.new ≡ replies.old) }
{
    // What was judged is moved once, out of the result, and each of its parts is dropped where it then is, for speed: it takes
    // 368 bytes. By `?`, or where the result is kept, its parts are moved once more.
    match book.judged(line.alloc, line.channel, raw) {
        Ok(judged) => Ok(answer_judged(line, book, &judged, now, replies)),
        Err(_) => Err(AllocError),
    }
}
