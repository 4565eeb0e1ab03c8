//! A connection that hears a piece of its stream.

ghost use Rattle.std.specs.Prelude.{◌≡◌, ◌+◌, ◌*◌, ◌<◌, ◌≤◌, ◌∷◌, [], true, OnOk, OnErr, length};
ghost use Rattle.event_log.specs.History.{plan_in_force};
ghost use Rattle.mllp_frame.specs.Event.{block};
ghost use Rattle.mllp_frame.specs.inner.Event.{event_of};
ghost use Rattle.mllp_frame.specs.Framing.{IsBlockData};
ghost use Rattle.mllp_frame.specs.inner.Framing.{HoldsData};
ghost use Rattle.conn_core.specs.inner.Replies.{told_by};
ghost use Rattle.engine_model.specs.inner.Handling.{Handles, HandlesFront, HearsOn, IsCounted};
ghost use Rattle.engine_model.specs.Run.{silent};
ghost use Rattle.engine_model.specs.Steps.{EndsWithin, ReadsOn};
ghost use Rattle.engine_model.specs.inner.View.{IsFit, IsOpen, connection_of};

use book_core::{Book, BookRows, Receipt};
use conn_core::{ConnectionId, Replies, Unbooked, book_and_reply};
use event_log::Told;
use fixed_numbers::FRAME_EVENTS_MAX;
use hl7_head::Moment;
use judge_core::{JudgedMessage, Text, judge};
use mllp_frame::{FrameEvent, Framer, longer_streams};
use std::alloc::{AllocError, Global};

/// A message that was answered.
#[derive(Drop)]
pub struct Answered {
    /// Its text.
    pub raw: Text,
    /// Its answer, or what became of it where it was not booked.
    pub outcome: Result<Told, Unbooked>,
    /// When it was received.
    pub moment: Moment,
}

/// The answers to a connection, and all that it was sent.
#[derive(Drop)]
pub struct Transcript {
    pub answers: Vec<Answered>,
    pub replies: Replies,
}

/// A connection.
#[derive(Drop)]
pub struct Connected {
    /// Its channel, by its index in the plan.
    pub channel: u32,
    /// The position in its stream.
    pub framer: Framer,
    /// How many whole and broken blocks were received.
    pub events: u64,
    /// All bytes received.
    pub stream: Vec<u8>,
    pub words: Transcript,
    /// How many of its answers were given before the history was last folded.
    pub folded: usize,
    /// Whether it has ended.
    pub ended: bool,
}

/// The answer to a message, or what became of it where it was not booked.
fn told_by(outcome: &Result<Receipt, Unbooked>) -> Result<Told, Unbooked>
    ensures { result ≡ told_by outcome.now }
{
    match outcome {
        Ok(receipt) => Ok(receipt.told),
        Err(unbooked) => Err(*unbooked),
    }
}

/// Books a message that was judged by the plan in force, keeps its answer, for which room is made first, and sends its
/// acknowledgments, each as a whole block; where memory is refused for one of them, those before it.
fn answer_message<S: BookRows>(
    line: &ConnectionId,
    book: &mut Book<S>,
    message: &JudgedMessage<'_>,
    now: Moment,
    words: &mut Transcript,
) -> Result<(), AllocError>
    requires same_plan { message.now.plan ≡ plan_in_force book.old }
    requires counted { IsCounted words.old }
    requires few { words.old.replies.made + 2 ≤ u32.MAX }
    ensures ok { OnOk result (Handles line.now.conn message.now.channel now (block message.now.raw ∷ []) book.old book.new words.old words.new) }
    ensures err { OnErr result (HandlesFront line.now.conn message.now.channel now (block message.now.raw ∷ [])
        book.old book.new words.old words.new) }
    ensures counted { OnOk result (IsCounted words.new) }
    ensures few { words.new.replies.made ≤ words.old.replies.made + 2 }
    ensures plan { plan_in_force book.new ≡ plan_in_force book.old }
{
    words.answers.reserve(1)?;
    let raw = message.judged().raw().share()?;
    let booked = book_and_reply(line, book, message, now, &mut words.replies);
    words.answers.push_reserved(Answered {
        raw,
        outcome: told_by(&booked.outcome),
        moment: now,
    });
    if !booked.whole {
        return Err(AllocError);
    }
    Ok(())
}

/// Answers a block, if it is a message.
fn answer_text<S: BookRows>(
    line: &ConnectionId,
    book: &mut Book<S>,
    raw: Vec<u8>,
    now: Moment,
    words: &mut Transcript,
) -> Result<(), AllocError>
    requires known { line.now.channel < length (plan_in_force book.old).channels }
    requires data { IsBlockData raw.items }
    requires counted { IsCounted words.old }
    requires few { words.old.replies.made + 2 ≤ u32.MAX }
    ensures ok { OnOk result (Handles line.now.conn line.now.channel now (block raw.items ∷ []) book.old book.new words.old words.new) }
    ensures err { OnErr result (HandlesFront line.now.conn line.now.channel now (block raw.items ∷ []) book.old book.new words.old words.new) }
    ensures counted { OnOk result (IsCounted words.new) }
    ensures few { words.new.replies.made ≤ words.old.replies.made + 2 }
    ensures plan { plan_in_force book.new ≡ plan_in_force book.old }
{
    let judged = judge(line.alloc, book.plan(), line.channel, raw)?;
    let Some(message) = judged.message() else {
        return Ok(());
    };
    answer_message(line, book, &message, now, words)
}

/// Handles an event: a broken block gets no answer.
fn answer_event<S: BookRows>(
    line: &ConnectionId,
    book: &mut Book<S>,
    event: FrameEvent,
    now: Moment,
    words: &mut Transcript,
) -> Result<(), AllocError>
    requires known { line.now.channel < length (plan_in_force book.old).channels }
    requires data { HoldsData (event_of event) }
    requires counted { IsCounted words.old }
    requires few { words.old.replies.made + 2 ≤ u32.MAX }
    ensures ok { OnOk result (Handles line.now.conn line.now.channel now (event_of event ∷ []) book.old book.new words.old words.new) }
    ensures err { OnErr result (HandlesFront line.now.conn line.now.channel now (event_of event ∷ []) book.old book.new words.old words.new) }
    ensures counted { OnOk result (IsCounted words.new) }
    ensures few { words.new.replies.made ≤ words.old.replies.made + 2 }
    ensures plan { plan_in_force book.new ≡ plan_in_force book.old }
{
    match event {
        FrameEvent::Broken(_) => Ok(()),
        FrameEvent::Block(raw) => answer_text(line, book, raw, now, words),
    }
}

/// Handles all events to come, up to the bound over the whole connection.
fn answer_events<S: BookRows>(
    line: &ConnectionId,
    book: &mut Book<S>,
    framer: &mut Framer,
    events: &mut u64,
    now: Moment,
    words: &mut Transcript,
) -> Result<(), AllocError>
    requires known { line.now.channel < length (plan_in_force book.old).channels }
    requires counted { IsCounted words.old }
    requires few { events.old ≤ FRAME_EVENTS_MAX }
    requires made { words.old.replies.made ≤ 2 * events.old }
    ensures ok { OnOk result (Handles line.now.conn line.now.channel now framer.old.to_come book.old book.new words.old words.new) }
    ensures err { OnErr result (HandlesFront line.now.conn line.now.channel now framer.old.to_come book.old book.new words.old words.new) }
    ensures left { OnOk result (framer.new ≡ record framer.old { to_come = [] }) }
    ensures counted { OnOk result (IsCounted words.new) }
    ensures events { OnOk result (events.new ≡ events.old + length framer.old.to_come) }
    ensures few { OnOk result (events.new < FRAME_EVENTS_MAX) }
    ensures made { OnOk result (words.new.replies.made ≤ 2 * events.new) }
    ensures plan { plan_in_force book.new ≡ plan_in_force book.old }
{
    while let Some(event) = framer.next() {
        if *events >= FRAME_EVENTS_MAX {
            return Err(AllocError);
        }
        *events += 1;
        answer_event(line, book, event, now, words)?;
    }
    if *events >= FRAME_EVENTS_MAX {
        return Err(AllocError);
    }
    Ok(())
}

impl Connected {
    /// A connection on this channel of which nothing is read yet.
    pub fn new(alloc: Global, channel: u32) -> Self
        ensures silent { connection_of result ≡ silent channel }
        ensures stands { IsOpen result }
        ensures folded { result.folded ≡ 0 }
    {
        Connected {
            channel,
            framer: Framer::new(alloc),
            events: 0,
            stream: Vec::new(alloc),
            words: Transcript {
                answers: Vec::new(alloc),
                replies: Replies::new(alloc),
            },
            folded: 0,
            ended: false,
        }
    }

    /// Reads a piece. The connection has to end where this fails.
    fn read<S: BookRows>(
        &mut self,
        alloc: Global,
        conn: u32,
        book: &mut Book<S>,
        bytes: &[u8],
        now: Moment,
    ) -> Result<(), AllocError>
        requires known { self.old.channel < length (plan_in_force book.old).channels }
        requires stands { IsOpen self.old }
        ensures ok { OnOk result (ReadsOn conn bytes.now now book.old book.new (connection_of self.old) (connection_of self.new)) }
        ensures stands { OnOk result (IsOpen self.new) }
        ensures err { OnErr result (EndsWithin conn bytes.now now book.old book.new
            (connection_of self.old) (record (connection_of self.new) { ended = true })) }
        ensures channel { self.new.channel ≡ self.old.channel }
        ensures folded { self.new.folded ≡ self.old.folded }
        ensures plan { plan_in_force book.new ≡ plan_in_force book.old }
    {
        longer_streams();
        let line = ConnectionId {
            alloc,
            conn,
            channel: self.channel,
        };
        self.stream.extend_from_slice(bytes)?;
        let Ok(()) = self.framer.feed(bytes) else {
            return Err(AllocError);
        };
        answer_events(
            &line,
            book,
            &mut self.framer,
            &mut self.events,
            now,
            &mut self.words,
        )
    }

    /// Hears a piece of its stream. A connection that has ended hears nothing.
    pub fn hear<S: BookRows>(
        &mut self,
        alloc: Global,
        conn: u32,
        book: &mut Book<S>,
        bytes: &[u8],
        now: Moment,
    )
        requires fit { IsFit (length (plan_in_force book.old).channels) self.old }
        ensures heard { HearsOn self.old.ended conn bytes.now now book.old book.new (connection_of self.old) (connection_of self.new) }
        ensures fit { IsFit (length (plan_in_force book.old).channels) self.new }
        ensures folded { self.new.folded ≡ self.old.folded }
        ensures plan { plan_in_force book.new ≡ plan_in_force book.old }
    {
        if self.ended {
            return;
        }
        if self.read(alloc, conn, book, bytes, now).is_err() {
            self.ended = true;
        }
    }
}
