//! Worlds and the sequential engine, to which the same happens.

ghost use Rattle.std.specs.Prelude.{◌≡◌, ◌<◌, length};
ghost use Rattle.std.specs.Arc.{arc_value};
ghost use Rattle.event_log.specs.History.{plan_in_force};

use crate::alike::{is_alike, is_counted_alike, is_same, prune_refusal, view_of};
use crate::dice::{Dice, NO_TICKET};
use crate::known::{Key, Keys};
use crate::line::{Block, Line, Piece};
use crate::plan::{Said, judged_by, plan_of};
use anyhow::{Result, bail};
use book_core::{Book, EVENTS_MAX, Outbound};
use dest_queue::Queued;
use engine_model::{Step, World, steps_of};
use event_log::{Ticket, Told};
use hl7_head::Moment;
use judge_core::Judged;
use plan_text::Plan;
use record_list::RecordList;
use sequential_book::SequentialBook;
use std::alloc::{AllocError, Global};
use std::hash::RandomState;
use std::sync::Arc;

/// The rows of the program.
type Rows = RecordList<Queued<Outbound>>;

type Engine = World<Rows>;

/// How many entries the engines may hold where no message is forgotten.
const ENTRIES: u32 = 60;

/// How many entries the engines may hold where messages are forgotten: more than a run books and owes, since the folded history
/// has room where the whole one is full.
const MANY_ENTRIES: u32 = 10_000;

/// The channels of the connections.
const CHANNELS: [u32; 4] = [0, 1, 0, 0];

/// A world that hears pieces as they come, one that hears them byte by byte and of which the messages below a number are
/// forgotten, and the sequential engine, which is handed each message when its block has ended. Further what comes on the
/// connections, the keys of messages, and the ticket that was taken last.
#[derive(Drop)]
pub struct Worlds {
    alloc: Global,
    room: u32,
    whole: Box<Engine>,
    bytewise: Box<Engine>,
    other: Box<SequentialBook>,
    lines: Vec<Line>,
    keys: Keys,
    forgotten: u32,
    last: Ticket,
}

/// A world of a plan with two channels in which nothing is booked, with room for a number of entries.
fn world_of(
    alloc: Global,
    plan: Arc<Plan>,
    room: u32,
    hasher: RandomState,
) -> Result<Box<Engine>, AllocError>
    requires channels { length (arc_value plan).channels ≡ 2 }
{
    let room = room.clamp(1, EVENTS_MAX);
    let world = World::new(alloc, plan, &CHANNELS, room, hasher)?;
    Ok(Box::new(alloc, world)?)
}

/// A world in which nothing is booked, with room for a number of entries.
fn silent(rt: &HostRuntime, room: u32) -> Result<Box<Engine>> {
    let hasher = RandomState::new(rt)?;
    let plan = plan_of(rt.alloc(), Said::FIRST)?;
    if plan.channels() != 2 {
        bail!("the plan has two channels");
    }
    Ok(world_of(rt.alloc(), plan, room, hasher)?)
}

/// The sequential engine in which nothing is booked, with room for a number of entries.
fn sequential(alloc: Global, room: u32) -> Result<Box<SequentialBook>> {
    let plan = plan_of(alloc, Said::FIRST)?;
    let room = room.min(EVENTS_MAX);
    Ok(Box::new(alloc, SequentialBook::new(alloc, plan, room))?)
}

/// A line for each connection.
fn lines(alloc: Global) -> Result<Vec<Line>, AllocError> {
    let mut lines = Vec::with_capacity(alloc, CHANNELS.len())?;
    for channel in CHANNELS {
        lines.push(Line::new(alloc, channel))?;
    }
    Ok(lines)
}

/// Bytes come on a connection of a world.
fn hear(
    alloc: Global,
    world: &mut Engine,
    conn: u32,
    bytes: &[u8],
    now: Moment,
) -> Result<(), AllocError> {
    let bytes = Vec::from_slice(alloc, bytes)?;
    world.step(Step::Chunk { conn, bytes, now });
    Ok(())
}

/// The book of a world.
fn book_of(world: &Engine) -> &Book<Rows> {
    world.book()
}

/// What a connection of a world was sent, if it has not ended.
fn sent_by(world: &Engine, conn: u32) -> Option<&[u8]> {
    if world.ended(conn) {
        return None;
    }
    Some(world.output(conn))
}

/// Whether a world forgets the messages below a number when it is asked to.
fn forgets(world: &mut Engine, before: u32) -> bool {
    let prunings = book_of(world).prunings();
    world.step(Step::Prune { before });
    book_of(world).prunings() != prunings
}

/// The answer of the sequential engine to what was judged by its plan. None where it isn't booked.
fn told_of(other: &mut SequentialBook, conn: u32, judged: &Judged) -> Option<Told>
    requires { judged.now.plan ≡ plan_in_force other.old }
{
    if !judged.bookable() {
        return None;
    }
    other.arrive(conn, judged).ok()
}

/// The answer of the sequential engine to a block. None where it isn't booked.
fn told(
    alloc: Global,
    other: &mut SequentialBook,
    conn: u32,
    channel: u32,
    block: &Block,
) -> Result<Option<Told>> {
    let raw = Vec::from_slice(alloc, &block.raw)?;
    let judged = judged_by(alloc, other.plan(), channel, raw)?;
    Ok(told_of(other, conn, &judged))
}

/// Whether an entry is there in a book and in the sequential engine, and is the same.
fn is_entry_alike(book: &Book<Rows>, other: &SequentialBook, place: usize) -> bool {
    match (book.entry(place), other.entries().get(place)) {
        (Some(entry), Some(due)) => is_same(entry, due),
        _ => false,
    }
}

impl Worlds {
    /// Three engines in which nothing is booked, with room for a run in which messages are forgotten or for one in which none is.
    ///
    /// # Errors
    ///
    /// Where memory is refused.
    pub(crate) fn new(rt: &HostRuntime, forgets: bool) -> Result<Worlds> {
        let alloc = rt.alloc();
        let room = if forgets { MANY_ENTRIES } else { ENTRIES };
        Ok(Worlds {
            alloc,
            room,
            lines: lines(alloc)?,
            other: sequential(alloc, room)?,
            whole: silent(rt, room)?,
            bytewise: silent(rt, room)?,
            keys: Keys::new(alloc),
            forgotten: 0,
            last: NO_TICKET,
        })
    }

    /// The number of a message, forgotten or not.
    fn number(&self, dice: &mut Dice) -> u32 {
        let above = self.forgotten.saturating_add(dice.roll(16));
        above.saturating_sub(4)
    }

    /// A piece comes on a connection.
    ///
    /// # Errors
    ///
    /// Where a message of the piece can't be judged, or memory is refused.
    pub(crate) fn chunk(&mut self, dice: &mut Dice) -> Result<()> {
        let now = dice.now()?;
        let conn = dice.roll(4);
        let Some(line) = self.lines.get_mut(conn as usize) else {
            bail!("there is no such connection");
        };
        let piece = line.next(dice, &self.keys)?;
        self.come(conn, &piece, now)
    }

    /// What is left of the blocks that began on a connection comes.
    fn end_blocks(&mut self, conn: u32, now: Moment) -> Result<()> {
        let Some(line) = self.lines.get_mut(conn as usize) else {
            bail!("there is no such connection");
        };
        let piece = line.rest()?;
        self.come(conn, &piece, now)
    }

    /// A piece comes on a connection of all.
    fn come(&mut self, conn: u32, piece: &Piece, now: Moment) -> Result<()> {
        self.hear(conn, &piece.bytes, now)?;
        self.book(conn, piece)
    }

    /// Bytes come on a connection of both worlds.
    fn hear(&mut self, conn: u32, bytes: &[u8], now: Moment) -> Result<(), AllocError> {
        for byte in bytes.chunks(1) {
            hear(self.alloc, &mut self.bytewise, conn, byte, now)?;
        }
        hear(self.alloc, &mut self.whole, conn, bytes, now)
    }

    /// The sequential engine books the messages that a piece ends.
    fn book(&mut self, conn: u32, piece: &Piece) -> Result<()> {
        for block in &piece.ended {
            self.arrive(conn, piece.channel, block)?;
        }
        Ok(())
    }

    /// The sequential engine books a message, if it is one. A new key is kept.
    fn arrive(&mut self, conn: u32, channel: u32, block: &Block) -> Result<()> {
        let place = self.other.entries().len();
        if let Some(told) = told(self.alloc, &mut self.other, conn, channel, block)? {
            let id = block.id;
            self.keys.note(Key {
                channel,
                id,
                place,
                told,
            })?;
        }
        Ok(())
    }

    /// The front of a queue is taken.
    ///
    /// # Errors
    ///
    /// Where the dice have no further moment.
    pub(crate) fn take(&mut self, dice: &mut Dice) -> Result<()> {
        let d = dice.roll(5);
        let now = dice.now()?;
        if let Ok(ticket) = self.other.take(d, now) {
            self.last = ticket;
        }
        self.step(Step::Take { d, now });
        Ok(())
    }

    /// An attempt is settled, that of the last ticket or another.
    ///
    /// # Errors
    ///
    /// Where the dice have no further moment.
    pub(crate) fn settle(&mut self, dice: &mut Dice) -> Result<()> {
        let number = self.number(dice);
        let ticket = dice.ticket(self.last, number);
        let outcome = dice.outcome();
        let now = dice.now()?;
        let _ = self.other.settle(&ticket, outcome, now);
        self.step(Step::Settle {
            ticket,
            outcome,
            now,
        });
        Ok(())
    }

    /// A message is cancelled, among all destinations or some.
    pub(crate) fn cancel(&mut self, dice: &mut Dice) {
        let number = self.number(dice);
        let among = dice.among();
        let _ = self.other.cancel_among(number, among);
        self.step(match among {
            u32::MAX => Step::Cancel { number },
            _ => Step::CancelAmong { number, among },
        });
    }

    /// A plan is deployed.
    ///
    /// # Errors
    ///
    /// Where the plan can't be read, or memory is refused.
    pub(crate) fn deploy(&mut self, dice: &mut Dice) -> Result<()> {
        let plan = plan_of(self.alloc, dice.said())?;
        let _ = self.other.deploy(Arc::try_clone(&plan)?);
        self.step(Step::Deploy { plan });
        Ok(())
    }

    /// Messages are forgotten in the second world, once the blocks that began have ended: those under way may
    /// be of keys that are forgotten.
    ///
    /// # Errors
    ///
    /// Where messages are forgotten that may not be, or kept that may be forgotten, or memory is refused.
    pub(crate) fn prune(&mut self, dice: &mut Dice) -> Result<()> {
        let now = dice.now()?;
        for conn in 0..4 {
            self.end_blocks(conn, now)?;
        }
        self.forget(self.forgotten.saturating_add(dice.roll(4)))
    }

    /// The messages below a number are forgotten in the second world, if they may be.
    fn forget(&mut self, before: u32) -> Result<()> {
        let due = prune_refusal(book_of(&self.whole), self.forgotten, before);
        if forgets(&mut self.bytewise, before) != due.is_none() {
            bail!("a pruning is made or refused against the rules");
        }
        if due.is_none() {
            self.forgotten = before;
            self.keys.forget(before, self.other.entries().len())?;
        }
        Ok(())
    }

    /// How many plans were deployed.
    pub(crate) fn deployments(&self) -> u32 {
        book_of(&self.whole).deployments()
    }

    /// How many messages were forgotten.
    pub(crate) fn forgotten(&self) -> u32 {
        self.forgotten
    }

    /// Both worlds take a step.
    fn step(&mut self, step: Step) {
        let steps = [step];
        self.whole.run(&steps);
        self.bytewise.run(&steps);
    }

    /// What isn't the same: the numbers of entries, the plans in force, the lengths of a queue, or what the worlds count at a
    /// destination and at a channel.
    fn difference(&self, d: u32) -> Option<&'static str>
        requires { d < 32 }
    {
        let (whole, bytewise) = (
            view_of(book_of(&self.whole), d, d),
            view_of(book_of(&self.bytewise), d, d),
        );
        let (len, plan) = (self.other.entries().len(), self.other.plan());
        if whole.len != len || bytewise.len != len {
            Some("there are two numbers of entries")
        } else if !whole.plan.same(plan) || !bytewise.plan.same(plan) {
            Some("two plans are in force")
        } else if whole.waiting != bytewise.waiting {
            Some("a queue has two lengths")
        } else if !is_counted_alike(whole.counts, bytewise.counts, d) {
            Some("a destination or a channel is counted in two ways")
        } else {
            None
        }
    }

    /// Compares the numbers of entries, the plans in force, the lengths of a queue, and what the worlds count
    /// at a destination and at a channel.
    ///
    /// # Errors
    ///
    /// Where two of them differ, or memory is refused.
    pub(crate) fn compare(&self, dice: &mut Dice) -> Result<()> {
        match self.difference(dice.roll(4)) {
            Some(difference) => bail!("{difference}"),
            None => Ok(()),
        }
    }

    /// Compares queues and slots of the first world with those of the sequential engine.
    ///
    /// # Errors
    ///
    /// Where one is not the same, or memory is refused.
    pub(crate) fn compare_queues(&self) -> Result<()> {
        for d in 0..5 {
            if !is_alike(book_of(&self.whole), &self.other, d, d)? {
                bail!("a queue has two lengths, or a slot two states");
            }
        }
        Ok(())
    }

    /// How many bytes a connection was sent. None where it was sent other bytes in the other world, or has ended.
    fn sent_on(&self, conn: u32) -> Option<usize> {
        let (sent, again) = (sent_by(&self.whole, conn)?, sent_by(&self.bytewise, conn)?);
        if sent == again {
            Some(sent.len())
        } else {
            None
        }
    }

    /// How many bytes the connections were sent.
    ///
    /// # Errors
    ///
    /// Where one was sent other bytes in the other world, or has ended.
    pub(crate) fn compare_output(&self) -> Result<usize> {
        let mut all = 0_usize;
        for conn in 0..4 {
            let Some(sent) = self.sent_on(conn) else {
                bail!("a connection was sent two things, or has ended");
            };
            all = all.saturating_add(sent);
        }
        Ok(all)
    }

    /// How many entries a world has booked. An error where the sequential engine has others than those that the world holds.
    fn compare_history(&self, world: &Engine) -> Result<usize> {
        let book = book_of(world);
        let len = book.len();
        if len != self.other.entries().len() {
            bail!("there are two numbers of entries");
        }
        for place in book.first_place()..len {
            if !is_entry_alike(book, &self.other, place) {
                bail!("entry {place} isn't the same");
            }
        }
        Ok(len)
    }

    /// How many entries a world has that takes the steps of the history. An error where the sequential engine has others.
    fn compare_again(&self, again: &mut Engine) -> Result<usize> {
        again.run(&steps_of(self.alloc, book_of(&self.whole))?);
        self.compare_history(again)
    }

    /// How many entries there are.
    ///
    /// # Errors
    ///
    /// Where one isn't the same in all three, where a world that takes the steps of the history has another, or
    /// where memory is refused.
    pub(crate) fn compare_entries(&self, rt: &HostRuntime) -> Result<usize> {
        self.compare_history(&self.whole)?;
        self.compare_history(&self.bytewise)?;
        let mut again = silent(rt, self.room)?;
        self.compare_again(&mut again)
    }
}
