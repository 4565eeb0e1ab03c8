//! Books and the sequential engine, asked the same.

ghost use Rattle.std.specs.Prelude.{IsTrue};
ghost use Rattle.judge_core.specs.Judging.{is_bookable};

use crate::alike::{Engine, is_alike, is_same_take, prune_refusal, view_of};
use crate::dice::{Dice, NO_TICKET};
use crate::known::{Key, Keys};
use crate::plan::{Said, judged_by, plan_of};
use anyhow::{Result, bail};
use book_core::{Book, CancelRefusal, DeployRefusal, EVENTS_MAX, Job, NotBooked};
use dest_queue::SettleRefusal;
use event_log::{TakeRefusal, Ticket, Told};
use hl7_head::Moment;
use judge_core::Judged;
use plan_text::Plan;
use sequential_book::{NotBooked as OtherRefusal, NotSettled, SequentialBook};
use std::alloc::{AllocError, Global};
use std::hash::RandomState;
use std::sync::Arc;

/// How many entries the engines may hold, fewer than a run makes calls.
const ENTRIES: u32 = 200;

/// How many entries the books may hold where the sequential engine isn't asked.
const MANY_ENTRIES: u32 = 1000;

/// The number of the connection by which all messages come.
const CONNECTION: u32 = 7;

/// A book and the sequential engine, if it is asked, and a book of which the messages below a number are forgotten, all
/// of one plan. The keys of messages, the ticket that was taken last, and how many attempts were taken of messages that a
/// pruning had kept.
#[derive(Drop)]
pub struct Books {
    book: Box<Engine>,
    other: Option<Box<SequentialBook>>,
    pruned: Box<Engine>,
    forgotten: u32,
    keys: Keys,
    last: Ticket,
    recalled: u32,
}

/// A book of a plan in which nothing is booked.
fn empty_book(
    alloc: Global,
    plan: &Arc<Plan>,
    room: u32,
    hasher: RandomState,
) -> Result<Box<Engine>, AllocError> {
    let plan = Arc::try_clone(plan)?;
    let room = room.clamp(1, EVENTS_MAX);
    Ok(Box::new(alloc, Book::new(alloc, plan, room, hasher))?)
}

/// The sequential engine of a plan, in which nothing is booked, if it is asked.
fn other_engine(
    alloc: Global,
    plan: &Arc<Plan>,
    asked: bool,
) -> Result<Option<Box<SequentialBook>>, AllocError> {
    if !asked {
        return Ok(None);
    }
    let plan = Arc::try_clone(plan)?;
    let other = Box::new(alloc, SequentialBook::new(alloc, plan, ENTRIES))?;
    Ok(Some(other))
}

/// The answer of a book to a message, and the index of its entry.
fn told(book: &mut Engine, judged: &Judged) -> Result<(Told, usize), NotBooked>
    requires { IsTrue (is_bookable judged.now.raw) }
{
    let receipt = book.arrive(CONNECTION, judged)?;
    Ok((receipt.told, receipt.entry))
}

/// The attempt that begins with a job, or why there is none.
fn ticket_of(answer: &Result<Job, TakeRefusal>) -> Result<Ticket, TakeRefusal> {
    match answer {
        Ok(job) => Ok(job.ticket),
        Err(refusal) => Err(*refusal),
    }
}

/// The attempt with which two books take the front of a queue, or why they don't. None where they don't take the same.
fn take(
    book: &mut Engine,
    pruned: &mut Engine,
    d: u32,
    now: Moment,
) -> Option<Result<Ticket, TakeRefusal>> {
    let (answer, again) = (book.take(d, now), pruned.take(d, now));
    if is_same_take(&again, &answer) {
        Some(ticket_of(&answer))
    } else {
        None
    }
}

/// A book deploys a plan, of which it becomes another owner.
fn deploy(book: &mut Engine, plan: &Arc<Plan>) -> Result<(), DeployRefusal> {
    book.deploy(Arc::try_clone(plan)?)
}

impl Books {
    /// Engines in which nothing is booked.
    ///
    /// # Errors
    ///
    /// Where memory is refused.
    pub(crate) fn new(rt: &HostRuntime, asked: bool) -> Result<Books> {
        let alloc = rt.alloc();
        let (plan, hasher) = (plan_of(alloc, Said::FIRST)?, RandomState::new(rt)?);
        let room = if asked { ENTRIES } else { MANY_ENTRIES };
        Ok(Books {
            other: other_engine(alloc, &plan, asked)?,
            book: empty_book(alloc, &plan, room, hasher)?,
            pruned: empty_book(alloc, &plan, room, hasher)?,
            forgotten: 0,
            keys: Keys::new(alloc),
            last: NO_TICKET,
            recalled: 0,
        })
    }

    /// The number of a message, forgotten or not.
    fn number(&self, dice: &mut Dice) -> u32 {
        let above = self.forgotten.saturating_add(dice.roll(16));
        above.saturating_sub(4)
    }

    /// Whether the sequential engine, if it is asked, tells a sender the same.
    fn tells(&mut self, judged: &Judged, told: Result<Told, OtherRefusal>) -> bool
        requires { IsTrue (is_bookable judged.now.raw) }
    {
        match &mut self.other {
            Some(other) => {
                judged.plan().same(other.plan()) && other.arrive(CONNECTION, judged) == told
            }
            None => true,
        }
    }

    /// The answer of all to a message, and the index of its entry; none where the book is full. An error where they give different
    /// answers, or another index.
    fn told(&mut self, judged: &Judged) -> Result<Option<(Told, usize)>>
        requires { IsTrue (is_bookable judged.now.raw) }
    {
        let answer = told(&mut self.book, judged);
        let due = match answer {
            Ok((told, _)) => Ok(told),
            Err(NotBooked::Full) => Err(OtherRefusal::Full),
            Err(refusal) => bail!("{refusal}"),
        };
        if !self.tells(judged, due) {
            bail!("an arrival has two answers");
        }
        if answer.is_ok() && told(&mut self.pruned, judged) != answer {
            bail!("an arrival has another answer where messages are forgotten");
        }
        Ok(answer.ok())
    }

    /// Whether all book a message, an error where they tell its sender different things. A new key is kept.
    fn book(&mut self, judged: &Judged, channel: u32, id: u32) -> Result<bool> {
        if !judged.bookable() {
            bail!("it isn't booked");
        }
        let Some((told, place)) = self.told(judged)? else {
            return Ok(false);
        };
        self.keys.note(Key {
            channel,
            id,
            place,
            told,
        })?;
        Ok(true)
    }

    /// Whether all book a message under one of twelve control ids, so that some are repeated, with the same
    /// bytes or with others. Where its key was forgotten it is sent under the next.
    ///
    /// # Errors
    ///
    /// Where they answer it differently, or memory is refused.
    pub(crate) fn arrive(&mut self, alloc: Global, dice: &mut Dice) -> Result<bool> {
        let channel = dice.roll(8) / 7;
        let id = self.keys.pick(dice, channel)?;
        let raw = dice.message(alloc, id, "")?.into_bytes();
        let judged = judged_by(alloc, self.book.plan(), channel, raw)?;
        self.book(&judged, channel, id)
    }

    /// Whether all take the front of a queue.
    ///
    /// # Errors
    ///
    /// Where they don't take the same, don't send the same, refuse it for two reasons, or memory is refused.
    pub(crate) fn take(&mut self, dice: &mut Dice) -> Result<bool> {
        let d = dice.roll(5);
        let now = dice.now()?;
        let Some(answer) = self.take_front(d, now) else {
            bail!("a take has two answers");
        };
        if let Ok(ticket) = answer {
            self.note_taken(ticket);
        }
        Ok(answer.is_ok())
    }

    /// The attempt with which all take the front of a queue, or why they don't. None where they don't take the same.
    fn take_front(&mut self, d: u32, now: Moment) -> Option<Result<Ticket, TakeRefusal>> {
        let answer = take(&mut self.book, &mut self.pruned, d, now)?;
        let other = match &mut self.other {
            Some(other) => other.take(d, now),
            None => answer,
        };
        if other == answer { Some(answer) } else { None }
    }

    /// Notes an attempt, and whether it is of a message that a pruning has kept.
    fn note_taken(&mut self, ticket: Ticket) {
        self.last = ticket;
        if let Some(letter) = self.pruned.message(ticket.number)
            && letter.place() < self.pruned.first_place()
        {
            self.recalled = self.recalled.saturating_add(1);
        }
    }

    /// How many attempts were taken of messages that a pruning had kept.
    pub(crate) fn recalled(&self) -> u32 {
        self.recalled
    }

    /// Whether all settle an attempt, that of the last ticket or another. That of a forgotten message is
    /// refused, since it has no slot.
    ///
    /// # Errors
    ///
    /// Where they leave its slot in two states, refuse it for two reasons, or memory is refused.
    pub(crate) fn settle(&mut self, dice: &mut Dice) -> Result<bool> {
        let number = self.number(dice);
        let ticket = dice.ticket(self.last, number);
        let outcome = dice.outcome();
        let now = dice.now()?;
        let answer = self.book.settle(&ticket, outcome, now);
        let told = answer.map_err(NotSettled::Refused);
        let other = match &mut self.other {
            Some(other) => other.settle(&ticket, outcome, now),
            None => told,
        };
        let due = if ticket.number < self.forgotten {
            Err(SettleRefusal::NoSlot)
        } else {
            answer
        };
        if self.pruned.settle(&ticket, outcome, now) != due || other != told {
            bail!("a settlement has two answers");
        }
        Ok(answer.is_ok())
    }

    /// Whether all cancel a message among the same destinations; a forgotten message isn't there.
    ///
    /// # Errors
    ///
    /// Where they cancel it at other destinations, refuse it for two reasons, or memory is refused.
    pub(crate) fn cancel(&mut self, dice: &mut Dice) -> Result<bool> {
        let number = self.number(dice);
        let among = dice.among();
        let mask = self.book.cancel_among(number, among);
        let other = match &mut self.other {
            Some(other) => other.cancel_among(number, among),
            None => mask,
        };
        let due = if number < self.forgotten {
            Err(CancelRefusal::NoSuchMessage)
        } else {
            mask
        };
        if self.pruned.cancel_among(number, among) != due || other != mask {
            bail!("a cancellation has two answers");
        }
        Ok(mask.is_ok())
    }

    /// Whether all deploy a plan.
    ///
    /// # Errors
    ///
    /// Where one alone does, they refuse it for two reasons, or memory is refused.
    pub(crate) fn deploy(&mut self, alloc: Global, dice: &mut Dice) -> Result<bool> {
        let plan = plan_of(alloc, dice.said())?;
        self.deploy_all(&plan)
    }

    /// Whether all deploy this plan. Where the history is folded there may be room for one that is full otherwise, so it
    /// isn't deployed there.
    fn deploy_all(&mut self, plan: &Arc<Plan>) -> Result<bool> {
        let answer = deploy(&mut self.book, plan);
        let other = match &mut self.other {
            Some(other) => other.deploy(Arc::try_clone(plan)?),
            None => answer,
        };
        if other != answer {
            bail!("a deployment has two answers");
        }
        if answer != Err(DeployRefusal::Full) && deploy(&mut self.pruned, plan) != answer {
            bail!("a deployment has another answer where messages are forgotten");
        }
        Ok(answer.is_ok())
    }

    /// Whether messages are forgotten in one of the books.
    ///
    /// # Errors
    ///
    /// Where the others say otherwise, or memory is refused.
    pub(crate) fn prune(&mut self, dice: &mut Dice) -> Result<bool> {
        let before = self.forgotten.saturating_add(dice.roll(4));
        let answer = self.pruned.prune(before);
        if answer.err() != prune_refusal(&self.book, self.forgotten, before) {
            bail!("a pruning has two answers");
        }
        if answer.is_ok() {
            self.forgotten = before;
            self.keys.forget(before, self.book.len())?;
        }
        Ok(answer.is_ok())
    }

    /// Whether a slot, a queue, the number of entries and the statistics are the same where messages are forgotten;
    /// forgotten messages have no slots.
    fn is_pruned_alike(&self, number: u32, d: u32) -> bool {
        let (whole, pruned) = (
            view_of(&self.book, number, d),
            view_of(&self.pruned, number, d),
        );
        let due = if number < self.forgotten {
            None
        } else {
            whole.state
        };
        pruned.state == due
            && pruned.waiting == whole.waiting
            && pruned.len == whole.len
            && *pruned.counts == *whole.counts
    }

    /// Compares a slot, a queue, the statistics and the number of entries of all.
    ///
    /// # Errors
    ///
    /// Where one of them is not the same in all, or memory is refused.
    pub(crate) fn compare(&self, dice: &mut Dice) -> Result<()> {
        let number = self.number(dice);
        let d = dice.roll(5);
        let alike = match &self.other {
            Some(other) => is_alike(&self.book, other, number, d)?,
            None => true,
        };
        if !alike {
            bail!("a slot, a queue or the history is not the same");
        }
        if !self.is_pruned_alike(number, d) {
            bail!(
                "a slot, a queue, the history or the statistics are not the same where messages are forgotten"
            );
        }
        Ok(())
    }
}
