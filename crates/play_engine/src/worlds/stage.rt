//! The world of a script, and the answers to its calls.

ghost use Rattle.std.specs.Prelude.{◌<◌, All, IsTrue};

use crate::plans::plan_named;
use crate::worlds::shown::{entry_shown, plan_shown, sent_shown, step_shown};
use crate::worlds::words::{mask, moment, number, numbers, outcome, ticket, word};
use anyhow::{Result, bail};
use book_core::{EVENTS_MAX, Outbound};
use dest_queue::Queued;
use engine_model::{Step, World, steps_of};
use hl7_head::Moment;
use plan_text::Plan;
use play_script::bytes_of;
use record_list::RecordList;
use stat_count::{CHANNELS, DESTINATIONS};
use std::alloc::{AllocError, Global};
use std::fmt::Write;
use std::hash::RandomState;
use std::str::SplitWhitespace;
use std::sync::Arc;

/// A world, and how much of it was printed: a number of entries, and of each connection a number of bytes that it was sent.
#[derive(Drop)]
pub struct Stage {
    alloc: Global,
    world: World<RecordList<Queued<Outbound>>>,
    entries: usize,
    sent: Vec<usize>,
}

/// Whether these are channels of a plan with that number of channels.
fn are_known(channels: &[u32], count: u32) -> bool
    ensures { IsTrue result → All (λ channel. channel < count) channels.now }
{
    channels.iter().all(|channel| *channel < count)
}

/// A world of a plan that may book a number of entries, with a connection on each of these channels.
fn world_of(
    rt: &HostRuntime,
    plan: Arc<Plan>,
    events_max: u32,
    channels: &[u32],
) -> Result<World<RecordList<Queued<Outbound>>>> {
    if events_max == 0 || events_max > EVENTS_MAX || !are_known(channels, plan.channels()) {
        bail!("there is no such world");
    }
    let hasher = RandomState::new(rt)?;
    Ok(World::new(rt.alloc(), plan, channels, events_max, hasher)?)
}

/// The steps by which a stream comes on a connection in pieces of a length.
fn chunks_of(
    alloc: Global,
    conn: u32,
    stream: &[u8],
    len: usize,
    now: Moment,
) -> Result<Vec<Step>, AllocError>
    requires { 0 < len }
{
    let mut steps = Vec::new(alloc);
    for piece in stream.chunks(len) {
        let bytes = Vec::from_slice(alloc, piece)?;
        steps.push(Step::Chunk { conn, bytes, now })?;
    }
    Ok(steps)
}

/// Appends steps, a line for each.
fn push_steps(text: &mut String, steps: &[Step]) -> Result<(), AllocError> {
    for step in steps {
        writeln!(text, "  {}", step_shown(*text.allocator(), step)?)?;
    }
    Ok(())
}

impl Stage {
    /// A world of the built-in plan without connections.
    ///
    /// # Errors
    ///
    /// Where memory is refused.
    pub(crate) fn new(rt: &HostRuntime) -> Result<Stage> {
        Stage::on(rt, "built-in", EVENTS_MAX, &[])
    }

    /// A world of the plan of this name that may book a number of entries, with a connection on each of these channels.
    fn on(rt: &HostRuntime, name: &str, events_max: u32, channels: &[u32]) -> Result<Stage> {
        let alloc = rt.alloc();
        let sent = vec![in alloc; 0; channels.len()]?;
        let plan = plan_named(rt, name)?;
        Ok(Stage {
            alloc,
            world: world_of(rt, plan, events_max, channels)?,
            entries: 0,
            sent,
        })
    }

    /// A world that is named by words: its plan, how many entries it may book, and the channels of its connections.
    fn named(rt: &HostRuntime, words: &mut SplitWhitespace<'_>) -> Result<Stage> {
        let name = word(words)?;
        let events_max = number(words)?;
        let channels = numbers(rt.alloc(), words)?;
        Stage::on(rt, name, events_max, &channels)
    }

    /// Makes the call that a line says, and returns its result as lines of text.
    ///
    /// # Errors
    ///
    /// Where the line is no call, or memory is refused.
    pub(crate) fn play(&mut self, rt: &HostRuntime, line: &str) -> Result<String> {
        let mut words = line.split_whitespace();
        match word(&mut words)? {
            "world" => self.open(rt, &mut words),
            "chunk" => self.chunk(&mut words),
            "letters" => self.letters(&mut words),
            "pieces" => self.pieces(&mut words),
            "take" => self.take(&mut words),
            "settle" => self.settle(&mut words),
            "cancel" => self.cancel(&mut words),
            "deploy" => self.deploy(rt, &mut words),
            "deploys" => self.deploys(rt, &mut words),
            "prune" => self.prune(&mut words),
            "prunes" => self.prunes(&mut words),
            question => self.asked(question, &mut words),
        }
    }

    /// The answer to a question.
    fn asked(&self, question: &str, words: &mut SplitWhitespace<'_>) -> Result<String> {
        match question {
            "output" => self.output(words),
            "ended" => self.ended(words),
            "slot" => self.slot(words),
            "channel" => self.channel(words),
            "destination" => self.destination(words),
            "plan" => self.plan(),
            "entries" => self.entries(),
            "steps" => self.steps(),
            _ => bail!("{question} is no call"),
        }
    }

    /// A new world.
    fn open(&mut self, rt: &HostRuntime, words: &mut SplitWhitespace<'_>) -> Result<String> {
        *self = Stage::named(rt, words)?;
        Ok(String::new(self.alloc))
    }

    /// A piece comes.
    fn chunk(&mut self, words: &mut SplitWhitespace<'_>) -> Result<String> {
        let conn = number(words)?;
        let now = moment(words)?;
        let bytes = bytes_of(self.alloc, word(words)?)?;
        self.step(Step::Chunk { conn, bytes, now })
    }

    /// A piece of letters comes.
    fn letters(&mut self, words: &mut SplitWhitespace<'_>) -> Result<String> {
        let conn = number(words)?;
        let now = moment(words)?;
        let bytes = vec![in self.alloc; b'A'; number(words)? as usize]?;
        self.step(Step::Chunk { conn, bytes, now })
    }

    /// Bytes come in pieces of a length.
    fn pieces(&mut self, words: &mut SplitWhitespace<'_>) -> Result<String> {
        let len = number(words)?.max(1) as usize;
        let conn = number(words)?;
        let now = moment(words)?;
        let stream = bytes_of(self.alloc, word(words)?)?;
        let steps = chunks_of(self.alloc, conn, &stream, len, now)?;
        self.world.run(&steps);
        self.news()
    }

    /// The front of a queue is taken.
    fn take(&mut self, words: &mut SplitWhitespace<'_>) -> Result<String> {
        let d = number(words)?;
        let now = moment(words)?;
        self.step(Step::Take { d, now })
    }

    /// An attempt is settled.
    fn settle(&mut self, words: &mut SplitWhitespace<'_>) -> Result<String> {
        let ticket = ticket(words)?;
        let outcome = outcome(words)?;
        let now = moment(words)?;
        self.step(Step::Settle {
            ticket,
            outcome,
            now,
        })
    }

    /// A message is cancelled, wherever it waits or among destinations.
    fn cancel(&mut self, words: &mut SplitWhitespace<'_>) -> Result<String> {
        let number = number(words)?;
        match words.next() {
            None => self.step(Step::Cancel { number }),
            Some("among") => {
                let among = mask(words)?;
                self.step(Step::CancelAmong { number, among })
            }
            Some(other) => bail!("a cancellation is among destinations: {other}"),
        }
    }

    /// A plan is deployed.
    fn deploy(&mut self, rt: &HostRuntime, words: &mut SplitWhitespace<'_>) -> Result<String> {
        let plan = plan_named(rt, word(words)?)?;
        self.step(Step::Deploy { plan })
    }

    /// A plan is deployed as often as a number says.
    fn deploys(&mut self, rt: &HostRuntime, words: &mut SplitWhitespace<'_>) -> Result<String> {
        let count = number(words)?;
        let plan = plan_named(rt, word(words)?)?;
        Ok(self.deploy_again(count, &plan)?)
    }

    /// How many of a number of deployments of a plan are booked.
    fn deploy_again(&mut self, count: u32, plan: &Arc<Plan>) -> Result<String, AllocError> {
        let before = self.world.book().deployments();
        for _ in 0..count {
            let plan = Arc::try_clone(plan)?;
            self.world.step(Step::Deploy { plan });
        }
        let booked = self.world.book().deployments().saturating_sub(before);
        self.entries = self.world.book().len();
        format!(in self.alloc; "  {booked} deployed\n")
    }

    /// Messages are forgotten.
    fn prune(&mut self, words: &mut SplitWhitespace<'_>) -> Result<String> {
        let before = number(words)?;
        self.prune_again(1, before)
    }

    /// Messages are forgotten as often as a number says.
    fn prunes(&mut self, words: &mut SplitWhitespace<'_>) -> Result<String> {
        let count = number(words)?;
        let before = number(words)?;
        self.prune_again(count, before)
    }

    /// How many of a number of prunings are made.
    fn prune_again(&mut self, count: u32, before: u32) -> Result<String> {
        let made = self.world.book().prunings();
        for _ in 0..count {
            self.world.step(Step::Prune { before });
        }
        let made = self.world.book().prunings().saturating_sub(made);
        Ok(format!(in self.alloc; "  {made} pruned\n")?)
    }

    /// The result of a step.
    fn step(&mut self, step: Step) -> Result<String> {
        self.world.step(step);
        self.news()
    }

    /// The entries that weren't printed yet, and what connections were sent since then.
    fn news(&mut self) -> Result<String> {
        let mut text = String::new(self.alloc);
        self.push_entries(&mut text)?;
        self.push_sent(&mut text)?;
        Ok(text)
    }

    /// Appends the entries that weren't printed yet.
    fn push_entries(&mut self, text: &mut String) -> Result<(), AllocError> {
        let book = self.world.book();
        for place in self.entries..book.len() {
            if let Some(entry) = book.entry(place) {
                writeln!(text, "  entry {place}: {}", entry_shown(self.alloc, entry)?)?;
            }
        }
        self.entries = book.len();
        Ok(())
    }

    /// Appends what connections were sent that wasn't printed yet.
    fn push_sent(&mut self, text: &mut String) -> Result<(), AllocError> {
        for (conn, told) in self.sent.iter_mut().enumerate() {
            let conn = u32::try_from(conn).unwrap_or(u32::MAX);
            let output = self.world.output(conn);
            let lines = sent_shown(self.alloc, conn, output.get(*told..).unwrap_or(&[]))?;
            text.push_str(lines.as_str())?;
            *told = output.len();
        }
        Ok(())
    }

    /// All that a connection was sent.
    fn output(&self, words: &mut SplitWhitespace<'_>) -> Result<String> {
        let conn = number(words)?;
        Ok(sent_shown(self.alloc, conn, self.world.output(conn))?)
    }

    /// Whether a connection has ended.
    fn ended(&self, words: &mut SplitWhitespace<'_>) -> Result<String> {
        let conn = number(words)?;
        Ok(format!(in self.alloc; "  {}\n", self.world.ended(conn))?)
    }

    /// The slot of a message at a destination.
    fn slot(&self, words: &mut SplitWhitespace<'_>) -> Result<String> {
        let message = number(words)?;
        let d = number(words)?;
        match self.world.book().status(message, d) {
            Some(state) => Ok(format!(in self.alloc; "  {state:?}\n")?),
            None => Ok(format!(in self.alloc; "  no slot\n")?),
        }
    }

    /// What was counted of a channel.
    fn channel(&self, words: &mut SplitWhitespace<'_>) -> Result<String> {
        let channel = number(words)?;
        if channel >= CHANNELS {
            bail!("no book counts channel {channel}");
        }
        let counts = self.world.book().counts().channel(channel);
        Ok(format!(in self.alloc;
            "  received {}, filtered {}, accepted {}, refused {}, repeats {}\n",
            counts.received, counts.filtered, counts.accepted, counts.refused, counts.repeats
        )?)
    }

    /// What was counted of a destination.
    fn destination(&self, words: &mut SplitWhitespace<'_>) -> Result<String> {
        let d = number(words)?;
        if d >= DESTINATIONS {
            bail!("no book counts destination {d}");
        }
        let counts = self.world.book().counts().destination(d);
        Ok(format!(in self.alloc;
            "  waiting {}, inflight {}, delivered {}, failed {}, attempts {}\n",
            counts.waiting, counts.inflight, counts.delivered, counts.failed, counts.attempts
        )?)
    }

    /// The plan in force.
    fn plan(&self) -> Result<String> {
        let plan = plan_shown(self.alloc, self.world.book().plan())?;
        Ok(format!(in self.alloc; "  {plan}\n")?)
    }

    /// How many entries there are.
    fn entries(&self) -> Result<String> {
        Ok(format!(in self.alloc; "  {}\n", self.world.book().len())?)
    }

    /// The steps by which the history of the book comes.
    fn steps(&self) -> Result<String> {
        let mut text = String::new(self.alloc);
        push_steps(&mut text, &steps_of(self.alloc, self.world.book())?)?;
        Ok(text)
    }
}
