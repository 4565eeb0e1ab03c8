//! The world of a script, and its steps.

ghost use Rattle.std.specs.Prelude.{◌<◌, All, IsTrue};

use anyhow::{Result, bail};
use book_core::{EVENTS_MAX, Outbound};
use call_window::book_state::push_held;
use call_window::plans::plan_named;
use call_window::script::Stage;
use call_window::words::{moment, number, outcome, ticket, word};
use call_window::{Window, no_memory};
use dest_queue::Queued;
use engine_model::{Step, World, steps_of};
use plan_text::Plan;
use play_script::{bytes_of, shown};
use record_list::RecordList;
use std::alloc::{AllocError, Global};
use std::fmt::Write;
use std::hash::RandomState;
use std::str::SplitWhitespace;
use std::sync::Arc;

/// The most connections of a world.
const CONNECTIONS: u32 = 8;

/// The world that calls are made on, and how many connections it has.
#[derive(Drop)]
pub struct Worlds {
    alloc: Global,
    world: World<RecordList<Queued<Outbound>>>,
    connections: u32,
}

/// Whether these are channels of a plan with that number of channels.
fn are_known(channels: &[u32], count: u32) -> bool
    ensures { IsTrue result → All (λ channel. channel < count) channels.now }
{
    channels.iter().all(|channel| *channel < count)
}

/// A world of a plan with a number of connections on channel 0.
fn world_of(
    rt: &HostRuntime,
    plan: Arc<Plan>,
    events_max: u32,
    connections: u32,
) -> Result<World<RecordList<Queued<Outbound>>>> {
    let channels = vec![in rt.alloc(); 0; connections as usize]?;
    if events_max == 0 || events_max > EVENTS_MAX || !are_known(&channels, plan.channels()) {
        bail!("there is no such world");
    }
    let hasher = RandomState::new(rt)?;
    Ok(World::new(rt.alloc(), plan, &channels, events_max, hasher)?)
}

impl Worlds {
    /// A world of the built-in plan with no connection.
    ///
    /// # Errors
    ///
    /// Where memory is refused.
    pub fn new(rt: &HostRuntime) -> Result<Worlds> {
        let plan = Arc::new(rt.alloc(), Plan::built_in(rt.alloc())?)?;
        Ok(Worlds {
            alloc: rt.alloc(),
            world: world_of(rt, plan, EVENTS_MAX, 0)?,
            connections: 0,
        })
    }

    /// A new world.
    fn open(&mut self, rt: &HostRuntime, words: &mut SplitWhitespace<'_>) -> Result<String> {
        let plan = plan_named(rt, word(words)?)?;
        let events_max = number(words)?;
        let connections = number(words)?.min(CONNECTIONS);
        self.world = world_of(rt, plan, events_max, connections)?;
        self.connections = connections;
        Ok(String::from_str(self.alloc, "ok")?)
    }

    /// Appends what each connection was sent, and whether it has ended.
    fn push_sent(&self, told: &mut String) -> Result<(), AllocError> {
        for conn in 0..self.connections {
            let sent = shown(self.alloc, self.world.output(conn))?;
            write!(
                told,
                "; to {conn}: {sent}, ended {}",
                self.world.ended(conn)
            )?;
        }
        Ok(())
    }

    /// All that the book shows, and what each connection was sent.
    fn state(&self) -> Result<String, AllocError> {
        let mut told = String::new(self.alloc);
        push_held(&mut told, self.world.book())?;
        self.push_sent(&mut told)?;
        Ok(told)
    }

    /// How many steps the history comes by.
    fn steps(&self, window: &Window) -> Result<String> {
        window.begin()?;
        let steps = steps_of(self.alloc, self.world.book());
        window.end()?;
        match steps {
            Ok(steps) => Ok(format!(in self.alloc; "{} steps", steps.len())?),
            Err(AllocError) => Ok(no_memory(self.alloc)?),
        }
    }

    /// Takes a step. What has changed is printed.
    fn step(&mut self, window: &Window, step: Step) -> Result<String> {
        window.begin()?;
        self.world.step(step);
        window.end()?;
        Ok(self.state()?)
    }

    /// The step by which a piece of a stream comes.
    fn chunk(&self, words: &mut SplitWhitespace<'_>) -> Result<Step> {
        let (conn, now) = (number(words)?, moment(words)?);
        let bytes = bytes_of(self.alloc, word(words)?)?;
        Ok(Step::Chunk { conn, bytes, now })
    }

    /// The step that a line says.
    fn step_of(
        &self,
        rt: &HostRuntime,
        name: &str,
        words: &mut SplitWhitespace<'_>,
    ) -> Result<Step> {
        Ok(match name {
            "chunk" => self.chunk(words)?,
            "take" => Step::Take {
                d: number(words)?,
                now: moment(words)?,
            },
            "settle" => Step::Settle {
                ticket: ticket(words)?,
                outcome: outcome(words)?,
                now: moment(words)?,
            },
            "cancel" => Step::Cancel {
                number: number(words)?,
            },
            "deploy" => Step::Deploy {
                plan: plan_named(rt, word(words)?)?,
            },
            "prune" => Step::Prune {
                before: number(words)?,
            },
            _ => bail!("{name} is no call"),
        })
    }
}

impl Stage for Worlds {
    fn answer(&mut self, rt: &HostRuntime, window: &Window<'_>, call: &str) -> Result<String> {
        let mut words = call.split_whitespace();
        match word(&mut words)? {
            "world" => self.open(rt, &mut words),
            "state" => Ok(self.state()?),
            "steps" => self.steps(window),
            name => {
                let step = self.step_of(rt, name, &mut words)?;
                self.step(window, step)
            }
        }
    }
}
