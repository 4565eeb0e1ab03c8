//! The whole engine on one thread.

ghost use Rattle.std.specs.Prelude.{◌≡◌, ◌<◌, ◌≤◌, All, IfOk, length, map};
ghost use Rattle.std.specs.Arc.{arc_value};
ghost use Rattle.engine_model.specs.Promise.{RunInvariant};
ghost use Rattle.engine_model.specs.Run.{silent};
ghost use Rattle.engine_model.specs.inner.Run.{ended_at, opened, output_of};
ghost use Rattle.engine_model.specs.Steps.{Runs, Steps};
ghost use Rattle.event_log.specs.Event.{cancel, deploy, settle, take};
ghost use Rattle.engine_model.specs.Turn.{chunk, event, prune};
ghost use Rattle.engine_model.specs.inner.View.{IsOpen, connection_of, turn_by, with_folded};

use crate::connection::Connected;
use crate::step::Step;
use book_core::{Book, BookRows, EVENTS_MAX};
use dest_queue::Outcome;
use event_log::Ticket;
use hl7_head::Moment;
use plan_text::Plan;
use std::alloc::{AllocError, Global};
use std::hash::RandomState;
use std::marker::Model;
use std::sync::Arc;

/// The whole engine on one thread: a book, and connections, numbered from 0. It holds the streams and the answers of
/// all connections for its whole life.
#[derive(Drop)]
pub struct World<S: BookRows> {
    alloc: Global,
    book: Book<S>,
    connections: Vec<Connected>,
}

impl<S: BookRows> Model for World<S> {
    ghost use Rattle.engine_model.specs.inner.Coding.{run_code};
    ghost use Rattle.engine_model.specs.Run.{Run};
    ghost use Rattle.engine_model.specs.inner.View.{IsWorld, run_of};

    ghost Value = { Run };

    ghost coded = { run_code };

    ghost view = { λ w. run_of w.book w.connections.items };

    ghost invariant = { λ w. IsWorld w.book w.connections.items };
}

impl<S: BookRows> World<S> {
    /// A world with nothing booked yet, and a connection on each of these channels, on which nothing was received
    /// yet. The book may hold `events_max` entries, and its keys are hashed by `hasher`.
    ///
    /// # Errors
    ///
    /// Where memory is refused.
    pub fn new(
        alloc: Global,
        plan: Arc<Plan>,
        channels: &[u32],
        events_max: u32,
        hasher: RandomState,
    ) -> Result<World<S>, AllocError>
        requires known { All (λ channel. channel < length (arc_value plan).channels) channels.now }
        requires some { 1 ≤ events_max }
        requires few { events_max ≤ EVENTS_MAX }
        ensures { IfOk result (λ world. world ≡ opened (arc_value plan) events_max channels.now) }
    {
        let connections = listening(alloc, channels)?;
        Ok(World {
            alloc,
            book: Book::new(alloc, plan, events_max, hasher),
            connections,
        })
    }

    /// The book.
    pub fn book(&self) -> &Book<S>
        ensures { result.now ≡ self.now.history }
    {
        &self.book
    }

    /// All that connection `conn` was sent; nothing where there is no such connection.
    pub fn output(&self, conn: u32) -> &[u8]
        ensures { result.now ≡ output_of self.now conn }
    {
        match self.connections.get(conn as usize) {
            Some(connection) => connection.words.replies.as_slice(),
            None => &[],
        }
    }

    /// Whether connection `conn` has ended; one that isn't there has not.
    pub fn ended(&self, conn: u32) -> bool
        ensures { result ≡ ended_at self.now conn }
    {
        match self.connections.get(conn as usize) {
            Some(connection) => connection.ended,
            None => false,
        }
    }

    /// What holds of every world, whatever the steps and their order.
    pub fn promise(&self)
        ensures { RunInvariant self.now }
    {
        let _ = &self.book;
    }

    /// A piece of its stream is received on a connection, and its messages are answered. One that has ended receives
    /// nothing.
    fn hear(&mut self, conn: u32, bytes: &[u8], now: Moment)
        ensures { Steps (chunk conn bytes.now now) self.old self.new }
    {
        if let Some(connection) = self.connections.get_mut(conn as usize) {
            connection.hear(self.alloc, conn, &mut self.book, bytes, now);
        }
    }

    /// The front of a queue is taken.
    fn take(&mut self, d: u32, now: Moment)
        ensures { Steps (event (take d now)) self.old self.new }
    {
        let _ = self.book.take(d, now);
    }

    /// An attempt is settled.
    fn settle(&mut self, ticket: &Ticket, outcome: Outcome, now: Moment)
        ensures { Steps (event (settle ticket.now outcome now)) self.old self.new }
    {
        let _ = self.book.settle(ticket, outcome, now);
    }

    /// A message is cancelled among the destinations of a mask.
    fn cancel(&mut self, number: u32, among: u32)
        ensures { Steps (event (cancel number among)) self.old self.new }
    {
        let _ = self.book.cancel_among(number, among);
    }

    /// A plan is deployed.
    fn deploy(&mut self, plan: &Arc<Plan>)
        ensures { Steps (event (deploy (arc_value plan.now))) self.old self.new }
    {
        if let Ok(plan) = Arc::try_clone(plan) {
            let _ = self.book.deploy(plan);
        }
    }

    /// The messages below a number are forgotten, and the history is folded.
    fn prune(&mut self, before: u32)
        ensures { Steps (prune before) self.old self.new }
    {
        if self.book.prune(before).is_ok() {
            note_folding(&mut self.connections);
        }
    }

    /// Takes a step that is borrowed.
    fn advance(&mut self, step: &Step)
        ensures { Steps (turn_by step.now) self.old self.new }
    {
        match step {
            Step::Chunk { conn, bytes, now } => self.hear(*conn, bytes, *now),
            Step::Take { d, now } => self.take(*d, *now),
            Step::Settle {
                ticket,
                outcome,
                now,
            } => self.settle(ticket, *outcome, *now),
            Step::Cancel { number } => self.cancel(*number, u32::MAX),
            Step::CancelAmong { number, among } => self.cancel(*number, *among),
            Step::Deploy { plan } => self.deploy(plan),
            Step::Prune { before } => self.prune(*before),
        }
    }

    /// One step. A chunk of no connection changes nothing, nor does an event that the book refuses. Where memory is refused
    /// outside of the book, the connection ends: what it was sent stays whole blocks, and it hears nothing more.
    pub fn step(&mut self, step: Step)
        ensures { Steps (turn_by step) self.old self.new }
    {
        self.advance(&step);
    }

    /// Step after step.
    pub fn run(&mut self, steps: &[Step])
        ensures { Runs (map turn_by steps.now) self.old self.new }
    {
        for step in steps {
            self.advance(step);
        }
    }
}

/// A connection on each of these channels.
fn listening(alloc: Global, channels: &[u32]) -> Result<Vec<Connected>, AllocError>
    ensures silent { IfOk result (λ connections. map connection_of connections.items ≡ map silent channels.now) }
    ensures stand { IfOk result (λ connections. All IsOpen connections.items) }
    ensures none_folded { IfOk result (λ connections. All (λ c. c.folded ≡ 0) connections.items) }
{
    let mut connections = Vec::with_capacity(alloc, channels.len())?;
    for channel in channels {
        connections.push_reserved(Connected::new(alloc, *channel));
    }
    Ok(connections)
}

/// Notes that the answers that these connections gave so far were given before the history was folded.
fn note_folding(connections: &mut [Connected])
    ensures { connections.new ≡ map with_folded connections.old }
{
    for connection in connections {
        connection.folded = connection.words.answers.len();
    }
}
