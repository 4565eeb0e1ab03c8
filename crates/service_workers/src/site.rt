//! What all workers of a service share.

ghost use Rattle.std.specs.Prelude.{◌≡◌, IfOk};

use crate::gate::ChannelStream;
use crate::half::{Half, Label, PAUSE_STEP};
use crate::holding::Holding;
use crate::links::{LinkNote, LinkState, Links, is_other};
use crate::noting::MessageNotes;
use crate::stage::Stage;
use crate::tallies::{Dropped, Tallies, Unbooked};
use book_core::{NotBooked, Outbound};
use book_lock::{Shared, Sharing};
use delivery_worker::{Cause, TakeRule};
use dest_queue::Queued;
use fixed_numbers::DESTINATIONS;
use judge_core::Judged;
use log::Log;
use message_notes::{AnswerText, Notes};
use plan_text::Plan;
use record_list::RecordList;
use socket_options::is_broken;
use std::alloc::{AllocError, Global};
use std::net::{Net, TcpListener, TcpStream};
use std::sync::atomic::{AtomicBool, AtomicU32, AtomicU64, Ordering};
use std::sync::{Arc, Mutex, Wait};
use std::thread;
use std::time::{Clock, Duration};

/// The store of a book's rows: linked nodes.
pub type ServiceRows = RecordList<Queued<Outbound>>;

/// What workers require of the system: waiting, sockets, the time, and a log.
pub trait Crew: Clock + Net<Listener = TcpListener, Stream = TcpStream> + Log + Wait {}

impl<H: Clock + Net<Listener = TcpListener, Stream = TcpStream> + Log + Wait> Crew for H {}

/// What all workers of a service share.
#[derive(Drop)]
pub struct Site<'x, A: Sharing, H> {
    /// The system and the log.
    pub rt: &'x H,
    /// The allocator.
    pub alloc: Global,
    /// The book.
    pub shared: &'x Shared<A, ServiceRows>,
    /// How many of the last messages a pruning keeps.
    pub keep: u32,
    /// After how many seconds without a byte a connection ends; 0: never.
    pub idle: u32,
    /// Whether the history is written to a store.
    pub is_stored: bool,
    /// The last moment in the store, in seconds since 1970, before which deliveries go by no other; 0 where there is none.
    pub last_second: u64,
    /// Where the words of the destinations' answers are shown.
    pub answer_text: AnswerText,
    /// The number of the first connection.
    first_connection: u32,
    /// The number before which the numbers of connections are reserved in the store.
    reserved: AtomicU32,
    /// How many connections are open.
    open: AtomicU32,
    /// How many places work.
    places: AtomicU32,
    /// How many posts work.
    posts: AtomicU32,
    /// How often the warden has looked at the book.
    looks: AtomicU64,
    /// The number of the stage.
    stage: AtomicU32,
    /// The channels whose reading pauses, one bit each.
    paused: AtomicU64,
    /// The channels whose arrivals are held back, one bit each.
    held_back: AtomicU64,
    /// The destinations that are held.
    pub(crate) holding: Holding,
    links: Links,
    /// Whether the plan in force is neither that of the command line nor one that was deployed since.
    plan_differs: AtomicBool,
    /// What is noted about the messages that the book remembers.
    pub(crate) notes: Mutex<MessageNotes>,
    tallies: Tallies,
}

/// Where a service keeps the history of its book, and what it goes on from.
#[derive(Clone, Copy, Debug, PartialEq, Eq)]
pub enum History {
    /// In memory: it ends with the process.
    Memory,
    /// In a store.
    Store {
        /// The number of the first connection.
        first_connection: u32,
        /// The number before which the numbers of connections are reserved in the store.
        reserved: u32,
        /// The last moment in the store, in seconds since 1970; 0 where there is none.
        last_second: u64,
    },
}

impl History {
    /// Whether it is written to a store.
    fn is_stored(self) -> bool {
        matches!(self, History::Store { .. })
    }

    /// The number of the first connection, and that before which numbers are reserved.
    fn connections(self) -> (u32, u32) {
        match self {
            History::Memory => (0, u32::MAX),
            History::Store {
                first_connection,
                reserved,
                ..
            } => (first_connection, reserved),
        }
    }

    /// The last moment in the store, in seconds since 1970; 0 where there is none.
    fn last_second(self) -> u64 {
        match self {
            History::Memory => 0,
            History::Store { last_second, .. } => last_second,
        }
    }
}

impl<'x, A: Sharing, H: Crew> Site<'x, A, H> {
    /// A site where nothing works yet.
    pub fn new(
        rt: &'x H,
        alloc: Global,
        shared: &'x Shared<A, ServiceRows>,
        keep: u32,
        idle: u32,
        history: History,
        answer_text: AnswerText,
    ) -> Self {
        let notes = Notes::new(alloc, shared.gauge(rt).first);
        let (first_connection, reserved) = history.connections();
        Site {
            rt,
            alloc,
            shared,
            keep,
            idle,
            is_stored: history.is_stored(),
            last_second: history.last_second(),
            answer_text,
            first_connection,
            reserved: AtomicU32::new(reserved),
            open: AtomicU32::new(0),
            places: AtomicU32::new(0),
            posts: AtomicU32::new(0),
            looks: AtomicU64::new(0),
            stage: AtomicU32::new(0),
            paused: AtomicU64::new(0),
            held_back: AtomicU64::new(0),
            holding: Holding::new(alloc),
            links: Links::new(),
            plan_differs: AtomicBool::new(false),
            notes: Mutex::new(notes),
            tallies: Tallies::new(),
        }
    }

    /// A half of a connection, by its stream.
    ///
    /// # Errors
    ///
    /// Where memory is refused.
    pub(crate) fn half<'s>(
        &'s self,
        shared: &ChannelStream,
        label: Label<'s>,
    ) -> Result<Half<'s, H>, AllocError>
        ensures { IfOk result (λ half. half.channel ≡ shared.now.channel) }
    {
        let stream = Arc::try_clone(&shared.stream)?;
        let channel = shared.channel;
        Ok(Half::new(self.rt, &self.stage, &self.paused, channel, stream, label))
    }

    /// How far the end is.
    pub fn stage(&self) -> Stage {
        Stage::of(self.stage.load(Ordering::SeqCst))
    }

    /// Goes on to a stage. It never goes back to an earlier one.
    pub fn go_to(&self, stage: Stage) {
        self.stage.fetch_max(stage.number(), Ordering::SeqCst);
    }

    /// The channels whose reading pauses, one bit each.
    pub fn paused(&self) -> u64 {
        self.paused.load(Ordering::SeqCst)
    }

    /// Has reading pause at the channels of this mask, and at no other.
    pub(crate) fn pause(&self, channels: u64) {
        self.paused.store(channels, Ordering::SeqCst);
    }

    /// Has reading pause at the channels of this mask too.
    pub(crate) fn pause_also(&self, channels: u64) {
        self.paused.fetch_or(channels, Ordering::SeqCst);
    }

    /// Notes that the arrivals of the channels of this mask are held back, and of no other.
    pub(crate) fn hold_back(&self, channels: u64) {
        self.held_back.store(channels, Ordering::SeqCst);
    }

    /// Notes that the arrivals of the channel at this index are held back too.
    pub(crate) fn hold_back_also(&self, channel: u32) {
        let here = 1_u64.checked_shl(channel).unwrap_or(0);
        self.held_back.fetch_or(here, Ordering::SeqCst);
    }

    /// Whether the arrivals of the channel at this index are held back.
    fn is_held_back(&self, channel: u32) -> bool {
        let channels = self.held_back.load(Ordering::SeqCst);
        channels.checked_shr(channel).unwrap_or(0) % 2 == 1
    }

    /// Waits while the arrivals of the channel at this index are held back. Returns whether the service is open and the connection
    /// is not broken.
    pub(crate) fn wait_for_room(&self, channel: u32, stream: &TcpStream) -> bool {
        for _ in self.rt.forever() {
            if self.stage() != Stage::Open || is_broken(stream) {
                return false;
            }
            if !self.is_held_back(channel) {
                return true;
            }
            thread::sleep(self.rt, Duration::from_millis(PAUSE_STEP));
        }
        false
    }

    /// Which messages are taken from their queues: where there is a store, only those that a crash doesn't lose.
    pub(crate) fn take_rule(&self) -> TakeRule {
        if self.is_stored {
            TakeRule::Durable
        } else {
            TakeRule::Any
        }
    }

    /// The number of the next connection, once it is reserved in the store. None where no number is left, or the service ends
    /// before that.
    pub(crate) fn admit(&self) -> Option<u32> {
        let admitted = self.shared.admit(self.rt)?;
        let number = self.first_connection.checked_add(admitted)?;
        for _ in self.rt.forever() {
            if number < self.reserved.load(Ordering::SeqCst) {
                return Some(number);
            }
            if self.stage() != Stage::Open {
                return None;
            }
            thread::sleep(self.rt, Duration::from_millis(PAUSE_STEP));
        }
        None
    }

    /// Notes the number before which the numbers of connections are reserved in the store.
    pub fn note_reserved(&self, end: u32) {
        self.reserved.fetch_max(end, Ordering::SeqCst);
    }

    /// How many reserved numbers of connections are left.
    pub fn numbers_left(&self) -> u32 {
        let admitted = self.shared.gauge(self.rt).admitted;
        let next = self.first_connection.saturating_add(admitted);
        self.reserved.load(Ordering::SeqCst).saturating_sub(next)
    }

    /// How many connections are open.
    pub fn open(&self) -> u32 {
        self.open.load(Ordering::SeqCst)
    }

    /// Counts a connection of the channel at this index that was opened.
    pub(crate) fn count_opened(&self, channel: u32) {
        self.open.fetch_add(1, Ordering::SeqCst);
        self.tallies.count_opened(channel);
    }

    /// Counts a connection of the channel at this index that ended.
    pub(crate) fn count_ended(&self, channel: u32) {
        self.open.fetch_sub(1, Ordering::SeqCst);
        self.tallies.count_ended(channel);
    }

    /// How many connections of the channel at this index are open.
    pub fn channel_open(&self, channel: u32) -> u64 {
        self.tallies.open(channel)
    }

    /// How many connections of the channel at this index can be served at once.
    pub fn channel_places(&self, channel: u32) -> u64 {
        self.tallies.places(channel)
    }

    /// Counts a connection that was closed because no number was left for it or memory was refused.
    pub(crate) fn count_refused(&self) {
        self.tallies.count_refused();
    }

    /// How many connections were closed because no number was left for them or memory was refused.
    pub fn refused(&self) -> u64 {
        self.tallies.refused()
    }

    /// Counts a message that failed since its last attempt was cut off by the stop.
    pub(crate) fn count_cut(&self) {
        self.tallies.count_cut();
    }

    /// How many messages failed since their last attempt was cut off by the stop. Each was named in the log.
    pub fn cut(&self) -> u64 {
        self.tallies.cut()
    }

    /// Counts a message that was sent to the destination at this index a second time within one attempt.
    pub(crate) fn count_sent_again(&self, destination: u32) {
        self.tallies.count_sent_again(destination);
    }

    /// How many messages were sent to the destination at this index a second time within one attempt. Each was named in the log.
    pub fn sent_again(&self, destination: u32) -> u64 {
        self.tallies.sent_again(destination)
    }

    /// Counts a message that was not booked.
    pub(crate) fn count_unbooked(&self, cause: NotBooked) {
        self.tallies.count_unbooked(cause);
    }

    /// How many messages were not booked, by cause. Each was acknowledged so.
    pub fn unbooked(&self) -> Unbooked {
        self.tallies.unbooked()
    }

    /// Counts a message that was answered as a repeat without being booked, since the book is full.
    pub(crate) fn count_repeat_unbooked(&self) {
        self.tallies.count_repeat_unbooked();
    }

    /// How many messages were answered as repeats without being booked, since the book was full.
    pub fn repeats_unbooked(&self) -> u64 {
        self.tallies.repeats_unbooked()
    }

    /// Counts a block that was passed over: one that is no message, or an acknowledgment.
    pub(crate) fn count_passed_over(&self, judged: &Judged) {
        match judged.header() {
            None => self.tallies.count_unreadable(),
            Some(_) => self.tallies.count_acknowledgment(),
        }
    }

    /// Counts a block that was broken by its framing.
    pub(crate) fn count_broken(&self) {
        self.tallies.count_broken();
    }

    /// How many blocks were dropped without an answer, by cause.
    pub fn dropped(&self) -> Dropped {
        self.tallies.dropped()
    }

    /// The time by the system's clock in seconds since 1970; 0 where it can't be read.
    pub fn seconds(&self) -> u64 {
        match self.rt.since_1970() {
            Ok(time) => time.as_secs(),
            Err(_) => 0,
        }
    }

    /// Notes that a message is accepted or filtered on the channel at this index.
    pub(crate) fn note_received(&self, channel: u32) {
        self.tallies.note_received(channel, self.seconds());
    }

    /// When the last message was accepted or filtered on the channel at this index, in seconds since 1970; 0 where none was.
    pub fn last_received(&self, channel: u32) -> u64 {
        self.tallies.received(channel)
    }

    /// Notes that a message is delivered at the destination at this index.
    pub(crate) fn note_delivered(&self, destination: u32) {
        self.tallies.note_delivered(destination, self.seconds());
    }

    /// When the last message was delivered at the destination at this index, in seconds since 1970; 0 where none was.
    pub fn last_delivered(&self, destination: u32) -> u64 {
        self.tallies.delivered(destination)
    }

    /// Notes that a connection to the destination at this index was opened.
    pub(crate) fn note_connected(&self, destination: u32) {
        self.links
            .note_connected(self.rt, destination, self.seconds());
    }

    /// Notes that the connection to the destination at this index failed or could not be opened, why, and for how many seconds no
    /// other is tried.
    pub(crate) fn note_fault(&self, destination: u32, cause: &Cause, wait: Option<u32>) {
        let second = self.seconds();
        self.links
            .note_fault(self.rt, self.alloc, destination, second, cause, wait);
    }

    /// Notes that an attempt at the destination at this index begins, in which the connection hasn't failed yet.
    pub(crate) fn forget_fault(&self, destination: u32) {
        self.links.forget_fault(self.rt, destination);
    }

    /// Why the connection to the destination at this index failed in the attempt at hand, in words, if it did.
    ///
    /// # Errors
    ///
    /// Where memory is refused.
    pub(crate) fn fresh_fault(&self, destination: u32) -> Result<Option<String>, AllocError> {
        self.links.fresh_fault(self.rt, self.alloc, destination)
    }

    /// Notes that the destination at this index is another one by now, to which no connection was tried yet.
    pub(crate) fn note_moved(&self, destination: u32) {
        self.links.forget(self.rt, destination);
    }

    /// Notes that the store's plan stays in force, since that of the command line is not taken.
    pub fn keep_plan(&self) {
        self.plan_differs.store(true, Ordering::SeqCst);
    }

    /// Whether the plan in force is neither that of the command line nor one that was deployed since.
    pub fn plan_differs(&self) -> bool {
        self.plan_differs.load(Ordering::SeqCst)
    }

    /// Notes that a plan has replaced another one: which destinations are held by it, and which are other ones than before.
    pub fn note_deployed(&self, before: &Plan, now: &Plan) {
        self.hold_by(now);
        self.plan_differs.store(false, Ordering::SeqCst);
        for destination in 0..DESTINATIONS {
            if is_other(before, now, destination) {
                self.note_moved(destination);
            }
        }
    }

    /// What is known of the connection to the destination at this index.
    ///
    /// # Errors
    ///
    /// Where memory is refused.
    pub fn link(&self, destination: u32) -> Result<LinkNote, AllocError> {
        self.links.at(self.rt, self.alloc, destination)
    }

    /// Whether the destination at this index is connected, as far as is known.
    pub fn link_state(&self, destination: u32) -> LinkState {
        self.links.state(self.rt, destination)
    }

    /// How many places work.
    pub fn places(&self) -> u32 {
        self.places.load(Ordering::SeqCst)
    }

    /// Counts a place of the channel at this index that begins to work.
    pub fn begin_place(&self, channel: u32) {
        self.places.fetch_add(1, Ordering::SeqCst);
        self.tallies.count_place(channel);
    }

    /// Notes that a place of the channel at this index can't work, since no thread was started for it.
    pub fn lose_place(&self, channel: u32) {
        self.end_place();
        self.tallies.lose_place(channel);
    }

    /// Counts a place that ended.
    pub fn end_place(&self) {
        self.places.fetch_sub(1, Ordering::SeqCst);
    }

    /// Notes that the warden has looked at the book.
    pub(crate) fn note_look(&self) {
        self.looks.fetch_add(1, Ordering::SeqCst);
    }

    /// How often the warden has looked at the book: it looks 20 times a second, and has to take the book's lock for that.
    pub fn looks(&self) -> u64 {
        self.looks.load(Ordering::SeqCst)
    }

    /// How many posts work.
    pub fn posts(&self) -> u32 {
        self.posts.load(Ordering::SeqCst)
    }

    /// Counts a post that begins to work.
    pub fn begin_post(&self) {
        self.posts.fetch_add(1, Ordering::SeqCst);
    }

    /// Counts a post that ended.
    pub fn end_post(&self) {
        self.posts.fetch_sub(1, Ordering::SeqCst);
    }
}
