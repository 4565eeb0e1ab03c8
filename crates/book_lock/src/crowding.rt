//! Which destinations are crowded: what waits for them takes so much of a book that further arrivals for them have to wait.

ghost use Rattle.std.specs.Prelude.{◌≡◌, ◌≤◌, ◌<◌, ◌^◌};
ghost use Rattle.book_lock.specs.Crowding.{crowded_among, crowded_route, crowds, is_crowded, is_pressed, load_of, owed_at, owed_by_queue};

use crate::tidying::Tidying;
use book_core::{Book, BookRows};
use event_log::attempts_max;
use plan_text::Channel;

/// Among how many destinations what is owed is shared at least, where it is compared with an equal share.
const SHARERS_MIN: u32 = 3;

/// How full a book is, and among how many destinations what it owes is shared.
#[derive(Clone, Copy, Debug, PartialEq, Eq)]
pub struct Load {
    /// The entries that it holds: those that were folded are not among them.
    pub held: usize,
    /// The entries that may still follow from the deliveries of its messages.
    pub owed: u32,
    /// The most entries that it may hold, those owed included.
    pub events_max: u32,
    /// How many destinations the plan in force has.
    pub destinations: u32,
}

/// Why an arrival was neither booked nor refused: its channel has a route to a crowded destination.
#[derive(Clone, Copy, Debug, PartialEq, Eq)]
pub struct Crowded {
    /// The first such destination, by its index in the plan.
    pub destination: u32,
    /// What was done about a tight book before.
    pub tidying: Tidying,
}

impl Load {
    /// Whether more than three quarters of the bound are entries or owed and less than an eighth are entries, so that a
    /// pruning would free little.
    fn is_pressed(self) -> bool
        ensures { result ≡ is_pressed self }
    {
        let max = u128::from(self.events_max);
        let held = self.held as u128;
        4 * (held + u128::from(self.owed)) > 3 * max && 8 * held < max
    }

    /// Whether a destination that owes `here` entries is crowded: that is more than half of the bound, or, in a book that is
    /// pressed, at least an equal share of what is owed.
    pub fn crowds(self, here: u128) -> bool
        requires { here < 2 ^ 90 }
        ensures { result ≡ crowds self here }
    {
        let sharers = u128::from(self.destinations.max(SHARERS_MIN));
        2 * here > u128::from(self.events_max)
            || self.is_pressed() && sharers * here >= u128::from(self.owed)
    }
}

/// The entries that may follow from messages at a destination that sends each `attempts` times at most, none of which was
/// tried yet.
pub fn owed_by_queue(messages: u128, attempts: u32) -> u128
    requires messages { messages < 2 ^ 66 }
    requires attempts { attempts ≤ 1000 }
    ensures value { result ≡ owed_by_queue messages attempts }
    ensures bound { result < 2 ^ 90 }
{
    messages * (2 * u128::from(attempts) + 1)
}

/// How full a book is.
fn load_of<S: BookRows>(book: &Book<S>) -> Load
    ensures { result ≡ load_of book.now }
{
    Load {
        held: book.held(),
        owed: book.owed(),
        events_max: book.events_max(),
        destinations: book.plan().destinations(),
    }
}

/// What a destination owes, as if none of the messages in its queue was tried yet.
fn owed_at<S: BookRows>(book: &Book<S>, d: u32) -> u128
    ensures value { result ≡ owed_at book.now d }
    ensures bound { result < 2 ^ 90 }
{
    owed_by_queue(u128::from(book.queue_len(d)), attempts_max(book.plan(), d))
}

/// Whether a destination is crowded.
fn is_crowded<S: BookRows>(book: &Book<S>, d: u32) -> bool
    ensures { result ≡ is_crowded book.now d }
{
    load_of(book).crowds(owed_at(book, d))
}

/// The first crowded destination that a channel has a route to.
fn crowded_among<S: BookRows>(book: &Book<S>, channel: &Channel) -> Option<u32>
    ensures { result ≡ crowded_among book.now channel.now }
{
    let route = channel
        .routes()
        .iter()
        .find(|route| is_crowded(book, route.to()))?;
    Some(route.to())
}

/// The first crowded destination that a channel of the plan in force has a route to. It takes time in proportion to the
/// channel's routes.
pub(crate) fn crowded_route<S: BookRows>(book: &Book<S>, channel: u32) -> Option<u32>
    ensures { result ≡ crowded_route book.now channel }
{
    match book.plan().channel(channel) {
        Some(channel) => crowded_among(book, channel),
        None => None,
    }
}
