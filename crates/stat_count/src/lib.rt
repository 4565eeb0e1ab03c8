//! The statistics of a book: what became of the messages of each channel, and the states of the messages
//! of each destination.
#![tactic(auto)]

ghost use Rattle.std.specs.Prelude.{◌≡◌, ◌≢◌, ◌+◌, ◌<◌, ◌≤◌, ◌&&◌, ℕ, IfNone, IfSome, false, length};
ghost use Rattle.std.specs.List.{list_all};
ghost use Rattle.stat_count.specs.declared.ChannelCounts.{ChannelCounts};
ghost use Rattle.stat_count.specs.declared.DestinationCounts.{DestinationCounts};
ghost use Rattle.stat_count.specs.Sums.{arrivals, takes, settlements};
ghost use Rattle.stat_count.specs.Statistics.{Statistics, channel_at, destination_at};
ghost use Rattle.stat_count.specs.inner.Statistics.{are_statistics, can_be, empty, is_sum, on_channel, on_destination, slots_of};
ghost use Rattle.stat_count.specs.inner.Statistics.{filtered_one, accepted_one, refused_one, repeated_one};
ghost use Rattle.stat_count.specs.inner.Statistics.{waits_one, taken_one, delivered_one, failed_one, again_one, cancelled_one};
ghost use Rattle.stat_count.specs.inner.Statistics.{one_less_waiting, one_less_inflight, one_less_delivered, one_less_failed};

pub use fixed_numbers::{CHANNELS, DESTINATIONS};
use std::marker::Model;

/// What became of the messages of a channel.
#[derive(Clone, Copy, Debug, PartialEq, Eq)]
pub struct ChannelCounts {
    /// The messages received for the first time under their control id: those filtered, accepted and refused.
    pub received: u64,
    /// The received messages that go to no destination.
    pub filtered: u64,
    /// The received messages that go to a destination.
    pub accepted: u64,
    /// The received messages that were refused.
    pub refused: u64,
    /// The messages that were repeated, and answered as before.
    pub repeats: u64,
}

impl ChannelCounts {
    /// The counters of a channel of which nothing was received.
    const NONE: ChannelCounts = ChannelCounts {
        received: 0,
        filtered: 0,
        accepted: 0,
        refused: 0,
        repeats: 0,
    };

    /// Whether the messages received are those filtered, accepted and refused.
    fn adds_up(&self) -> bool
        ensures { result ≡ is_sum self.now }
    {
        let decided = u128::from(self.filtered)
            + u128::from(self.accepted)
            + u128::from(self.refused);
        u128::from(self.received) == decided
    }
}

/// The states of the messages of a destination, counted.
#[derive(Clone, Copy, Debug, PartialEq, Eq)]
pub struct DestinationCounts {
    /// The messages that wait for an attempt.
    pub waiting: u64,
    /// The messages whose attempt is under way.
    pub inflight: u64,
    /// The messages that the destination has.
    pub delivered: u64,
    /// The messages that won't be sent any more.
    pub failed: u64,
    /// The attempts that were begun.
    pub attempts: u64,
}

impl DestinationCounts {
    /// The counters of a destination that no message named.
    const NONE: DestinationCounts = DestinationCounts {
        waiting: 0,
        inflight: 0,
        delivered: 0,
        failed: 0,
        attempts: 0,
    };

    /// Whether what is in flight or delivered was taken, and what named the destination can be counted.
    fn adds_up(&self) -> bool
        ensures { result ≡ can_be self.now }
    {
        let taken = u128::from(self.inflight) + u128::from(self.delivered);
        let slots = u128::from(self.waiting) + taken + u128::from(self.failed);
        taken <= u128::from(self.attempts) && slots <= u128::from(u64::MAX)
    }
}

/// Whether the messages received on each of these channels are those filtered, accepted and refused.
fn are_sums(channels: &[ChannelCounts]) -> bool
    ensures { result ≡ list_all is_sum channels.now }
{
    channels.iter().all(|counts| counts.adds_up())
}

/// Whether at each of these destinations what is in flight or delivered was taken, and its messages can be counted.
fn can_all_be(destinations: &[DestinationCounts]) -> bool
    ensures { result ≡ list_all can_be destinations.now }
{
    destinations.iter().all(|counts| counts.adds_up())
}

/// The counters of each channel and each destination. Every message received is counted as filtered, accepted or
/// refused too, and every message of a destination as waiting, in flight, delivered or failed.
#[derive(Clone, Copy, Debug, PartialEq, Eq)]
pub struct Counts {
    channels: [ChannelCounts; CHANNELS as usize],
    destinations: [DestinationCounts; DESTINATIONS as usize],
}

impl Model for Counts {
    ghost use Rattle.stat_count.specs.Statistics.{Statistics};
    ghost use Rattle.stat_count.specs.inner.Statistics.{IsStatistics};

    ghost Value = { Statistics };

    ghost view = { λ c. record { channels = c.channels; destinations = c.destinations } };

    ghost invariant = { λ c. IsStatistics (record { channels = c.channels; destinations = c.destinations }) };

    ghost inverse = { λ s. record { channels = s.channels; destinations = s.destinations } };
}

impl Counts {
    /// All counters at 0.
    pub fn new() -> Counts
        ensures { result ≡ empty }
    {
        Counts {
            channels: [ChannelCounts::NONE; CHANNELS as usize],
            destinations: [DestinationCounts::NONE; DESTINATIONS as usize],
        }
    }

    /// These counters: of 64 channels and of 32 destinations. Nothing where they are more or fewer, or where they contradict
    /// one another: a message received is filtered, accepted or refused, one in flight or delivered was taken, and what named
    /// a destination can be counted in 64 bits.
    #[tactic(auto, using(crate::proofs::AddsUp::statistics_of))]
    pub fn of(channels: &[ChannelCounts], destinations: &[DestinationCounts]) -> Option<Counts>
        ensures channels { IfSome result (λ counts. counts.channels ≡ channels.now) }
        ensures destinations { IfSome result (λ counts. counts.destinations ≡ destinations.now) }
        ensures refused { IfNone result
            (are_statistics (record { channels = channels.now; destinations = destinations.now }) ≡ false) }
    {
        let is_whole = channels.len() == CHANNELS as usize
            && destinations.len() == DESTINATIONS as usize;
        if !is_whole || !are_sums(channels) || !can_all_be(destinations) {
            return None;
        }
        let mut of_channels = [ChannelCounts::NONE; CHANNELS as usize];
        let mut of_destinations = [DestinationCounts::NONE; DESTINATIONS as usize];
        of_channels.copy_from_slice(channels);
        of_destinations.copy_from_slice(destinations);
        Some(Counts {
            channels: of_channels,
            destinations: of_destinations,
        })
    }

    /// The counters of all channels, in the order of their indices.
    pub fn channels(&self) -> &[ChannelCounts]
        ensures value { result.now ≡ self.now.channels }
        ensures all { length result.now ≡ 64 }
    {
        &self.channels
    }

    /// The counters of all destinations, in the order of their indices.
    pub fn destinations(&self) -> &[DestinationCounts]
        ensures value { result.now ≡ self.now.destinations }
        ensures all { length result.now ≡ 32 }
    {
        &self.destinations
    }

    /// The counters of a channel.
    pub fn channel(&self, channel: u32) -> ChannelCounts
        requires { channel < CHANNELS }
        ensures value { result ≡ channel_at channel self.now }
        ensures received_is_sum { result.received ≡ result.filtered + result.accepted + result.refused }
    {
        self.channels[channel as usize]
    }

    /// The counters of a destination.
    pub fn destination(&self, d: u32) -> DestinationCounts
        requires { d < DESTINATIONS }
        ensures value { result ≡ destination_at d self.now }
        ensures were_taken { result.inflight + result.delivered ≤ result.attempts }
    {
        self.destinations[d as usize]
    }

    /// A message of a channel was received, and goes to no destination.
    pub fn count_filtered(&mut self, channel: u32)
        requires place { channel < CHANNELS }
        requires room { (channel_at channel self.old).received < u64.MAX }
        ensures { self.new ≡ on_channel channel filtered_one self.old }
    {
        let counts = &mut self.channels[channel as usize];
        counts.received += 1;
        counts.filtered += 1;
    }

    /// A message of a channel was received, and goes to a destination.
    pub fn count_accepted(&mut self, channel: u32)
        requires place { channel < CHANNELS }
        requires room { (channel_at channel self.old).received < u64.MAX }
        ensures { self.new ≡ on_channel channel accepted_one self.old }
    {
        let counts = &mut self.channels[channel as usize];
        counts.received += 1;
        counts.accepted += 1;
    }

    /// A message of a channel was received, and refused.
    pub fn count_refused(&mut self, channel: u32)
        requires place { channel < CHANNELS }
        requires room { (channel_at channel self.old).received < u64.MAX }
        ensures { self.new ≡ on_channel channel refused_one self.old }
    {
        let counts = &mut self.channels[channel as usize];
        counts.received += 1;
        counts.refused += 1;
    }

    /// Counts a message of a channel that was repeated.
    pub fn count_repeat(&mut self, channel: u32)
        requires place { channel < CHANNELS }
        requires room { (channel_at channel self.old).repeats < u64.MAX }
        ensures { self.new ≡ on_channel channel repeated_one self.old }
    {
        self.channels[channel as usize].repeats += 1;
    }

    /// A message begins to wait at a destination.
    pub fn count_waiting(&mut self, d: u32)
        requires place { d < DESTINATIONS }
        requires room { slots_of (destination_at d self.old) < u64.MAX }
        ensures { self.new ≡ on_destination d waits_one self.old }
    {
        self.destinations[d as usize].waiting += 1;
    }

    /// A message that waits at a destination is taken.
    pub fn count_taken(&mut self, d: u32)
        requires place { d < DESTINATIONS }
        requires waits { 0 < (destination_at d self.old).waiting }
        requires room { (destination_at d self.old).attempts < u64.MAX }
        ensures { self.new ≡ on_destination d taken_one self.old }
    {
        let counts = &mut self.destinations[d as usize];
        counts.waiting -= 1;
        counts.inflight += 1;
        counts.attempts += 1;
    }

    /// A message in flight is delivered.
    pub fn count_delivered(&mut self, d: u32)
        requires place { d < DESTINATIONS }
        requires inflight { 0 < (destination_at d self.old).inflight }
        ensures { self.new ≡ on_destination d delivered_one self.old }
    {
        let counts = &mut self.destinations[d as usize];
        counts.inflight -= 1;
        counts.delivered += 1;
    }

    /// A message in flight fails: it was rejected, or its attempts are spent.
    pub fn count_failed(&mut self, d: u32)
        requires place { d < DESTINATIONS }
        requires inflight { 0 < (destination_at d self.old).inflight }
        ensures { self.new ≡ on_destination d failed_one self.old }
    {
        let counts = &mut self.destinations[d as usize];
        counts.inflight -= 1;
        counts.failed += 1;
    }

    /// A message in flight has to be sent again, and waits.
    pub fn count_again(&mut self, d: u32)
        requires place { d < DESTINATIONS }
        requires inflight { 0 < (destination_at d self.old).inflight }
        ensures { self.new ≡ on_destination d again_one self.old }
    {
        let counts = &mut self.destinations[d as usize];
        counts.inflight -= 1;
        counts.waiting += 1;
    }

    /// A message that waits is cancelled.
    pub fn count_cancelled(&mut self, d: u32)
        requires place { d < DESTINATIONS }
        requires waits { 0 < (destination_at d self.old).waiting }
        ensures { self.new ≡ on_destination d cancelled_one self.old }
    {
        let counts = &mut self.destinations[d as usize];
        counts.waiting -= 1;
        counts.failed += 1;
    }

    /// Leaves out one of the messages that wait at a destination, if any is counted. The attempts stay.
    pub fn leave_out_waiting(&mut self, d: u32)
        requires place { d < DESTINATIONS }
        ensures { self.new ≡ on_destination d one_less_waiting self.old }
    {
        let counts = &mut self.destinations[d as usize];
        counts.waiting = counts.waiting.saturating_sub(1);
    }

    /// Leaves out one of the messages in flight to a destination, if any is counted. The attempts stay.
    pub fn leave_out_inflight(&mut self, d: u32)
        requires place { d < DESTINATIONS }
        ensures { self.new ≡ on_destination d one_less_inflight self.old }
    {
        let counts = &mut self.destinations[d as usize];
        counts.inflight = counts.inflight.saturating_sub(1);
    }

    /// Leaves out one of the messages that a destination has, if any is counted. The attempts stay.
    pub fn leave_out_delivered(&mut self, d: u32)
        requires place { d < DESTINATIONS }
        ensures { self.new ≡ on_destination d one_less_delivered self.old }
    {
        let counts = &mut self.destinations[d as usize];
        counts.delivered = counts.delivered.saturating_sub(1);
    }

    /// Leaves out one of the messages that failed at a destination, if any is counted. The attempts stay.
    pub fn leave_out_failed(&mut self, d: u32)
        requires place { d < DESTINATIONS }
        ensures { self.new ≡ on_destination d one_less_failed self.old }
    {
        let counts = &mut self.destinations[d as usize];
        counts.failed = counts.failed.saturating_sub(1);
    }
}

/// The laws of the statistics: a change to one channel or destination changes its counters and no others.
pub fn statistics_rules()
    ensures channel { (statistics : Statistics) (channel : ℕ) (change : ChannelCounts → ChannelCounts) → channel < length statistics.channels →
        channel_at channel (on_channel channel change statistics) ≡ change (channel_at channel statistics) }
    ensures other_channels { (statistics : Statistics) (channel other : ℕ) (change : ChannelCounts → ChannelCounts) → other ≢ channel →
        channel_at other (on_channel channel change statistics) ≡ channel_at other statistics }
    ensures destination { (statistics : Statistics) (d : ℕ) (change : DestinationCounts → DestinationCounts) → d < length statistics.destinations →
        destination_at d (on_destination d change statistics) ≡ change (destination_at d statistics) }
    ensures other_destinations { (statistics : Statistics) (d other : ℕ) (change : DestinationCounts → DestinationCounts) → other ≢ d →
        destination_at other (on_destination d change statistics) ≡ destination_at other statistics }
{}

/// The laws of the sums: an arrival adds one to the arrivals, a take to the takes, and a settlement to the settlements.
/// To begin to wait and to be cancelled add to none.
pub fn sum_rules()
    ensures arrivals { (statistics : Statistics) (channel : ℕ) → channel < length statistics.channels →
        (arrivals (on_channel channel filtered_one statistics) ≡ arrivals statistics + 1)
        × (arrivals (on_channel channel accepted_one statistics) ≡ arrivals statistics + 1)
        × (arrivals (on_channel channel refused_one statistics) ≡ arrivals statistics + 1)
        × (arrivals (on_channel channel repeated_one statistics) ≡ arrivals statistics + 1) }
    ensures takes { (statistics : Statistics) (d : ℕ) → d < length statistics.destinations →
        (takes (on_destination d taken_one statistics) ≡ takes statistics + 1)
        × (settlements (on_destination d taken_one statistics) ≡ settlements statistics) }
    ensures settlements { (statistics : Statistics) (d : ℕ) → d < length statistics.destinations →
        0 < (destination_at d statistics).inflight → (destination_at d statistics).inflight ≤ (destination_at d statistics).attempts →
        (settlements (on_destination d delivered_one statistics) ≡ settlements statistics + 1)
        × (settlements (on_destination d failed_one statistics) ≡ settlements statistics + 1)
        × (settlements (on_destination d again_one statistics) ≡ settlements statistics + 1) }
    ensures settled_takes { (statistics : Statistics) (d : ℕ) → d < length statistics.destinations →
        (takes (on_destination d delivered_one statistics) ≡ takes statistics)
        × (takes (on_destination d failed_one statistics) ≡ takes statistics)
        × (takes (on_destination d again_one statistics) ≡ takes statistics) }
    ensures neither { (statistics : Statistics) (d : ℕ) → d < length statistics.destinations →
        (takes (on_destination d waits_one statistics) ≡ takes statistics)
        × (takes (on_destination d cancelled_one statistics) ≡ takes statistics)
        × (settlements (on_destination d waits_one statistics) ≡ settlements statistics)
        × (settlements (on_destination d cancelled_one statistics) ≡ settlements statistics) }
{}
