//! What a service counts beside its book.

ghost use Rattle.std.specs.Prelude.{◌≡◌, ◌<◌, ◌==◌};
ghost use Rattle.std.specs.Int.{bit_at};

/// How many arrivals were not booked since the start, by cause.
#[derive(Clone, Copy, Debug, PartialEq, Eq)]
pub struct Unbooked {
    /// The book had no room.
    pub full: u64,
    /// The plan was replaced while the message was judged.
    pub plan_changed: u64,
    /// Memory was refused.
    pub no_memory: u64,
}

/// How many blocks were dropped without an answer since the start, by cause.
#[derive(Clone, Copy, Debug, PartialEq, Eq)]
pub struct Dropped {
    /// The block was no message.
    pub unreadable: u64,
    /// The block was an acknowledgment.
    pub acknowledgments: u64,
    /// The block was broken by its framing.
    pub broken: u64,
}

/// What a service has written to its store since the start.
#[derive(Clone, Copy, Debug, PartialEq, Eq)]
pub struct StoreNumbers {
    /// How many commits were made.
    pub commits: u64,
    /// How many changes of the book were written with them.
    pub changes: u64,
    /// How long all commits took, in microseconds.
    pub micros: u64,
    /// How long the longest of them took, in microseconds.
    pub longest: u64,
    /// Whether the disk has no room, so that nothing is acknowledged.
    pub has_no_room: bool,
}

impl StoreNumbers {
    /// How long a commit took in the mean, in microseconds; 0 where there was none.
    pub fn average(&self) -> u64 {
        self.micros.checked_div(self.commits).unwrap_or(0)
    }
}

/// What a service counts beside its book.
#[derive(Clone, Copy, Debug, PartialEq, Eq)]
pub struct Figures {
    /// When the service started, in seconds since 1970.
    pub started: u64,
    /// The moment of the look, in seconds since 1970.
    pub now: u64,
    /// How many of the last messages a pruning keeps.
    pub keep: u32,
    /// How many connections are open.
    pub open: u32,
    /// How many connections were closed because no number or no memory was left for them.
    pub refused: u64,
    /// The arrivals that were not booked.
    pub unbooked: Unbooked,
    /// How many arrivals were answered as repeats without being booked, since the book was full.
    pub repeats_unbooked: u64,
    /// The blocks that were dropped without an answer.
    pub dropped: Dropped,
    /// The channels that are not read at this time, as a mask.
    pub paused: u64,
    /// The destinations that are held, as a mask.
    pub held: u32,
    /// The destinations to which a connection is open, as far as is known, as a mask.
    pub connected: u32,
    /// The destinations to which there is no connection since one failed or could not be opened, as a mask.
    pub unconnected: u32,
    /// How many connections of each channel are open, by index.
    pub open_by_channel: [u64; 64],
    /// How many connections of each channel can be served at once, by index.
    pub places: [u64; 64],
    /// When the last message of each channel was accepted or filtered, by index, in seconds since 1970; 0: none was.
    pub received: [u64; 64],
    /// When the last message was delivered to each destination, by index, in seconds since 1970; 0: none was.
    pub delivered: [u64; 32],
    /// How many messages were sent to each destination a second time within one attempt, by index.
    pub sent_again: [u64; 32],
    /// Whether the plan in force is neither that of the command line nor one that was deployed since.
    pub plan_differs: bool,
    /// What was written to the store, where the service has one.
    pub store: Option<StoreNumbers>,
}

impl Figures {
    /// For how many hours what is left of something will last, where `made` of it were used since the start; none where none was.
    pub fn hours_left(&self, made: u32, left: u32) -> Option<u64> {
        let uptime = self.now.saturating_sub(self.started);
        let lasts = u64::from(left)
            .saturating_mul(uptime)
            .checked_div(u64::from(made))?;
        Some(lasts / 3_600)
    }

    /// Whether the channel at this index is not read at this time.
    pub fn is_paused(&self, channel: u32) -> bool {
        self.paused.checked_shr(channel).unwrap_or(0) % 2 == 1
    }

    /// Whether the destination at this index is held.
    pub fn is_held(&self, destination: u32) -> bool {
        self.held.checked_shr(destination).unwrap_or(0) % 2 == 1
    }

    /// Whether a connection to the destination at this index is open, as far as is known.
    pub fn is_connected(&self, destination: u32) -> bool {
        self.connected.checked_shr(destination).unwrap_or(0) % 2 == 1
    }

    /// Whether there is no connection to the destination at this index since one failed or could not be opened.
    pub fn is_unconnected(&self, destination: u32) -> bool
        requires { destination < 32 }
        ensures { result ≡ (bit_at self.entry.now.unconnected destination == 1) }
    {
        self.unconnected >> destination & 1 == 1
    }

    /// How many connections of a channel are open.
    pub fn channel_open(&self, channel: u32) -> u64 {
        self.open_by_channel
            .get(channel as usize)
            .copied()
            .unwrap_or(0)
    }

    /// How many connections of a channel can be served at once.
    pub fn channel_places(&self, channel: u32) -> u64 {
        self.places.get(channel as usize).copied().unwrap_or(0)
    }

    /// When the last message of a channel was accepted or filtered, in seconds since 1970; 0: none was.
    pub fn received(&self, channel: u32) -> u64 {
        self.received.get(channel as usize).copied().unwrap_or(0)
    }

    /// When the last message was delivered to a destination, in seconds since 1970; 0: none was.
    pub fn delivered(&self, destination: u32) -> u64 {
        self.delivered
            .get(destination as usize)
            .copied()
            .unwrap_or(0)
    }

    /// How many messages were sent to a destination a second time within one attempt.
    pub fn sent_again(&self, destination: u32) -> u64 {
        self.sent_again
            .get(destination as usize)
            .copied()
            .unwrap_or(0)
    }
}
