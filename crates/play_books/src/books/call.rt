//! The lines of a script.

use dest_queue::Outcome;
use event_log::Ticket;
use hl7_head::Moment;
use std::str::SplitWhitespace;

/// A call of the book.
#[derive(Clone, Copy)]
pub enum Call<'a> {
    /// A new book of a plan, which may hold this many entries. Messages are judged by that plan from now on.
    Book {
        plan: &'a str,
        events_max: u32,
    },
    /// Messages are judged by this plan from now on.
    Judge {
        plan: &'a str,
    },
    /// A text comes on a channel. Where it says `<CR>`, the byte 0x0D comes.
    Arrive {
        channel: u32,
        text: &'a str,
    },
    /// This many texts arrive on a channel, each with the number of its turn in place of `#`.
    Many {
        count: u32,
        channel: u32,
        text: &'a str,
    },
    /// The front of a queue is taken at a moment.
    Take {
        d: u32,
        now: Moment,
    },
    /// An attempt is settled with its outcome at a moment.
    Settle {
        ticket: Ticket,
        outcome: Outcome,
        now: Moment,
    },
    /// A message is cancelled.
    Cancel {
        number: u32,
    },
    /// A message is cancelled among the destinations of a mask.
    CancelAmong {
        number: u32,
        among: u32,
    },
    /// A plan is deployed, by which messages are judged from then on.
    Deploy {
        plan: &'a str,
    },
    /// A plan is deployed this many times.
    Deploys {
        count: u32,
        plan: &'a str,
    },
    /// The messages numbered below this are forgotten.
    Prune {
        before: u32,
    },
    /// This many prunings are made, each of the messages numbered below this.
    Prunes {
        count: u32,
        before: u32,
    },
    /// Each message of a queue is taken and delivered at a moment.
    Drain {
        d: u32,
        now: Moment,
    },
    /// How many messages a queue has.
    Queue {
        d: u32,
    },
    /// The slot of a message at a destination.
    Status {
        number: u32,
        d: u32,
    },
    /// What was counted of a channel.
    Channel {
        channel: u32,
    },
    /// What was counted of a destination.
    Destination {
        d: u32,
    },
    /// The entry at a place.
    Entry {
        place: u32,
    },
    /// How full the book is.
    Gauge,
    /// The first message that is still to be delivered, and where.
    Live,
    /// The front of a queue.
    Front {
        d: u32,
    },
    /// The number before which all is settled but for this many messages.
    Settled {
        keep: u32,
    },
    /// What is kept of a message.
    Message {
        number: u32,
    },
    /// The messages of a queue, of the numbers from one up to, and not with, another.
    Queued {
        d: u32,
        from: u32,
        to: u32,
    },
    /// The messages with this control id, of the numbers from one up to, and not with, another.
    Find {
        id: &'a str,
        from: u32,
        to: u32,
    },
    /// How many entries there are.
    Entries,
    /// The rows and the statistics that a book lends with its promise.
    Promise,
}

/// A number.
fn number(words: &mut SplitWhitespace<'_>) -> Option<u32> {
    words.next()?.parse::<u32>().ok()
}

/// A moment, in seconds since 1970.
fn moment(words: &mut SplitWhitespace<'_>) -> Option<Moment> {
    let seconds = words.next()?.parse().ok()?;
    Moment::of_unix(seconds).ok()
}

/// The ticket of a message, a destination and an attempt.
fn ticket(words: &mut SplitWhitespace<'_>) -> Option<Ticket> {
    Some(Ticket {
        number: number(words)?,
        destination: number(words)?,
        attempt: number(words)?,
    })
}

/// An outcome by its name.
fn outcome(words: &mut SplitWhitespace<'_>) -> Option<Outcome> {
    match words.next()? {
        "delivered" => Some(Outcome::Delivered),
        "again" => Some(Outcome::Again),
        "rejected" => Some(Outcome::Rejected),
        _ => None,
    }
}

/// A new book.
fn book<'a>(words: &mut SplitWhitespace<'a>) -> Option<Call<'a>> {
    Some(Call::Book {
        plan: words.next()?,
        events_max: number(words)?,
    })
}

/// An arrival.
fn arrive<'a>(words: &mut SplitWhitespace<'a>) -> Option<Call<'a>> {
    Some(Call::Arrive {
        channel: number(words)?,
        text: words.next()?,
    })
}

/// Many arrivals.
fn many<'a>(words: &mut SplitWhitespace<'a>) -> Option<Call<'a>> {
    Some(Call::Many {
        count: number(words)?,
        channel: number(words)?,
        text: words.next()?,
    })
}

/// A take.
fn take<'a>(words: &mut SplitWhitespace<'a>) -> Option<Call<'a>> {
    Some(Call::Take {
        d: number(words)?,
        now: moment(words)?,
    })
}

/// A settlement.
fn settle<'a>(words: &mut SplitWhitespace<'a>) -> Option<Call<'a>> {
    Some(Call::Settle {
        ticket: ticket(words)?,
        outcome: outcome(words)?,
        now: moment(words)?,
    })
}

/// A cancellation, at all destinations or `among` those that are listed.
fn cancel<'a>(words: &mut SplitWhitespace<'a>) -> Option<Call<'a>> {
    let number = number(words)?;
    match words.next() {
        None => Some(Call::Cancel { number }),
        Some("among") => Some(Call::CancelAmong {
            number,
            among: mask(words.next()?)?,
        }),
        Some(_) => None,
    }
}

/// The mask of destinations, listed with a comma between two.
fn mask(listed: &str) -> Option<u32> {
    let mut mask = 0_u32;
    for word in listed.split(',') {
        mask |= 1_u32.checked_shl(word.parse::<u32>().ok()?)?;
    }
    Some(mask)
}

/// A queue that is emptied.
fn drain<'a>(words: &mut SplitWhitespace<'a>) -> Option<Call<'a>> {
    Some(Call::Drain {
        d: number(words)?,
        now: moment(words)?,
    })
}

/// Many deployments.
fn deploys<'a>(words: &mut SplitWhitespace<'a>) -> Option<Call<'a>> {
    Some(Call::Deploys {
        count: number(words)?,
        plan: words.next()?,
    })
}

/// Many prunings.
fn prunes<'a>(words: &mut SplitWhitespace<'a>) -> Option<Call<'a>> {
    Some(Call::Prunes {
        count: number(words)?,
        before: number(words)?,
    })
}

/// A slot that is asked for.
fn status<'a>(words: &mut SplitWhitespace<'a>) -> Option<Call<'a>> {
    Some(Call::Status {
        number: number(words)?,
        d: number(words)?,
    })
}

/// A part of a queue.
fn queued<'a>(words: &mut SplitWhitespace<'a>) -> Option<Call<'a>> {
    Some(Call::Queued {
        d: number(words)?,
        from: number(words)?,
        to: number(words)?,
    })
}

/// Messages that are looked for.
fn find<'a>(words: &mut SplitWhitespace<'a>) -> Option<Call<'a>> {
    Some(Call::Find {
        id: words.next()?,
        from: number(words)?,
        to: number(words)?,
    })
}

/// The call of a name that changes the book or its plan, if the name is of one.
fn changing<'a>(name: &str, words: &mut SplitWhitespace<'a>) -> Option<Call<'a>> {
    match name {
        "book" => book(words),
        "arrive" => arrive(words),
        "many" => many(words),
        "take" => take(words),
        "settle" => settle(words),
        "cancel" => cancel(words),
        "drain" => drain(words),
        "deploys" => deploys(words),
        "prunes" => prunes(words),
        "judge" => Some(Call::Judge {
            plan: words.next()?,
        }),
        "deploy" => Some(Call::Deploy {
            plan: words.next()?,
        }),
        "prune" => Some(Call::Prune {
            before: number(words)?,
        }),
        _ => asking(name, words),
    }
}

/// The call of a name that only asks, if the name is of one.
fn asking<'a>(name: &str, words: &mut SplitWhitespace<'a>) -> Option<Call<'a>> {
    match name {
        "status" => status(words),
        "entries" => Some(Call::Entries),
        "promise" => Some(Call::Promise),
        "queue" => Some(Call::Queue { d: number(words)? }),
        "channel" => Some(Call::Channel {
            channel: number(words)?,
        }),
        "destination" => Some(Call::Destination { d: number(words)? }),
        "entry" => Some(Call::Entry {
            place: number(words)?,
        }),
        _ => showing(name, words),
    }
}

/// The call of a name that asks how full the book is, or what is kept of messages, if the name is of one.
fn showing<'a>(name: &str, words: &mut SplitWhitespace<'a>) -> Option<Call<'a>> {
    match name {
        "gauge" => Some(Call::Gauge),
        "live" => Some(Call::Live),
        "queued" => queued(words),
        "find" => find(words),
        "front" => Some(Call::Front { d: number(words)? }),
        "settled" => Some(Call::Settled {
            keep: number(words)?,
        }),
        "message" => Some(Call::Message {
            number: number(words)?,
        }),
        _ => None,
    }
}

impl<'a> Call<'a> {
    /// The call that a line says, if it says one.
    pub(crate) fn read(line: &'a str) -> Option<Call<'a>> {
        let mut words = line.split_whitespace();
        let name = words.next()?;
        changing(name, &mut words)
    }
}
