//! Maps of openings, and a book that goes on from what they make.

ghost use Rattle.std.specs.Prelude.{◌<◌, IfOk, map};
ghost use Rattle.std.specs.List.Sorted.{IsStrictlyIncreasing};

use book_core::{Book, Outbound};
use book_resume::{ResumeFault, resume};
use dest_queue::{FailCause, Queued, Slot, SlotState, Slots};
use event_log::{Remembered, Snapshot, Told};
use judge_core::{Deliveries, Text, fits_block};
use opening_maps::{CountsAside, Lowered, RebasedOpening, given_back, rebased, uncounted};
use opening_records::{put_opening, read_opening};
use plan_text::Plan;
use record_list::RecordList;
use stat_count::{CHANNELS, ChannelCounts, Counts, DESTINATIONS, DestinationCounts};
use std::alloc::Global;
use std::hash::RandomState;
use std::sync::Arc;
use std::test::Fail;

/// The rows of the tests' books.
pub(crate) type Rows = RecordList<Queued<Outbound>>;

/// A plan of one channel and one destination, which is sent each message once.
pub(crate) const PLAN: &str =
    "[[destination]]\nname = \"LAB\"\naddress = \"127.0.0.1:6661\"\nattempts = 1\n\n\
    [[channel]]\nname = \"ADT\"\nlisten = \"127.0.0.1:6660\"\ntypes = [\"ADT\"]\nprocessing = [\"P\"]\n\
    versions = [\"2.5.1\"]\n[[channel.route]]\nto = \"LAB\"\n";

/// The bytes received of the first arrival, and of the second.
pub(crate) const FIRST: &[u8] =
    b"MSH|^~\\&|REG|HOSP|ENG|HUB|20231114221300||ADT^A01^ADT_A01|M1|P|2.5.1\r";

pub(crate) const SECOND: &[u8] =
    b"MSH|^~\\&|REG|HOSP|ENG|HUB|20231114221300||ADT^A01^ADT_A01|M2|P|2.5.1\r";

/// A slot whose only attempt is under way.
const IN_FLIGHT: SlotState = SlotState::InFlight { attempt: 1 };

/// A slot that waits for its first attempt.
const WAITING: SlotState = SlotState::Waiting {
    attempts: 0,
    due: 0,
};

/// The numbers of an opening: of its entries, messages and prunings, the indices of two arrivals and the number of the second,
/// and what is counted: messages received, messages delivered, and attempts.
#[derive(Clone, Copy)]
struct Numbers {
    places: usize,
    messages: u32,
    prunings: u32,
    first: usize,
    second: usize,
    number: u32,
    received: u64,
    delivered: u64,
    attempts: u64,
}

/// The numbers of a small book, of which two messages and 30 entries are forgotten.
const SMALL: Numbers = Numbers {
    places: 40,
    messages: 3,
    prunings: 2,
    first: 30,
    second: 37,
    number: 2,
    received: 3,
    delivered: 1,
    attempts: 2,
};

pub(crate) fn text(alloc: Global, bytes: &[u8]) -> Result<Text, Fail> {
    Ok(Text::new(alloc, Vec::from_slice(alloc, bytes)?)?)
}

/// A delivery of a text to the destination.
pub(crate) fn delivery(raw: &Text) -> Result<Deliveries, Fail> {
    if !fits_block(raw.as_slice()) {
        return Err(Fail::from("no block"));
    }
    Ok(Deliveries::single(0, raw.share()?))
}

/// The counters of a channel where this many were received and filtered, and of a destination.
fn counters(received: u64, delivered: u64, attempts: u64) -> Result<Counts, Fail> {
    let mut channels = [ChannelCounts {
        received: 0,
        filtered: 0,
        accepted: 0,
        refused: 0,
        repeats: 0,
    }; CHANNELS as usize];
    channels[0].received = received;
    channels[0].filtered = received;
    let mut destinations = [DestinationCounts {
        waiting: 0,
        inflight: 0,
        delivered: 0,
        failed: 0,
        attempts: 0,
    }; DESTINATIONS as usize];
    destinations[0].delivered = delivered;
    destinations[0].attempts = attempts;
    match Counts::of(&channels, &destinations) {
        Some(counts) => Ok(counts),
        None => Err(Fail::from("no counters")),
    }
}

/// Two arrivals, the first of which has the lower index.
#[tactic(auto, using(crate::proofs::TwoArrivals::rising_two))]
pub(crate) fn in_order(
    alloc: Global,
    first: Remembered,
    second: Remembered,
) -> Result<Vec<Remembered>, Fail>
    requires { first.place < second.place }
    ensures { IfOk result (λ arrivals. IsStrictlyIncreasing (map (λ r. r.place) arrivals.items)) }
{
    let mut arrivals = Vec::new(alloc);
    arrivals.push(first)?;
    arrivals.push(second)?;
    Ok(arrivals)
}

/// An arrival that was filtered, and one that was accepted and whose slot is in this state.
fn arrivals(alloc: Global, numbers: Numbers, state: SlotState) -> Result<Vec<Remembered>, Fail>
    requires { numbers.first < numbers.second }
    ensures { IfOk result (λ arrivals. IsStrictlyIncreasing (map (λ r. r.place) arrivals.items)) }
{
    let first = text(alloc, FIRST)?;
    let second = text(alloc, SECOND)?;
    let deliveries = delivery(&second)?;
    let mut slots = Slots::new(alloc);
    slots.push(Slot {
        destination: 0,
        state,
    })?;
    let told = Told::Accepted(numbers.number);
    let nowhere = Slots::new(alloc);
    let filtered = Remembered::new(numbers.first, 0, first, Told::Filtered, None, nowhere);
    let accepted = Remembered::new(numbers.second, 0, second, told, Some(deliveries), slots);
    in_order(alloc, filtered, accepted)
}

/// An opening of these two arrivals.
fn opening(alloc: Global, numbers: Numbers, state: SlotState) -> Result<Snapshot, Fail> {
    if numbers.first >= numbers.second {
        return Err(Fail::from("no order"));
    }
    let remembered = arrivals(alloc, numbers, state)?;
    let Ok(plan) = Plan::read(alloc, PLAN.as_bytes()) else {
        return Err(Fail::from("no plan"));
    };
    Ok(Snapshot::of(
        Arc::new(alloc, plan)?,
        1000,
        numbers.places,
        numbers.messages,
        7,
        numbers.prunings,
        counters(numbers.received, numbers.delivered, numbers.attempts)?,
        remembered,
    ))
}

/// The state of the slot of the second arrival of an opening.
fn state_of(opening: &Snapshot) -> Option<SlotState> {
    opening.remembered().get(1)?.slots().state_at(0)
}

/// Whether two arrivals have the same bytes, and the same text for the destination, if they have one.
fn are_same_texts(a: &Remembered, b: &Remembered) -> bool {
    let payloads = match (a.deliveries(), b.deliveries()) {
        (None, None) => true,
        (Some(these), Some(those)) => match (these.as_slice(), those.as_slice()) {
            ([this], [that]) => {
                this.destination == that.destination
                    && this.payload.as_slice() == that.payload.as_slice()
            }
            _ => false,
        },
        _ => false,
    };
    payloads && a.channel() == b.channel() && a.raw().as_slice() == b.raw().as_slice()
}

/// Whether the arrivals of two openings have the same texts.
fn have_same_texts(a: &Snapshot, b: &Snapshot) -> bool {
    match (a.remembered(), b.remembered()) {
        ([first, second], [own, other]) => {
            are_same_texts(first, own) && are_same_texts(second, other)
        }
        _ => false,
    }
}

/// The indices of the arrivals of an opening, and the answer to the second.
fn indices_of(opening: &Snapshot) -> Option<(usize, usize, Told)> {
    match opening.remembered() {
        [first, second] => Some((first.place(), second.place(), second.told())),
        _ => None,
    }
}

/// The book that goes on from an opening that was written and read again.
fn resumed(rt: &HostRuntime, opening: &Snapshot) -> Result<Result<Book<Rows>, ResumeFault>, Fail> {
    let mut bytes = Vec::new(rt.alloc());
    put_opening(&mut bytes, opening, 1000)?;
    let again = read_opening(rt.alloc(), &bytes)?;
    Ok(resume::<Rows>(rt.alloc(), again, RandomState::new(rt)?))
}

/// What is kept of an opening in one that is made of it.
#[derive(Clone, Copy, Debug, PartialEq, Eq)]
struct Kept {
    same_texts: bool,
    same_counters: bool,
    /// The indices of its arrivals, and the answer to the second.
    indices: Option<(usize, usize, Told)>,
    /// The state of the slot of the second.
    state: Option<SlotState>,
}

/// What is kept of an opening in one that is made of it.
fn kept_in(before: &Snapshot, after: &Snapshot) -> Kept {
    Kept {
        same_texts: have_same_texts(before, after),
        same_counters: after.forgotten() == before.forgotten(),
        indices: indices_of(after),
        state: state_of(after),
    }
}

/// What is left of an opening that is given back, and the numbers of its entries, messages and prunings.
fn left_given_back(alloc: Global, state: SlotState) -> Result<(Kept, (usize, u32, u32)), Fail> {
    let opening = opening(alloc, SMALL, state)?;
    let back = given_back(alloc, &opening)?;
    let numbers = (back.places(), back.messages(), back.prunings());
    Ok((kept_in(&opening, &back), numbers))
}

#[test]
fn each_state_is_given_back(rt: HostRuntime) -> Result<(), Fail> {
    let waits = SlotState::Waiting {
        attempts: 2,
        due: 1_700_000_000,
    };
    let again = SlotState::Waiting {
        attempts: 2,
        due: 0,
    };
    let failed = SlotState::Failed(FailCause::Rejected);
    for (before, after) in [
        (IN_FLIGHT, WAITING),
        (SlotState::InFlight { attempt: 3 }, again),
        (waits, waits),
        (SlotState::Delivered, SlotState::Delivered),
        (failed, failed),
    ] {
        let wanted = Kept {
            same_texts: true,
            same_counters: true,
            indices: Some((30, 37, Told::Accepted(2))),
            state: Some(after),
        };
        let found = left_given_back(rt.alloc(), before)?;
        assert_eq!(rt; found, (wanted, (40, 3, 2)));
    }
    Ok(())
}

#[test]
fn a_message_in_flight_is_sent_again(rt: HostRuntime) -> Result<(), Fail> {
    let opening = opening(rt.alloc(), SMALL, IN_FLIGHT)?;
    assert_eq!(rt; resumed(&rt, &opening)?.err(), Some(ResumeFault::NotGood));

    // Its only attempt is left: a take and its settlement, or a cancellation.
    let back = given_back(rt.alloc(), &opening)?;
    let mut book = resumed(&rt, &back)??;
    assert_eq!(rt; book.owed(), 3);
    assert_eq!(rt; book.front(0).map(|front| front.number), Some(2));
    Ok(())
}

/// What a book says of itself that goes on from an opening: how many entries and messages it has had, the first message that
/// waits, and the attempts that it counts.
#[derive(Clone, Copy, Debug, PartialEq, Eq)]
struct BookState {
    entries: usize,
    messages: u32,
    first: Option<u32>,
    attempts: u64,
}

/// The first message that waits for the destination.
fn first_waiting(book: &mut Book<Rows>) -> Option<u32> {
    match book.front(0) {
        Some(first) => Some(first.number),
        None => None,
    }
}

/// How many attempts a book counts at the destination.
fn attempts_of(book: &Book<Rows>) -> u64 {
    book.counts().destination(0).attempts
}

/// What a book says of itself.
fn begun_by(book: &mut Book<Rows>) -> BookState {
    BookState {
        entries: book.len(),
        messages: book.message_count(),
        first: first_waiting(book),
        attempts: attempts_of(book),
    }
}

/// What the book says of itself that goes on from an opening.
fn begun(rt: &HostRuntime, opening: &Snapshot) -> Result<BookState, Fail> {
    let mut book = resumed(rt, opening)??;
    Ok(begun_by(&mut book))
}

/// By how much the numbers of the small book's opening are lowered, what is left of it, and the book that goes on from it.
fn small_rebased(rt: &HostRuntime) -> Result<(Lowered, Kept, BookState), Fail> {
    let opening = opening(rt.alloc(), SMALL, WAITING)?;
    let it = rebased(rt.alloc(), &opening)?;
    let begun = begun(rt, &it.opening)?;
    Ok((it.lowered, kept_in(&opening, &it.opening), begun))
}

#[test]
fn numbers_go_on_from_what_is_remembered(rt: HostRuntime) -> Result<(), Fail> {
    let (lowered, left, begun) = small_rebased(&rt)?;
    assert_eq!(rt;
        lowered,
        Lowered {
            places: 30,
            messages: 1,
            deployments: 7,
            prunings: 1,
        }
    );
    assert_eq!(rt;
        left,
        Kept {
            same_texts: true,
            same_counters: true,
            indices: Some((0, 7, Told::Accepted(1))),
            state: Some(WAITING),
        }
    );
    assert_eq!(rt;
        (begun.entries, begun.messages, begun.first),
        (10, 2, Some(1))
    );
    Ok(())
}

/// By how much the numbers of an opening are lowered, and how many deployments and prunings are left.
type Change = (Lowered, u32, u32);

/// What is lowered of an opening, where a book goes on from what is left.
fn lowered(rt: &HostRuntime, numbers: Numbers) -> Result<Option<Change>, Fail> {
    let opening = opening(rt.alloc(), numbers, WAITING)?;
    let it = rebased(rt.alloc(), &opening)?;
    let goes_on = resumed(rt, &it.opening)?.is_ok();
    let change = (it.lowered, it.opening.deployments(), it.opening.prunings());
    Ok(goes_on.then_some(change))
}

#[test]
fn numbers_are_no_lower_than_what_is_counted(rt: HostRuntime) -> Result<(), Fail> {
    // Two messages were delivered that are forgotten, 24 were received, and 26 attempts were begun.
    for (numbers, places, messages) in [
        (SMALL, 30, 1),
        (
            Numbers {
                delivered: 2,
                ..SMALL
            },
            30,
            0,
        ),
        (
            Numbers {
                received: 24,
                ..SMALL
            },
            16,
            1,
        ),
        (
            Numbers {
                attempts: 26,
                ..SMALL
            },
            14,
            1,
        ),
    ] {
        let found = lowered(&rt, numbers)?.map(|(lowered, ..)| (lowered.places, lowered.messages));
        assert_eq!(rt; found, Some((places, messages)));
    }
    Ok(())
}

#[test]
fn as_few_prunings_are_left_as_entries_take(rt: HostRuntime) -> Result<(), Fail> {
    // The first arrival is remembered from 1,000,000 entries before the end, or from one more.
    for (first, prunings) in [(8_000_000, 1), (7_999_999, 2)] {
        let numbers = Numbers {
            places: 9_000_000,
            prunings: 1000,
            first,
            second: 8_500_000,
            ..SMALL
        };
        let found = lowered(&rt, numbers)?.map(|(lowered, deployments, left)| {
            (lowered.places, lowered.prunings, deployments, left)
        });
        assert_eq!(rt; found, Some((first, 1000 - prunings, 0, prunings)));
    }
    Ok(())
}

/// The numbers of a book of which 24 messages were received, two of them were delivered, and 26 attempts were begun.
const COUNTED: Numbers = Numbers {
    received: 24,
    delivered: 2,
    attempts: 26,
    ..SMALL
};

/// Whether the counters of an opening's channels were set aside whole, of how many destinations there are some, and those of the
/// first.
fn aside_of(before: &Snapshot, aside: &CountsAside) -> (bool, usize, Option<DestinationCounts>) {
    (
        aside.channels.as_slice() == before.forgotten().channels(),
        aside.destinations.len(),
        aside.destinations.first().copied(),
    )
}

#[test]
fn counters_are_set_aside(rt: HostRuntime) -> Result<(), Fail> {
    let opening = opening(rt.alloc(), COUNTED, WAITING)?;
    let it = uncounted(rt.alloc(), &opening)?;
    let found = (
        aside_of(&opening, &it.aside),
        have_same_texts(&opening, &it.opening),
    );
    let first = DestinationCounts {
        waiting: 0,
        inflight: 0,
        delivered: 2,
        failed: 0,
        attempts: 24,
    };
    assert_eq!(rt; found, ((true, DESTINATIONS as usize, Some(first)), true));
    Ok(())
}

/// What is left of the opening once its counters are set aside, with lower numbers.
fn low_uncounted(alloc: Global) -> Result<RebasedOpening, Fail> {
    let opening = opening(alloc, COUNTED, WAITING)?;
    let it = uncounted(alloc, &opening)?;
    Ok(rebased(alloc, &it.opening)?)
}

#[test]
fn numbers_go_on_where_counters_are_set_aside(rt: HostRuntime) -> Result<(), Fail> {
    let low = low_uncounted(rt.alloc())?;
    let begun = begun(&rt, &low.opening)?;

    // Numbers go on from the first message, and indices from the first arrival.
    assert_eq!(rt;
        (low.lowered.places, low.lowered.messages, begun),
        (
            30,
            2,
            BookState {
                entries: 10,
                messages: 1,
                first: Some(0),
                attempts: 2,
            }
        )
    );
    Ok(())
}
