//! Arrivals that are refused at a desk.

ghost use Rattle.std.specs.Prelude.{◌≡◌};

use crate::stage::{Done, M1, M2, Task, Waiting, comes_out, judged, plan};
use book_core::{BookRows, NotBooked};
use book_lock::{Desk, Shared, Sharing, Station};
use conn_core::{Booked, ConnectionId, Replies, Unbooked, book_and_reply};
use conn_worker::{AtDesk, nearest};
use judge_core::{Judged, JudgedMessage};
use log::Log;
use stat_count::Counts;
use std::alloc::Global;
use std::hash::RandomState;
use std::sync::Wait;
use std::test::Fail;

/// By which plan a message is judged, why the full book of the built-in plan refuses it, and its acknowledgment.
struct Case {
    four: bool,
    refusal: NotBooked,
    reply: &'static str,
}

const CASES: [Case; 2] = [
    Case {
        four: true,
        refusal: NotBooked::PlanChanged,
        reply: "\x0bMSH|^~\\&|ENG|HUB|REG|HOSP|20231114221320+0000||ACK^A01^ACK|0.1|P|2.5.1|||NE|NE\rMSA|CE|M1|PlanChanged\r\x1c\r",
    },
    Case {
        four: false,
        refusal: NotBooked::Full,
        reply: "\x0bMSH|^~\\&|ENG|HUB|REG|HOSP|20231114221320+0000||ACK^A01^ACK|0.1|P|2.5.1|||NE|NE\rMSA|CE|M1|Full\r\x1c\r",
    },
];

/// The results of a message that was refused twice: by the shared book, and by it with an acknowledgment.
#[derive(Drop)]
struct Answers {
    bare: Option<NotBooked>,
    answered: Option<Unbooked>,
    whole: bool,
    replies: Replies,
    /// The arrivals that the desk counted.
    made: u64,
    /// The statistics before and after.
    before: Counts,
    after: Counts,
}

/// Books a message received over connection 0, and appends its replies, the first of that connection.
fn answer<A: Sharing, S: BookRows, H: Wait + Log>(
    rt: &H,
    alloc: Global,
    shared: &Shared<A, S>,
    desk: &mut Desk<A>,
    message: &JudgedMessage<'_>,
    replies: &mut Replies,
) -> Booked
    requires none { replies.old.made ≡ 0 }
{
    let line = ConnectionId {
        alloc,
        conn: 0,
        channel: 0,
    };
    let mut place = AtDesk {
        rt,
        alloc,
        shared,
        desk,
    };
    book_and_reply(&line, &mut place, message, nearest(1_700_000_000), replies)
}

/// Brings a message to a desk of a shared book, twice.
fn bring_twice<A: Sharing, S: BookRows, H: Wait + Log>(
    rt: &H,
    alloc: Global,
    shared: &Shared<A, S>,
    desk: &mut Desk<A>,
    message: &JudgedMessage<'_>,
) -> Answers {
    let before = shared.counts(rt, desk);
    let bare = shared.arrive(rt, desk, 0, message.judged()).err();
    let mut replies = Replies::new(alloc);
    let booked = answer(rt, alloc, shared, desk, message, &mut replies);
    Answers {
        bare,
        answered: booked.outcome.err(),
        whole: booked.whole,
        replies,
        made: desk.made(),
        before,
        after: shared.counts(rt, desk),
    }
}

/// Brings what was judged to a desk of a shared book, twice. None where it is no message.
fn bring_judged<A: Sharing, S: BookRows, H: Wait + Log>(
    rt: &H,
    alloc: Global,
    shared: &Shared<A, S>,
    desk: &mut Desk<A>,
    judged: &Judged,
) -> Option<Answers> {
    let message = judged.message()?;
    Some(bring_twice(rt, alloc, shared, desk, &message))
}

/// The message M1, judged by the plan of a case.
fn judged_in(alloc: Global, case: &Case) -> Option<Judged> {
    let plan = plan(alloc, case.four)?;
    judged(alloc, &plan, M1)
}

impl Task for Case {
    type Answer = Answers;

    fn work<A: Sharing, S: BookRows, H: Wait + Log>(
        &self,
        rt: &H,
        alloc: Global,
        shared: &Shared<A, S>,
        desks: &mut [Desk<A>],
        _: &mut [Station<A>],
    ) -> Option<Answers> {
        let desk = desks.first_mut()?;
        let judged = judged_in(alloc, self)?;
        bring_judged(rt, alloc, shared, desk, &judged)
    }

    /// Whether a message was refused as is due, and nothing else was changed.
    fn is_right<S: BookRows>(&self, done: &Done<Answers, S>) -> bool {
        let (answers, book) = (&done.answer, done.closed.book());
        answers.bare == Some(self.refusal)
            && answers.answered == Some(Unbooked::Refused(self.refusal))
            && answers.whole
            && answers.replies.as_slice() == self.reply.as_bytes()
            && answers.made == 0
            && answers.before == answers.after
            && answers.before == *book.counts()
            && book.len() == 1
            && book.queue_len(0) == 1
    }
}

/// A book with room for ten entries, which one message fills.
const FULL: Waiting = Waiting {
    four: false,
    room: 10,
    messages: &[M2],
};

/// A message that was judged by another plan is refused for that, though the book is full, and one judged by the book's plan
/// because it is full. The acknowledgment says so, and nothing changes.
#[test]
fn cases(rt: HostRuntime) -> Result<(), Fail> {
    let hasher = RandomState::new(&rt)?;
    for (place, case) in CASES.iter().enumerate() {
        let right = comes_out(&rt, rt.alloc(), hasher, &FULL, case)?;
        assert!(rt; right, "case {place}");
    }
    Ok(())
}
