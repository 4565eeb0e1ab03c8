//! The answers to cancellations and about failures, to made-up messages.

use book_core::Failure;
use book_lock::{Found, Message};
use dest_queue::{FailCause, SlotState};
use event_log::CancelRefusal;
use judge_core::Text;
use plan_text::{Plan, PlanFault};
use service_answers::{
    ListedFailure, Live, Series, cancellable_text, cancelled_text, failed_text, live_of,
    not_cancelled_at_text, not_cancelled_text, series_cancelled_text, several_text,
};
use std::alloc::{AllocError, Global};

#[derive(Debug, Drop)]
enum Fail {
    Memory,
    Plan(PlanFault),
}

impl From<AllocError> for Fail {
    fn from(_: AllocError) -> Self {
        Fail::Memory
    }
}

impl From<PlanFault> for Fail {
    fn from(fault: PlanFault) -> Self {
        Fail::Plan(fault)
    }
}

/// A state of each kind that a message has at a destination.
const WAITS: SlotState = SlotState::Waiting {
    attempts: 1,
    due: 0,
};

const FLIES: SlotState = SlotState::InFlight { attempt: 2 };

/// A plan with the destinations LAB, EHR and RAD.
fn three(alloc: Global) -> Result<Plan, Fail> {
    let text =
        b"[[channel]]\nname = \"ADT\"\nlisten = \"127.0.0.1:1\"\ntypes = []\nprocessing = []\nversions = []\n\
[[destination]]\nname = \"LAB\"\naddress = \"127.0.0.1:1\"\n[[destination]]\nname = \"EHR\"\naddress = \"127.0.0.1:1\"\n\
[[destination]]\nname = \"RAD\"\naddress = \"127.0.0.1:1\"\n";
    Ok(Plan::read(alloc, text.as_slice())?)
}

/// A message with the control id A1 and these states at the first destinations.
fn kept(alloc: Global, states: &[Option<SlotState>]) -> Result<Found, AllocError> {
    let mut all = [None; 32];
    for (index, state) in states.iter().enumerate() {
        if let Some(place) = all.get_mut(index) {
            *place = *state;
        }
    }
    let raw = b"MSH|^~\\&|REG|HOSP|||20260101||ADT^A01|A1|P|2.5.1\r".as_slice();
    Ok(Found::Kept(Message {
        channel: 0,
        conn: None,
        raw: Text::new(alloc, Vec::from_slice(alloc, raw)?)?,
        states: all,
    }))
}

#[test]
fn a_message_is_live_where_it_waits_or_is_in_flight(rt: HostRuntime) -> Result<(), Fail> {
    let states = [
        Some(WAITS),
        None,
        Some(FLIES),
        Some(SlotState::Delivered),
        Some(WAITS),
        Some(SlotState::Failed(FailCause::Rejected)),
    ];
    assert_eq!(rt;
        live_of(&kept(rt.alloc(), &states)?),
        Live {
            waiting: 17,
            in_flight: 4
        }
    );
    assert_eq!(rt;
        live_of(&Found::Forgotten),
        Live {
            waiting: 0,
            in_flight: 0
        }
    );
    assert_eq!(rt;
        live_of(&Found::ToCome),
        Live {
            waiting: 0,
            in_flight: 0
        }
    );
    Ok(())
}

#[test]
fn a_cancellation_names_its_destinations(rt: HostRuntime) -> Result<(), Fail> {
    let alloc = rt.alloc();
    let plan = three(alloc)?;
    assert_eq!(rt;
        cancelled_text(alloc, &plan, 3, 0)?.as_str(),
        "cancelled LAB\ncancelled EHR\n\n"
    );
    assert_eq!(rt;
        cancelled_text(alloc, &plan, 2, 5)?.as_str(),
        "cancelled EHR\nin flight at LAB,RAD: that attempt goes on\n\n"
    );
    let live = Live {
        waiting: 3,
        in_flight: 4,
    };
    assert_eq!(rt;
        several_text(alloc, &plan, 7, live)?.as_str(),
        "refused: message 7 waits at LAB,EHR\nto cancel it at one of them: cancel 7 NAME\n\
to cancel it at each of them: cancel 7 all\nin flight at RAD: that attempt goes on\n\n"
    );
    Ok(())
}

#[test]
fn a_refused_cancellation_says_why(rt: HostRuntime) -> Result<(), Fail> {
    let alloc = rt.alloc();
    let plan = three(alloc)?;
    let found = kept(alloc, &[Some(SlotState::Delivered), Some(FLIES)])?;
    let nothing = CancelRefusal::NothingWaiting;
    assert_eq!(rt;
        not_cancelled_text(alloc, &plan, 7, &found, nothing)?.as_str(),
        "refused: message 7 is in flight at EHR: cancel it where it waits again after that attempt\n\n"
    );
    let found = kept(alloc, &[Some(SlotState::Delivered)])?;
    assert_eq!(rt;
        not_cancelled_text(alloc, &plan, 7, &found, nothing)?.as_str(),
        "refused: message 7 waits nowhere: it is delivered or failed at each of its destinations\n\n"
    );
    for (state, text) in [
        (None, "refused: message 7 does not go to LAB\n\n"),
        (
            Some(FLIES),
            "refused: message 7 is in flight at LAB: cancel it where it waits again after that attempt\n\n",
        ),
        (
            Some(WAITS),
            "refused: message 7 is in flight at LAB: cancel it where it waits again after that attempt\n\n",
        ),
        (
            Some(SlotState::Delivered),
            "refused: message 7 does not wait at LAB: delivered\n\n",
        ),
        (
            Some(SlotState::Failed(FailCause::Exhausted)),
            "refused: message 7 does not wait at LAB: failed no attempt left\n\n",
        ),
    ] {
        assert_eq!(rt;
            not_cancelled_at_text(alloc, "LAB", 7, state)?.as_str(),
            text
        );
    }
    Ok(())
}

/// Three messages, from 5 to 9.
fn series(alloc: Global) -> Result<Series, AllocError> {
    Ok(Series {
        count: 3,
        first: 5,
        first_id: Vec::from_slice(alloc, b"A 5".as_slice())?,
        last: 9,
        last_id: Vec::from_slice(alloc, b"A9".as_slice())?,
    })
}

#[test]
fn a_series_is_shown_by_its_ends(rt: HostRuntime) -> Result<(), Fail> {
    let alloc = rt.alloc();
    let three = series(alloc)?;
    assert_eq!(rt;
        cancellable_text(alloc, "LAB", &three, Some(4))?.as_str(),
        "waiting 3 from message 5 control_id A\\x205 to message 9 control_id A9\n\
message 4 is in flight, and not counted\nto cancel them: cancel waiting LAB through 9\n\n"
    );
    assert_eq!(rt;
        series_cancelled_text(alloc, &three, true)?.as_str(),
        "cancelled 3 from message 5 control_id A\\x205 to message 9 control_id A9\n\n"
    );
    assert_eq!(rt;
        series_cancelled_text(alloc, &three, false)?.as_str(),
        "cancelled 3 from message 5 control_id A\\x205 to message 9 control_id A9\n\
out of memory: those behind still wait\n\n"
    );
    let nothing = Series {
        count: 0,
        first: 0,
        first_id: Vec::new(alloc),
        last: 0,
        last_id: Vec::new(alloc),
    };
    assert_eq!(rt;
        cancellable_text(alloc, "LAB", &nothing, None)?.as_str(),
        "waiting 0\n\n"
    );
    assert_eq!(rt;
        series_cancelled_text(alloc, &nothing, true)?.as_str(),
        "cancelled 0\n\n"
    );
    Ok(())
}

/// Three messages that failed, each for another reason.
fn failures(alloc: Global) -> Result<Vec<ListedFailure>, AllocError> {
    let mut listed = Vec::new(alloc);
    for (number, cause) in [
        (9, FailCause::Cancelled),
        (7, FailCause::Exhausted),
        (2, FailCause::Rejected),
    ] {
        let failure = Failure { number, cause };
        let found = kept(alloc, &[Some(SlotState::Failed(cause))])?;
        let note = None;
        listed.push(ListedFailure {
            failure,
            found,
            note,
        })?;
    }
    Ok(listed)
}

#[test]
fn failures_are_listed_with_why(rt: HostRuntime) -> Result<(), Fail> {
    let alloc = rt.alloc();
    let listed = failures(alloc)?;
    assert_eq!(rt;
        failed_text(alloc, 0, &listed, 3, 3)?.as_str(),
        "message 9 control_id A1 failed cancelled; the last attempt was before the service started, or at this moment\n\
message 7 control_id A1 failed no attempt left; the last attempt was before the service started, or at this moment\n\
message 2 control_id A1 failed rejected; the last attempt was before the service started, or at this moment\nfailed 3\n\n"
    );
    assert_eq!(rt;
        failed_text(alloc, 0, &[], 0, 4)?.as_str(),
        "failed 4, of which 0 are remembered\n\n"
    );
    Ok(())
}
