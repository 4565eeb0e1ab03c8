//! The answers to made-up states of a service.

use book_core::Front;
use book_lock::{Gauge, Status};
use dest_queue::SlotState;
use log_text::Shown;
use plan_text::{Plan, PlanFault};
use service_answers::{
    Dropped, Figures, StoreNumbers, Unbooked, Utc, found_text, metrics_text, pruned_text,
    rename_at, status_text, unescaped, unpruned_text, waiting_text,
};
use stat_count::Counts;
use std::alloc::{AllocError, Global};

#[derive(Debug, Drop)]
pub(crate) enum Fail {
    Memory,
    Plan(PlanFault),
}

impl From<AllocError> for Fail {
    fn from(_: AllocError) -> Self {
        Fail::Memory
    }
}

impl From<PlanFault> for Fail {
    fn from(fault: PlanFault) -> Self {
        Fail::Plan(fault)
    }
}

pub(crate) fn state() -> (Status, Figures) {
    let mut fronts = [None; 32];
    fronts[0] = Some(Front {
        number: 7,
        state: SlotState::Waiting {
            attempts: 2,
            due: 1_000_000_000,
        },
    });
    let mut received = [0; 64];
    received[0] = 86_400;
    let mut sent_again = [0; 32];
    sent_again[0] = 2;
    let gauge = Gauge {
        held: 12,
        owed: 3,
        events_max: 400,
        messages: 9,
        first: 5,
        prunings: 4,
        deployments: 1,
        admitted: 2,
    };
    let figures = Figures {
        started: 60,
        now: 14_460,
        keep: 100,
        open: 1,
        refused: 0,
        unbooked: Unbooked {
            full: 8,
            plan_changed: 0,
            no_memory: 1,
        },
        repeats_unbooked: 5,
        dropped: Dropped {
            unreadable: 2,
            acknowledgments: 0,
            broken: 3,
        },
        paused: 1,
        held: 1,
        connected: 0,
        unconnected: 1,
        open_by_channel: [3; 64],
        places: [8; 64],
        received,
        delivered: [0; 32],
        sent_again,
        plan_differs: false,
        store: Some(StoreNumbers {
            commits: 4,
            changes: 10,
            micros: 6_000_004,
            longest: 3_000_000,
            has_no_room: true,
        }),
    };
    (
        Status {
            gauge,
            counts: Counts::new(),
            fronts,
            first_live: Some(7),
        },
        figures,
    )
}

/// The text of a plan with a channel and destinations of these names.
fn plan_of(alloc: Global, names: &[&str]) -> Result<Vec<u8>, AllocError> {
    let mut text = String::new(alloc);
    writeln!(
        text,
        "[[channel]]\nname = \"ADT\"\nlisten = \"127.0.0.1:1\""
    )?;
    writeln!(text, "types = []\nprocessing = []\nversions = []")?;
    for name in names {
        writeln!(
            text,
            "[[destination]]\nname = \"{name}\"\naddress = \"127.0.0.1:1\""
        )?;
    }
    Ok(text.into_bytes())
}

#[test]
fn status_has_all(rt: HostRuntime) -> Result<(), Fail> {
    let plan = Plan::built_in(rt.alloc())?;
    let (status, figures) = state();
    let text = status_text(rt.alloc(), &plan, &status, &figures)?;
    for line in [
        "book held 12 owed 3 left 385 messages 9 remembered 4\n",
        "prunings 4 left 996 for 996 hours\n",
        "store commits 4 changes 10 microseconds 1500001 longest 3000000\n",
        "store has no room: nothing is acknowledged\n",
        "connections ADT open 3 of 8\n",
        "deployments 1 left 999\n",
        "connections open 1 taken 2 refused 0\n",
        "unbooked full 8 plan_changed 0 no_memory 1\nrepeats unbooked 5\n",
        "dropped unreadable 2 acknowledgments 0 broken 3\n",
        "waiting attempts 2 due 2001-09-09T01:46:40Z\n",
        " 1970-01-02T00:00:00Z\n",
        "held LAB\nsent again LAB 2\nfront LAB message 7 ",
    ] {
        assert!(rt; text.contains(line), "{line} {text}");
    }
    assert!(rt; text.ends_with("\n\n"));
    Ok(())
}

#[test]
fn metrics_have_all(rt: HostRuntime) -> Result<(), Fail> {
    let plan = Plan::built_in(rt.alloc())?;
    let (status, figures) = state();
    let text = metrics_text(rt.alloc(), &plan, &status, &figures)?;
    for line in [
        "# TYPE hl7_book_held_entries gauge\nhl7_book_held_entries 12\n",
        "hl7_unbooked_messages_total{cause=\"full\"} 8\n",
        "hl7_repeats_unbooked_total 5\n",
        "hl7_dropped_blocks_total{cause=\"broken\"} 3\n",
        "hl7_book_prunings_left 996\n",
        "hl7_store_commits_total 4\n",
        "hl7_store_changes_total 10\n",
        "hl7_store_commit_seconds_total 6.000004\n",
        "hl7_store_longest_commit_seconds 3.000000\n",
        "hl7_store_full 1\n",
        "hl7_destination_held{destination=\"LAB\"} 1\n",
        "hl7_destination_connected{destination=\"LAB\"} 0\n",
        "hl7_destination_sent_again_total{destination=\"LAB\"} 2\n",
    ] {
        assert!(rt; text.contains(line), "{line} {text}");
    }
    Ok(())
}

#[test]
fn lists_end_with_their_number(rt: HostRuntime) -> Result<(), Fail> {
    assert_eq!(rt;
        found_text(rt.alloc(), &[3, 5])?.as_str(),
        "message 3\nmessage 5\nfound 2\n\n"
    );
    assert_eq!(rt;
        waiting_text(rt.alloc(), None, 0, &[], 0)?.as_str(),
        "waiting 0\n\n"
    );
    let many = found_text(rt.alloc(), &[1; 101])?;
    assert!(rt; many.ends_with("more than 100\n\n"));
    let text = pruned_text(rt.alloc(), 3, 2, None)?;
    assert_eq!(rt;
        text.as_str(),
        "messages below 3 are forgotten\nthe last 2 messages are kept\n\n"
    );
    let text = unpruned_text(rt.alloc(), 2, Some(1))?;
    assert_eq!(rt;
        text.as_str(),
        "nothing to forget\nthe last 2 messages are kept\nmessage 1 is not delivered yet: it is kept, and so are those after it\n\n"
    );
    let far = format!(in rt.alloc(); "{}", Utc(u64::MAX))?;
    assert_eq!(rt; far.as_str(), "18446744073709551615");
    Ok(())
}

#[test]
fn ids_are_read_as_they_are_shown(rt: HostRuntime) -> Result<(), Fail> {
    for id in [
        b"\xC3\x9C A\\x41\\\\".as_slice(),
        b"A1001",
        b"",
        b"\x00\x7F\"",
    ] {
        let shown = format!(in rt.alloc(); "{}", Shown(id))?;
        let read = unescaped(rt.alloc(), shown.as_bytes())?;
        assert_eq!(rt; read.as_slice(), id);
    }
    for (shown, id) in [
        (b"\\\\".as_slice(), b"\\".as_slice()),
        (b"\\x4", b"\\x4"),
        (b"\\xg1\\", b"\\xg1\\"),
        (b"\\x5c\\F\\", b"\\\\F\\"),
    ] {
        let read = unescaped(rt.alloc(), shown)?;
        assert_eq!(rt; read.as_slice(), id);
    }
    Ok(())
}

/// What is shown of the destination with an index, where another plan is in force.
fn rename_text(
    alloc: Global,
    from: &Plan,
    to: &Plan,
    counts: &Counts,
    index: u32,
) -> Result<String, AllocError> {
    match rename_at(from, to, counts, index) {
        Some(rename) => format!(in alloc; "{rename}"),
        None => Ok(String::new(alloc)),
    }
}

/// The index of the first destination of which something else is shown than is wanted, if there is one.
fn other_rename(alloc: Global, before: &Plan, now: &Plan) -> Result<Option<u32>, AllocError> {
    let mut counts = Counts::new();
    counts.count_waiting(0);
    counts.count_waiting(2);
    for (from, to, index, text) in [
        (
            before,
            now,
            0,
            "destination[0] was LAB and is RAD: the counts and states of its messages are shown as RAD's",
        ),
        (before, now, 1, ""),
        (
            before,
            now,
            2,
            "destination[2] was WARD and is gone: the counts and states of its messages are no longer shown",
        ),
        (
            now,
            before,
            2,
            "destination[2] is WARD: the counts and states of a former destination's messages are shown as WARD's",
        ),
        (before, before, 0, ""),
        (before, now, 32, ""),
    ] {
        if rename_text(alloc, from, to, &counts, index)?.as_str() != text {
            return Ok(Some(index));
        }
    }
    Ok(None)
}

#[test]
fn renames_are_shown_where_something_was_counted(rt: HostRuntime) -> Result<(), Fail> {
    let alloc = rt.alloc();
    let before = Plan::read(alloc, &plan_of(alloc, &["LAB", "RAD", "WARD"])?)?;
    let now = Plan::read(alloc, &plan_of(alloc, &["RAD", "RAD2"])?)?;
    let other = other_rename(alloc, &before, &now)?;
    assert_eq!(rt; other, None);
    Ok(())
}
