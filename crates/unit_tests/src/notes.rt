//! A few plans with their lines; tests/plan_notes.py has one for each fault and each kind of key.

use plan_notes::{ShownFault, fault_notes, held_back_notes, room_notes, warnings};
use plan_text::Plan;
use std::alloc::{AllocError, Global};
use std::process::Abort;

/// Plans with a fault: the text, the fault as it is shown, and the last of its notes.
const FAULTS: [(&[u8], &str, &str); 5] = [
    (
        b"a = 1\nb = \"\\d\"",
        "NotToml",
        "note: between double quotes a backslash begins an escape; between single quotes it is taken as it is written",
    ),
    (
        b"\xff",
        "NotToml",
        "note: line 1, column 1: the byte 0xFF at offset 0 is not UTF-8",
    ),
    (
        b"[[destination]]\n\"a.\\u001B\" = 1",
        "UnknownKey at destination[0].\"a.\\x1B\"",
        "note: the keys of a destination here: name, address, attempts, interval, timeout, await",
    ),
    (
        b"[[destination]]\nname = \"LAB\"\naddress = \"lab:1\"\nattempts = 101",
        "BadRange at destination[0].attempts",
        "note: found the number 101; wanted: a whole number from 1 to 100, as attempts = 3",
    ),
    (
        b"destination = []",
        "Missing at channel",
        "note: channel: the listeners that messages come in on; wanted: a list of 1 to 64 tables, as [[channel]]",
    ),
];

#[test]
fn faults_are_explained(rt: HostRuntime) -> Result<(), AllocError> {
    let alloc = rt.alloc();
    for (text, shown, last) in FAULTS {
        let Err(fault) = Plan::read(alloc, text) else {
            panic!(rt; "a plan with a fault was read");
        };
        let line = format!(in alloc; "{}", ShownFault(&fault))?;
        assert_eq!(rt; line.as_str(), shown);
        let notes = fault_notes(alloc, text, &fault)?;
        match notes.as_slice().last() {
            Some(note) => assert_eq!(rt; note.as_str(), last),
            None => panic!(rt; "a fault has no note"),
        }
    }
    Ok(())
}

/// The notes on a plan's fault, and the fault as it is shown, a line each; no line where the plan has no fault.
fn lines_of(alloc: Global, plan: &str) -> Result<String, AllocError> {
    let Err(fault) = Plan::read(alloc, plan.as_bytes()) else {
        return Ok(String::new(alloc));
    };
    let mut lines = String::new(alloc);
    let notes = fault_notes(alloc, plan.as_bytes(), &fault)?;
    for note in &notes {
        lines.push_str(note.as_str())?;
        lines.push('\n')?;
    }
    let shown = format!(in alloc; "{}\n", ShownFault(&fault))?;
    lines.push_str(shown.as_str())?;
    Ok(lines)
}

/// Plans in which a table is where a list of tables is wanted, with their lines.
const TABLES: [(&str, &str); 2] = [
    (
        "destination = []\n[channel]\nname = \"ADT\"\n",
        "note: found a table; wanted: a list of tables, each written [[channel]]\nBadRange at channel\n",
    ),
    (
        "destination = { name = \"LAB\" }\n",
        "note: found a table; wanted: a list of tables, each written [[destination]]\nBadRange at destination\n",
    ),
];

#[test]
fn a_table_is_no_list_of_tables(rt: HostRuntime) -> Result<(), AllocError> {
    let alloc = rt.alloc();
    for (plan, lines) in TABLES {
        let told = lines_of(alloc, plan)?;
        assert_eq!(rt; told.as_str(), lines);
    }
    Ok(())
}

/// A channel without routes.
const CHANNEL: &str = "destination = []
[[channel]]
name = \"ADT\"
listen = \"127.0.0.1:6660\"
types = []
processing = []
versions = []
";

/// Tables and lists that are written in that channel, with their lines behind the one that names the channel.
const SHAPES: [(&str, &str); 11] = [
    (
        "[channel.route]\nto = \"LAB\"",
        "note: found a table; wanted: a list of tables, each written [[channel.route]]\nBadRange at channel[0].route\n",
    ),
    (
        "steps = { clear = \"PID-19\" }",
        "note: found a table; wanted: a list of steps, as [{ clear = \"PID-19\" }]\nBadRange at channel[0].steps\n",
    ),
    (
        "filter = { all = { equals = [\"PV1-2\", \"I\"] } }",
        "note: found a table; wanted: a list of conditions, as [{ exists = \"PID-3.1\" }]\nBadRange at channel[0].filter.all\n",
    ),
    (
        "steps = [{ set = [\"MSH-5\", 5] }]",
        "note: found the number 5 as the second member; wanted: a list of a path and a text, as set = [\"PV1-2\", \"I\"]\nBadRange at channel[0].steps[0].set\n",
    ),
    (
        "steps = [{ copy = [5, \"PID-2.1\"] }]",
        "note: found the number 5 as the first member; wanted: a list of two paths, as copy = [\"PID-3.1\", \"PID-2.1\"]\nBadRange at channel[0].steps[0].copy\n",
    ),
    (
        "steps = [{ lookup = \"PID-8\", table = [[\"1\", 2]] }]",
        "note: found the number 2 as the second member; wanted: a list of two texts, as [\"1\", \"M\"]\nBadRange at channel[0].steps[0].table[0]\n",
    ),
    (
        "filter = { equals = [\"PV1-2\", 1] }",
        "note: found the number 1 as the second member; wanted: a list of a path and a text, as equals = [\"PV1-2\", \"I\"]\nBadRange at channel[0].filter.equals\n",
    ),
    (
        "filter = { equals = [\"PV1-2\", [\"I\", \"E\"]] }",
        "note: found a list of 2 members as the second member; wanted: a list of a path and a text, as equals = [\"PV1-2\", \"I\"]\nnote: one_of takes several texts, as one_of = [\"PV1-2\", [\"I\", \"E\"]]\nBadRange at channel[0].filter.equals\n",
    ),
    (
        "filter = { equals = [\"PV1-2\", \"I\", \"E\"] }",
        "note: found a list of 3 members; wanted: a list of a path and a text, as equals = [\"PV1-2\", \"I\"]\nnote: one_of takes several texts, as one_of = [\"PV1-2\", [\"I\", \"E\"]]\nBadRange at channel[0].filter.equals\n",
    ),
    (
        "filter = { one_of = [\"PV1-2\", \"I\"] }",
        "note: found the text \"I\" of 1 bytes as the second member; wanted: a list of a path and a list of at most 256 texts, as one_of = [\"PV1-2\", [\"I\", \"E\"]]\nnote: equals takes one text, as equals = [\"PV1-2\", \"I\"]\nBadRange at channel[0].filter.one_of\n",
    ),
    (
        "filter = { one_of = [\"PV1-2\", [\"I\", 5]] }",
        "note: found the number 5 at index 1 of the second member; wanted: a list of a path and a list of at most 256 texts, as one_of = [\"PV1-2\", [\"I\", \"E\"]]\nBadRange at channel[0].filter.one_of\n",
    ),
];

/// Keys and paths that are written in that channel, likewise.
const WORDS: [(&str, &str); 6] = [
    (
        "filter = { exists = \"PV1.2\" }",
        "note: \"PV1.2\" is no path: its segment \"PV1.2\" is not three of A to Z and 0 to 9, the first a letter\nnote: a path is NAME[n]-F[r].C.S, as PID-3, PID-3[2] or PID-3.1\nBadPath at channel[0].filter.exists\n",
    ),
    (
        "filter = { matches = [\"PID-3\", \"7\"] }",
        "note: a condition has no key \"matches\" here\nnote: the keys of a condition here: equals, one_of, exists, starts, contains, all, any, not\nUnknownKey at channel[0].filter.matches\n",
    ),
    (
        "steps = [{ delete = \"PID-19\" }]",
        "note: a step has no key \"delete\" here\nnote: the keys of a step here: set, copy, clear, lookup, remove\nUnknownKey at channel[0].steps[0].delete\n",
    ),
    (
        "steps = [{ clear = \"PID-19\", default = \"U\" }]",
        "note: a step has \"default\" beside \"lookup\" alone\nnote: a step has no key \"default\" here\nnote: the keys of a step here: set, copy, clear, lookup, remove\nUnknownKey at channel[0].steps[0].default\n",
    ),
    (
        "steps = [{ remvoe = \"ZPD\" }]",
        "note: a step has no key \"remvoe\" here; the nearest is remove\nnote: the keys of a step here: set, copy, clear, lookup, remove\nUnknownKey at channel[0].steps[0].remvoe\n",
    ),
    (
        "proc = []",
        "note: a channel has no key \"proc\" here; the nearest is processing\nnote: the keys of a channel here: name, listen, types, processing, versions, filter, steps, route\nUnknownKey at channel[0].proc\n",
    ),
];

/// Checks the lines for a plan whose channel has a line of its own.
fn check_in_channel(
    rt: &impl Abort,
    alloc: Global,
    written: &str,
    lines: &str,
) -> Result<(), AllocError> {
    let plan = format!(in alloc; "{CHANNEL}{written}\n")?;
    let wanted = format!(in alloc; "note: channel[0] is \"ADT\"\n{lines}")?;
    let told = lines_of(alloc, plan.as_str())?;
    assert_eq!(rt; told.as_str(), wanted.as_str());
    Ok(())
}

#[test]
fn a_value_of_another_shape_is_named(rt: HostRuntime) -> Result<(), AllocError> {
    let alloc = rt.alloc();
    for (written, lines) in SHAPES {
        check_in_channel(&rt, alloc, written, lines)?;
    }
    Ok(())
}

#[test]
fn a_word_that_is_not_known_is_named(rt: HostRuntime) -> Result<(), AllocError> {
    let alloc = rt.alloc();
    for (written, lines) in WORDS {
        check_in_channel(&rt, alloc, written, lines)?;
    }
    Ok(())
}

/// A plan whose destination is its own channel.
const ITSELF: &[u8] = b"[[destination]]
name = \"LAB\"
address = \"localhost:6660\"
[[channel]]
name = \"ADT\"
listen = \"127.0.0.1:6660\"
types = [\"*\"]
processing = [\"P\"]
versions = []
[[channel.route]]
to = \"LAB\"
";

/// Checks what is warned of in the plan.
fn check_warned(rt: &impl Abort, alloc: Global, plan: &Plan) -> Result<(), AllocError> {
    let wanted = [
        "warning: channel ADT has no versions: it refuses every message",
        "warning: destination LAB: address = \"localhost:6660\" is channel ADT of this plan",
    ];
    let warned = warnings(alloc, ITSELF, plan)?;
    assert_eq!(rt; warned.len(), wanted.len());
    for (line, text) in warned.as_slice().iter().zip(wanted) {
        assert_eq!(rt; line.as_str(), text);
    }
    Ok(())
}

/// Checks what a book with this number of entries takes of channel ADT.
fn check_room(
    rt: &impl Abort,
    alloc: Global,
    plan: &Plan,
    events: u32,
    down: u32,
    up: u32,
) -> Result<(), AllocError> {
    let text = format!(in alloc;
        "note: channel ADT: a book of {events} entries takes {down} messages while all its destinations are down, {up} while all are up"
    )?;
    let room = room_notes(alloc, plan, events)?;
    assert_eq!(rt; room.len(), 1);
    for line in &room {
        assert_eq!(rt; line.as_str(), text.as_str());
    }
    Ok(())
}

#[test]
fn a_doubtful_plan_is_warned_of(rt: HostRuntime) -> Result<(), AllocError> {
    let alloc = rt.alloc();
    let Ok(plan) = Plan::read(alloc, ITSELF) else {
        panic!(rt; "it wasn't read");
    };
    check_warned(&rt, alloc, &plan)?;
    // A message takes 3 entries where it is delivered at once, and reserves 8.
    for (events, down, up) in [(7, 0, 0), (8, 1, 1), (16, 2, 3), (20, 2, 5)] {
        check_room(&rt, alloc, &plan, events, down, up)?;
    }
    Ok(())
}

/// A channel with two destinations, each of which is tried once.
const TWICE: &[u8] = b"[[destination]]
name = \"LAB\"
address = \"lab:6661\"
attempts = 1
[[destination]]
name = \"ARCHIVE\"
address = \"archive:6662\"
attempts = 1
[[channel]]
name = \"ADT\"
listen = \"127.0.0.1:6660\"
types = [\"*\"]
processing = [\"P\"]
versions = [\"*\"]
[[channel.route]]
to = \"LAB\"
[[channel.route]]
to = \"ARCHIVE\"
[[channel]]
name = \"NOWHERE\"
listen = \"127.0.0.1:6663\"
types = []
processing = []
versions = []
";

/// Checks what the book of a service takes of channel ADT, the only one with a destination.
fn check_held_back(
    rt: &impl Abort,
    alloc: Global,
    plan: &Plan,
    events: u32,
    takes: &str,
) -> Result<(), AllocError> {
    let text = format!(in alloc; "note: channel ADT: a book of {events} entries takes {takes}")?;
    let notes = held_back_notes(alloc, plan, events)?;
    assert_eq!(rt; notes.len(), 1);
    for line in &notes {
        assert_eq!(rt; line.as_str(), text.as_str());
    }
    Ok(())
}

/// Bounds of a book with what it takes of a channel with one destination and three attempts: a message takes one entry and owes
/// seven. Two messages owe more than half of 20 entries, and three more than half of 28. One owes more than half of 7, but needs 8.
const BY_ONE: [(u32, &str); 6] = [
    (7, "at least 0 messages while all its destinations are down"),
    (
        15,
        "at least 1 messages while all its destinations are down",
    ),
    (
        20,
        "2 messages while all its destinations are down, and holds back what follows",
    ),
    (
        28,
        "3 messages while all its destinations are down, and holds back what follows",
    ),
    (
        1_000,
        "72 messages while all its destinations are down, and holds back what follows",
    ),
    (
        1_000_000,
        "71429 messages while all its destinations are down, and holds back what follows",
    ),
];

/// The same for two destinations with one attempt each: a message takes one entry, and owes three at each. Of 1,000 entries 107
/// messages take 749, and one more is above three quarters. Of 48 entries 6 messages take 42, and 6 entries are an eighth.
const BY_TWO: [(u32, &str); 3] = [
    (
        48,
        "at least 6 messages while all its destinations are down",
    ),
    (
        1_000,
        "108 messages while all its destinations are down, and holds back what follows",
    ),
    (
        1_000_000,
        "107143 messages while all its destinations are down, and holds back what follows",
    ),
];

#[test]
fn a_book_holds_back_what_follows(rt: HostRuntime) -> Result<(), AllocError> {
    let alloc = rt.alloc();
    let (Ok(one), Ok(two)) = (Plan::read(alloc, ITSELF), Plan::read(alloc, TWICE)) else {
        panic!(rt; "it wasn't read");
    };
    for (events, takes) in BY_ONE {
        check_held_back(&rt, alloc, &one, events, takes)?;
    }
    for (events, takes) in BY_TWO {
        check_held_back(&rt, alloc, &two, events, takes)?;
    }
    Ok(())
}
