//! Records of the log that repeat others.

use engine_journal::{KINDS_MAX, Line, Part, Repeats};
use std::alloc::AllocError;
use std::fmt::Write;

/// A record of a kind: its key, its second, what it says, and its control id.
type Row = (u64, u64, &'static str, &'static str);

const MINUTE: &[Row] = &[
    (1, 100, "WARN full channel=ADT", "A"),
    (2, 100, "WARN full channel=ORU", "B"),
    (1, 101, "WARN full channel=ADT", "C"),
    (1, 159, "WARN full channel=ADT", "D"),
];

const NEXT: &[Row] = &[
    (1, 219, "WARN full channel=ADT", "E"),
    (2, 160, "WARN full channel=ORU", "F"),
];

/// Notes the control ids of the records that are shown.
fn note_shown(notes: &mut Line, repeats: &mut Repeats, rows: &[Row]) {
    for (key, now, head, id) in rows {
        if repeats.shows(*key, *now, &Part::of(head), Part::of(id)) {
            let _ = write!(notes, "{id} shown; ");
        }
    }
}

/// Notes what is due.
fn note_due(notes: &mut Line, repeats: &mut Repeats, now: u64, at_the_end: bool) {
    if let Some(due) = repeats.due(now, at_the_end) {
        let (head, hidden, first, last) = (due.head, due.hidden, due.first, due.last);
        let _ = write!(notes, "{head}: {hidden} hidden, {first} to {last}; ");
    }
}

/// What is shown and due of records of two kinds.
fn minute(repeats: &mut Repeats) -> Line {
    let mut notes = Line::new();
    note_shown(&mut notes, repeats, MINUTE);
    note_due(&mut notes, repeats, 159, false);
    note_due(&mut notes, repeats, 160, false);
    note_due(&mut notes, repeats, 160, true);
    note_shown(&mut notes, repeats, NEXT);
    note_due(&mut notes, repeats, 219, true);
    notes
}

#[test]
fn a_minute_of_one_kind_is_one_line(rt: HostRuntime) -> Result<(), AllocError> {
    let notes = minute(&mut Repeats::new(rt.alloc())?);
    assert_eq!(rt;
        notes.as_str(),
        "A shown; B shown; WARN full channel=ADT: 2 hidden, C to D; F shown; WARN full channel=ADT: 1 hidden, E to E; "
    );
    Ok(())
}

#[test]
fn further_kinds_are_one_line_a_minute(rt: HostRuntime) -> Result<(), AllocError> {
    let (mut repeats, head, id) = (Repeats::new(rt.alloc())?, Part::of("H"), Part::of("A"));
    let mut shown = 0u32;
    for key in 0..1_000 {
        if repeats.shows(key, 100, &head, id) {
            shown = shown.saturating_add(1);
        }
    }
    let hidden = repeats.due(160, false).map(|due| due.hidden);
    let again = repeats.shows(2_000, 160, &head, id);
    assert_eq!(rt;
        (shown, hidden, again),
        (KINDS_MAX as u32 + 1, Some(1_000 - 65), true)
    );
    Ok(())
}
