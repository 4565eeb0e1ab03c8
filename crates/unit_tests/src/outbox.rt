//! Lines of the log that wait to be written, where there are too many.

use engine_journal::{LINES_MAX, Line, Next, Outbox, Rank};
use std::alloc::AllocError;
use std::fmt::Write;
use std::sync::Wait;
use std::time::Clock;

/// A line with a number.
fn numbered(number: usize) -> Line {
    let mut line = Line::new();
    let _ = write!(line, "{number}");
    line
}

/// Whether the next line is this one, after this number of lines that were dropped.
fn writes<H: Wait + Clock>(rt: &H, outbox: &Outbox, line: &str, dropped: u64) -> bool {
    match outbox.next(rt) {
        Next::Write(next, count) => next.as_str() == line && count == dropped,
        _ => false,
    }
}

/// Whether three lines without room are counted before the first line, and no line follows the last one.
fn counts_dropped<H: Wait + Clock>(rt: &H, outbox: &Outbox) -> bool {
    for number in 0..LINES_MAX + 3 {
        outbox.put(rt, Rank::Warning, numbered(number));
    }
    let first = writes(rt, outbox, "0", 3);
    let second = writes(rt, outbox, "1", 0);
    outbox.end(rt);
    for _ in 2..LINES_MAX {
        let _line = outbox.next(rt);
    }
    first && second && matches!(outbox.next(rt), Next::End)
}

#[test]
fn a_line_without_room_is_counted(rt: HostRuntime) -> Result<(), AllocError> {
    let outbox = Outbox::new(rt.alloc())?;
    let is_counted = counts_dropped(&rt, &outbox);
    assert!(rt; is_counted);
    Ok(())
}

/// Whether warnings take the room of all other lines, so that the first two lines are warnings.
fn keeps_warnings<H: Wait + Clock>(rt: &H, outbox: &Outbox) -> bool {
    for number in 0..LINES_MAX {
        let rank = match number {
            0 => Rank::Warning,
            1 => Rank::Repeats,
            _ => Rank::Info,
        };
        outbox.put(rt, rank, numbered(number));
    }
    for number in LINES_MAX..2 * LINES_MAX {
        outbox.put(rt, Rank::Warning, numbered(number));
    }
    writes(rt, outbox, "0", LINES_MAX as u64) && writes(rt, outbox, "1024", 0)
}

#[test]
fn warnings_are_kept_before_others(rt: HostRuntime) -> Result<(), AllocError> {
    let outbox = Outbox::new(rt.alloc())?;
    let is_kept = keeps_warnings(&rt, &outbox);
    assert!(rt; is_kept);
    Ok(())
}
