//! The book of a script, which is shared, played on and closed.

ghost use Rattle.std.specs.Prelude.{◌≡◌, ◌+◌, length};
ghost use Rattle.event_log.specs.History.{next_place, plan_in_force};
ghost use Rattle.event_log.specs.Counting.{counted};

use crate::shared::{AtBook, Rows};
use anyhow::{Result, bail};
use book_core::{Book, EVENTS_MAX, Receipt};
use book_lock::{Closed, Desk, LogEntry, Opened, Shared, Sharing, Station, audit};
use call_window::book_state::push_held;
use call_window::plans::plan_named;
use call_window::script::play;
use ghost_log::BlankLog;
use log::Log;
use std::hash::RandomState;
use std::marker::Brand;
use std::sync::Wait;
use std::time::Clock;

/// An empty book.
fn empty_book(host: &HostRuntime) -> Result<Book<Rows>> {
    let plan = plan_named(host, "three.toml")?;
    let hasher = RandomState::new(host)?;
    Ok(Book::new(host.alloc(), plan, EVENTS_MAX, hasher))
}

/// Plays all lines at the first desk and the first station of a shared book, and returns the
/// receipts.
fn play_at<A: Sharing, H: Wait + Clock + Log>(
    rt: &H,
    host: &HostRuntime,
    shared: &Shared<A, Rows>,
    desks: &mut [Desk<A>],
    stations: &mut [Station<A>],
    lines: &str,
) -> Result<Vec<Receipt>> {
    let (Some(desk), Some(station)) = (desks.first_mut(), stations.first_mut()) else {
        bail!("there is no desk or no station");
    };
    let mut stage = AtBook::new(rt, host.alloc(), shared, desk, station);
    play(host, &mut stage, lines)?;
    let AtBook { receipts, .. } = stage;
    Ok(receipts)
}

/// Writes what a closed book holds, and what the audit of the receipts finds.
fn tell_closed(host: &HostRuntime, closed: &Closed<Rows>, receipts: &[Receipt]) -> Result<()> {
    let mut told = String::new(host.alloc());
    push_held(&mut told, closed.book())?;
    let found = audit(closed, receipts);
    println!(host; "closed: audit {found:?}; {told}")?;
    Ok(())
}

/// Closes a shared book, and writes what it holds then.
fn close_and_tell<A: Sharing>(
    host: &HostRuntime,
    shared: Shared<A, Rows>,
    desks: Vec<Desk<A>>,
    stations: Vec<Station<A>>,
    receipts: &[Receipt],
) -> Result<()> {
    match shared.close(desks, stations) {
        Ok(closed) => tell_closed(host, &closed, receipts),
        Err(_) => bail!("a share is missing"),
    }
}

/// The lines that are played.
#[derive(Clone, Copy)]
struct Script<'a> {
    lines: &'a str,
}

/// Shares a book between a desk and a station, plays all lines on it, and closes it.
fn play_and_close<A: Sharing, H: Wait + Clock + Log>(
    rt: &H,
    host: &HostRuntime,
    book: Book<Rows>,
    log: BlankLog<LogEntry>,
    script: &Script<'_>,
) -> Result<()>
    requires opening { book ≡ A.opening }
    requires log { log.table.shared.table_id ≡ A.table }
    requires counts { counted book ≡ A.counts }
    requires first { next_place book ≡ A.first }
    requires channels { length (plan_in_force book).channels ≡ A.channels }
    requires seats { (A.desks ≡ 1) × (A.stations ≡ 1) }
{
    let opened = Shared::<A, Rows>::new(host.alloc(), book, 1, 1, log);
    let Ok(
        Opened {
            shared,
            mut desks,
            mut stations,
        },
    ) = opened
    else {
        bail!("the book was not shared");
    };
    shared.finish(rt);
    let receipts = play_at(rt, host, &shared, &mut desks, &mut stations, script.lines)?;
    close_and_tell(host, shared, desks, stations, &receipts)
}

/// Plays all lines on a shared book.
fn play_on<H: Wait + Clock + Log>(
    rt: &H,
    host: &HostRuntime,
    book: Book<Rows>,
    lines: &str,
) -> Result<()> {
    let log = BlankLog::new(host.alloc())?;
    let script = Script { lines };
    play_and_close::<Brand, H>(rt, host, book, log, &script)
}

/// Plays all lines on an empty book that is shared.
///
/// # Errors
///
/// Where there is no such book, a line is no call, standard output can't be written, or memory is
/// refused outside of the calls' own requests.
pub(crate) fn play_shared<H: Wait + Clock + Log>(
    rt: &H,
    host: &HostRuntime,
    lines: &str,
) -> Result<()> {
    let book = empty_book(host)?;
    play_on(rt, host, book, lines)
}
