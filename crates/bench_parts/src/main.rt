//! Measures message text, the calls on a book, arrivals at a shared one, the audit of receipts, and prunings, for the scripts of
//! bench/.
//!
//! Words: one of `parse SEGMENTS TIMES`, `get ..` and `set ..`, `calls MESSAGES`, `arrivals ENTRIES`, `audit RECEIPTS` and
//! `foldings MESSAGES TIMES KEPT`, and `--time` where the times are printed. Numbers that are left out are small, and
//! with no such word all are measured.
#![tactic(auto)]

mod arrivals;
mod audits;
mod calls;
mod desk;
mod foldings;
mod message;
mod text;
mod words;

use anyhow::{Result, bail};
use arrivals::time_arrivals;
use audits::time_audits;
use book_core::Book;
use calls::{Times, fill, measure};
use foldings::time_foldings;
use message::{Rows, empty_book};
use std::env;
use std::sync::Wait;
use std::time::Clock;
use text::{Work, repeated};
use words::{Measure, Request, asked};

/// How many calls of each kind are measured, and twice as many arrivals.
const CALLS: u32 = 500;

/// The times of the calls, and how many entries the book held before and after them.
type Measured = (Times, usize, usize);

/// Fills an empty book, and measures the calls on it. None where a call was refused.
fn measured(rt: &HostRuntime, book: &mut Book<Rows>, count: u32) -> Option<Measured> {
    fill(rt, book, count)?;
    let before = book.len();
    let times = measure(rt, book, count, CALLS)?;
    Some((times, before, book.len()))
}

/// Measures the calls on a new book. None where one was refused, or there is no memory for the book.
fn measured_anew(rt: &HostRuntime, count: u32) -> Option<Measured> {
    let mut book = empty_book(rt)?;
    measured(rt, &mut book, count)
}

/// Fills a book, and measures the calls on it.
fn tell_calls(rt: &HostRuntime, asked: Request) -> Result<()> {
    let Some((times, before, after)) = measured_anew(rt, asked.count) else {
        bail!("a call was refused, or there is no memory for a book");
    };
    println!(rt; "{before} entries before")?;
    println!(rt; "{after} entries after")?;
    if asked.timed {
        println!(rt;
            "arrive {} take {} settle {}",
            times.arrive, times.take, times.settle
        )?;
        println!(rt; "behind {} cancel {}", times.behind, times.cancel)?;
    }
    Ok(())
}

/// Measures arrivals at a shared book.
fn tell_arrivals<H: Wait + Clock>(rt: &H, host: &HostRuntime, asked: Request) -> Result<()> {
    let Some(took) = time_arrivals(rt, host.alloc(), empty_book(host), asked.count, CALLS) else {
        bail!("a message was not booked");
    };
    println!(host; "{} arrivals behind {} entries", CALLS, asked.count)?;
    if asked.timed {
        println!(host; "arrive {took}")?;
    }
    Ok(())
}

/// Measures the audit of receipts in both orders.
fn tell_audits<H: Wait + Clock>(rt: &H, host: &HostRuntime, asked: Request) -> Result<()> {
    let Some(audits) = time_audits(rt, host.alloc(), empty_book(host), asked.count) else {
        bail!("a message was not booked, or the receipts are not right");
    };
    println!(host; "{} receipts audited", asked.count)?;
    if asked.timed {
        println!(host; "rising {} falling {}", audits.rising, audits.falling)?;
    }
    Ok(())
}

/// The nanoseconds of the longest of some prunings, and the next index and the next message after them.
type Folded = (u64, usize, u32);

/// Fills an empty book and prunes it, time and again. None where a call was refused.
fn folded(rt: &HostRuntime, book: &mut Book<Rows>, asked: Request) -> Option<Folded> {
    let longest = time_foldings(rt, book, asked)?;
    Some((longest, book.len(), book.message_count()))
}

/// Prunes a new book, time and again. None where a call was refused, or there is no memory for the book.
fn folded_anew(rt: &HostRuntime, asked: Request) -> Option<Folded> {
    let mut book = empty_book(rt)?;
    folded(rt, &mut book, asked)
}

/// Fills a book and prunes it, time and again.
fn tell_foldings(rt: &HostRuntime, asked: Request) -> Result<()> {
    let Some((longest, place, message)) = folded_anew(rt, asked) else {
        bail!("a call was refused, or there is no memory for a book");
    };
    println!(rt;
        "{} foldings of {} messages, {} kept",
        asked.times, asked.count, asked.kept
    )?;
    println!(rt; "next place {place}, next message {message}")?;
    if asked.timed {
        println!(rt; "longest {longest}")?;
    }
    Ok(())
}

/// Reads, looks up or changes a message.
fn tell_text(rt: &HostRuntime, work: Work, asked: Request) -> Result<()> {
    let sum = repeated(rt.alloc(), work, asked.count, asked.times)?;
    println!(rt; "{work:?} {} {} {sum}", asked.count, asked.times)?;
    Ok(())
}

fn main(rt: HostRuntime) -> Result<()> {
    let words: Vec<String> = env::args(&rt)?.collect(rt.alloc())?;
    let asked = asked(words.as_slice());
    match asked.measure {
        Some(Measure::Calls) => tell_calls(&rt, asked),
        Some(Measure::Arrivals) => tell_arrivals(&rt, &rt, asked),
        Some(Measure::Audit) => tell_audits(&rt, &rt, asked),
        Some(Measure::Foldings) => tell_foldings(&rt, asked),
        Some(Measure::Text(work)) => tell_text(&rt, work, asked),
        None => {
            tell_text(&rt, Work::Parse, asked)?;
            tell_text(&rt, Work::Get, asked)?;
            tell_text(&rt, Work::Set, asked)?;
            tell_calls(&rt, asked)?;
            tell_arrivals(&rt, &rt, asked)?;
            tell_audits(&rt, &rt, asked)?;
            tell_foldings(&rt, asked)
        }
    }
}
