//! Plays calls on both stores of rows at once: a line is a call, and is written with the answer of both, or with both answers
//! where they differ. A row that is pushed has the line's number, counted from 0. Empty lines and those that begin with `#`
//! are written as they are. Behind the last line is how many nodes the linked rows have read.
//!
//! - `push ITEM MASK`, `front D`, `get NUMBER`, `set NUMBER ITEM`, `unlink NUMBER D`, `remove NUMBER`, `len`
//! - `random COUNT SEED`: COUNT calls that follow from the seed, on two stores that are empty at first.

ghost use Rattle.std.specs.Prelude.{◌≡◌, ◌<◌, ◌+◌, [], All, OnOk};

mod call;

use anyhow::{Result, bail};
use call::{Answer, Call, call_of, random_call};
use play_script::is_call;
use record_list::RecordList;
use row_store::{PlainRows, RowStore};
use std::alloc::{AllocError, Global};
use std::str;

/// The most lines of a script, and the most calls of a `random`.
const CALLS_MAX: u32 = 100_000;

/// The answer of both stores to a call, or both answers.
fn told(alloc: Global, by_plain: Answer, by_linked: Answer) -> Result<String, AllocError> {
    if by_plain == by_linked {
        format!(in alloc; "{by_plain}")
    } else {
        format!(in alloc; "{by_plain} in a vector, {by_linked} in linked nodes")
    }
}

/// What both stores answer to the call that a line writes. A row that is pushed gets the number `next`.
fn answer(
    alloc: Global,
    plain: &mut PlainRows<u64>,
    linked: &mut RecordList<u64>,
    next: u32,
    line: &str,
) -> Result<String>
    requires plain { All (λ row. row.number < next) plain.old.0 }
    requires linked { All (λ row. row.number < next) linked.old.rows }
    ensures plain { OnOk result (All (λ row. row.number < next + 1) plain.new.0) }
    ensures linked { OnOk result (All (λ row. row.number < next + 1) linked.new.rows) }
{
    let Some(call) = call_of(line) else {
        bail!("{line} is no call");
    };
    if let Call::Random { count, seed } = call {
        let same = compare(alloc, count.min(CALLS_MAX), seed);
        Ok(format!(in alloc; "{same} calls, the answers alike")?)
    } else {
        let by_plain = call::play(plain, next, &call);
        let by_linked = call::play(linked, next, &call);
        Ok(told(alloc, by_plain, by_linked)?)
    }
}

/// How many random calls both stores answer alike, up to the first that they don't.
fn compare(alloc: Global, count: u32, seed: u64) -> u32 {
    let mut plain: PlainRows<u64> = RowStore::make(alloc);
    let mut linked: RecordList<u64> = RowStore::make(alloc);
    let mut state = seed;
    for next in 0..count {
        state = state
            .wrapping_mul(6_364_136_223_846_793_005)
            .wrapping_add(1_442_695_040_888_963_407);
        let call = random_call(state >> 20, next);
        if call::play(&mut plain, next, &call) != call::play(&mut linked, next, &call) {
            return next;
        }
    }
    count
}

/// Plays lines, one after another, on two stores that are empty at first.
fn play_all(
    rt: &HostRuntime,
    plain: &mut PlainRows<u64>,
    linked: &mut RecordList<u64>,
    lines: &[Vec<u8>],
) -> Result<()>
    requires plain { plain.old.0 ≡ [] }
    requires linked { linked.old.rows ≡ [] }
{
    let mut next = 0;
    for line in lines {
        let line = str::from_utf8(line)?;
        if !is_call(line) {
            println!(rt; "{line}")?;
            continue;
        }
        if next >= CALLS_MAX {
            bail!("too many lines");
        }
        println!(rt;
            "{line}: {}",
            answer(rt.alloc(), plain, linked, next, line)?
        )?;
        next += 1;
    }
    Ok(())
}

/// Plays lines on two stores without rows.
///
/// # Errors
///
/// Where a line is no call, or memory is refused.
pub(crate) fn play(rt: &HostRuntime, lines: &[Vec<u8>]) -> Result<()> {
    let mut plain: PlainRows<u64> = RowStore::make(rt.alloc());
    let mut linked: RecordList<u64> = RowStore::make(rt.alloc());
    play_all(rt, &mut plain, &mut linked, lines)?;
    println!(rt; "{} nodes read", linked.visits())?;
    Ok(())
}
