//! The calls of a script, and their answers.

ghost use Rattle.std.specs.Prelude.{◌<◌, ◌+◌, All};

use row_store::RowStore;
use std::fmt;
use std::str::SplitWhitespace;

/// A call on a store of rows.
#[derive(Clone, Copy)]
pub enum Call {
    Push { item: u64, mask: u32 },
    Front { d: u32 },
    Get { number: u32 },
    Set { number: u32, item: u64 },
    Unlink { number: u32, d: u32 },
    Remove { number: u32 },
    Len,
    Random { count: u32, seed: u64 },
}

/// What a store answers.
#[derive(Clone, Copy, Debug, PartialEq, Eq)]
pub enum Answer {
    Done,
    Nothing,
    Number(u32),
    Item(u64),
    Rows(usize),
    NoMemory,
}

impl fmt::Display for Answer {
    fn fmt<W: fmt::Write>(&self, f: &mut fmt::Formatter<W>) -> fmt::Result {
        match *self {
            Answer::Done => write!(f, "done"),
            Answer::Nothing => write!(f, "nothing"),
            Answer::Number(number) => write!(f, "row {number}"),
            Answer::Item(item) => write!(f, "item {item}"),
            Answer::Rows(len) => write!(f, "{len} rows"),
            Answer::NoMemory => write!(f, "no memory"),
        }
    }
}

/// A number of 32 bits.
fn number(words: &mut SplitWhitespace<'_>) -> Option<u32> {
    words.next()?.parse::<u32>().ok()
}

/// A number of 64 bits.
fn long(words: &mut SplitWhitespace<'_>) -> Option<u64> {
    words.next()?.parse::<u64>().ok()
}

/// A row that is pushed.
fn push(words: &mut SplitWhitespace<'_>) -> Option<Call> {
    Some(Call::Push {
        item: long(words)?,
        mask: number(words)?,
    })
}

/// An item that is written.
fn set(words: &mut SplitWhitespace<'_>) -> Option<Call> {
    Some(Call::Set {
        number: number(words)?,
        item: long(words)?,
    })
}

/// A row that leaves a queue.
fn unlink(words: &mut SplitWhitespace<'_>) -> Option<Call> {
    Some(Call::Unlink {
        number: number(words)?,
        d: number(words)?,
    })
}

/// Calls that follow from a seed.
fn random(words: &mut SplitWhitespace<'_>) -> Option<Call> {
    Some(Call::Random {
        count: number(words)?,
        seed: long(words)?,
    })
}

/// The call of a name, with the words behind it.
fn named(name: &str, words: &mut SplitWhitespace<'_>) -> Option<Call> {
    match name {
        "push" => push(words),
        "set" => set(words),
        "unlink" => unlink(words),
        "random" => random(words),
        "len" => Some(Call::Len),
        "front" => Some(Call::Front { d: number(words)? }),
        "get" => Some(Call::Get {
            number: number(words)?,
        }),
        "remove" => Some(Call::Remove {
            number: number(words)?,
        }),
        _ => None,
    }
}

/// The call that a line writes, if it writes one and no further word.
pub(crate) fn call_of(line: &str) -> Option<Call> {
    let mut words = line.split_whitespace();
    let name = words.next()?;
    let call = named(name, &mut words)?;
    match words.next() {
        Some(_) => None,
        None => Some(call),
    }
}

/// A call that these bits choose, on rows below `next`.
pub(crate) fn random_call(bits: u64, next: u32) -> Call {
    let number = (bits >> 8 & 0x7FFF_FFFF) as u32 % next.max(1);
    let d = (bits >> 3 & 0xFFFF) as u32 % 33;
    match bits % 8 {
        0 | 1 => Call::Push {
            item: bits,
            mask: (bits >> 5 & 0xFFFF_FFFF) as u32,
        },
        2 => Call::Front { d },
        3 => Call::Get { number },
        4 => Call::Set { number, item: bits },
        5 | 6 => Call::Unlink { number, d },
        _ => Call::Remove { number },
    }
}

/// The answer of a store to a call. A row that is pushed gets the number `next`, which is above all others.
pub(crate) fn play<S: RowStore<u64>>(rows: &mut S, next: u32, call: &Call) -> Answer
    requires { All (λ row. row.number < next) (S.rows rows.old) }
    ensures { All (λ row. row.number < next + 1) (S.rows rows.new) }
{
    match *call {
        Call::Push { item, mask } => match rows.push(next, item, mask) {
            Ok(()) => Answer::Done,
            Err(_) => Answer::NoMemory,
        },
        Call::Front { d } => rows.front(d).map_or(Answer::Nothing, Answer::Number),
        Call::Get { number } => rows
            .get(number)
            .copied()
            .map_or(Answer::Nothing, Answer::Item),
        Call::Set { number, item } => match rows.get_mut(number) {
            Some(place) => {
                *place = item;
                Answer::Done
            }
            None => Answer::Nothing,
        },
        Call::Unlink { number, d } => {
            if rows.unlink(number, d) {
                Answer::Done
            } else {
                Answer::Nothing
            }
        }
        Call::Remove { number } => rows.remove(number).map_or(Answer::Nothing, Answer::Item),
        Call::Len => Answer::Rows(rows.len()),
        Call::Random { .. } => Answer::Nothing,
    }
}
