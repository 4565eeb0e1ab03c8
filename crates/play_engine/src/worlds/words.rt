//! The words of a line.

use anyhow::{Result, bail};
use dest_queue::Outcome;
use event_log::Ticket;
use hl7_head::Moment;
use std::alloc::Global;
use std::str::SplitWhitespace;

/// The next word.
///
/// # Errors
///
/// Where there is none.
pub(crate) fn word<'a>(words: &mut SplitWhitespace<'a>) -> Result<&'a str> {
    match words.next() {
        Some(word) => Ok(word),
        None => bail!("a word is missing"),
    }
}

/// A number.
///
/// # Errors
///
/// Where there is no word, or it is no number.
pub(crate) fn number(words: &mut SplitWhitespace<'_>) -> Result<u32> {
    Ok(word(words)?.parse::<u32>()?)
}

/// Numbers between commas.
///
/// # Errors
///
/// Where there is no word, one of them is no number, or memory is refused.
pub(crate) fn numbers(alloc: Global, words: &mut SplitWhitespace<'_>) -> Result<Vec<u32>> {
    let mut numbers = Vec::new(alloc);
    for number in word(words)?.split(',') {
        numbers.push(number.parse::<u32>()?)?;
    }
    Ok(numbers)
}

/// The mask of destinations between commas.
///
/// # Errors
///
/// Where there is no word, or one of them is no number below 32.
pub(crate) fn mask(words: &mut SplitWhitespace<'_>) -> Result<u32> {
    let mut mask = 0_u32;
    for number in word(words)?.split(',') {
        match 1_u32.checked_shl(number.parse::<u32>()?) {
            Some(bit) => mask |= bit,
            None => bail!("no destination: {number}"),
        }
    }
    Ok(mask)
}

/// A moment, in seconds since 1970.
///
/// # Errors
///
/// Where there is no word, or it is no moment.
pub(crate) fn moment(words: &mut SplitWhitespace<'_>) -> Result<Moment> {
    Ok(Moment::of_unix(word(words)?.parse::<i64>()?)?)
}

/// The ticket of a message, a destination and an attempt.
///
/// # Errors
///
/// Where a word is missing, or is no number.
pub(crate) fn ticket(words: &mut SplitWhitespace<'_>) -> Result<Ticket> {
    Ok(Ticket {
        number: number(words)?,
        destination: number(words)?,
        attempt: number(words)?,
    })
}

/// An outcome by its name.
///
/// # Errors
///
/// Where there is no word, or it names no outcome.
pub(crate) fn outcome(words: &mut SplitWhitespace<'_>) -> Result<Outcome> {
    match word(words)? {
        "delivered" => Ok(Outcome::Delivered),
        "again" => Ok(Outcome::Again),
        "rejected" => Ok(Outcome::Rejected),
        _ => bail!("no outcome"),
    }
}
