//! The words of a line.

use anyhow::{Result, bail};
use dest_queue::Outcome;
use event_log::Ticket;
use hl7_head::Moment;
use std::str::SplitWhitespace;

/// The next word.
///
/// # Errors
///
/// Where there is none.
pub fn word<'a>(words: &mut SplitWhitespace<'a>) -> Result<&'a str> {
    match words.next() {
        Some(word) => Ok(word),
        None => bail!("a word is missing"),
    }
}

/// A number.
///
/// # Errors
///
/// Where there is no word, or it is no number.
pub fn number(words: &mut SplitWhitespace<'_>) -> Result<u32> {
    Ok(word(words)?.parse::<u32>()?)
}

/// A moment, in seconds since 1970.
///
/// # Errors
///
/// Where there is no word, or it is no moment.
pub fn moment(words: &mut SplitWhitespace<'_>) -> Result<Moment> {
    Ok(Moment::of_unix(word(words)?.parse::<i64>()?)?)
}

/// The ticket of a message, a destination and an attempt.
///
/// # Errors
///
/// Where a word is missing, or is no number.
pub fn ticket(words: &mut SplitWhitespace<'_>) -> Result<Ticket> {
    Ok(Ticket {
        number: number(words)?,
        destination: number(words)?,
        attempt: number(words)?,
    })
}

/// An outcome by its name.
///
/// # Errors
///
/// Where there is no word, or it names no outcome.
pub fn outcome(words: &mut SplitWhitespace<'_>) -> Result<Outcome> {
    match word(words)? {
        "delivered" => Ok(Outcome::Delivered),
        "again" => Ok(Outcome::Again),
        "rejected" => Ok(Outcome::Rejected),
        _ => bail!("no outcome"),
    }
}
