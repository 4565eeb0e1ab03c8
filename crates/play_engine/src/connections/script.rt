//! The calls of a script.

/// Where a stream is cut into the pieces that a reader gives.
#[derive(Clone, Copy, Debug, PartialEq, Eq)]
pub enum Cut {
    Nowhere,
    AtEachByte,
    BehindEachEnd,
}

/// What a connection is served by.
#[derive(Clone, Copy)]
pub enum Setting<'a> {
    /// `plan NAME`: a new book of the plan `built-in` or of that in a file.
    Plan(&'a str),
    /// `events N`: a new book of at most N entries.
    Events(u32),
    /// `clock SECS`: acknowledgments are of this moment.
    Clock(u64),
    /// `bound N`: a connection may have N reads and N events, until the next plan.
    Bound(u64),
}

/// What comes by the next connection.
#[derive(Clone, Copy)]
pub enum Coming<'a> {
    /// `admission ID REST`: an admission of patient 77 comes, with this control id, and this behind its version.
    Admission(&'a str, &'a str),
    /// `text TEXT`: a block with this text comes.
    Text(&'a str),
    /// `bytes TEXT`: these bytes come.
    Bytes(&'a str),
    /// `letters N`: N letters are received.
    Letters(u32),
}

/// A line of a script.
#[derive(Clone, Copy)]
pub enum Call<'a> {
    /// What a connection is served by is set.
    Set(Setting<'a>),
    /// Something comes by the next connection.
    Come(Coming<'a>),
    /// `serve whole`, `serve bytes` or `serve ends`: what was received is served as one connection, cut so.
    Serve(Cut),
    /// `exchange`: what was received is served however it is cut, each time in a new book.
    Exchange,
    /// `take D`: the front of a destination's queue is taken.
    Take(u32),
}

/// The call that a line is.
pub(crate) fn call_of(line: &str) -> Option<Call<'_>> {
    match line.split_once(' ') {
        Some((word, rest)) => call_with(word, rest),
        None if line == "exchange" => Some(Call::Exchange),
        None => None,
    }
}

/// The call of this word about a text.
fn call_with<'a>(word: &str, rest: &'a str) -> Option<Call<'a>> {
    match word {
        "plan" => Some(Call::Set(Setting::Plan(rest))),
        "text" => Some(Call::Come(Coming::Text(rest))),
        "bytes" => Some(Call::Come(Coming::Bytes(rest))),
        "admission" => Some(Call::Come(admission(rest))),
        "serve" => served(rest),
        _ => numbered(word, rest.parse().ok()?),
    }
}

/// The admission of this control id, with what follows it.
fn admission(text: &str) -> Coming<'_> {
    match text.split_once(' ') {
        Some((id, rest)) => Coming::Admission(id, rest),
        None => Coming::Admission(text, ""),
    }
}

/// What was received is served, cut as this word says.
fn served(cut: &str) -> Option<Call<'static>> {
    match cut {
        "whole" => Some(Call::Serve(Cut::Nowhere)),
        "bytes" => Some(Call::Serve(Cut::AtEachByte)),
        "ends" => Some(Call::Serve(Cut::BehindEachEnd)),
        _ => None,
    }
}

/// The call of this word about a number.
fn numbered(word: &str, number: u64) -> Option<Call<'static>> {
    match word {
        "clock" => Some(Call::Set(Setting::Clock(number))),
        "bound" => Some(Call::Set(Setting::Bound(number))),
        _ => counted(word, u32::try_from(number).ok()?),
    }
}

/// The call of this word about a number of entries, of letters or of a destination.
fn counted(word: &str, number: u32) -> Option<Call<'static>> {
    match word {
        "events" => Some(Call::Set(Setting::Events(number))),
        "letters" => Some(Call::Come(Coming::Letters(number))),
        "take" => Some(Call::Take(number)),
        _ => None,
    }
}
