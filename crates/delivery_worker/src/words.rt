//! Why attempts fail, in words for the log.

use crate::answers::Reply;
use hl7_head::AckCode;
use std::{fmt, io};

/// Why a link failed.
#[derive(Drop)]
pub enum Cause {
    /// No connection could be opened.
    NoConnection(io::Error),
    /// The system has no local port left for a connection.
    NoPort,
    /// Nothing was received for this many seconds.
    NoAnswer(u32),
    /// Nothing could be sent for this many seconds.
    NoProgress(u32),
    /// The destination closed the connection.
    Closed,
    /// The destination closed a new connection before a message was sent over it.
    ClosedAtOnce,
    /// The attempt lasted as many seconds as it may.
    TimeSpent(u32),
    /// As many receives were made as an attempt may make.
    ReceivesSpent,
    /// Delivering was halted.
    Halted,
    /// The connection failed otherwise.
    Broken(io::Error),
}

impl fmt::Display for Cause {
    fn fmt<W: fmt::Write>(&self, f: &mut fmt::Formatter<W>) -> fmt::Result {
        match self {
            Cause::NoConnection(error) => write!(f, "can't connect: {error}"),
            Cause::NoPort => f.write_str("can't connect: no local port is free"),
            Cause::NoAnswer(seconds) => write!(f, "no answer within {seconds} s"),
            Cause::NoProgress(seconds) => write!(f, "nothing could be sent for {seconds} s"),
            Cause::Closed => f.write_str("closed by the destination before an answer"),
            Cause::ClosedAtOnce => f.write_str(
                "can't connect: closed by the destination right after it was connected",
            ),
            Cause::TimeSpent(seconds) => write!(f, "attempt ended after {seconds} s"),
            Cause::ReceivesSpent => f.write_str("no answer in 1,000,000 receives"),
            Cause::Halted => f.write_str("delivering was halted"),
            Cause::Broken(error) => write!(f, "connection failed: {error}"),
        }
    }
}

/// The words for a code of table 0008.
fn code_words(code: AckCode) -> &'static str {
    match code {
        AckCode::AA => "answered AA",
        AckCode::AE => "answered AE",
        AckCode::AR => "answered AR",
        AckCode::CA => "answered CA",
        AckCode::CE => "answered CE",
        AckCode::CR => "answered CR",
    }
}

/// Why an attempt failed: by what the answers said, and else by why the link failed, if it did.
#[derive(Clone, Copy)]
pub struct Failure<'a> {
    pub reply: Reply,
    pub cause: Option<&'a Cause>,
}

impl fmt::Display for Failure<'_> {
    fn fmt<W: fmt::Write>(&self, f: &mut fmt::Formatter<W>) -> fmt::Result {
        match (self.reply, self.cause) {
            (Reply::Code(Some(code)), _) => f.write_str(code_words(code)),
            (Reply::Code(None), _) => f.write_str("answered with a code that table 0008 has not"),
            (Reply::OfOthers, _) => f.write_str("answer for another control id"),
            (Reply::NoAcknowledgment, _) => f.write_str("answer that is no acknowledgment"),
            (Reply::Nothing, Some(cause)) => write!(f, "{cause}"),
            (Reply::Nothing, None) => f.write_str("out of memory"),
        }
    }
}
