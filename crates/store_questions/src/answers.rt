//! The answers.

use crate::lookup::{destination_named, failures, found, numbers_meant, queued};
use book_core::{Book, BookRows};
use book_lock::Found;
use engine_report::statistics_text;
use fixed_numbers::DEPLOYMENTS_MAX;
use hex::encode;
use log_text::Escaped;
use plan_text::Plan;
use service_answers::{
    Listed, ListedFailure, Utc, contents_text, document_text, elsewhere_text, failed_text,
    found_text, message_text, waiting_text,
};
use service_commands::{Command, Refused};
use service_store::StoppedBook;
use sha2::{Digest, Sha256};
use std::alloc::{AllocError, Global};
use std::str;

/// The answer to `help`: the questions, a line each.
const HELP: &str = "\
status        counts of channels and destinations, the book, the store, and what is held
message N     where message N is
show N        the text of message N as it was received, a segment a line
show N NAME   the text of message N as it is or was sent to destination NAME
find ID       the numbers of the messages with this control id (MSH-10), as received or as the log shows it
waiting NAME  the first messages in the queue of destination NAME
failed NAME   the last messages that failed at destination NAME, newest first, and why
plan          the SHA-256 of the plan in force, and how many plans were deployed
plan text     the document of the plan in force
help          this list

";

/// Why a command is refused that is no question to a store.
const NOT_ANSWERED: &str =
    "the service isn't running, and nothing is changed here: 'help' lists the questions";

/// The answer to a question about a destination that the plan doesn't have.
fn no_destination_text(alloc: Global) -> Result<String, AllocError> {
    format!(in alloc; "{}", Refused("the plan has no destination of that name"))
}

/// The counts, the book, the store, and what is held.
fn status_text<B: BookRows>(alloc: Global, stopped: &StoppedBook<B>) -> Result<String, AllocError> {
    let book = &stopped.book;
    let mut text = statistics_text(alloc, book.plan(), book.counts())?;
    let (messages, first) = (book.message_count(), book.first_remembered());
    let remembered = messages.saturating_sub(first);
    writeln!(
        text,
        "book held {} owed {} of {} messages {messages} remembered {remembered}",
        book.held(),
        book.owed(),
        book.events_max()
    )?;
    writeln!(text, "store records {}", stopped.records)?;
    writeln!(text, "last moment {}", Utc(stopped.last_second))?;
    for name in &stopped.held {
        writeln!(text, "held {}", Escaped(name))?;
    }
    writeln!(text, "")?;
    Ok(text)
}

/// The text of a message as it was received.
fn shown<B: BookRows>(alloc: Global, book: &Book<B>, number: u32) -> Result<String, AllocError> {
    match book.message(number) {
        Some(letter) => contents_text(alloc, letter.raw().as_slice()),
        None => message_text(alloc, book.plan(), &found(book, number)?, &None),
    }
}

/// The text of a message for the destination of a name, as the steps of its route left it.
fn shown_at<B: BookRows>(
    alloc: Global,
    book: &Book<B>,
    number: u32,
    name: &[u8],
) -> Result<String, AllocError> {
    let Some(destination) = destination_named(book.plan(), name) else {
        return no_destination_text(alloc);
    };
    let Some(letter) = book.message(number) else {
        return message_text(alloc, book.plan(), &found(book, number)?, &None);
    };
    match letter.payload(destination) {
        Some(text) => contents_text(alloc, text.as_slice()),
        // The names of a plan are text.
        None => elsewhere_text(alloc, number, str::from_utf8(name).unwrap_or("")),
    }
}

/// What waits for the destination of a name.
fn waiting<B: BookRows>(
    alloc: Global,
    stopped: &StoppedBook<B>,
    name: &[u8],
) -> Result<String, AllocError> {
    let book = &stopped.book;
    let Some(destination) = destination_named(book.plan(), name) else {
        return no_destination_text(alloc);
    };
    let (fronts, all) = queued(book, destination)?;
    let mut listed = Vec::new(alloc);
    for front in fronts {
        let found = found(book, front.number)?;
        listed.push(Listed {
            front,
            found,
            note: None,
        })?;
    }
    let held = stopped.held.iter().find(|held| held.as_bytes() == name);
    let held = match held {
        Some(name) => Some(name.as_str()),
        None => None,
    };
    waiting_text(alloc, held, destination, &listed, all)
}

/// What failed at the destination of a name.
fn failed<B: BookRows>(alloc: Global, book: &Book<B>, name: &[u8]) -> Result<String, AllocError> {
    let Some(destination) = destination_named(book.plan(), name) else {
        return no_destination_text(alloc);
    };
    let (newest, remembered) = failures(alloc, book, destination)?;
    let mut listed = Vec::new(alloc);
    for failure in newest {
        let found = found(book, failure.number)?;
        listed.push(ListedFailure {
            failure,
            found,
            note: None,
        })?;
    }
    let all = book.counts().destination(destination).failed;
    failed_text(alloc, destination, &listed, remembered, all)
}

/// The SHA-256 of the plan in force, and how many plans were deployed and can be.
fn plan_summary(alloc: Global, plan: &Plan, deployments: u32) -> Result<String, AllocError> {
    let digest = encode(alloc, Sha256::digest(plan.document()))?;
    let left = DEPLOYMENTS_MAX.saturating_sub(deployments);
    format!(in alloc; "sha256 {digest}\ndeployments {deployments} left {left}\n\n")
}

/// The answer to a command, of the book of a store that no service uses. Nothing is changed; a command that would change something
/// is refused.
///
/// # Errors
///
/// Where memory is refused, or a text has more owners than can be counted.
pub fn answer<B: BookRows>(
    alloc: Global,
    stopped: &StoppedBook<B>,
    command: Command<&[u8]>,
) -> Result<String, AllocError> {
    let book = &stopped.book;
    let plan = book.plan();
    match command {
        Command::Status => status_text(alloc, stopped),
        Command::Message(number) => message_text(alloc, plan, &found(book, number)?, &None),
        Command::Show(number) => shown(alloc, book, number),
        Command::ShowAt(number, name) => shown_at(alloc, book, number, name),
        Command::Find(id) => found_text(alloc, &numbers_meant(alloc, book, id)?),
        Command::Waiting(name) => waiting(alloc, stopped, name),
        Command::Failed(name) => failed(alloc, book, name),
        Command::Plan => plan_summary(alloc, plan, book.deployments()),
        // A plan's document is UTF-8.
        Command::PlanText => document_text(alloc, str::from_utf8(plan.document()).unwrap_or("")),
        Command::Help => HELP.to_string(alloc),
        _ => format!(in alloc; "{}", Refused(NOT_ANSWERED)),
    }
}
