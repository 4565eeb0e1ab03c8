//! Tests of single crates, each over the crates below it alone: the notes on a plan, commands and the answers to them, what the log
//! shows of bytes, of repeated records and where it has no room, what is shown of an answer, an HTTP request, the page and the JSON of a service, what the workers of a service decide without a socket, the
//! engine on one thread where memory is refused, and the items of linked rows.
#![tactic(auto)]

#[cfg(test)]
mod answers;
#[cfg(test)]
mod cancelling;
#[cfg(test)]
mod commands;
#[cfg(test)]
mod contents;
#[cfg(test)]
mod decisions;
#[cfg(test)]
mod dropped;
#[cfg(test)]
mod first_answers;
#[cfg(test)]
mod holds;
#[cfg(test)]
mod log_texts;
#[cfg(test)]
mod notes;
#[cfg(test)]
mod outbox;
#[cfg(test)]
mod pages;
#[cfg(test)]
mod refused;
#[cfg(test)]
mod repeats;
#[cfg(test)]
mod requests;
