//! How answers are written.

use crate::no_memory;
use anyhow::Result;
use book_core::{Front, Job, NotBooked, Receipt};
use event_log::{CancelRefusal, DeployRefusal, PruneRefusal, TakeRefusal};
use play_script::shown;
use std::alloc::{AllocError, Global};

/// The answer to an arrival.
///
/// # Errors
///
/// Where memory is refused.
pub fn arrived(alloc: Global, answer: Result<Receipt, NotBooked>) -> Result<String, AllocError> {
    match answer {
        Ok(receipt) => format!(in alloc; "entry {}, {:?}", receipt.entry, receipt.told),
        Err(NotBooked::NoMemory) => no_memory(alloc),
        Err(refusal) => format!(in alloc; "{refusal:?}"),
    }
}

/// A job.
fn job_shown(alloc: Global, job: &Job) -> Result<String, AllocError> {
    let ticket = job.ticket;
    let id = shown(alloc, job.control_id.as_slice())?;
    let payload = shown(alloc, job.payload.as_slice())?;
    format!(in alloc;
        "message {} to {}, attempt {}, control id {id}, answered {}, {payload}",
        ticket.number, ticket.destination, ticket.attempt, job.ack
    )
}

/// The answer to a take.
///
/// # Errors
///
/// Where memory is refused.
pub fn taken(alloc: Global, answer: Result<Job, TakeRefusal>) -> Result<String, AllocError> {
    match answer {
        Ok(job) => job_shown(alloc, &job),
        Err(TakeRefusal::NoMemory) => no_memory(alloc),
        Err(refusal) => format!(in alloc; "{refusal:?}"),
    }
}

/// The answer to a cancellation.
///
/// # Errors
///
/// Where memory is refused.
pub fn cancelled(alloc: Global, answer: Result<u32, CancelRefusal>) -> Result<String, AllocError> {
    match answer {
        Ok(mask) => format!(in alloc; "mask {mask}"),
        Err(CancelRefusal::NoMemory) => no_memory(alloc),
        Err(refusal) => format!(in alloc; "{refusal:?}"),
    }
}

/// The answer to a deployment.
///
/// # Errors
///
/// Where memory is refused.
pub fn deployed(alloc: Global, answer: Result<(), DeployRefusal>) -> Result<String, AllocError> {
    match answer {
        Ok(()) => String::from_str(alloc, "ok"),
        Err(DeployRefusal::NoMemory) => no_memory(alloc),
        Err(refusal) => format!(in alloc; "{refusal:?}"),
    }
}

/// The answer to a pruning.
///
/// # Errors
///
/// Where memory is refused.
pub fn pruned(alloc: Global, answer: Result<(), PruneRefusal>) -> Result<String, AllocError> {
    match answer {
        Ok(()) => String::from_str(alloc, "ok"),
        Err(PruneRefusal::NoMemory) => no_memory(alloc),
        Err(refusal) => format!(in alloc; "{refusal:?}"),
    }
}

/// The messages of a queue.
///
/// # Errors
///
/// Where memory is refused.
pub fn fronts(alloc: Global, answer: Result<Vec<Front>, AllocError>) -> Result<String, AllocError> {
    let Ok(found) = answer else {
        return no_memory(alloc);
    };
    let mut line = format!(in alloc; "{} found:", found.len())?;
    for front in found.iter() {
        line = format!(in alloc; "{line} {} {:?}", front.number, front.state)?;
    }
    Ok(line)
}

/// The numbers of messages.
///
/// # Errors
///
/// Where memory is refused.
pub fn numbers(alloc: Global, answer: Result<Vec<u32>, AllocError>) -> Result<String, AllocError> {
    let Ok(found) = answer else {
        return no_memory(alloc);
    };
    let mut line = format!(in alloc; "{} found:", found.len())?;
    for number in found.iter() {
        line = format!(in alloc; "{line} {number}")?;
    }
    Ok(line)
}
