//! Where the plan in force comes from.

use crate::time::Utc;
use fixed_numbers::DEPLOYMENTS_MAX;
use hex::encode;
use log_text::Escaped;
use plan_text::Plan;
use sha2::{Digest, Sha256};
use std::alloc::{AllocError, Global};

/// What a plan was read from.
#[derive(Clone, Copy, Debug, PartialEq, Eq)]
pub enum Origin<'a> {
    /// The file of this path, at the start or by the command `deploy`.
    File(&'a str),
    /// The store, at the start: the book refused the plan of the command line.
    Store,
}

/// Where the plan in force comes from, since when it is in force, in seconds since 1970, the SHA-256 of its document, and how many
/// deployments were made and are left.
///
/// # Errors
///
/// Where memory is refused.
pub fn origin_text(
    alloc: Global,
    plan: &Plan,
    origin: Origin<'_>,
    since: u64,
    deployments: u32,
) -> Result<String, AllocError> {
    let mut text = String::new(alloc);
    match origin {
        Origin::File(path) => writeln!(text, "path {}", Escaped(path))?,
        Origin::Store => writeln!(
            text,
            "path none: it is the store's, which the plan of the command line could not replace"
        )?,
    }
    let digest = encode(alloc, Sha256::digest(plan.document()))?;
    let left = DEPLOYMENTS_MAX.saturating_sub(deployments);
    writeln!(text, "in force since {}", Utc(since))?;
    writeln!(text, "sha256 {digest}")?;
    writeln!(text, "deployments {deployments} left {left}")?;
    writeln!(text, "")?;
    Ok(text)
}
