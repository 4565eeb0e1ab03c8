//! The nearest of the keys that are known.

use std::alloc::{AllocError, Global};
use strsim::normalized_levenshtein;

/// How similar two keys are, at least, that are near: 1 is the same, 0 is another in every character.
const SIMILAR_MIN: f64 = 0.6;

/// How many bytes at the beginning make two keys near where both have them.
const BEGINNING: usize = 3;

/// Whether two keys begin with the same three bytes.
fn begin_alike(one: &str, other: &str) -> bool {
    match (
        one.as_bytes().get(..BEGINNING),
        other.as_bytes().get(..BEGINNING),
    ) {
        (Some(one), Some(other)) => one == other,
        _ => false,
    }
}

/// The most similar of the keys that are near, the first of several; none where no key is.
pub(crate) fn nearest<'k>(
    alloc: Global,
    written: &str,
    keys: &[&'k str],
) -> Result<Option<&'k str>, AllocError> {
    let mut best = None;
    let mut most = 0.0;
    for key in keys {
        let similarity = normalized_levenshtein(alloc, written, *key)?;
        let is_near = similarity >= SIMILAR_MIN || begin_alike(written, *key);
        if is_near && similarity > most {
            best = Some(*key);
            most = similarity;
        }
    }
    Ok(best)
}
