//! The result of a pruning, as a text.

use std::alloc::{AllocError, Global};

/// Adds why messages are kept: of all, the last `keep` are to stay, and `live` is the first that is still to be delivered.
fn add_kept(text: &mut String, keep: u32, live: Option<u32>) -> Result<(), AllocError> {
    writeln!(text, "the last {keep} messages are kept")?;
    if let Some(number) = live {
        writeln!(
            text,
            "message {number} is not delivered yet: it is kept, and so are those after it"
        )?;
    }
    writeln!(text, "")
}

/// The result of a pruning by hand: the messages numbered below `before` are forgotten, of the rest the last `keep` were to
/// stay, and `live` is the first that is still to be delivered.
///
/// # Errors
///
/// Where memory is refused.
pub fn pruned_text(
    alloc: Global,
    before: u32,
    keep: u32,
    live: Option<u32>,
) -> Result<String, AllocError> {
    let mut text = String::new(alloc);
    writeln!(text, "messages below {before} are forgotten")?;
    add_kept(&mut text, keep, live)?;
    Ok(text)
}

/// The answer where a pruning would change nothing, and none is made: what may be forgotten is, and the last `keep` messages were to
/// stay, and `live` is the first that is still to be delivered.
///
/// # Errors
///
/// Where memory is refused.
pub fn unpruned_text(alloc: Global, keep: u32, live: Option<u32>) -> Result<String, AllocError> {
    let mut text = String::new(alloc);
    writeln!(text, "nothing to forget")?;
    add_kept(&mut text, keep, live)?;
    Ok(text)
}

/// The answer where a pruning by hand is not made since fewer than 100 are left.
///
/// # Errors
///
/// Where memory is refused.
pub fn few_prunings_text(alloc: Global) -> Result<String, AllocError> {
    format!(in alloc; "refused: fewer than 100 prunings are left, which arrivals may need\n\n")
}

/// The answer where a pruning by hand is not made since it would free little of a book of `events_max` entries.
///
/// # Errors
///
/// Where memory is refused.
pub fn frees_little_text(alloc: Global, events_max: u32) -> Result<String, AllocError> {
    let worth = events_max / 100;
    format!(in alloc;
        "refused: it would free fewer than {worth} entries and forget fewer than {worth} messages, a hundredth of the bound of entries\n\n"
    )
}
