//! The numbers of an opening.

/// The numbers at the front of an opening.
#[derive(Clone, Copy, Debug, PartialEq, Eq)]
pub struct Head {
    /// The most entries that the book may hold.
    pub events_max: u32,
    /// How many entries were folded.
    pub places: u64,
    /// How many messages were accepted.
    pub messages: u32,
    /// How many plans were deployed.
    pub deployments: u32,
    /// How many prunings were made.
    pub prunings: u32,
}
