//! Where the words of a destination's answers are shown.

/// Where the words of a destination's answers are shown. They may name a patient.
#[derive(Clone, Copy, Debug, PartialEq, Eq)]
pub enum AnswerText {
    /// Nowhere: they are not looked for.
    Nowhere,
    /// In the answers to commands.
    Commands,
    /// In the answers to commands and in the log.
    Log,
}
