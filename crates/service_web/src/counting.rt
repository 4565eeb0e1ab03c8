//! What a service counts beside its book.

use service_answers::Figures;

/// What a service counts beside its book, for an answer that shows it.
pub trait Counting {
    /// What is counted at this time.
    fn figures(&self) -> Figures;
}
