//! Questions to the book of a store while no service uses it: the commands that a service takes on its standard input, with the
//! answers that it would give. A command that would change something is refused, and no file is changed.
#![tactic(auto)]

mod answers;
mod lookup;
mod session;

pub use answers::answer;
pub use session::{AskError, ask};
