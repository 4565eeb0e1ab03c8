//! What is said of a plan beside its specified lines: notes that explain a fault, warnings of what a plan that can be read is
//! unlikely to mean, and a table of which messages go where.
#![tactic(auto)]

mod address;
mod explain;
mod flaws;
mod found;
mod keys;
mod line;
mod lines;
mod misfit;
mod nearest;
mod path_notes;
mod plan_warnings;
mod position;
mod room;
mod route_table;
mod shown;
mod spot;
mod tables;
mod value_notes;

pub use explain::{fault_notes, file_note, listen_note, long_file_note};
pub use line::Line;
pub use plan_warnings::warnings;
pub use room::{held_back_notes, room_notes};
pub use route_table::plan_table;
pub use shown::ShownFault;
