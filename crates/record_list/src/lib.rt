//! Rows that are in up to 32 queues, side by side in the order of their numbers, linked from row to row by number.
#![tactic(auto)]

ghost use Rattle.std.specs.Prelude.{◌≡◌, ◌≢◌, ℕ, List};
ghost use Rattle.row_store.specs.declared.Row.{Row};
ghost use Rattle.row_store.specs.Rows.{row_numbers, queue_of, item_at};
ghost use Rattle.row_store.specs.inner.Rows.{unlinked};

mod links;
mod record_list;
mod row_head;

pub use links::{Links, Node};
pub use record_list::RecordList;
pub use row_head::{Link, Place, RowHead};

/// The laws of links: what a row that leaves one queue leaves as it was.
pub fn link_rules<T>()
    ensures other_queues { (rows : List (Row T)) (number d e : ℕ) → e ≢ d → queue_of e (unlinked number d rows) ≡ queue_of e rows }
    ensures items { (rows : List (Row T)) (number d other : ℕ) → item_at other (unlinked number d rows) ≡ item_at other rows }
    ensures all_rows { (rows : List (Row T)) (number d : ℕ) → row_numbers (unlinked number d rows) ≡ row_numbers rows }
{}
