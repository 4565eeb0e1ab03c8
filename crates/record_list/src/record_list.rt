//! The store of linked rows.

ghost use Rattle.std.specs.Prelude.{ℕ, ◌≡◌, ◌<◌, ◌≤◌, ◌+◌, ◌-◌, ◌^◌, ◌∷◌, ◌++◌, [], All, IfErr, OnOk, OnErr, OnSome, is_some, min, if◌then◌else◌, option_copied};
ghost use Rattle.std.specs.Borrow.{LendsSo, sem};
ghost use Rattle.std.specs.Option.{option_copied_mut};
ghost use Rattle.row_store.specs.declared.Row.{Row};
ghost use Rattle.row_store.specs.Rows.{item_at};
ghost use Rattle.row_store.specs.inner.Rows.{front_of, is_linked, unlinked, removed};

use crate::links::{Links, Node};
use crate::row_head::Place;
use row_store::{QUEUES, RowStore};
use std::alloc::{AllocFailed, Global};
use std::marker::Model;

/// The rows, each in a node that is linked in each queue that the row is in. The nodes lie side by side in the order of
/// their numbers, so a number leads to its node with no directory beside them. No call goes over the rows.
#[derive(Drop)]
pub struct RecordList<T: Drop> {
    links: Links<T>,
    alloc: Global,
}

impl<T: Drop> Model for RecordList<T> {
    ghost use Rattle.record_list.specs.inner.Chain.{rows_of};
    ghost use Rattle.record_list.specs.inner.LinkedRows.{LinkedRows};
    ghost use Rattle.record_list.specs.inner.Stands.{IsWhole};

    ghost Value = { LinkedRows T };

    ghost view = { λ s. record { rows = rows_of s.links.nodes.items; visits = s.links.visits } };

    ghost invariant = { λ s. IsWhole s.links };
}

impl<T: Drop> RecordList<T> {
    /// How many nodes the calls `front`, `unlink`, `push` and `remove` have gone to, but for those that were read to find
    /// the node of a number. It stays at its greatest value.
    pub fn visits(&self) -> u64
        ensures { result ≡ self.now.visits }
    {
        self.links.visits
    }
}

impl<T: Drop> RowStore<T> for RecordList<T> {
    ghost rows = { λ s. s.rows };

    ghost room = { λ _. 0 };

    fn make(alloc: Global) -> Self
        ensures rows { result.rows ≡ [] }
        ensures visits { result.visits ≡ 0 }
    {
        RecordList {
            links: Links::new(alloc),
            alloc,
        }
    }

    fn numbers_rise(&self) {
        let _links = &self.links;
    }

    fn push(&mut self, number: u32, item: T, mask: u32) -> Result<(), AllocFailed<T>>
        requires { All (λ row. row.number < number) self.old.rows }
        ensures ok { OnOk result (self.new.rows
            ≡ self.old.rows ++ record { number = number; item = item; mask = mask } ∷ []) }
        ensures err { OnErr result (self.new.rows ≡ self.old.rows) }
        ensures missing { OnErr result (◌≡◌ {A = ℕ} 0 0) }
        ensures item_returned { IfErr result (λ failed. failed.value ≡ item) }
        ensures visits { self.new.visits ≤ self.old.visits + 32 }
        ensures rises { self.old.visits ≤ self.new.visits }
        ensures unread { OnErr result (self.new.visits ≡ self.old.visits) }
    {
        let Ok(head) = self.links.last_head(self.alloc, number, mask) else {
            return Err(AllocFailed { value: item });
        };
        let node = Node { head, item };
        match self.links.add(node) {
            Ok(()) => {
                self.links.enter_all(Place { number }, mask);
                Ok(())
            }
            Err(node) => Err(AllocFailed {
                value: item_of(node),
            }),
        }
    }

    fn front(&mut self, d: u32) -> Option<u32>
        ensures first { result ≡ front_of d self.old.rows }
        ensures unchanged { self.new.rows ≡ self.old.rows }
        ensures visits { self.new.visits
            ≡ (if is_some result then min (self.old.visits + 1) (2 ^ 64 - 1) else self.old.visits) }
    {
        let links = &mut self.links;
        if d >= QUEUES {
            return None;
        }
        let at = links.heads[d as usize]?;
        links.visits = links.visits.saturating_add(1);
        Some(at.number)
    }

    fn get(&self, number: u32) -> Option<&T> {
        let index = self.links.index_of(number)?;
        Some(&self.links.nodes[index].item)
    }

    fn get_mut(&mut self, number: u32) -> Option<&mut T> {
        let index = self.links.index_of(number)?;
        let node = &mut self.links.nodes[index];
        Some(&mut node.item)
    }

    fn unlink(&mut self, number: u32, d: u32) -> bool
        ensures stood { result ≡ is_linked number d self.old.rows }
        ensures unlinked { self.new.rows ≡ unlinked number d self.old.rows }
        ensures visits { self.new.visits ≤ self.old.visits + 3 }
        ensures rises { self.old.visits ≤ self.new.visits }
    {
        let Some(_) = self.links.index_of(number) else {
            return false;
        };
        if d >= QUEUES {
            return false;
        }
        self.links.leave(d, Place { number })
    }

    fn remove(&mut self, number: u32) -> Option<T>
        ensures item { result ≡ item_at number self.old.rows }
        ensures removed { self.new.rows ≡ removed number self.old.rows }
        ensures visits { self.new.visits ≤ self.old.visits + 65 }
        ensures rises { self.old.visits ≤ self.new.visits }
    {
        let index = self.links.index_of(number)?;
        let node = self.links.take_out(index);
        Some(item_of(node))
    }

    fn len(&self) -> usize {
        self.links.nodes.len()
    }
}

/// The item of a node that is in no chain.
fn item_of<T>(node: Node<T>) -> T
    ensures { result ≡ node.item }
{
    let Node { head: _, item } = node;
    item
}
