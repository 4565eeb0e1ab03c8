//! Where in its document a fault's path leads.

use crate::tables::TableKind;
use plan_text::{PlanFault, PlanFaultKind};
use toml::{Table, Value};

/// The most tables that a path is followed through: the document, a channel, a route, and 17 conditions, at which a filter
/// is too deep, are fewer.
pub(crate) const STEPS_MAX: u32 = 64;

/// The step from a table into one that it holds.
#[derive(Clone, Copy)]
pub(crate) struct PathStep<'a> {
    /// The step as the path writes it, as `channel[0]`.
    pub(crate) segment: &'a str,
    /// The key.
    pub(crate) key: &'a str,
    /// The index in the key's list, where it has one.
    pub(crate) member: Option<usize>,
    /// The kind of the table that the step leads to.
    pub(crate) kind: TableKind,
    /// The path behind the step and its dot.
    pub(crate) rest: &'a str,
}

/// The index that a text `N]` writes.
fn closed_index(text: &str) -> Option<usize> {
    text.strip_suffix(']')?.parse().ok()
}

/// A key, and the index behind it in brackets, where it has one; none where what is in brackets is no index.
fn indexed(segment: &str) -> Option<(&str, Option<usize>)> {
    match segment.split_once('[') {
        None => Some((segment, None)),
        Some((key, index)) => Some((key, Some(closed_index(index)?))),
    }
}

/// The step that a path takes out of a table of this kind; none where it ends there.
pub(crate) fn step_into(kind: TableKind, path: &str) -> Option<PathStep<'_>> {
    let (segment, rest) = path.split_once('.')?;
    let (key, member) = indexed(segment)?;
    Some(PathStep {
        segment,
        key,
        member,
        kind: kind.inner(key)?,
        rest,
    })
}

/// The value at a key of a table, or the member of the list there.
fn value_at<'a>(table: &'a Table, key: &str, member: Option<usize>) -> Option<&'a Value> {
    let value = table.get(key)?;
    match member {
        None => Some(value),
        Some(index) => value.as_array()?.as_slice().get(index),
    }
}

/// A channel or a destination of the document.
#[derive(Clone, Copy)]
pub(crate) struct Owner<'a> {
    /// The owner as a path writes it, as `channel[2]`.
    pub(crate) segment: &'a str,
    pub(crate) table: &'a Table,
}

/// Where a fault is.
#[derive(Clone, Copy)]
pub(crate) struct Spot<'a> {
    /// The whole document.
    pub(crate) document: &'a Table,
    /// The kind of the table that has the key.
    pub(crate) kind: TableKind,
    /// The table that has the key.
    pub(crate) table: &'a Table,
    /// The key.
    pub(crate) key: &'a str,
    /// The index in the key's list, where the path ends with one.
    pub(crate) member: Option<usize>,
    /// The channel or the destination that it is in.
    pub(crate) owner: Option<Owner<'a>>,
}

impl<'a> Spot<'a> {
    /// The value there.
    pub(crate) fn value(&self) -> Option<&'a Value> {
        value_at(self.table, self.key, self.member)
    }

    /// The spot one step further along the path, which is in `key`; none where the path ends here.
    fn further(&self, is_unknown: bool) -> Option<Spot<'a>> {
        // A key that isn't known may be written as a path is.
        if is_unknown && !self.kind.has_key(self.key) && self.table.get(self.key).is_some() {
            return None;
        }
        let step = step_into(self.kind, self.key)?;
        let table = value_at(self.table, step.key, step.member)?.as_table()?;
        let owner = self.owner.or(Some(Owner {
            segment: step.segment,
            table,
        }));
        Some(Spot {
            document: self.document,
            kind: step.kind,
            table,
            key: step.rest,
            member: None,
            owner,
        })
    }

    /// The spot whose key has its index apart.
    fn with_index(self) -> Spot<'a> {
        match indexed(self.key) {
            Some((key, member)) => Spot {
                key,
                member,
                ..self
            },
            None => self,
        }
    }

    /// Where the fault of a document is.
    pub(crate) fn of(document: &'a Table, fault: &'a PlanFault) -> Spot<'a> {
        let is_unknown = fault.name == PlanFaultKind::UnknownKey;
        let mut spot = Spot {
            document,
            kind: TableKind::Document,
            table: document,
            key: fault.path.as_str(),
            member: None,
            owner: None,
        };
        for _ in 0..STEPS_MAX {
            let Some(next) = spot.further(is_unknown) else {
                break;
            };
            spot = next;
        }
        if is_unknown { spot } else { spot.with_index() }
    }
}
