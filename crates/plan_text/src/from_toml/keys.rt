//! The keys of a table, and what is read at each.

ghost use Rattle.std.specs.List.{list_any};
ghost use Rattle.std.specs.Str.{bytes_eq};
ghost use Rattle.std.specs.Prelude.{◌≡◌, ℕ, List, map, filter, is_some, option_map, string_bytes, Some, None, IfOk, IfErr};
ghost use Rattle.toml.specs.Data.{get_member};
ghost use Rattle.toml.specs.View.{view, table_view, array_view};
ghost use Rattle.plan_text.specs.declared.fault.PlanFaultKind.TheVariants as name;
ghost use Rattle.plan_text.specs.Fault.{fault_at};
ghost use Rattle.plan_text.specs.inner.Fault.{IsStop, Gives};
ghost use Rattle.plan_text.specs.Keys.{key_path, member_path, unknown_key, no_key, only_one, table_at, list_within, required, or_else};
ghost use Rattle.plan_text.specs.Kinds.{text_within, number_within};

use crate::fault::{PlanFault, PlanFaultKind, Stop};
use crate::literal::Literal;
use std::alloc::{AllocError, Global};
use toml::value::Array;
use toml::{Table, Value};

/// The path to a key of the table at `at`.
pub(crate) fn key_path(alloc: Global, at: &str, key: &str) -> Result<String, AllocError>
    ensures { IfOk result (λ s. string_bytes s ≡ key_path at.now key.now) }
{
    if at.is_empty() {
        String::from_str(alloc, key)
    } else {
        format!(in alloc; "{at}.{key}")
    }
}

/// The path to a member of the list at `at`.
pub(crate) fn member_path(alloc: Global, at: &str, place: usize) -> Result<String, AllocError>
    ensures { IfOk result (λ s. string_bytes s ≡ member_path at.now place) }
{
    format!(in alloc; "{at}[{place}]")
}

/// The fault at the path that was written, if memory for it was there.
fn stop_at(name: PlanFaultKind, path: Result<String, AllocError>) -> Stop
    ensures { (p : List ℕ) → IfOk path (λ s. string_bytes s ≡ p) → IsStop result (fault_at name p) }
{
    match path {
        Ok(path) => Stop::Fault(PlanFault {
            name,
            path: Literal::of_string(path),
        }),
        Err(_) => Stop::NoMemory,
    }
}

/// A fault at a path.
pub(crate) fn fault_at(alloc: Global, name: PlanFaultKind, at: &str) -> Stop
    ensures { IsStop result (fault_at name at.now) }
{
    stop_at(name, String::from_str(alloc, at))
}

/// The table at a path.
#[derive(Drop)]
pub(crate) struct Keys<'a> {
    pub(crate) alloc: Global,
    pub(crate) at: &'a str,
    pub(crate) table: &'a Table,
}

impl<'a> Keys<'a> {
    /// The value at `at` as a table.
    pub(crate) fn of(alloc: Global, at: &'a str, value: &'a Value) -> Result<Keys<'a>, Stop>
        ensures table { Gives (λ k. table_view k.table.now) result (table_at at.now (view value.now)) }
        ensures at { IfOk result (λ k. k.at.now ≡ at.now) }
    {
        match value.as_table() {
            Some(table) => Ok(Keys { alloc, at, table }),
            None => Err(fault_at(alloc, PlanFaultKind::BadRange, at)),
        }
    }

    /// Refuses keys other than these.
    pub(crate) fn only(&self, known: &[&str]) -> Result<(), Stop>
        ensures { Gives (λ _. tt) result (no_key self.now.at.now
            (unknown_key (λ k. list_any (λ l. bytes_eq l.now k) known.now) (table_view self.now.table.now))) }
    {
        match unknown_key(self.table, known) {
            None => Ok(()),
            Some(name) => Err(self.key(name).fault(PlanFaultKind::UnknownKey)),
        }
    }

    /// Whether the table has a key.
    pub(crate) fn has(&self, name: &str) -> bool
        ensures { result ≡ is_some (get_member name.now (table_view self.now.table.now)) }
    {
        self.key(name).value.is_some()
    }

    /// The one key that the table has of these.
    pub(crate) fn one_of(&self, names: &[&'static str]) -> Result<&'static str, Stop>
        ensures { Gives (λ k. k.now) result (only_one self.now.at.now
            (filter (λ k. is_some (get_member k (table_view self.now.table.now))) (map (λ k. k.now) names.now))) }
    {
        let mut found = None;
        for name in names {
            if self.has(*name) {
                if found.is_some() {
                    return Err(fault_at(self.alloc, PlanFaultKind::BadRange, self.at));
                }
                found = Some(*name);
            }
        }
        match found {
            Some(name) => Ok(name),
            None => Err(fault_at(self.alloc, PlanFaultKind::Missing, self.at)),
        }
    }

    /// A key of this table, and its value where it has one.
    pub(crate) fn key<'b>(&self, name: &'b str) -> Key<'b>
    where
        'a: 'b,
        ensures at { result.at.now ≡ self.now.at.now }
        ensures name { result.name.now ≡ name.now }
        ensures value { option_map (λ v. view v.now) result.value ≡ get_member name.now (table_view self.now.table.now) }
    {
        Key {
            alloc: self.alloc,
            at: self.at,
            name,
            value: self.table.get(name),
        }
    }
}

/// A key of a table, and its value.
#[derive(Drop)]
pub(crate) struct Key<'a> {
    pub(crate) alloc: Global,
    pub(crate) at: &'a str,
    pub(crate) name: &'a str,
    pub(crate) value: Option<&'a Value>,
}

impl<'a> Key<'a> {
    ghost use Rattle.plan_text.specs.inner.AtKey.{at_key, key_at, value_at};

    /// The path to this key.
    pub(crate) fn path(&self) -> Result<String, AllocError>
        ensures { IfOk result (λ s. string_bytes s ≡ key_at self.now) }
    {
        key_path(self.alloc, self.at, self.name)
    }

    /// The fault at this key.
    pub(crate) fn fault(&self, name: PlanFaultKind) -> Stop
        ensures { IsStop result (fault_at name (key_at self.now)) }
    {
        stop_at(name, self.path())
    }

    /// The value at this key, which has to be there.
    pub(crate) fn required(&self) -> Result<&'a Value, Stop>
        ensures there { IfOk result (λ v. value_at self.now ≡ Some (view v.now)) }
        ensures missing { IfErr result (λ e. (value_at self.now ≡ None) × IsStop e (fault_at name.Missing (key_at self.now))) }
    {
        match self.value {
            Some(value) => Ok(value),
            None => Err(self.fault(PlanFaultKind::Missing)),
        }
    }

    /// A required text of `low` to `high` bytes.
    pub(crate) fn text(&self, low: usize, high: usize) -> Result<&'a str, Stop>
        ensures { Gives (λ s. s.now) result (at_key self.now (required (text_within low high))) }
    {
        let value = self.required()?;
        match value.as_str() {
            Some(text) if low <= text.len() && text.len() <= high => Ok(text),
            _ => Err(self.fault(PlanFaultKind::BadRange)),
        }
    }

    /// A number of `low` to `high`, `default` where the key is left out.
    pub(crate) fn number_or(&self, default: u32, low: u32, high: u32) -> Result<u32, Stop>
        ensures { Gives (λ n. n) result (at_key self.now (or_else default (number_within low high))) }
    {
        let Some(value) = self.value else {
            return Ok(default);
        };
        let Some(number) = value.as_integer() else {
            return Err(self.fault(PlanFaultKind::BadRange));
        };
        match u32::try_from(number) {
            Ok(number) if low <= number && number <= high => Ok(number),
            _ => Err(self.fault(PlanFaultKind::BadRange)),
        }
    }

    /// A required list of at most `most` members.
    #[tactic(auto, using(crate::proofs::Items::item_count_view))]
    pub(crate) fn list(&self, most: usize) -> Result<&'a Array, Stop>
        ensures { Gives (λ v. array_view v.now) result (at_key self.now (required (list_within most))) }
    {
        let value = self.required()?;
        match value.as_array() {
            Some(values) if values.len() <= most => Ok(values),
            Some(_) => Err(self.fault(PlanFaultKind::TooMany)),
            None => Err(self.fault(PlanFaultKind::BadRange)),
        }
    }
}

fn is_among(keys: &[&str], key: &str) -> bool
    ensures { result ≡ list_any (λ k. bytes_eq k.now key.now) keys.now }
{
    keys.iter().any(|k| *k == key)
}

/// The least key of a table, by its bytes, that isn't among `known`. A table goes through its keys in that order.
fn unknown_key<'a>(table: &'a Table, known: &[&str]) -> Option<&'a str>
    ensures { option_map (λ k. k.now) result ≡ unknown_key (λ k. list_any (λ l. bytes_eq l.now k) known.now) (table_view table.now) }
{
    for key in table.keys() {
        let key = key.as_str();
        if !is_among(known, key) {
            return Some(key);
        }
    }
    None
}
