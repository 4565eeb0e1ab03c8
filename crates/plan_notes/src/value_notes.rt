//! Notes on keys and values: what was found, and what is wanted.

use crate::explain::{list_at, text_at};
use crate::found::{AllQuoted, Found, Listed};
use crate::keys::{key_words, list_words, member_words};
use crate::lines::Lines;
use crate::misfit::Misfit;
use crate::nearest::nearest;
use crate::shown::Quoted;
use crate::spot::Spot;
use crate::tables::TableKind;
use std::alloc::{AllocError, Global};
use toml::{Table, Value};

/// The keys that a step has beside `lookup` alone.
const LOOKUP_KEYS: [&str; 2] = ["table", "default"];

/// Whether a key of a step is one of those beside `lookup` alone.
fn is_lookup_key(kind: TableKind, key: &str) -> bool {
    kind == TableKind::Step && LOOKUP_KEYS.iter().any(|known| *known == key)
}

/// The keys of a kind of table that this table may have, as it is written.
fn allowed_keys(
    alloc: Global,
    kind: TableKind,
    table: &Table,
) -> Result<Vec<&'static str>, AllocError> {
    let mut keys = Vec::new(alloc);
    for key in kind.keys() {
        if table.get("lookup").is_some() || !is_lookup_key(kind, *key) {
            keys.push(*key)?;
        }
    }
    Ok(keys)
}

/// Notes a key that isn't known, the nearest to it where one is near, and all that may be there.
pub(crate) fn add_unknown_key(notes: &mut Lines, spot: &Spot<'_>) -> Result<(), AllocError> {
    let (alloc, kind, words) = (notes.alloc, spot.kind, spot.kind.words());
    if is_lookup_key(kind, spot.key) {
        let text = format!(in alloc; "{words} has {} beside \"lookup\" alone", Quoted(spot.key))?;
        notes.add(&text)?;
    }
    let keys = allowed_keys(alloc, kind, spot.table)?;
    let text = match nearest(alloc, spot.key, &keys)? {
        Some(near) => {
            format!(in alloc;
                "{words} has no key {} here; the nearest is {near}",
                Quoted(spot.key)
            )?
        }
        None => format!(in alloc; "{words} has no key {} here", Quoted(spot.key))?,
    };
    notes.add(&text)?;
    let text = format!(in alloc; "the keys of {words} here: {}", Listed(&keys))?;
    notes.add(&text)
}

/// Notes what a key that isn't there is for.
pub(crate) fn add_missing(notes: &mut Lines, spot: &Spot<'_>) -> Result<(), AllocError> {
    let (alloc, key) = (notes.alloc, spot.key);
    match (spot.value(), spot.kind.inner(key)) {
        (Some(Value::Table(table)), Some(kind)) => {
            let (words, keys) = (kind.words(), allowed_keys(alloc, kind, table)?);
            let text = format!(in alloc; "{words} has one of the keys {}", Listed(&keys))?;
            return notes.add(&text);
        }
        (Some(value), _) => {
            let text = format!(in alloc; "found {}", Found(value))?;
            notes.add(&text)?;
        }
        (None, _) => {}
    }
    if let Some(said) = key_words(spot.kind, key) {
        let (purpose, wanted, example) = (said.purpose, said.wanted, said.example);
        let text = format!(in alloc; "{key}: {purpose}; wanted: {wanted}, as {example}")?;
        notes.add(&text)?;
    }
    Ok(())
}

/// The keys of a condition or a step that a table has.
fn first_keys(
    alloc: Global,
    kind: TableKind,
    table: &Table,
) -> Result<Vec<&'static str>, AllocError> {
    let mut keys = Vec::new(alloc);
    for key in kind.keys() {
        if table.get(*key).is_some() && !is_lookup_key(kind, *key) {
            keys.push(*key)?;
        }
    }
    Ok(keys)
}

/// What is wanted at a spot, and an example.
fn wanted_at(spot: &Spot<'_>) -> Option<(&'static str, &'static str)> {
    if spot.member.is_some() {
        return member_words(spot.kind, spot.key);
    }
    let said = key_words(spot.kind, spot.key)?;
    Some((said.wanted, said.example))
}

/// The condition that takes what doesn't fit in the one at a key, and what it takes; none where there is no such one.
fn other_condition(key: &str, misfit: Misfit<'_>) -> Option<(&'static str, &'static str)> {
    let several = ("one_of", "several texts");
    match (key, misfit) {
        ("equals", Misfit::Second(Value::Array(_))) => Some(several),
        ("equals", Misfit::Whole(Value::Array(texts))) if texts.len() > 2 => Some(several),
        ("one_of", Misfit::Second(Value::String(_))) => Some(("equals", "one text")),
        _ => None,
    }
}

/// Notes the condition that takes what was found, where there is one.
fn add_other_condition(notes: &mut Lines, key: &str, misfit: Misfit<'_>) -> Result<(), AllocError> {
    let Some((name, takes)) = other_condition(key, misfit) else {
        return Ok(());
    };
    let Some(said) = key_words(TableKind::Condition, name) else {
        return Ok(());
    };
    let example = said.example;
    let text = format!(in notes.alloc; "{name} takes {takes}, as {example}")?;
    notes.add(&text)
}

/// Notes what doesn't fit, what is wanted, and the condition that takes what was found, where there is one.
fn add_misfit(notes: &mut Lines, spot: &Spot<'_>, misfit: Misfit<'_>) -> Result<(), AllocError> {
    let Some((wanted, example)) = wanted_at(spot) else {
        return Ok(());
    };
    let text = format!(in notes.alloc; "found {misfit}; wanted: {wanted}, as {example}")?;
    notes.add(&text)?;
    add_other_condition(notes, spot.key, misfit)
}

/// Notes that a table of this kind is where a list of them is wanted, or which of its keys exclude one another.
fn add_bad_table(
    notes: &mut Lines,
    spot: &Spot<'_>,
    kind: TableKind,
    table: &Table,
) -> Result<(), AllocError> {
    let alloc = notes.alloc;
    if spot.member.is_none()
        && let Some(wanted) = list_words(spot.kind, spot.key)
    {
        let text = format!(in alloc; "found a table; wanted: {wanted}")?;
        return notes.add(&text);
    }
    let (words, keys) = (kind.words(), first_keys(alloc, kind, table)?);
    let text = format!(in alloc; "found the keys {}; {words} has one of them", Listed(&keys))?;
    notes.add(&text)
}

/// Notes what was found, and what is wanted.
pub(crate) fn add_bad_range(notes: &mut Lines, spot: &Spot<'_>) -> Result<(), AllocError> {
    let Some(value) = spot.value() else {
        return Ok(());
    };
    match (value, spot.kind.inner(spot.key)) {
        (Value::Table(table), Some(kind)) => add_bad_table(notes, spot, kind, table),
        _ => add_misfit(notes, spot, Misfit::of(spot, value)),
    }
}

/// Notes how many members there are, or that conditions are too deep.
pub(crate) fn add_too_many(notes: &mut Lines, spot: &Spot<'_>) -> Result<(), AllocError> {
    match spot.value() {
        Some(Value::Table(_)) => notes.add("conditions are at most 16 deep"),
        _ => add_bad_range(notes, spot),
    }
}

/// The names of the tables of the list at a key.
fn names_at<'a>(
    alloc: Global,
    table: &'a Table,
    list: &str,
    name: &str,
) -> Result<Vec<&'a str>, AllocError> {
    let mut names = Vec::new(alloc);
    for member in list_at(table, list) {
        if let Value::Table(table) = member {
            names.push(text_at(table, name).unwrap_or(""))?;
        }
    }
    Ok(names)
}

/// Notes a name that no destination has, and those that there are.
pub(crate) fn add_unknown_name(notes: &mut Lines, spot: &Spot<'_>) -> Result<(), AllocError> {
    let alloc = notes.alloc;
    let name = text_at(spot.table, spot.key).unwrap_or("");
    let names = names_at(alloc, spot.document, "destination", "name")?;
    if names.is_empty() {
        let text = format!(in alloc;
            "no destination is named {}; the plan has none",
            Quoted(name)
        )?;
        return notes.add(&text);
    }
    let text = format!(in alloc;
        "no destination is named {}; there are {}",
        Quoted(name),
        AllQuoted(&names)
    )?;
    notes.add(&text)
}

/// Where a name is first.
fn first_place(names: &[&str], name: &str) -> Option<usize> {
    for (place, other) in names.iter().enumerate() {
        if *other == name {
            return Some(place);
        }
    }
    None
}

/// Notes all names of a list.
fn add_all_names(notes: &mut Lines, names: &[&str]) -> Result<(), AllocError> {
    let text = format!(in notes.alloc; "all in their order: {}", AllQuoted(names))?;
    notes.add(&text)
}

/// Notes which of some names is the first, and all of them.
fn add_first_of(
    notes: &mut Lines,
    list: &str,
    does: &str,
    name: &str,
    names: &[&str],
) -> Result<(), AllocError> {
    if let Some(first) = first_place(names, name) {
        let text = format!(in notes.alloc; "{list}[{first}] {does} {} already", Quoted(name))?;
        notes.add(&text)?;
    }
    add_all_names(notes, names)
}

/// The lookup text of a pair.
fn lookup_text(pair: &Value) -> &str {
    match pair.as_array() {
        Some(texts) => match texts.first() {
            Some(Value::String(text)) => text.as_str(),
            _ => "",
        },
        None => "",
    }
}

/// Where a lookup text is in the pairs behind the first ones.
fn place_behind(pairs: &[Value], first: usize) -> Option<usize> {
    let text = lookup_text(pairs.get(first)?);
    for (place, pair) in pairs.iter().enumerate() {
        if place > first && lookup_text(pair) == text {
            return Some(place);
        }
    }
    None
}

/// Notes the first lookup text that occurs twice.
fn add_double_text(notes: &mut Lines, pairs: &[Value]) -> Result<(), AllocError> {
    for (first, pair) in pairs.iter().enumerate() {
        if let Some(second) = place_behind(pairs, first) {
            let text = Quoted(lookup_text(pair));
            let text = format!(in notes.alloc;
                "the text {text} is in table[{first}] and in table[{second}]"
            )?;
            return notes.add(&text);
        }
    }
    Ok(())
}

/// Notes what a name that occurs twice is the name of, and those that there are.
pub(crate) fn add_double_name(notes: &mut Lines, spot: &Spot<'_>) -> Result<(), AllocError> {
    let alloc = notes.alloc;
    let name = text_at(spot.table, spot.key).unwrap_or("");
    match (spot.kind, spot.owner) {
        (TableKind::Destination, _) => {
            let names = names_at(alloc, spot.document, "destination", "name")?;
            add_first_of(notes, "destination", "is named", name, &names)
        }
        (TableKind::Channel, _) => {
            let names = names_at(alloc, spot.document, "channel", "name")?;
            add_first_of(notes, "channel", "is named", name, &names)
        }
        (TableKind::Route, Some(owner)) => {
            let names = names_at(alloc, owner.table, "route", "to")?;
            add_first_of(notes, "route", "leads to", name, &names)
        }
        _ => add_double_text(notes, list_at(spot.table, spot.key)),
    }
}
