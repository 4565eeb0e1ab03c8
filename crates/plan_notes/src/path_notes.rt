//! Notes on paths to pieces of messages.

use crate::flaws::{PathFlaw, level_of};
use crate::lines::Lines;
use crate::shown::Quoted;
use crate::spot::Spot;
use er7_tree::Path;
use std::alloc::AllocError;
use toml::Value;

/// The text that is a path, or the first of a list that is.
fn first_text(value: &Value) -> &str {
    match value {
        Value::String(text) => text.as_str(),
        Value::Array(members) => match members.first() {
            Some(Value::String(text)) => text.as_str(),
            _ => "",
        },
        _ => "",
    }
}

/// The second text of a list.
fn second_text(value: &Value) -> &str {
    match value.get(1usize) {
        Some(Value::String(text)) => text.as_str(),
        _ => "",
    }
}

/// Notes what is wrong with a text that should be a path, if anything is; true where it was noted.
fn add_flaw(notes: &mut Lines, path: &str) -> Result<bool, AllocError> {
    let Some(flaw) = PathFlaw::of(path) else {
        return Ok(false);
    };
    let text = format!(in notes.alloc; "{} is no path: {flaw}", Quoted(path))?;
    notes.add(&text)?;
    notes.add("a path is NAME[n]-F[r].C.S, as PID-3, PID-3[2] or PID-3.1")?;
    Ok(true)
}

/// Notes why there is no copy from one path to another.
fn add_copy_flaw(notes: &mut Lines, from: &str, to: &str) -> Result<(), AllocError> {
    let (Ok(source), Ok(target)) = (Path::parse(from), Path::parse(to)) else {
        return Ok(());
    };
    if source.is_fixed() || target.is_fixed() {
        return notes.add("MSH-1 and MSH-2 declare the delimiters; no step copies from or to them");
    }
    let (one, other) = (level_of(&source), level_of(&target));
    let text = format!(in notes.alloc;
        "{} is {one} and {} {other}; a copy keeps the level",
        Quoted(from),
        Quoted(to)
    )?;
    notes.add(&text)
}

/// Notes which path is wrong, and what is wrong with it.
pub(crate) fn add_bad_path(notes: &mut Lines, spot: &Spot<'_>) -> Result<(), AllocError> {
    let Some(value) = spot.value() else {
        return Ok(());
    };
    if spot.key == "remove" {
        let text = format!(in notes.alloc;
            "{} is no segment's name: three of A to Z and 0 to 9, the first a letter",
            Quoted(first_text(value))
        )?;
        return notes.add(&text);
    }
    if add_flaw(notes, first_text(value))? || spot.key != "copy" {
        return Ok(());
    }
    if add_flaw(notes, second_text(value))? {
        return Ok(());
    }
    add_copy_flaw(notes, first_text(value), second_text(value))
}

/// Notes what no step may write.
pub(crate) fn add_forbidden_write(notes: &mut Lines, spot: &Spot<'_>) -> Result<(), AllocError> {
    let Some(value) = spot.value() else {
        return Ok(());
    };
    let path = if spot.key == "copy" {
        second_text(value)
    } else {
        first_text(value)
    };
    let text = format!(in notes.alloc;
        "{} can't be written: no step writes MSH-1, MSH-2 or MSH-10, and none removes MSH",
        Quoted(path)
    )?;
    notes.add(&text)
}
