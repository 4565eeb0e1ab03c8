//! What is wrong with a text that should be the path to a piece of a message.

use crate::shown::Quoted;
use er7_tree::{Part, Path, is_name};
use std::fmt;

/// The parts of a path `NAME[n]-F[r].C.S`, as a text writes them.
#[derive(Clone, Copy)]
struct Parts<'a> {
    segment: &'a str,
    occurrence: Option<&'a str>,
    field: Option<&'a str>,
    repetition: Option<&'a str>,
    component: Option<&'a str>,
    subcomponent: Option<&'a str>,
}

/// What is before the first such character, and what is behind it, where there is one.
fn cut(text: &str, at: char) -> (&str, Option<&str>) {
    match text.split_once(at) {
        Some((before, behind)) => (before, Some(behind)),
        None => (text, None),
    }
}

impl<'a> Parts<'a> {
    /// The parts behind the segment.
    fn with_field(self, text: &'a str) -> Parts<'a> {
        let (field, inner) = cut(text, '.');
        let (field, repetition) = cut(field, '[');
        let (component, subcomponent) = match inner {
            Some(inner) => {
                let (component, subcomponent) = cut(inner, '.');
                (Some(component), subcomponent)
            }
            None => (None, None),
        };
        Parts {
            field: Some(field),
            repetition,
            component,
            subcomponent,
            ..self
        }
    }

    /// The parts of a text.
    fn of(text: &'a str) -> Parts<'a> {
        let (head, tail) = cut(text, '-');
        let (segment, occurrence) = cut(head, '[');
        let parts = Parts {
            segment,
            occurrence,
            field: None,
            repetition: None,
            component: None,
            subcomponent: None,
        };
        match tail {
            Some(tail) => parts.with_field(tail),
            None => parts,
        }
    }
}

/// Whether a text is a number from 1 to 999 without leading zeros.
fn is_number(text: &str) -> bool {
    let digits = text.as_bytes();
    !digits.is_empty()
        && digits.len() <= 3
        && !digits.starts_with(b"0")
        && digits.iter().all(|digit| digit.is_ascii_digit())
}

/// Whether a text is such a number and a closing bracket.
fn is_closed_number(text: &str) -> bool {
    match text.strip_suffix(']') {
        Some(number) => is_number(number),
        None => false,
    }
}

/// What is wrong with a text that is no path.
#[derive(Clone, Copy, Debug, PartialEq, Eq)]
pub(crate) enum PathFlaw<'a> {
    /// The segment's name is none.
    Segment(&'a str),
    /// There is no field.
    NoField,
    /// A part, of this name, is no number.
    NoNumber(&'static str, &'a str),
    /// What is in brackets behind a part, of this name, is no number.
    NoIndex(&'static str, &'a str),
    /// MSH with a number, or a part of MSH-1 or MSH-2.
    Header,
}

/// The first number of a path that is none.
fn number_flaw(parts: Parts<'_>) -> Option<PathFlaw<'_>> {
    let numbers = [
        ("field", parts.field),
        ("component", parts.component),
        ("subcomponent", parts.subcomponent),
    ];
    for (part, text) in numbers {
        match text {
            Some(text) if !is_number(text) => return Some(PathFlaw::NoNumber(part, text)),
            _ => {}
        }
    }
    None
}

/// The first index of a path that is none.
fn index_flaw(parts: Parts<'_>) -> Option<PathFlaw<'_>> {
    let indexes = [("segment", parts.occurrence), ("field", parts.repetition)];
    for (part, text) in indexes {
        match text {
            Some(text) if !is_closed_number(text) => return Some(PathFlaw::NoIndex(part, text)),
            _ => {}
        }
    }
    None
}

impl<'a> PathFlaw<'a> {
    /// What is wrong with a text; none where it is a path.
    pub(crate) fn of(text: &'a str) -> Option<PathFlaw<'a>> {
        if Path::parse(text).is_ok() {
            return None;
        }
        let parts = Parts::of(text);
        if !is_name(parts.segment.as_bytes()) {
            return Some(PathFlaw::Segment(parts.segment));
        }
        if parts.field.is_none() {
            return Some(PathFlaw::NoField);
        }
        let flaw = number_flaw(parts).or(index_flaw(parts));
        Some(flaw.unwrap_or(PathFlaw::Header))
    }
}

impl fmt::Display for PathFlaw<'_> {
    fn fmt<W: fmt::Write>(&self, f: &mut fmt::Formatter<W>) -> fmt::Result {
        match self {
            PathFlaw::Segment(name) => {
                let name = Quoted(*name);
                write!(
                    f,
                    "its segment {name} is not three of A to Z and 0 to 9, the first a letter"
                )
            }
            PathFlaw::NoField => f.write_str("it names no field"),
            PathFlaw::NoNumber(part, text) => {
                let text = Quoted(*text);
                write!(
                    f,
                    "its {part} {text} is not a number from 1 to 999 without leading zeros"
                )
            }
            PathFlaw::NoIndex(part, text) => {
                let text = Quoted(*text);
                write!(
                    f,
                    "the index {text} of its {part} is not a number from 1 to 999 and a bracket"
                )
            }
            PathFlaw::Header => {
                f.write_str("there is one MSH, and MSH-1 and MSH-2 have no repetitions and parts")
            }
        }
    }
}

/// The level of a path in words.
pub(crate) fn level_of(path: &Path) -> &'static str {
    match path.part() {
        Part::Whole => "a field",
        Part::Repetition(_) => "a repetition",
        Part::Component(..) => "a component",
        Part::Subcomponent(..) => "a subcomponent",
    }
}
