//! What was found where another value is wanted: a whole value, or the member of a list of two that doesn't fit.

use crate::found::Found;
use crate::spot::Spot;
use crate::tables::TableKind;
use std::fmt;
use toml::Value;

/// What the two members of a list have to be.
#[derive(Clone, Copy, Debug, PartialEq, Eq)]
enum PairForm {
    /// They are two texts.
    Texts,
    /// They are a text and a list of texts.
    TextAndTexts,
}

impl PairForm {
    /// The form of the value at a spot; none where it is no list of two.
    fn at(spot: &Spot<'_>) -> Option<PairForm> {
        match (spot.kind, spot.key, spot.member) {
            (TableKind::Condition, "equals" | "starts" | "contains", _)
            | (TableKind::Step, "set" | "copy", _)
            | (TableKind::Step, "table", Some(_)) => Some(PairForm::Texts),
            (TableKind::Condition, "one_of", _) => Some(PairForm::TextAndTexts),
            _ => None,
        }
    }
}

/// What doesn't fit where it is.
#[derive(Clone, Copy)]
pub(crate) enum Misfit<'a> {
    /// The value as a whole.
    Whole(&'a Value),
    /// The first of its two members.
    First(&'a Value),
    /// The second of its two members.
    Second(&'a Value),
    /// What is at this index of the second of its two members.
    Inside(usize, &'a Value),
}

/// What doesn't fit in the second member of a list, which has to be a list of texts.
fn misfit_of_texts(second: &Value) -> Misfit<'_> {
    let Value::Array(texts) = second else {
        return Misfit::Second(second);
    };
    for (place, text) in texts.iter().enumerate() {
        if text.as_str().is_none() {
            return Misfit::Inside(place, text);
        }
    }
    Misfit::Second(second)
}

impl<'a> Misfit<'a> {
    /// What doesn't fit in a value of two members.
    fn of_pair(
        form: PairForm,
        value: &'a Value,
        first: &'a Value,
        second: &'a Value,
    ) -> Misfit<'a> {
        if first.as_str().is_none() {
            return Misfit::First(first);
        }
        match form {
            PairForm::TextAndTexts => misfit_of_texts(second),
            PairForm::Texts if second.as_str().is_none() => Misfit::Second(second),
            PairForm::Texts => Misfit::Whole(value),
        }
    }

    /// What doesn't fit in the value at a spot.
    pub(crate) fn of(spot: &Spot<'_>, value: &'a Value) -> Misfit<'a> {
        let (Some(form), Value::Array(members)) = (PairForm::at(spot), value) else {
            return Misfit::Whole(value);
        };
        match members.as_slice() {
            [first, second] => Misfit::of_pair(form, value, first, second),
            _ => Misfit::Whole(value),
        }
    }
}

impl fmt::Display for Misfit<'_> {
    fn fmt<W: fmt::Write>(&self, f: &mut fmt::Formatter<W>) -> fmt::Result {
        match self {
            Misfit::Whole(value) => write!(f, "{}", Found(*value)),
            Misfit::First(member) => write!(f, "{} as the first member", Found(*member)),
            Misfit::Second(member) => write!(f, "{} as the second member", Found(*member)),
            Misfit::Inside(place, text) => {
                write!(f, "{} at index {place} of the second member", Found(*text))
            }
        }
    }
}
