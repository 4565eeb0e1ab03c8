//! Values of a document in words.

use crate::shown::Quoted;
use std::fmt;
use toml::Value;

/// What a value is, in words: numbers and texts as they are written, lists by how many members they have.
#[derive(Clone, Copy)]
pub(crate) struct Found<'a>(pub(crate) &'a Value);

impl fmt::Display for Found<'_> {
    fn fmt<W: fmt::Write>(&self, f: &mut fmt::Formatter<W>) -> fmt::Result {
        let Found(value) = self;
        match value {
            Value::String(text) => {
                let (shown, bytes) = (Quoted(text.as_str()), text.len());
                write!(f, "the text {shown} of {bytes} bytes")
            }
            Value::Integer(number) => write!(f, "the number {number}"),
            Value::Float(_) => f.write_str("a number with a point"),
            Value::Boolean(truth) => write!(f, "{truth}"),
            Value::Datetime(_) => f.write_str("a date or a time"),
            Value::Array(members) => {
                let count = members.len();
                write!(f, "a list of {count} members")
            }
            Value::Table(_) => f.write_str("a table"),
        }
    }
}

/// Words one behind the other, with commas between them.
#[derive(Clone, Copy)]
pub(crate) struct Listed<'a>(pub(crate) &'a [&'a str]);

impl fmt::Display for Listed<'_> {
    fn fmt<W: fmt::Write>(&self, f: &mut fmt::Formatter<W>) -> fmt::Result {
        let Listed(words) = self;
        for (place, word) in words.iter().enumerate() {
            if place > 0 {
                f.write_str(", ")?;
            }
            f.write_str(*word)?;
        }
        Ok(())
    }
}

/// The texts, each between quotation marks, with commas between them.
#[derive(Clone, Copy)]
pub(crate) struct AllQuoted<'a>(pub(crate) &'a [&'a str]);

impl fmt::Display for AllQuoted<'_> {
    fn fmt<W: fmt::Write>(&self, f: &mut fmt::Formatter<W>) -> fmt::Result {
        let AllQuoted(texts) = self;
        for (place, text) in texts.iter().enumerate() {
            if place > 0 {
                f.write_str(", ")?;
            }
            write!(f, "{}", Quoted(*text))?;
        }
        Ok(())
    }
}
