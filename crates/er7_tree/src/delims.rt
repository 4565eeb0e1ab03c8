//! The delimiters that a header declares. A value of them is made by reading a header and in no other way, so whoever holds
//! one knows that no two are the same and that none is a letter: an escape sequence can be distinguished from text.

ghost use Rattle.std.specs.Prelude.{IsTrue, true, ◌≡◌, ◌==◌, ◌≤◌, ◌∷◌, IfSome, length};
ghost use Rattle.std.specs.List.{before_first, list_all};
ghost use Rattle.er7_tree.specs.Delims.{is_delimiter, has_other_use, all_distinct, are_delimiters, lacks};

use crate::pieces::cut;
use std::marker::Model;
use std::slice;

/// The most encoding characters that a header may declare.
const ENCODING_CHARACTERS_MAX: usize = 5;

/// The delimiters that a message declares (HL7 v2.5.1, 2.5.4). They are read from a header segment and made in no other way,
/// so each is a character that may be a delimiter, and no two are the same.
#[derive(Clone, Copy, Debug, PartialEq, Eq)]
pub struct Delims {
    field: u8,
    component: u8,
    repetition: u8,
    escape: u8,
    subcomponent: u8,
}

impl Model for Delims {
    ghost use Rattle.er7_tree.specs.Delims.{Delims};
    ghost use Rattle.er7_tree.specs.inner.Delims.{AreDelims};

    ghost Value = { Delims };

    ghost view = { λ d. record { field = d.field; component = d.component; repetition = d.repetition; escape = d.escape; subcomponent = d.subcomponent } };

    ghost invariant = { λ d. AreDelims (record { field = d.field; component = d.component; repetition = d.repetition; escape = d.escape; subcomponent = d.subcomponent }) };

    ghost inverse = { λ d. record { field = d.field; component = d.component; repetition = d.repetition; escape = d.escape; subcomponent = d.subcomponent } };
}

/// Whether the character belongs to the null value, a time zone or a decimal number.
fn has_other_use(byte: u8) -> bool
    ensures { result ≡ has_other_use byte }
{
    matches!(byte, b'"' | b'+' | b'.')
}

/// Whether a delimiter may be this character.
fn is_delimiter(byte: u8) -> bool
    ensures { result ≡ is_delimiter byte }
{
    byte.is_ascii_graphic() && !(byte.is_ascii_alphanumeric() || has_other_use(byte))
}

/// Whether the byte is none of these.
pub(crate) fn lacks(bytes: &[u8], byte: u8) -> bool
    ensures { result ≡ lacks byte bytes.now }
{
    bytes.iter().all(|other| *other != byte)
}

/// Whether no two of a few bytes are equal.
fn all_distinct(bytes: &[u8]) -> bool
    requires { length bytes.now ≤ ENCODING_CHARACTERS_MAX }
    ensures { result ≡ all_distinct bytes.now }
{
    match bytes {
        [] => true,
        [first, rest @ ..] => lacks(rest, *first) && all_distinct(rest),
    }
}

fn all_delimiters(bytes: &[u8]) -> bool
    ensures { result ≡ list_all is_delimiter bytes.now }
{
    bytes.iter().all(|byte| is_delimiter(*byte))
}

/// Whether these are the delimiters that the standard recommends (HL7 v2.5.1, 2.5.4). It is there for speed: nearly every message
/// declares them, and they need no further test.
fn are_recommended(field: u8, characters: &[u8]) -> bool
    ensures { IsTrue result → are_delimiters (field ∷ characters.now) ≡ true }
{
    field == b'|' && matches!(characters, [b'^', b'~', b'\\', b'&'])
}

/// Whether a field separator and encoding characters may be declared together.
fn may_be_declared(field: u8, characters: &[u8]) -> bool
    requires { length characters.now ≤ ENCODING_CHARACTERS_MAX }
    ensures { result ≡ are_delimiters (field ∷ characters.now) }
{
    if are_recommended(field, characters) {
        return true;
    }
    is_delimiter(field)
        && all_delimiters(characters)
        && lacks(characters, field)
        && all_distinct(characters)
}

/// The encoding characters, which are the bytes before the first field separator.
///
/// Nearly every header declares four. Where the fifth byte is the separator, it is found without a search, which saves some 50
/// instructions.
#[inline]
fn characters_of(rest: &[u8], field: u8) -> &[u8]
    ensures { result.now ≡ before_first (λ b. b == field) rest.now }
{
    if let [a, b, c, d, end, ..] = rest {
        let four = *a != field && *b != field && *c != field && *d != field;
        if four && *end == field {
            return &rest[..4];
        }
    }
    cut(rest, field).0
}

impl Delims {
    ghost use Rattle.er7_tree.specs.Delims.{delims_of};
    ghost use Rattle.er7_tree.specs.inner.Delims.{AreDelims};
    ghost use Rattle.std.specs.Prelude.{[]};

    /// What a header segment declares: MSH-1 is its fourth byte, and MSH-2 reaches to the next field separator or to the
    /// segment's end (HL7 v2.5.1, 2.15.9.1 and 2.15.9.2). None where it declares too few or too many characters, one that
    /// may be no delimiter, or one twice.
    pub fn of_header(header: &[u8]) -> Option<Delims>
        ensures { result ≡ delims_of header.now }
    {
        let [_, _, _, field, rest @ ..] = header else {
            return None;
        };
        let characters = characters_of(rest, *field);
        let [component, repetition, escape, subcomponent, extra @ ..] = characters else {
            return None;
        };
        if extra.len() > 1 || !may_be_declared(*field, characters) {
            return None;
        }
        Some(Delims {
            field: *field,
            component: *component,
            repetition: *repetition,
            escape: *escape,
            subcomponent: *subcomponent,
        })
    }

    /// The field separator, MSH-1, recommended as `|`.
    pub fn field(self) -> u8
        ensures { result ≡ self.field }
    {
        self.field
    }

    /// The field separator as a text of one byte, the raw MSH-1.
    pub(crate) fn field_text(&self) -> &[u8]
        ensures { result.now ≡ self.now.field ∷ [] }
    {
        slice::from_ref(&self.field)
    }

    /// The component separator, the first encoding character of MSH-2, recommended as `^`.
    pub fn component(self) -> u8
        ensures { result ≡ self.component }
    {
        self.component
    }

    /// The repetition separator, the second encoding character, recommended as `~`.
    pub fn repetition(self) -> u8
        ensures { result ≡ self.repetition }
    {
        self.repetition
    }

    /// The escape character, the third encoding character, recommended as `\`.
    pub fn escape(self) -> u8
        ensures value { result ≡ self.escape }
        ensures declared { AreDelims self }
    {
        self.escape
    }

    /// The subcomponent separator, the fourth encoding character, recommended as `&`.
    pub fn subcomponent(self) -> u8
        ensures { result ≡ self.subcomponent }
    {
        self.subcomponent
    }
}
