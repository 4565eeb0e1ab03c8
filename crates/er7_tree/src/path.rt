//! Paths to pieces of a message, of the form `NAME[n]-F[r].C.S`.

ghost use Rattle.std.specs.Prelude.{◌≡◌, ◌∷◌, [], IfSome, IsTrue, ◌↔◌, None, Some, true, MatchOption, nat_le, unwrap_or};
ghost use Rattle.std.specs.Bool.{then_some};
ghost use Rattle.std.specs.List.{list_all};
ghost use Rattle.std.specs.Option.{ok_or};
ghost use Rattle.er7_tree.specs.Path.{is_number, part_numbers, is_fixed, is_path, same_level, checked_path, number, closed_number, indexed, inner_part, part_from, field_of, path_of};
ghost use Rattle.er7_tree.specs.Pieces.{split};
ghost use Rattle.er7_tree.specs.inner.Pieces.{pieces_left};

use crate::pieces::cut;
use crate::refusal::Refusal;
use crate::segments::{is_header, is_name};
use fixed_numbers::PATH_NUMBER_MAX;
use std::marker::Model;

/// A field with all its repetitions, or a part of a field. Numbers count from 1 to 999.
#[derive(Clone, Copy, Debug, PartialEq, Eq)]
pub enum Part {
    /// The whole field.
    Whole,
    /// A repetition.
    Repetition(u32),
    /// A repetition's component.
    Component(u32, u32),
    /// A repetition's component's subcomponent.
    Subcomponent(u32, u32, u32),
}

/// The position of a piece in a message: which segment of a name, its field, and the part of the field.
///
/// `PID-5` is a field, `PID-5[2]` its second repetition, `PID-5.1` the first component of its first repetition, and
/// `OBX[3]-5.1.2` a subcomponent in the third OBX. Paths are equal where they name the same piece, as `PID[1]-3` and
/// `PID-3` do.
#[derive(Clone, Copy, Debug, PartialEq, Eq)]
pub struct Path {
    segment: [u8; 3],
    occurrence: u32,
    field: u32,
    part: Part,
}

impl Model for Path {
    ghost use Rattle.std.specs.Prelude.{◌≡◌, true};
    ghost use Rattle.er7_tree.specs.Path.{Place, is_path};

    ghost Value = { Place };

    ghost view = { λ p. record { segment = p.segment; occurrence = p.occurrence; field = p.field; part = p.part } };

    ghost invariant = { λ p. is_path (record { segment = p.segment; occurrence = p.occurrence; field = p.field; part = p.part }) ≡ true };

    ghost inverse = { λ p. record { segment = p.segment; occurrence = p.occurrence; field = p.field; part = p.part } };
}

/// The number that decimal digits write: 1 to 999, without leading zeros.
fn number(digits: &[u8]) -> Option<u32>
    ensures in_range { IfSome result (λ n. is_number n ≡ true) }
    ensures value { result ≡ number digits.now }
{
    if digits.starts_with(b"0") {
        return None;
    }
    let mut value = 0;
    for digit in digits {
        if !digit.is_ascii_digit() {
            return None;
        }
        value = 10 * value + u32::from(*digit - b'0');
        if value > PATH_NUMBER_MAX {
            return None;
        }
    }
    (value > 0).then_some(value)
}

/// The number before a closing bracket that ends the text.
fn closed_number(text: &[u8]) -> Option<u32>
    ensures in_range { IfSome result (λ n. is_number n ≡ true) }
    ensures value { result ≡ closed_number (split 93 text.now) }
{
    let (digits, rest) = cut(text, b']');
    if !rest?.is_empty() {
        return None;
    }
    number(digits)
}

/// A text, and the number in brackets behind it, where there is one.
fn indexed(text: &[u8]) -> Option<(&[u8], Option<u32>)>
    ensures in_range { IfSome result (λ read. is_number (unwrap_or read.1 1) ≡ true) }
    ensures value { MatchOption result (indexed (split 91 text.now) ≡ None) (λ read. indexed (split 91 text.now) ≡ Some (read.0.now, read.1)) }
{
    let (before, index) = cut(text, b'[');
    let Some(index) = index else {
        return Some((before, None));
    };
    let (index, more) = cut(index, b'[');
    if more.is_some() {
        return None;
    }
    let index = closed_number(index)?;
    Some((before, Some(index)))
}

/// A component or subcomponent of a repetition, as written behind a field's dot.
fn inner_part(repetition: u32, text: &[u8]) -> Option<Part>
    requires { is_number repetition ≡ true }
    ensures in_range { IfSome result (λ part. list_all is_number (part_numbers part) ≡ true) }
    ensures value { result ≡ inner_part repetition (split 46 text.now) }
{
    let (component, rest) = cut(text, b'.');
    let component = number(component)?;
    let Some(rest) = rest else {
        return Some(Part::Component(repetition, component));
    };
    let (subcomponent, more) = cut(rest, b'.');
    if more.is_some() {
        return None;
    }
    let subcomponent = number(subcomponent)?;
    Some(Part::Subcomponent(repetition, component, subcomponent))
}

/// The part that a repetition in brackets, and what follows a field's dot, name.
fn part_from(repetition: Option<u32>, parts: Option<&[u8]>) -> Option<Part>
    requires { is_number (unwrap_or repetition 1) ≡ true }
    ensures in_range { IfSome result (λ part. list_all is_number (part_numbers part) ≡ true) }
    ensures value { result ≡ part_from repetition (pieces_left 46 parts.entry) }
{
    match (repetition, parts) {
        (_, Some(parts)) => inner_part(repetition.unwrap_or(1), parts),
        (Some(repetition), None) => Some(Part::Repetition(repetition)),
        (None, None) => Some(Part::Whole),
    }
}

/// The field and the part that `F[r].C.S` names.
fn field_of(text: &[u8]) -> Option<(u32, Part)>
    ensures in_range { IfSome result (λ read. list_all is_number (read.0 ∷ part_numbers read.1) ≡ true) }
    ensures value { result ≡ field_of (split 46 text.now) }
{
    let (first, parts) = cut(text, b'.');
    let (field, repetition) = indexed(first)?;
    let field = number(field)?;
    let part = part_from(repetition, parts)?;
    Some((field, part))
}

/// The path, where its segment has a name and the rules for MSH are kept.
fn checked(name: &[u8], occurrence: u32, field: u32, part: Part) -> Option<Path>
    requires { list_all is_number (occurrence ∷ field ∷ part_numbers part) ≡ true }
    ensures { result ≡ checked_path (record { segment = name.now; occurrence = occurrence; field = field; part = part }) }
{
    let [a, b, c] = name else {
        return None;
    };
    if !is_name(name) {
        return None;
    }
    if is_header(name) && (occurrence != 1 || (field <= 2 && part != Part::Whole)) {
        return None;
    }
    Some(Path {
        segment: [*a, *b, *c],
        occurrence,
        field,
        part,
    })
}

/// The path that a text writes.
fn path_of(text: &[u8]) -> Option<Path>
    ensures { result ≡ path_of text.now }
{
    let (name, field) = cut(text, b'-');
    let (field, more) = cut(field?, b'-');
    if more.is_some() {
        return None;
    }
    let (name, occurrence) = indexed(name)?;
    let (field, part) = field_of(field)?;
    checked(name, occurrence.unwrap_or(1), field, part)
}

impl Path {
    /// The path that a text of the form `NAME[n]-F[r].C.S` names. `[n]`, `[r]`, `.C` and `.S` may be left
    /// out, but `.S` needs `.C`; numbers are 1 to 999 without leading zeros. There is one MSH, and its first two fields,
    /// which hold the delimiters, have no parts.
    ///
    /// # Errors
    ///
    /// `BadPath` for every other text.
    pub fn parse(text: &str) -> Result<Path, Refusal>
        ensures { result ≡ ok_or (path_of text.now) Refusal.BadPath }
    {
        path_of(text.as_bytes()).ok_or(Refusal::BadPath)
    }

    /// The segment's name, three characters.
    pub fn segment(&self) -> &[u8; 3]
        ensures { result.now ≡ self.now.segment }
    {
        &self.segment
    }

    /// Which segment of that name, from 1.
    pub fn occurrence(&self) -> u32
        ensures { result ≡ self.now.occurrence }
    {
        self.occurrence
    }

    /// Which field of the segment, from 1.
    pub fn field(&self) -> u32
        ensures { result ≡ self.now.field }
    {
        self.field
    }

    /// Which part of the field.
    pub fn part(&self) -> Part
        ensures { result ≡ self.now.part }
    {
        self.part
    }

    /// Whether this is MSH-1 or MSH-2, which declare the delimiters and take no edit.
    pub fn is_fixed(&self) -> bool
        ensures value { result ≡ is_fixed self.now }
        ensures path { is_path self.now ≡ true }
    {
        is_header(&self.segment) && self.field <= 2
    }

    /// Whether both paths name a whole field, or both a repetition, a component or a subcomponent.
    pub fn is_level_with(&self, other: &Path) -> bool
        ensures { result ≡ same_level self.now.part other.now.part }
    {
        matches!(
            (self.part, other.part),
            (Part::Whole, Part::Whole)
                | (Part::Repetition(..), Part::Repetition(..))
                | (Part::Component(..), Part::Component(..))
                | (Part::Subcomponent(..), Part::Subcomponent(..))
        )
    }
}
