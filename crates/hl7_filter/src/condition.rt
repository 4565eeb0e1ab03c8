ghost use Rattle.std.specs.Prelude.{◌≡◌, ◌↔◌, nat_le, IfOk, IsOk, IsTrue};
ghost use Rattle.std.specs.Str.Iter.{HasSubslice};
ghost use Rattle.std.specs.Cow.{cow_slice_items};
ghost use Rattle.std.specs.Bool.{Decides};
ghost use Rattle.hl7_filter.specs.Condition.{truth, all_true, any_true, occurs_in, is_one_of, most_levels, nesting};
ghost use Rattle.hl7_filter.specs.inner.Condition.{is_unescaped, compares_unescaped, all_compare_unescaped};
ghost use Rattle.er7_tree.specs.Path.{value};
ghost use Rattle.er7_tree.specs.Delims.{lacks};
ghost use Rattle.hl7_filter.specs.inner.View.{view, conditions_view};

use crate::text::Bytes;
use er7_tree::{Message, Path, is_vacant};
use memchr::{memchr, memmem};
use std::alloc::AllocError;
use std::borrow::CowSlice;

/// A condition on a message, of the values of its pieces or of other conditions. Two conditions are equal where they have
/// the same form, paths, texts and members.
#[derive(Drop)]
pub enum Cond {
    /// The value is this text.
    Equals(Path, Bytes),
    /// The value is one of these texts.
    OneOf(Path, Vec<Bytes>),
    /// The raw piece is neither empty nor the null value `""`.
    Exists(Path),
    /// The value begins with this text.
    Starts(Path, Bytes),
    /// The value contains this text.
    Contains(Path, Bytes),
    /// Each of these is true; of none, true.
    All(Vec<Cond>),
    /// One of these is true; of none, false.
    Any(Vec<Cond>),
    /// This is false.
    Not(Box<Cond>),
}

/// Whether the byte is none of these.
fn lacks(bytes: &[u8], byte: u8) -> bool
    ensures { result ≡ lacks byte bytes.now }
{
    memchr(byte, bytes).is_none()
}

/// The value of a piece, the bytes that its escape sequences mean (HL7 v2.5.1, 2.7). It is copied only where the piece
/// holds an escape character.
///
/// # Errors
///
/// Where the memory for that copy is refused.
pub fn value<'m>(message: &'m Message, path: &Path) -> Result<CowSlice<'m, u8>, AllocError>
    ensures value { IfOk result (λ v. cow_slice_items v ≡ value message.now path.now) }
    ensures unescaped { IsTrue (is_unescaped message.now path.now) → IsOk result }
{
    let raw = message.get_raw(path);
    if lacks(raw, message.delims().escape()) {
        return Ok(CowSlice::Borrowed(raw));
    }
    Ok(CowSlice::Owned(message.get(path)?))
}

/// Whether the value contains the text.
fn stands_in(text: &[u8], value: &[u8]) -> bool
    ensures computed { result ≡ occurs_in text.now value.now }
    ensures relation { IsTrue result ↔ HasSubslice value.now text.now }
{
    memmem::find(value, text).is_some()
}

/// Whether the value is one of the texts.
fn is_one_of(texts: &[Bytes], value: &[u8]) -> bool
    ensures { result ≡ is_one_of texts.now value.now }
{
    texts.iter().any(|text| value == text.as_slice())
}

#[cycle(holds)]
fn all_hold(conds: &[Cond], message: &Message) -> Result<bool, AllocError>
    ensures value { IfOk result (λ b. b ≡ all_true message.now (conditions_view conds.now)) }
    ensures unescaped { IsTrue (all_compare_unescaped message.now (conditions_view conds.now)) → IsOk result }
{
    for cond in conds {
        if !cond.holds(message)? {
            return Ok(false);
        }
    }
    Ok(true)
}

#[cycle(holds)]
fn any_holds(conds: &[Cond], message: &Message) -> Result<bool, AllocError>
    ensures value { IfOk result (λ b. b ≡ any_true message.now (conditions_view conds.now)) }
    ensures unescaped { IsTrue (all_compare_unescaped message.now (conditions_view conds.now)) → IsOk result }
{
    for cond in conds {
        if cond.holds(message)? {
            return Ok(true);
        }
    }
    Ok(false)
}

impl Cond {
    /// Whether the condition is true of the message. The piece at a path has as its value the bytes that its escape
    /// sequences mean; a piece that isn't there has the empty value. Values and texts are compared as bytes.
    ///
    /// # Errors
    ///
    /// Where memory is refused, which only a value with escape sequences requires.
    #[cycle(holds)]
    pub fn holds(&self, message: &Message) -> Result<bool, AllocError>
        ensures value { IfOk result (λ b. b ≡ truth message.now (view self.now)) }

        // Only a value that has to be read from escape sequences requests memory.
        ensures unescaped { IsTrue (compares_unescaped message.now (view self.now)) → IsOk result }
    {
        match self {
            Cond::Equals(path, text) => Ok(value(message, path)?.as_slice() == text.as_slice()),
            Cond::OneOf(path, texts) => Ok(is_one_of(texts, &value(message, path)?)),
            Cond::Exists(path) => Ok(!is_vacant(message.get_raw(path))),
            Cond::Starts(path, text) => Ok(value(message, path)?.starts_with(text.as_slice())),
            Cond::Contains(path, text) => Ok(stands_in(text.as_slice(), &value(message, path)?)),
            Cond::All(conds) => all_hold(conds, message),
            Cond::Any(conds) => any_holds(conds, message),
            Cond::Not(cond) => Ok(!cond.holds(message)?),
        }
    }
}

#[cycle(levels)]
fn all_within(conds: &[Cond], levels_max: u32) -> bool
    ensures { result ≡ nat_le (most_levels (conditions_view conds.now)) levels_max }
{
    for cond in conds {
        if !cond.is_within(levels_max) {
            return false;
        }
    }
    true
}

impl Cond {
    /// Whether the condition has at most this many levels. One that holds no other condition has one level, and one that
    /// holds others has one more than the deepest of them.
    #[cycle(levels)]
    pub fn is_within(&self, levels_max: u32) -> bool
        ensures { result ≡ nat_le (nesting (view self.now)) levels_max }
    {
        if levels_max == 0 {
            return false;
        }
        match self {
            Cond::All(conds) | Cond::Any(conds) => all_within(conds, levels_max - 1),
            Cond::Not(cond) => cond.is_within(levels_max - 1),
            _ => true,
        }
    }
}

#[cycle(same)]
fn same_conds(conds: &[Cond], others: &[Cond]) -> bool
    ensures { Decides result (conditions_view conds.now ≡ conditions_view others.now) }
{
    let mut rest = others;
    for cond in conds {
        let [other, after @ ..] = rest else {
            return false;
        };
        if !cond.same(other) {
            return false;
        }
        rest = after;
    }
    rest.is_empty()
}

impl Cond {
    /// Whether two conditions say the same.
    #[cycle(same)]
    fn same(&self, other: &Cond) -> bool
        ensures { Decides result (view self.now ≡ view other.now) }
    {
        match (self, other) {
            (Cond::Equals(path, text), Cond::Equals(place, bytes)) => path == place
                && text == bytes,
            (Cond::OneOf(path, texts), Cond::OneOf(place, others)) => path == place
                && texts == others,
            (Cond::Exists(path), Cond::Exists(place)) => path == place,
            (Cond::Starts(path, text), Cond::Starts(place, bytes)) => path == place
                && text == bytes,
            (Cond::Contains(path, text), Cond::Contains(place, bytes)) => path == place
                && text == bytes,
            (Cond::All(conds), Cond::All(others)) => same_conds(conds, others),
            (Cond::Any(conds), Cond::Any(others)) => same_conds(conds, others),
            (Cond::Not(cond), Cond::Not(other)) => cond.same(other),
            _ => false,
        }
    }
}

impl PartialEq for Cond {
    ghost use Rattle.hl7_filter.specs.inner.View.{same, same_laws};

    ghost eq = { same };

    ghost laws = { same_laws };

    fn eq(&self, other: &Cond) -> bool {
        self.same(other)
    }
}

impl Eq for Cond {
    ghost use Rattle.hl7_filter.specs.inner.View.{same_equiv};

    ghost laws = { same_equiv };
}
