//! Pieces of a text between separators, found by `memchr` and counted from 1.

ghost use Rattle.std.specs.Prelude.{nat_le, ◌≡◌, ◌<◌, ◌==◌, ◌∷◌, [], length, IfSome, IfOk, MatchOption};
ghost use Rattle.std.specs.List.{before_first};
ghost use Rattle.er7_tree.specs.Edit.{has_in, put_in};
ghost use Rattle.er7_tree.specs.Path.{levels, part_of};
ghost use Rattle.er7_tree.specs.Pieces.{split, piece_at, put, is_vacant};

use crate::delims::Delims;
use crate::path::Part;
use fixed_numbers::QUOTATION_MARK;
use memchr::memchr;
use std::alloc::{AllocError, Global};

/// The text up to the first separator, and what follows that separator, where there is one.
pub(crate) fn cut(text: &[u8], separator: u8) -> (&[u8], Option<&[u8]>)
    ensures pieces { MatchOption result.1 (split separator text.now ≡ result.0.now ∷ [])
        (λ rest. split separator text.now ≡ result.0.now ∷ split separator rest.now) }
    ensures first { result.0.now ≡ before_first (λ b. b == separator) text.now }
    ensures shorter { IfSome result.1 (λ rest. length rest.now < length text.now) }
{
    match memchr(separator, text) {
        Some(at) => (&text[..at], Some(&text[at + 1..])),
        None => (text, None),
    }
}

/// The `n`th piece between separators, empty where there is none.
pub(crate) fn piece(text: &[u8], separator: u8, n: usize) -> &[u8]
    ensures { result.now ≡ piece_at n (split separator text.now) }
{
    let mut rest = text;
    for _ in 1..n {
        match cut(rest, separator) {
            (_, Some(after)) => rest = after,
            (_, None) => return &[],
        }
    }
    cut(rest, separator).0
}

/// Whether there are at least `n` pieces between separators.
pub(crate) fn has_piece(text: &[u8], separator: u8, n: usize) -> bool
    ensures { result ≡ nat_le n (length (split separator text.now)) }
{
    let mut rest = text;
    for _ in 1..n {
        match cut(rest, separator) {
            (_, Some(after)) => rest = after,
            (_, None) => return false,
        }
    }
    true
}

/// A part of a field.
pub(crate) fn part_of(delims: Delims, part: Part, field: &[u8]) -> &[u8]
    ensures { result.now ≡ part_of delims part field.now }
{
    match part {
        Part::Whole => field,
        Part::Repetition(r) => piece(field, delims.repetition(), r as usize),
        Part::Component(r, c) => {
            let repetition = piece(field, delims.repetition(), r as usize);
            piece(repetition, delims.component(), c as usize)
        }
        Part::Subcomponent(r, c, s) => {
            let repetition = piece(field, delims.repetition(), r as usize);
            let component = piece(repetition, delims.component(), c as usize);
            piece(component, delims.subcomponent(), s as usize)
        }
    }
}

/// The text with another `n`th piece, counted from 1; missing pieces up to it are added empty.
///
/// # Errors
///
/// Where memory is refused.
pub(crate) fn put(
    alloc: Global,
    text: &[u8],
    separator: u8,
    n: usize,
    new: &[u8],
) -> Result<Vec<u8>, AllocError>
    ensures { IfOk result (λ changed. changed.items ≡ put separator n (λ _. new.now) text.now) }
{
    let mut out = Vec::with_capacity(alloc, text.len() + new.len())?;
    let mut rest = Some(text);
    for _ in 1..n {
        if let Some(text) = rest {
            let (piece, after) = cut(text, separator);
            out.extend_from_slice(piece)?;
            rest = after;
        }
        out.push(separator)?;
    }
    out.extend_from_slice(new)?;
    let Some(text) = rest else {
        return Ok(out);
    };
    let (_, after) = cut(text, separator);
    let Some(after) = after else {
        return Ok(out);
    };
    out.push(separator)?;
    out.extend_from_slice(after)?;
    Ok(out)
}

/// Whether a part of a field is there.
pub(crate) fn has_part(delims: Delims, part: Part, field: &[u8]) -> bool
    ensures { result ≡ has_in (levels delims part) field.now }
{
    match part {
        Part::Whole => true,
        Part::Repetition(r) => has_piece(field, delims.repetition(), r as usize),
        Part::Component(r, c) => {
            let repetition = piece(field, delims.repetition(), r as usize);
            has_piece(field, delims.repetition(), r as usize)
                && has_piece(repetition, delims.component(), c as usize)
        }
        Part::Subcomponent(r, c, s) => {
            let repetition = piece(field, delims.repetition(), r as usize);
            let component = piece(repetition, delims.component(), c as usize);
            has_piece(field, delims.repetition(), r as usize)
                && has_piece(repetition, delims.component(), c as usize)
                && has_piece(component, delims.subcomponent(), s as usize)
        }
    }
}

/// A field with another part; missing pieces before it are added empty.
///
/// # Errors
///
/// Where memory is refused.
pub(crate) fn put_part(
    alloc: Global,
    delims: Delims,
    part: Part,
    new: &[u8],
    field: &[u8],
) -> Result<Vec<u8>, AllocError>
    ensures { IfOk result (λ changed. changed.items ≡ put_in (levels delims part) new.now field.now) }
{
    match part {
        Part::Whole => Vec::from_slice(alloc, new),
        Part::Repetition(r) => put(alloc, field, delims.repetition(), r as usize, new),
        Part::Component(r, c) => {
            let repetition = piece(field, delims.repetition(), r as usize);
            let repetition = put(alloc, repetition, delims.component(), c as usize, new)?;
            put(alloc, field, delims.repetition(), r as usize, &repetition)
        }
        Part::Subcomponent(r, c, s) => {
            let repetition = piece(field, delims.repetition(), r as usize);
            let component = piece(repetition, delims.component(), c as usize);
            let component = put(alloc, component, delims.subcomponent(), s as usize, new)?;
            let repetition = put(
                alloc,
                repetition,
                delims.component(),
                c as usize,
                &component,
            )?;
            put(alloc, field, delims.repetition(), r as usize, &repetition)
        }
    }
}

/// Whether a raw piece is empty or the null value, two quotation marks (HL7 v2.5.1, 2.5.3).
pub fn is_vacant(raw: &[u8]) -> bool
    ensures { result ≡ is_vacant raw.now }
{
    match raw {
        [] => true,
        [first, second] => *first == QUOTATION_MARK && *second == QUOTATION_MARK,
        _ => false,
    }
}
