//! The preface of a store's file: an opening behind a header of its own.

ghost use Rattle.std.specs.Prelude.{◌≡◌, ◌<◌, ◌^◌, ◌++◌, IfNone, IfOk, IfSome, OnOk, None, Some, length};
ghost use Rattle.std.specs.Int.{w32, to_be_bytes};
ghost use Rattle.std.specs.Option.{option_map};
ghost use Rattle.book_recovery.specs.inner.Preface.{PrefaceFits, header_of, later_of, last_before, preface_bytes, preface_head, preface_in, preface_of, prefaced};
ghost use Rattle.book_recovery.specs.inner.Header.{contents_bytes, contents_of};

use crate::header::{Header, contents_at, put_contents, u32_at};
use std::alloc::{AllocError, Global};

/// The letters with which a preface begins, and the number of its format.
const HEAD: [u8; 8] = [b'H', b'L', b'7', b'S', 0, 0, 0, 2];

/// What a file begins with that goes on from an opening.
#[derive(Clone, Copy, Debug)]
pub(crate) struct Preface<'a> {
    /// The most entries that the book may hold, at least 1 and at most `EVENTS_MAX`.
    pub(crate) events_max: u32,
    /// The version of the program that wrote the file, at most `VERSION_MAX` bytes.
    pub(crate) version: &'a str,
    /// The first number of a connection that no message came over before the opening.
    pub(crate) connections: u32,
    /// The bytes of the opening.
    pub(crate) opening: &'a [u8],
}

/// The document of a preface's header: the number of a connection, and the opening's bytes.
fn document_of(alloc: Global, connections: u32, opening: &[u8]) -> Result<Vec<u8>, AllocError>
    ensures { IfOk result (λ v. v.items ≡ to_be_bytes w32 connections ++ opening.now) }
{
    let mut document = Vec::new(alloc);
    document.extend_from_slice(&connections.to_be_bytes())?;
    document.extend_from_slice(opening)?;
    Ok(document)
}

/// The preface's encoding.
///
/// # Errors
///
/// Where memory is refused, or the opening has 4 GiB or more, which is refused as memory is.
pub(crate) fn write_preface(alloc: Global, preface: &Preface<'_>) -> Result<Vec<u8>, AllocError>
    ensures bytes { IfOk result (λ v. v.items ≡ preface_bytes (preface_of preface.now)) }
    ensures short { OnOk result (length (header_of (preface_of preface.now)).document < 2 ^ 32) }
{
    let document = document_of(alloc, preface.connections, preface.opening)?;
    let header = Header {
        events_max: preface.events_max,
        version: preface.version,
        document: document.as_slice(),
    };
    let mut out = Vec::new(alloc);
    out.extend_from_slice(&HEAD)?;
    put_contents(&mut out, &header)?;
    Ok(out)
}

/// The preface of a header.
fn prefaced<'a>(header: Header<'a>) -> Option<Preface<'a>>
    ensures { option_map preface_of result ≡ prefaced (contents_of header.entry) }
{
    let (connections, opening) = u32_at(header.document)?;
    Some(Preface {
        events_max: header.events_max,
        version: header.version,
        connections,
        opening,
    })
}

/// The preface that bytes are, if they are one.
#[tactic(auto, unfolding(crate::specs::inner::Preface::preface_in))]
pub(crate) fn read_preface(bytes: &[u8]) -> Option<Preface<'_>>
    ensures { option_map preface_of result ≡ preface_in bytes.now }
{
    match bytes.strip_prefix(&HEAD) {
        Some(rest) => {
            let header = contents_at(rest)?;
            prefaced(header)
        }
        None => None,
    }
}

/// The last number before one, if there is one.
pub(crate) fn last_before(number: u32) -> Option<u32>
    ensures { result ≡ last_before number }
{
    number.checked_sub(1)
}

/// The greater of two numbers, or the one that there is.
pub(crate) fn later_of(number: Option<u32>, other: Option<u32>) -> Option<u32>
    ensures { result ≡ later_of number other }
{
    match (number, other) {
        (Some(number), Some(other)) if other > number => Some(other),
        (Some(number), _) => Some(number),
        (None, other) => other,
    }
}
