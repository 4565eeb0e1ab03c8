//! The header of a store's file.

ghost use Rattle.std.specs.Prelude.{◌≡◌, ◌<◌, ◌^◌, ◌++◌, Ok, Err, IfOk, IfErr, OnOk, length};
ghost use Rattle.std.specs.Int.{w32};
ghost use Rattle.std.specs.Option.{option_map};
ghost use Rattle.book_recovery.specs.inner.Header.{Fits, contents_at, contents_bytes, contents_of, fitting, format_in, header_bytes, header_in, number_at, text_at, text_bytes};

use crate::fault::HeaderFault;
use fixed_numbers::EVENTS_MAX;
use std::alloc::{AllocError, Global};
use std::str;

/// The most bytes of a version.
pub const VERSION_MAX: usize = 255;

/// The letters with which a header begins. No record begins with them.
const MAGIC: [u8; 4] = [b'H', b'L', b'7', b'S'];

/// The number of the format.
const FORMAT: u32 = 1;

/// What the file of a store begins with.
#[derive(Clone, Copy, Debug)]
pub struct Header<'a> {
    /// The most entries that the book may hold, at least 1 and at most `EVENTS_MAX`.
    pub events_max: u32,
    /// The version of the program that wrote the file, at most `VERSION_MAX` bytes.
    pub version: &'a str,
    /// The document of the first plan.
    pub document: &'a [u8],
}

/// Appends a text behind its length.
fn put_text(out: &mut Vec<u8>, text: &[u8]) -> Result<(), AllocError>
    ensures bytes { OnOk result (out.new.items ≡ out.old.items ++ text_bytes text.now) }
    ensures short { OnOk result (length text.now < 2 ^ 32) }
{
    let len = u32::try_from(text.len()).map_err(|_| AllocError)?;
    out.extend_from_slice(&len.to_be_bytes())?;
    out.extend_from_slice(text)
}

/// Appends what a header says behind the number of its format.
pub(crate) fn put_contents(out: &mut Vec<u8>, header: &Header<'_>) -> Result<(), AllocError>
    ensures bytes { OnOk result (out.new.items ≡ out.old.items ++ contents_bytes (contents_of header.now)) }
    ensures document { OnOk result (length header.now.document.now < 2 ^ 32) }
{
    out.extend_from_slice(&header.events_max.to_be_bytes())?;
    put_text(out, header.version.as_bytes())?;
    put_text(out, header.document)
}

/// The header's encoding.
///
/// # Errors
///
/// Where memory is refused, or the document has 4 GiB or more, which is refused as memory is.
pub fn write_header(alloc: Global, header: &Header<'_>) -> Result<Vec<u8>, AllocError>
    ensures bytes { IfOk result (λ v. v.items ≡ header_bytes (contents_of header.now)) }
    ensures document { OnOk result (length header.now.document.now < 2 ^ 32) }
{
    let mut out = Vec::new(alloc);
    out.extend_from_slice(&MAGIC)?;
    out.extend_from_slice(&FORMAT.to_be_bytes())?;
    put_contents(&mut out, header)?;
    Ok(out)
}

/// A number of four bytes, and the bytes behind it.
pub(crate) fn u32_at(bytes: &[u8]) -> Option<(u32, &[u8])>
    ensures { option_map (λ x. (x.0, x.1.now)) result ≡ number_at w32 bytes.now }
{
    if bytes.len() < 4 {
        return None;
    }
    let (front, rest) = bytes.split_at(4);
    let number = u32::from_be_bytes([front[0], front[1], front[2], front[3]]);
    Some((number, rest))
}

/// A text behind its length, and the bytes behind it.
#[tactic(auto, unfolding(crate::specs::inner::Header::text_at))]
fn text_at(bytes: &[u8]) -> Option<(&[u8], &[u8])>
    ensures { option_map (λ x. (x.0.now, x.1.now)) result ≡ text_at bytes.now }
{
    let (len, rest) = u32_at(bytes)?;
    let len = len as usize;
    if rest.len() < len {
        return None;
    }
    Some(rest.split_at(len))
}

/// What a header says that has this bound and these texts, where it may have them.
#[tactic(auto, using(crate::proofs::Codec::fitting_text, crate::proofs::Codec::fitting_no_text), unfolding(crate::specs::inner::Header::fitting))]
fn fitting<'a>(events_max: u32, version: &'a [u8], document: &'a [u8]) -> Option<Header<'a>>
    ensures { option_map contents_of result ≡ fitting (record { events_max = events_max; version = version.now; document = document.now }) }
{
    if events_max < 1 || events_max > EVENTS_MAX || version.len() > VERSION_MAX {
        return None;
    }
    let Ok(version) = str::from_utf8(version) else {
        return None;
    };
    Some(Header {
        events_max,
        version,
        document,
    })
}

/// What bytes say behind the format of a header.
#[tactic(auto, unfolding(crate::specs::inner::Header::contents_at))]
pub(crate) fn contents_at(bytes: &[u8]) -> Option<Header<'_>>
    ensures { option_map contents_of result ≡ contents_at bytes.now }
{
    let (events_max, rest) = u32_at(bytes)?;
    let (version, rest) = text_at(rest)?;
    let (document, rest) = text_at(rest)?;
    if !rest.is_empty() {
        return None;
    }
    fitting(events_max, version, document)
}

/// What bytes say behind the letters of a header.
#[tactic(auto, unfolding(crate::specs::inner::Header::format_in, crate::specs::inner::Header::contents_in))]
fn format_in(bytes: &[u8]) -> Result<Header<'_>, HeaderFault>
    ensures header { IfOk result (λ h. format_in bytes.now ≡ Ok (contents_of h)) }
    ensures fault { IfErr result (λ e. format_in bytes.now ≡ Err e) }
{
    let Some((format, rest)) = u32_at(bytes) else {
        return Err(HeaderFault::Damaged);
    };
    if format != FORMAT {
        return Err(HeaderFault::OtherFormat(format));
    }
    match contents_at(rest) {
        Some(header) => Ok(header),
        None => Err(HeaderFault::Damaged),
    }
}

/// What bytes say that begin with the letters of a header.
#[tactic(auto, unfolding(crate::specs::inner::Header::header_in))]
fn header_in(bytes: &[u8]) -> Result<Header<'_>, HeaderFault>
    ensures header { IfOk result (λ h. header_in bytes.now ≡ Ok (contents_of h)) }
    ensures fault { IfErr result (λ e. header_in bytes.now ≡ Err e) }
{
    match bytes.strip_prefix(&MAGIC) {
        Some(rest) => format_in(rest),
        None => Err(HeaderFault::NoHeader),
    }
}

/// The header that bytes are, with nothing behind it.
///
/// # Errors
///
/// `NoHeader` where they begin otherwise, `OtherFormat` where the format is another, and `Damaged` where they end too early
/// or too late or a field has a value that no header has.
pub fn read_header(bytes: &[u8]) -> Result<Header<'_>, HeaderFault>
    // The bytes are the encoding of the header, and of no other.
    ensures encoded { IfOk result (λ h. bytes.now ≡ header_bytes (contents_of h)) }
    ensures fits { IfOk result (λ h. Fits (contents_of h)) }
    ensures header { IfOk result (λ h. header_in bytes.now ≡ Ok (contents_of h)) }
    ensures fault { IfErr result (λ e. header_in bytes.now ≡ Err e) }
{
    header_in(bytes)
}
