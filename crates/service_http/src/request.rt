//! The head of a request.

ghost use Rattle.std.specs.Prelude.{◌≡◌, None, false, map, slice_range, string_bytes};
ghost use Rattle.std.specs.List.{list_any};
ghost use Rattle.httparse.specs.Grammar.{HasNoRequest, MayBecomeRequest};
ghost use Rattle.httparse.specs.Spans.{header_bytes, span_bytes};
ghost use Rattle.service_http.specs.inner.Requests.{AsksFor, IfAsked, OnMore, is_foreign, states_body};

use crate::host::{is_answered, same_letters};
use crate::response::Status;
use httparse::spans::{HeaderSpan, RequestSpans, parse_request};
use httparse::{Error, Status as Parsed};

/// The most bytes of a head.
pub const HEAD_BYTES: usize = 8_192;

/// The most fields of a head.
pub const FIELDS_MAX: usize = 64;

/// What a connection has sent so far.
#[derive(Clone, Copy, Debug, PartialEq, Eq)]
pub enum Request<T> {
    /// No whole head, and more bytes can complete it.
    More,
    /// A request for a target, whose answer has a body.
    Get(T),
    /// A request for the head of an answer alone.
    Head(T),
    /// What is refused with this status.
    Refused(Status),
}

/// The bytes from `start` to `end`, as far as there are any.
fn part(bytes: &[u8], start: usize, end: usize) -> &[u8]
    ensures { result.now ≡ slice_range bytes.now start end }
{
    let end = end.min(bytes.len());
    &bytes[start.min(end)..end]
}

/// The name of a field.
fn name_of<'b>(bytes: &'b [u8], field: &HeaderSpan) -> &'b [u8]
    ensures { result.now ≡ span_bytes bytes.now field.now.name }
{
    part(bytes, field.name.start, field.name.end)
}

/// The value of a field.
fn value_of<'b>(bytes: &'b [u8], field: &HeaderSpan) -> &'b [u8]
    ensures { result.now ≡ span_bytes bytes.now field.now.value }
{
    part(bytes, field.value.start, field.value.end)
}

/// Whether a field says that a body follows the head.
fn states_body(bytes: &[u8], field: &HeaderSpan) -> bool
    ensures { result ≡ states_body (header_bytes bytes.now field.now) }
{
    let name = name_of(bytes, field);
    same_letters(name, b"transfer-encoding")
        || same_letters(name, b"content-length") && value_of(bytes, field) != b"0".as_slice()
}

/// Whether a field names a host for which nothing is answered.
fn is_foreign(bytes: &[u8], names: &[String], field: &HeaderSpan) -> bool
    ensures { result ≡ is_foreign (map string_bytes names.now) (header_bytes bytes.now field.now) }
{
    same_letters(name_of(bytes, field), b"host") && !is_answered(names, value_of(bytes, field))
}

/// Whether one of the fields says that a body follows the head.
fn has_body(bytes: &[u8], fields: &[HeaderSpan]) -> bool
    ensures { result ≡ list_any (λ f. states_body (header_bytes bytes.now f)) fields.now }
{
    fields.iter().any(|field| states_body(bytes, field))
}

/// Whether one of the fields names a host for which nothing is answered.
fn has_foreign_host(bytes: &[u8], names: &[String], fields: &[HeaderSpan]) -> bool
    ensures { result
        ≡ list_any (λ f. is_foreign (map string_bytes names.now) (header_bytes bytes.now f)) fields.now }
{
    fields.iter().any(|field| is_foreign(bytes, names, field))
}

/// How many fields name a host.
fn hosts_of(bytes: &[u8], fields: &[HeaderSpan]) -> u32 {
    let mut count: u32 = 0;
    for field in fields {
        if same_letters(name_of(bytes, field), b"host") {
            count = count.saturating_add(1);
        }
    }
    count
}

/// What is wrong with the fields of a head, if something is: that a body follows, several `Host` fields, none in HTTP/1.1, or one for
/// which nothing is answered.
fn fault_of(bytes: &[u8], names: &[String], version: u8, fields: &[HeaderSpan]) -> Option<Status>
    ensures body { result ≡ None → list_any (λ f. states_body (header_bytes bytes.now f)) fields.now ≡ false }
    ensures host { result ≡ None
        → list_any (λ f. is_foreign (map string_bytes names.now) (header_bytes bytes.now f)) fields.now ≡ false }
{
    let hosts = hosts_of(bytes, fields);
    if has_body(bytes, fields) {
        Some(Status::ContentTooLarge)
    } else if hosts > 1 || version == 1 && hosts == 0 {
        Some(Status::BadRequest)
    } else if has_foreign_host(bytes, names, fields) {
        Some(Status::Misdirected)
    } else {
        None
    }
}

/// The status for a head that is none.
fn status_of(error: Error) -> Status {
    match error {
        Error::TooManyHeaders => Status::HeadTooLarge,
        Error::Version => Status::VersionNotSupported,
        _ => Status::BadRequest,
    }
}

/// Whether a method only reads.
fn only_reads(method: &[u8]) -> bool {
    method == b"GET".as_slice() || method == b"HEAD".as_slice()
}

/// What a connection has sent so far, where `bytes` is all of it. What follows the head is not looked at. Hosts are answered for by an
/// IP address, as `localhost`, and by these names.
pub fn read_request<'b>(
    bytes: &'b [u8],
    names: &[String],
    fields: &mut [HeaderSpan],
) -> Request<&'b [u8]>
    ensures asked { IfAsked result (λ target. AsksFor bytes.now (map string_bytes names.now) target.now) }
    ensures more { OnMore result (HasNoRequest bytes.now × MayBecomeRequest bytes.now) }
{
    let head: RequestSpans = match parse_request(bytes, &mut *fields) {
        Ok(Parsed::Complete(head)) => head,
        Ok(Parsed::Partial) => return Request::More,
        Err(error) => return Request::Refused(status_of(error)),
    };
    let method = head.method.of(bytes);
    if !only_reads(method) {
        return Request::Refused(Status::MethodNotAllowed);
    }
    if let Some(status) = fault_of(bytes, names, head.version, &fields[..head.headers]) {
        return Request::Refused(status);
    }
    let target = head.path.of(bytes);
    if method == b"GET".as_slice() {
        Request::Get(target)
    } else if method == b"HEAD".as_slice() {
        Request::Head(target)
    } else {
        Request::Refused(Status::MethodNotAllowed)
    }
}
