//! The answer to a request.

ghost use Rattle.std.specs.Prelude.{◌≡◌, ◌++◌, IfOk, string_bytes};
ghost use Rattle.service_http.specs.inner.Answers.{with_body};

use std::alloc::{AllocError, Global};

/// The status of an answer.
#[derive(Clone, Copy, Debug, PartialEq, Eq)]
pub enum Status {
    Ok,
    BadRequest,
    NotFound,
    MethodNotAllowed,
    RequestTimeout,
    Gone,
    ContentTooLarge,
    Misdirected,
    HeadTooLarge,
    Unavailable,
    VersionNotSupported,
}

impl Status {
    /// Its number and its reason phrase, as the status line has them.
    pub fn line(self) -> &'static str {
        match self {
            Status::Ok => "200 OK",
            Status::BadRequest => "400 Bad Request",
            Status::NotFound => "404 Not Found",
            Status::MethodNotAllowed => "405 Method Not Allowed",
            Status::RequestTimeout => "408 Request Timeout",
            Status::Gone => "410 Gone",
            Status::ContentTooLarge => "413 Content Too Large",
            Status::Misdirected => "421 Misdirected Request",
            Status::HeadTooLarge => "431 Request Header Fields Too Large",
            Status::Unavailable => "503 Service Unavailable",
            Status::VersionNotSupported => "505 HTTP Version Not Supported",
        }
    }

    /// The header field that an answer of this status has beside the usual ones, with its line end; empty where there is none.
    fn field(self) -> &'static str {
        match self {
            Status::MethodNotAllowed => "Allow: GET, HEAD\r\n",
            Status::Unavailable => "Retry-After: 1\r\n",
            _ => "",
        }
    }
}

/// What the body of an answer is.
#[derive(Clone, Copy, Debug, PartialEq, Eq)]
pub enum Kind {
    Text,
    Metrics,
    Json,
    Html,
}

impl Kind {
    /// Its content type.
    pub fn content_type(self) -> &'static str {
        match self {
            Kind::Text => "text/plain; charset=utf-8",
            Kind::Metrics => "text/plain; version=0.0.4; charset=utf-8",
            Kind::Json => "application/json",
            Kind::Html => "text/html; charset=utf-8",
        }
    }
}

/// An answer before it is written.
#[derive(Drop)]
pub struct Answer {
    pub status: Status,
    pub kind: Kind,
    pub body: Vec<u8>,
}

/// The head of an answer with a body of `length` bytes. The connection ends after it; a browser may run nothing, load nothing,
/// frame nothing and keep nothing of it.
fn head_text(
    alloc: Global,
    status: Status,
    kind: Kind,
    length: usize,
) -> Result<String, AllocError> {
    let (line, field, content_type) = (status.line(), status.field(), kind.content_type());
    format!(in alloc;
        "HTTP/1.1 {line}\r\n{field}Content-Type: {content_type}\r\nContent-Length: {length}\r\nCache-Control: no-store\r\nX-Content-Type-Options: nosniff\r\nReferrer-Policy: no-referrer\r\nContent-Security-Policy: default-src 'none'; style-src 'unsafe-inline'; base-uri 'none'; form-action 'none'; frame-ancestors 'none'\r\nConnection: close\r\n\r\n"
    )
}

/// A head, and the body behind it where the request was not for the head alone.
///
/// # Errors
///
/// Where memory is refused.
fn with_body(head: String, body: &[u8], has_body: bool) -> Result<Vec<u8>, AllocError>
    ensures { IfOk result (λ bytes. bytes.items ≡ with_body (string_bytes head) body.now has_body) }
{
    let mut bytes = head.into_bytes();
    if has_body {
        bytes.extend_from_slice(body)?;
    }
    Ok(bytes)
}

impl Answer {
    /// A line of text.
    ///
    /// # Errors
    ///
    /// Where memory is refused.
    pub fn line(alloc: Global, status: Status, text: &str) -> Result<Answer, AllocError> {
        let mut line = text.to_string(alloc)?;
        line.push_str("\n")?;
        Ok(Answer::of_text(status, Kind::Text, line))
    }

    /// A text.
    pub fn of_text(status: Status, kind: Kind, text: String) -> Answer
        ensures status { (result.status ≡ status) × (result.kind ≡ kind) }
        ensures body { result.body.items ≡ string_bytes text }
    {
        Answer {
            status,
            kind,
            body: text.into_bytes(),
        }
    }

    /// The answer that refuses a request.
    ///
    /// # Errors
    ///
    /// Where memory is refused.
    pub fn refusal(alloc: Global, status: Status) -> Result<Answer, AllocError> {
        Answer::line(alloc, status, status.line())
    }

    /// The bytes that are sent for it; its head alone where the request was for that. The length in the head is that of the body.
    ///
    /// # Errors
    ///
    /// Where memory is refused.
    pub fn bytes(&self, alloc: Global, has_body: bool) -> Result<Vec<u8>, AllocError> {
        let Answer { status, kind, body } = self;
        let head = head_text(alloc, *status, *kind, body.len())?;
        with_body(head, body, has_body)
    }
}
