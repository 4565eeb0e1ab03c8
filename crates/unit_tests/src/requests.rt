//! An HTTP request as it is read, its target, and the bytes of an answer.

use httparse::spans::EMPTY_HEADER_SPAN;
use service_http::{
    Answer, Kind, Request, Status, Target, percent_decoded, read_request, target_of,
};
use std::alloc::{AllocError, Global};

#[test]
fn requests_are_read(rt: HostRuntime) -> Result<(), AllocError> {
    let mut fields = [EMPTY_HEADER_SPAN; 4];
    let names = vec![in rt.alloc(); "x".to_string(rt.alloc())?]?;
    let get = b"GET /a HTTP/1.1\r\nHost: x\r\n\r\nGET /b HTTP/1.1\r\nHost: x\r\n\r\n";
    assert_eq!(rt;
        read_request(get, &names, &mut fields),
        Request::Get(b"/a".as_slice())
    );
    let head = b"HEAD / HTTP/1.0\r\n\r\n";
    assert_eq!(rt;
        read_request(head, &names, &mut fields),
        Request::Head(b"/".as_slice())
    );
    assert_eq!(rt;
        read_request(b"GET / HTT", &names, &mut fields),
        Request::More
    );
    for (bytes, status) in [
        (
            b"POST / HTTP/1.1\r\nHost: x\r\n\r\n".as_slice(),
            Status::MethodNotAllowed,
        ),
        (b"GET / HTTP/1.1\r\n\r\n", Status::BadRequest),
        (
            b"GET / HTTP/1.1\r\nHost: x\r\nhost: y\r\n\r\n",
            Status::BadRequest,
        ),
        (
            b"GET / HTTP/1.1\r\nHost: x\r\nContent-Length: 1\r\n\r\n",
            Status::ContentTooLarge,
        ),
        (
            b"GET / HTTP/1.1\r\nHost: x\r\nTransfer-Encoding: chunked\r\n\r\n",
            Status::ContentTooLarge,
        ),
        (
            b"GET / HTTP/2.0\r\nHost: x\r\n\r\n",
            Status::VersionNotSupported,
        ),
        (
            b"GET / HTTP/1.1\r\nA: 1\r\nA: 1\r\nA: 1\r\nA: 1\r\nA: 1\r\n\r\n",
            Status::HeadTooLarge,
        ),
        (b"\x16\x03\x01\x02", Status::BadRequest),
        (
            b"GET / HTTP/1.1\r\nHost: example.org\r\n\r\n",
            Status::Misdirected,
        ),
    ] {
        assert_eq!(rt;
            read_request(bytes, &names, &mut fields),
            Request::Refused(status)
        );
    }
    Ok(())
}

#[test]
fn answers_are_written(rt: HostRuntime) -> Result<(), AllocError> {
    let answer = Answer::line(rt.alloc(), Status::Ok, "ready")?;
    let whole = answer.bytes(rt.alloc(), true)?;
    let head = answer.bytes(rt.alloc(), false)?;
    assert!(rt;
        whole.starts_with(
            b"HTTP/1.1 200 OK\r\nContent-Type: text/plain; charset=utf-8\r\nContent-Length: 6\r\n"
        )
    );
    assert!(rt; whole.ends_with(b"Connection: close\r\n\r\nready\n"));
    assert!(rt; whole.starts_with(&head));
    assert_eq!(rt; head.len() + 6, whole.len());
    let refused = Answer::refusal(rt.alloc(), Status::MethodNotAllowed)?;
    let refused = refused.bytes(rt.alloc(), true)?;
    assert!(rt; refused.starts_with(b"HTTP/1.1 405 Method Not Allowed\r\nAllow: GET, HEAD\r\n"));
    let numbers = Answer::of_text(Status::Ok, Kind::Metrics, "n 1\n".to_string(rt.alloc())?);
    assert_eq!(rt; numbers.body.as_slice(), b"n 1\n".as_slice());
    Ok(())
}

#[test]
fn each_target_is_read(rt: HostRuntime) {
    assert_eq!(rt; target_of(b"/"), Target::Page);
    assert_eq!(rt; target_of(b"/metrics"), Target::Metrics);
    assert_eq!(rt; target_of(b"/healthz"), Target::Health);
    assert_eq!(rt; target_of(b"/readyz"), Target::Ready);
    assert_eq!(rt; target_of(b"/status"), Target::Status);
    assert_eq!(rt; target_of(b"/status.json"), Target::StatusJson);
    assert_eq!(rt; target_of(b"/messages/7"), Target::Message(7));
    assert_eq!(rt;
        target_of(b"/messages?control_id=A%201"),
        Target::Find(b"A%201".as_slice())
    );
    assert_eq!(rt;
        target_of(b"/destinations/LAB/waiting"),
        Target::Waiting(b"LAB".as_slice())
    );
    assert_eq!(rt;
        target_of(b"/destinations/LAB/failed"),
        Target::Failed(b"LAB".as_slice())
    );
}

#[test]
fn other_targets_are_nothing(rt: HostRuntime) {
    for target in [
        b"".as_slice(),
        b"*",
        b"//",
        b"/metrics/",
        b"/metrics?x",
        b"/../metrics",
        b"/%6detrics",
        b"/messages/",
        b"/messages/+1",
        b"/messages/4294967296",
        b"/messages?control_id=",
        b"/destinations//waiting",
        b"/destinations/waiting",
        b"http://a/metrics",
    ] {
        assert_eq!(rt; target_of(target), Target::Nothing);
    }
}

#[test]
fn escapes_are_decoded(rt: HostRuntime) -> Result<(), AllocError> {
    let Some(bytes) = percent_decoded(rt.alloc(), b"A%201%c3%A9+")? else {
        panic!(rt; "none");
    };
    assert_eq!(rt; bytes.as_slice(), b"A 1\xc3\xa9+".as_slice());
    assert!(rt; percent_decoded(rt.alloc(), b"%")?.is_none());
    assert!(rt; percent_decoded(rt.alloc(), b"%4")?.is_none());
    assert!(rt; percent_decoded(rt.alloc(), b"%zz")?.is_none());
    Ok(())
}

/// The status with which a request for a host is refused, where it is, by a server with one name of its own.
fn refusal_of(alloc: Global, host: &str) -> Result<Option<Status>, AllocError> {
    let mut fields = [EMPTY_HEADER_SPAN; 4];
    let names = vec![in alloc; "hl7.example.org".to_string(alloc)?]?;
    let request = format!(in alloc; "GET / HTTP/1.1\r\nHost: {host}\r\n\r\n")?;
    Ok(
        match read_request(request.as_bytes(), &names, &mut fields) {
            Request::Refused(status) => Some(status),
            _ => None,
        },
    )
}

#[test]
fn hosts_are_judged(rt: HostRuntime) -> Result<(), AllocError> {
    for host in [
        "127.0.0.1",
        "127.0.0.1:9180",
        "[::1]:9180",
        "localhost",
        "LocalHost:9180",
        "hl7.example.org:80",
        "HL7.example.org",
    ] {
        assert_eq!(rt; refusal_of(rt.alloc(), host)?, None);
    }
    for host in [
        "",
        "example.org",
        "localhost.example.org",
        "127.0.0.1.example.org",
        "hl7.example.organ",
        "hl7",
    ] {
        assert_eq!(rt; refusal_of(rt.alloc(), host)?, Some(Status::Misdirected));
    }
    Ok(())
}
