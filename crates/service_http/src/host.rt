//! The host that a request names. A browser can be led to ask this service by a name of somebody else's that means its address: such a
//! request is not answered.

ghost use Rattle.std.specs.Prelude.{◌≡◌, drop, length, map, string_bytes};
ghost use Rattle.std.specs.List.{list_all, list_any};
ghost use Rattle.service_http.specs.inner.Hosts.{is_address, is_address_byte, is_answered, is_named, is_port, same_letters};

/// Whether two texts are the same but for the case of ASCII letters.
pub(crate) fn same_letters(one: &[u8], other: &[u8]) -> bool
    ensures { result ≡ same_letters one.now other.now }
{
    one.eq_ignore_ascii_case(other)
}

/// Whether a byte may be in an IPv4 address or its port.
fn is_address_byte(byte: u8) -> bool
    ensures { result ≡ is_address_byte byte }
{
    byte.is_ascii_digit() || byte == b'.' || byte == b':'
}

/// Whether all bytes of a text may be in an IPv4 address or its port.
fn are_address_bytes(text: &[u8]) -> bool
    ensures { result ≡ list_all is_address_byte text.now }
{
    text.iter().all(|byte| is_address_byte(*byte))
}

/// Whether a host is written as an IP address.
fn is_address(host: &[u8]) -> bool
    ensures { result ≡ is_address host.now }
{
    match host.split_first() {
        None => false,
        Some((first, rest)) => *first == b'[' || is_address_byte(*first) && are_address_bytes(rest),
    }
}

/// Whether a text is nothing, or a colon and what follows it.
fn is_port(text: &[u8]) -> bool
    ensures { result ≡ is_port text.now }
{
    match text.first() {
        None => true,
        Some(first) => *first == b':',
    }
}

/// Whether a host is this name, in any case of its letters, with a port or without.
fn is_named(host: &[u8], name: &[u8]) -> bool
    ensures { result ≡ is_named host.now name.now }
{
    let (front, rest) = host.split_at(name.len().min(host.len()));
    same_letters(front, name) && is_port(rest)
}

/// Whether a host is one of these names.
fn is_among(names: &[String], host: &[u8]) -> bool
    ensures { result ≡ list_any (λ n. is_named host.now (string_bytes n)) names.now }
{
    names.iter().any(|name| is_named(host, name.as_bytes()))
}

/// Whether a request for a host is answered: for an IP address, for `localhost`, and for one of these names.
#[tactic(auto, using(crate::proofs::Fields::list_any_map))]
pub(crate) fn is_answered(names: &[String], host: &[u8]) -> bool
    ensures { result ≡ is_answered (map string_bytes names.now) host.now }
{
    is_address(host) || is_named(host, b"localhost") || is_among(names, host)
}
