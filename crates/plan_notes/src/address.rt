//! Addresses of a plan, `HOST:PORT`, as far as they can be judged without the network.

ghost use Rattle.std.specs.Prelude.{◌≡◌, ◌&&◌, ◌==◌, not};
ghost use Rattle.plan_notes.specs.inner.Address.{hosts_meet, leads_to_host, meet, leads_to};

/// The host of an address.
#[derive(Clone, Copy, Debug)]
pub(crate) enum Host<'a> {
    /// Every address of this machine: `0.0.0.0` or `[::]`.
    Any,
    /// This machine alone: `localhost`, `127.0.0.1` or `[::1]`.
    Local,
    /// Another host, as the address writes it.
    Other(&'a str),
}

/// A host and a port.
#[derive(Clone, Copy, Debug)]
pub(crate) struct Address<'a> {
    pub(crate) host: Host<'a>,
    pub(crate) port: u16,
}

/// Why a text is no address.
#[derive(Clone, Copy, Debug, PartialEq, Eq)]
pub(crate) enum AddressFlaw {
    /// It is not written HOST:PORT.
    Form,
    /// Its port is no number from 0 to 65,535.
    Port,
    /// Its host has digits and dots alone, and is no IPv4 address.
    Ipv4,
}

impl AddressFlaw {
    /// The flaw in words.
    pub(crate) fn words(self) -> &'static str {
        match self {
            AddressFlaw::Form => "is not HOST:PORT, as 127.0.0.1:6660",
            AddressFlaw::Port => "has a port that is not a number from 1 to 65535",
            AddressFlaw::Ipv4 => "has a host that is neither a name nor four numbers from 0 to 255",
        }
    }
}

/// Whether a text can be a host: it isn't empty, and holds colons in brackets alone.
fn is_host(text: &str) -> bool {
    !text.is_empty() && (!text.contains(':') || (text.starts_with('[') && text.ends_with(']')))
}

/// Whether a host is written as an IPv4 address is, in digits and dots, and is none: such a host has no name to look up.
fn is_flawed_ipv4(host: &str) -> bool {
    let is_numeric = host
        .bytes()
        .all(|byte| byte.is_ascii_digit() || byte == b'.');
    let is_address = host.split('.').count() == 4
        && host.split('.').all(|part| part.parse::<u8>().is_ok());
    is_numeric && !is_address
}

impl<'a> Host<'a> {
    /// The host that a text names.
    fn of(text: &'a str) -> Host<'a> {
        match text {
            "0.0.0.0" | "[::]" => Host::Any,
            "127.0.0.1" | "[::1]" => Host::Local,
            _ if text.eq_ignore_ascii_case("localhost") => Host::Local,
            _ => Host::Other(text),
        }
    }

    /// Whether one port can't be listened at on both.
    fn meets(self, other: Host<'_>) -> bool
        ensures { result ≡ hosts_meet self.entry other.entry }
    {
        match (self, other) {
            (Host::Any, _) | (_, Host::Any) | (Host::Local, Host::Local) => true,
            (Host::Other(one), Host::Other(two)) => one == two,
            _ => false,
        }
    }

    /// Whether a connection to this host reaches one that listens at the other.
    fn leads_to(self, listener: Host<'_>) -> bool
        ensures { result ≡ leads_to_host self.entry listener.entry }
    {
        match (self, listener) {
            (Host::Other(one), Host::Other(two)) => one == two,
            (Host::Other(_), _) | (_, Host::Other(_)) => false,
            _ => true,
        }
    }
}

impl<'a> Address<'a> {
    /// The address that a text writes.
    ///
    /// # Errors
    ///
    /// `Form` where it isn't HOST:PORT, `Port` where the port is no number from 0 to 65,535, `Ipv4` where the host has digits
    /// and dots alone and is no IPv4 address.
    pub(crate) fn of(text: &'a str) -> Result<Address<'a>, AddressFlaw> {
        let Some((host, port)) = text.rsplit_once(':') else {
            return Err(AddressFlaw::Form);
        };
        if !is_host(host) {
            return Err(AddressFlaw::Form);
        }
        let Ok(port) = port.parse::<u16>() else {
            return Err(AddressFlaw::Port);
        };
        if is_flawed_ipv4(host) {
            return Err(AddressFlaw::Ipv4);
        }
        Ok(Address {
            host: Host::of(host),
            port,
        })
    }

    /// Whether two channels can't listen at both: the same port, which is not 0, and hosts that meet.
    pub(crate) fn meets(&self, other: &Address<'_>) -> bool
        ensures { result ≡ meet self.now other.now }
    {
        self.port != 0 && self.port == other.port && self.host.meets(other.host)
    }

    /// Whether a connection to this address reaches a channel that listens at the other.
    pub(crate) fn leads_to(&self, listener: &Address<'_>) -> bool
        ensures { result ≡ leads_to self.now listener.now }
    {
        self.port != 0 && self.port == listener.port && self.host.leads_to(listener.host)
    }
}
