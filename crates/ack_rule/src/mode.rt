ghost use Rattle.std.specs.Prelude.{◌≡◌};
ghost use Rattle.ack_rule.specs.Due.{ack_mode, ack_type};
ghost use Rattle.ack_rule.specs.inner.Due.{tells_refusal, tells_success};

use er7_tree::is_vacant;
use hl7_head::Header;

/// When an acknowledgment is wanted (table 0155).
#[derive(Clone, Copy, Debug, PartialEq, Eq)]
pub enum AckType {
    /// Always.
    AL,
    /// Never.
    NE,
    /// On an error or a rejection only.
    ER,
    /// On success only.
    SU,
}

/// How a message is to be acknowledged (HL7 v2.5.1, 2.9.2).
#[derive(Clone, Copy, Debug, PartialEq, Eq)]
pub enum AckMode {
    /// The message gets one application acknowledgment.
    Original,
    /// It gets an accept acknowledgment as MSH-15 requests, and an application acknowledgment as MSH-16 requests.
    Enhanced {
        accept: AckType,
        application: AckType,
    },
}

impl AckType {
    /// The type that a raw MSH-15 or MSH-16 names, where one of the two has a value.
    fn of(raw: &[u8]) -> AckType
        ensures { result ≡ ack_type raw.now }
    {
        if is_vacant(raw) {
            return AckType::NE;
        }
        match raw {
            b"NE" => AckType::NE,
            b"ER" => AckType::ER,
            b"SU" => AckType::SU,
            _ => AckType::AL,
        }
    }

    /// Whether an acknowledgment of this type is sent on success.
    pub fn tells_success(self) -> bool
        ensures { result ≡ tells_success self }
    {
        matches!(self, AckType::AL | AckType::SU)
    }

    /// Whether an acknowledgment of this type is sent on a refusal.
    pub fn tells_refusal(self) -> bool
        ensures { result ≡ tells_refusal self }
    {
        matches!(self, AckType::AL | AckType::ER)
    }
}

impl AckMode {
    /// The mode that a header requests by MSH-15 and MSH-16.
    pub fn of(header: &Header) -> AckMode
        ensures { result ≡ ack_mode header.now.accept_type header.now.application_type }
    {
        let accept = header.accept_type();
        let application = header.application_type();
        if is_vacant(accept) && is_vacant(application) {
            return AckMode::Original;
        }
        AckMode::Enhanced {
            accept: AckType::of(accept),
            application: AckType::of(application),
        }
    }
}
