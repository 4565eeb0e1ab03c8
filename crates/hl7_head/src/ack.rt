ghost use Rattle.std.specs.Prelude.{◌≡◌};
ghost use Rattle.hl7_head.specs.Ack.{cause_text, code_text};
ghost use Rattle.hl7_head.specs.inner.Ack.{cause_code};

/// An acknowledgment code, MSA-1 (table 0008).
#[derive(Clone, Copy, Debug, PartialEq, Eq)]
pub enum AckCode {
    /// Application accept.
    AA,
    /// Application error.
    AE,
    /// Application reject.
    AR,
    /// Commit accept.
    CA,
    /// Commit error.
    CE,
    /// Commit reject.
    CR,
}

impl AckCode {
    /// The code as MSA-1 bears it.
    pub fn text(self) -> &'static [u8]
        ensures { result.now ≡ code_text self }
    {
        match self {
            AckCode::AA => b"AA",
            AckCode::AE => b"AE",
            AckCode::AR => b"AR",
            AckCode::CA => b"CA",
            AckCode::CE => b"CE",
            AckCode::CR => b"CR",
        }
    }

    /// The two letters of the code, which are those of [`AckCode::text`].
    pub(crate) fn letters(self) -> [u8; 2]
        ensures { result ≡ code_text self }
    {
        match self {
            AckCode::AA => [b'A', b'A'],
            AckCode::AE => [b'A', b'E'],
            AckCode::AR => [b'A', b'R'],
            AckCode::CA => [b'C', b'A'],
            AckCode::CE => [b'C', b'E'],
            AckCode::CR => [b'C', b'R'],
        }
    }
}

/// Why a message is refused. Its name is the text of MSA-3.
#[derive(Clone, Copy, Debug, PartialEq, Eq)]
pub enum Cause {
    /// The channel takes no messages of this type, MSH-9.
    UnsupportedType = 1,
    /// The channel takes no messages with this processing id, MSH-11 (table 0103).
    UnsupportedProcessing,
    /// The channel takes no messages of this version, MSH-12.
    UnsupportedVersion,
    /// MSH-10 is empty or the null value.
    MissingControlId,
    /// MSH-10 is too long.
    BadControlId,
    /// A step that every message of the channel goes through can't be taken.
    SourceTransform,
    /// A step on the way to a destination can't be taken.
    RouteTransform,
    /// A message with other bytes was received under the same control id before.
    IdReused,
    /// There was no memory for the message.
    NoMemory,
    /// There is no room for the message.
    Full,
    /// The plan was replaced while the message was judged.
    PlanChanged,
}

impl Cause {
    /// The number of the cause, 1 to 11.
    pub fn code(self) -> u32
        ensures { result ≡ cause_code self }
    {
        match self {
            Cause::UnsupportedType => 1,
            Cause::UnsupportedProcessing => 2,
            Cause::UnsupportedVersion => 3,
            Cause::MissingControlId => 4,
            Cause::BadControlId => 5,
            Cause::SourceTransform => 6,
            Cause::RouteTransform => 7,
            Cause::IdReused => 8,
            Cause::NoMemory => 9,
            Cause::Full => 10,
            Cause::PlanChanged => 11,
        }
    }

    /// The name of the cause, as MSA-3 bears it.
    pub fn text(self) -> &'static [u8]
        ensures { result.now ≡ cause_text self }
    {
        match self {
            Cause::UnsupportedType => b"UnsupportedType",
            Cause::UnsupportedProcessing => b"UnsupportedProcessing",
            Cause::UnsupportedVersion => b"UnsupportedVersion",
            Cause::MissingControlId => b"MissingControlId",
            Cause::BadControlId => b"BadControlId",
            Cause::SourceTransform => b"SourceTransform",
            Cause::RouteTransform => b"RouteTransform",
            Cause::IdReused => b"IdReused",
            Cause::NoMemory => b"NoMemory",
            Cause::Full => b"Full",
            Cause::PlanChanged => b"PlanChanged",
        }
    }
}

/// One acknowledgment that a message is due.
#[derive(Clone, Copy, Debug, PartialEq, Eq)]
pub struct AckPart {
    /// MSA-1.
    pub code: AckCode,
    /// Why the message is refused; none on success.
    pub cause: Option<Cause>,
    /// Whether the message requested enhanced mode, so that the acknowledgment says that it is not to be acknowledged.
    pub enhanced: bool,
}
