//! The fields that each record has.

ghost use Rattle.std.specs.Prelude.{◌≡◌};
ghost use Rattle.event_records.specs.inner.Fields.{same_head};

/// The fields at the front of each record. A field that a kind of record doesn't use is 0.
#[derive(Clone, Copy, Debug, PartialEq, Eq)]
pub struct Head {
    /// The kind: 0 an arrival, 1 a take, 2 a settlement, 3 a cancellation, 4 a deployment, 5 a pruning.
    pub kind: u8,
    /// Which answer an arrival got, or the outcome of an attempt.
    pub part: u8,
    /// The connection of an arrival, the destination of a take, the number of a message, or the `before` of a pruning.
    pub first: u32,
    /// The channel of an arrival, the destination of a settlement, or the destinations of a cancellation as a mask.
    pub second: u32,
    /// The number or the cause in the answer to an arrival, or the attempt of a settlement.
    pub third: u32,
    /// The moment of a take or a settlement, in seconds since 1970.
    pub moment: u64,
}

impl Head {
    /// Whether two heads have the same fields.
    pub fn same(&self, other: &Head) -> bool
        ensures { result ≡ same_head self.now other.now }
    {
        self.kind == other.kind
            && self.part == other.part
            && self.first == other.first
            && self.second == other.second
            && self.third == other.third
            && self.moment == other.moment
    }
}
