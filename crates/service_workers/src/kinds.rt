//! How many messages of a connection were booked, by what became of them.

ghost use Rattle.std.specs.Prelude.{◌≡◌, ◌+◌, ◌-◌, ◌^◌, min};

use book_core::Receipt;
use conn_worker::ReceiptSink;
use event_log::Told;
use std::alloc::{AllocError, Global};

/// How many messages of a connection were accepted, filtered, refused, and repeats of others, each up to the greatest count.
#[derive(Clone, Copy, Debug, PartialEq, Eq, Drop)]
pub(crate) struct KindCounts {
    pub(crate) accepted: u64,
    pub(crate) filtered: u64,
    pub(crate) refused: u64,
    pub(crate) repeats: u64,
}

impl KindCounts {
    /// How many there are of all kinds, up to the greatest count.
    pub(crate) fn total(self) -> u64
        ensures { result ≡ min (self.accepted + self.filtered + self.refused + self.repeats)
            (2 ^ 64 - 1) }
    {
        self.accepted
            .saturating_add(self.filtered)
            .saturating_add(self.refused)
            .saturating_add(self.repeats)
    }
}

impl ReceiptSink for KindCounts {
    ghost use Rattle.std.specs.Prelude.{⊤};
    ghost use Rattle.service_workers.specs.inner.Kinds.{AreKinds};

    ghost has = { AreKinds };

    ghost has_room = { λ _. ⊤ };

    fn new(_: Global) -> Self {
        KindCounts {
            accepted: 0,
            filtered: 0,
            refused: 0,
            repeats: 0,
        }
    }

    fn reserve(&mut self) -> Result<(), AllocError> {
        Ok(())
    }

    fn keep(&mut self, receipt: Receipt) {
        match receipt.told {
            Told::Accepted(_) => self.accepted = self.accepted.saturating_add(1),
            Told::Filtered => self.filtered = self.filtered.saturating_add(1),
            Told::Refused(_) => self.refused = self.refused.saturating_add(1),
            Told::Repeat(_) => self.repeats = self.repeats.saturating_add(1),
        }
    }
}
