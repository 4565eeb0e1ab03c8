//! The report of serving a connection.

ghost use Rattle.std.specs.Prelude.{◌≡◌, ◌+◌, ◌<◌, ◌++◌, [], List};
ghost use Rattle.book_core.specs.declared.receipt.Receipt.{Receipt};
ghost use Rattle.conn_core.specs.inner.Outcomes.{receipts_in};
ghost use Rattle.conn_worker.specs.inner.Counting.{unbooked_in, unreadable_in, strays_in};

use crate::keeping::ReceiptSink;
use book_core::Receipt;
use conn_core::{BlockOutcome, Booked};
use std::alloc::{AllocError, Global};

/// Why serving a connection ended.
#[derive(Clone, Copy, PartialEq, Eq, Debug)]
pub enum ServeEnd {
    /// The reader is at its end, and all that it brought is answered.
    End,
    /// The reader failed.
    ReadFault,
    /// The writer failed, or took no byte.
    WriteFault,
    /// Memory was refused for the stream, for a receipt, in judging a message or in making a reply.
    NoMemory,
    /// As many reads were made, or as many events read, as one connection may have.
    TurnBound,
    /// What was booked may not survive a crash, since its store has failed: its acknowledgments were not written.
    NotPersisted,
}

impl From<AllocError> for ServeEnd {
    ghost use Rattle.std.specs.Prelude.{◌≡◌};
    ghost use Rattle.conn_worker.specs.declared.report.ServeEnd.TheVariants.{NoMemory};

    ghost from_gives = { λ _ end. end ≡ NoMemory };

    fn from(_: AllocError) -> Self {
        ServeEnd::NoMemory
    }
}

/// What became of a connection's events, and why serving it ended.
#[derive(Drop)]
pub struct ServeReport<K = Vec<Receipt>> {
    /// What is kept of the receipts of the booked messages, in the order in which they were received.
    pub receipts: K,
    /// How many blocks were no message.
    pub unreadable: u64,
    /// How many were acknowledgments, which request no answer.
    pub strays: u64,
    /// How many blocks were broken.
    pub breaks: u64,
    /// How many messages were not booked. They were acknowledged as errors, or as the repeats that they are, where an
    /// acknowledgment was due.
    pub unbooked: u64,
    pub end: ServeEnd,
}

impl<K: ReceiptSink> ServeReport<K> {
    /// A report without events; `end` is `NoMemory` until it is set.
    pub fn new(alloc: Global) -> Self
        ensures receipts { K.has result.receipts [] }
        ensures unreadable_ones { result.unreadable ≡ 0 }
        ensures stray_ones { result.strays ≡ 0 }
        ensures broken_ones { result.breaks ≡ 0 }
        ensures unbooked { result.unbooked ≡ 0 }
        ensures end { result.end ≡ ServeEnd.NoMemory }
    {
        ServeReport {
            receipts: K::new(alloc),
            unreadable: 0,
            strays: 0,
            breaks: 0,
            unbooked: 0,
            end: ServeEnd::NoMemory,
        }
    }

    /// Counts what became of a block, and hands in the receipt of a booked message, for which there is room.
    pub fn count(&mut self, outcome: BlockOutcome)
        requires room { K.has_room self.old.receipts }
        requires few_unreadable { self.old.unreadable < u64.MAX }
        requires few_strays { self.old.strays < u64.MAX }
        requires few_unbooked { self.old.unbooked < u64.MAX }
        ensures receipts { (receipts : List Receipt) →
            K.has self.old.receipts receipts → K.has self.new.receipts (receipts ++ receipts_in outcome) }
        ensures unbooked { self.new.unbooked ≡ self.old.unbooked + unbooked_in outcome }
        ensures unreadable_ones { self.new.unreadable ≡ self.old.unreadable + unreadable_in outcome }
        ensures stray_ones { self.new.strays ≡ self.old.strays + strays_in outcome }
        ensures broken_ones { self.new.breaks ≡ self.old.breaks }
    {
        match outcome {
            BlockOutcome::Unreadable => self.unreadable += 1,
            BlockOutcome::Stray => self.strays += 1,
            BlockOutcome::Message(
                Booked {
                    outcome: Ok(receipt),
                    whole: _,
                },
            ) => self.receipts.keep(receipt),
            BlockOutcome::Message(
                Booked {
                    outcome: Err(_),
                    whole: _,
                },
            ) => self.unbooked += 1,
        }
    }
}
