//! The audit of the receipts.

ghost use Rattle.std.specs.Prelude.{◌≡◌, ◌<◌, ◌≤◌, ◌↔◌, All, IsOk, IsTrue, IfErr, IfNone, IfSome, OnOk, length, map};
ghost use Rattle.std.specs.List.Sorted.{IsPermutation, IsStrictlyIncreasing};
ghost use Rattle.event_log.specs.History.{next_place};
ghost use Rattle.book_lock.specs.Auditing.{IsFirstFault, IsRightAt, naming, receipts_due, unfolded};
ghost use Rattle.book_lock.specs.inner.Auditing.{fault_code};

use crate::locked::Closed;
use crate::windows::{ReceiptMatch, WINDOW, check_windows};
use book_core::{BookRows, Receipt};
use thiserror::Error;

/// What is wrong with the receipts, and the index of the history at which it is.
#[derive(Clone, Copy, Debug, PartialEq, Eq, Error)]
pub enum AuditFault {
    /// No receipt names the arrival at this index.
    #[error("no receipt names the arrival at {0}")]
    Missing(usize),
    /// Two receipts name this index.
    #[error("two receipts name {0}")]
    Doubled(usize),
    /// The one receipt that names this index is not that of an arrival there.
    #[error("the receipt that names {0} is of another arrival")]
    Differs(usize),
}

impl AuditFault {
    /// The number of the fault: 1 for `Missing`, 2 for `Doubled`, 3 for `Differs`.
    pub fn code(self) -> u32
        ensures { result ≡ fault_code self }
    {
        match self {
            AuditFault::Missing(_) => 1,
            AuditFault::Doubled(_) => 2,
            AuditFault::Differs(_) => 3,
        }
    }
}

/// Whether the receipts, in any order, are those of the arrivals since the book was shared, each once, with its
/// connection, channel, bytes and answer. The indices that were folded since then are left aside. It requests no memory.
///
/// # Errors
///
/// The fault at the least index that is wrong.
pub fn audit<S: BookRows>(closed: &Closed<S>, receipts: &[Receipt]) -> Result<(), AuditFault>
    ensures ok { IsOk result ↔ IsPermutation (unfolded closed.now receipts.now) (receipts_due closed.now) }
    ensures fault { IfErr result (IsFirstFault closed.now receipts.now) }
{
    let _first = closed.first();
    first_fault(closed, receipts)
}

/// Whether the receipts' indices rise strictly.
pub fn rising(receipts: &[Receipt]) -> bool
    ensures { IsTrue result ↔ IsStrictlyIncreasing (map (λ r. r.entry) receipts.now) }
{
    for i in 1..receipts.len() {
        if receipts[i - 1].entry >= receipts[i].entry {
            return false;
        }
    }
    true
}

/// The first index at which the receipts are not those that are due.
fn first_fault<S: BookRows>(closed: &Closed<S>, receipts: &[Receipt]) -> Result<(), AuditFault>
    ensures right { OnOk result ((p : _) → IsRightAt closed.now receipts.now p) }
    ensures fault { IfErr result (IsFirstFault closed.now receipts.now) }
{
    let mut table = [ReceiptMatch::Never; WINDOW];
    check_windows(closed, receipts, &mut table)?;
    check_rest(closed, receipts)
}

/// Whether no receipt names an index past the history, where all indices of the history are right.
fn check_rest<S: BookRows>(closed: &Closed<S>, receipts: &[Receipt]) -> Result<(), AuditFault>
    requires { (p : _) → p < next_place closed.now.book → IsRightAt closed.now receipts.now p }
    ensures right { OnOk result ((p : _) → IsRightAt closed.now receipts.now p) }
    ensures fault { IfErr result (IsFirstFault closed.now receipts.now) }
{
    let _first = closed.first();
    match least_from(receipts, closed.book().len()) {
        None => Ok(()),
        Some(place) if count_naming(receipts, place) > 1 => Err(AuditFault::Doubled(place)),
        Some(place) => Err(AuditFault::Differs(place)),
    }
}

/// How many receipts name an index.
fn count_naming(receipts: &[Receipt], place: usize) -> usize
    ensures { result ≡ length (naming place receipts.now) }
{
    receipts.iter().filter(|r| r.entry == place).count()
}

/// The least index from `from` on that a receipt names.
fn least_from(receipts: &[Receipt], from: usize) -> Option<usize>
    ensures none { IfNone result (All (λ r. r.entry < from) receipts.now) }
    ensures from { IfSome result (λ place. from ≤ place) }
    ensures named { IfSome result (λ place. 0 < length (naming place receipts.now)) }
    ensures least { IfSome result (λ place. All (λ r. from ≤ r.entry → place ≤ r.entry) receipts.now) }
{
    let mut least = None;
    for receipt in receipts {
        let place = receipt.entry;
        if place >= from && least.is_none_or(|known| place < known) {
            least = Some(place);
        }
    }
    least
}
