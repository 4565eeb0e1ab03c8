//! The indices of the history, a window of them at a time: each window costs one pass over the receipts, and no memory
//! but a table of a byte for each of its indices.

ghost use Rattle.std.specs.Prelude.{◌≡◌, ◌≢◌, ◌+◌, ◌<◌, ◌≤◌, ◌↔◌, [], ◌∷◌, if◌then◌else◌, Some, is_some, IsTrue, IfErr, OnOk, All, length, slice_index_or};
ghost use Rattle.event_log.specs.History.{next_place};
ghost use Rattle.book_lock.specs.Auditing.{IsFault, IsFirstFault, IsRightAt, IsUnfolded, is_folded, naming, fault_place, receipt_at, receipts_due};
ghost use Rattle.book_lock.specs.inner.Windows.{Tells, fault_at, named_again};

use crate::locked::Closed;
use crate::receipt_audit::AuditFault;
use book_core::{BookRows, Entry, Receipt};

/// How many indices the audit looks at in one pass over the receipts.
pub const WINDOW: usize = 65_536;

/// How the receipts that name an index agree with the one that is due there.
#[derive(Clone, Copy)]
pub enum ReceiptMatch {
    /// None names it.
    Never,
    /// One names it, which is the one that is due.
    Right,
    /// One names it, which is not.
    Wrong,
    /// More than one names it.
    Often,
}

impl ReceiptMatch {
    /// How the index is named with one more receipt that names it, which is due there or not.
    fn named_again(self, is_due: bool) -> ReceiptMatch
        ensures { result ≡ named_again self is_due }
    {
        match (self, is_due) {
            (ReceiptMatch::Never, true) => ReceiptMatch::Right,
            (ReceiptMatch::Never, false) => ReceiptMatch::Wrong,
            _ => ReceiptMatch::Often,
        }
    }
}

/// Whether the receipts are right at every index of the history that isn't folded, in windows of the table's size.
///
/// # Errors
///
/// The fault at the least index of the history that is wrong.
pub fn check_windows<S: BookRows>(
    closed: &Closed<S>,
    receipts: &[Receipt],
    table: &mut [ReceiptMatch],
) -> Result<(), AuditFault>
    requires { 0 < length table.old }
    ensures right { OnOk result ((p : _) → p < next_place closed.now.book → IsRightAt closed.now receipts.now p) }
    ensures fault { IfErr result (IsFirstFault closed.now receipts.now) }
{
    let end = closed.book().len();
    let mut from = 0;
    while from < end {
        let size = table.len().min(end - from);
        check_window(closed, receipts, from, &mut table[..size])?;
        from += size;
    }
    Ok(())
}

/// Whether the receipts are right at each index from `from` on that the table has room for.
///
/// # Errors
///
/// The fault at the least of these indices that is wrong.
fn check_window<S: BookRows>(
    closed: &Closed<S>,
    receipts: &[Receipt],
    from: usize,
    table: &mut [ReceiptMatch],
) -> Result<(), AuditFault>
    requires within { from + length table.old ≤ next_place closed.now.book }
    ensures right { OnOk result ((p : _) → from ≤ p → p < from + length table.old → IsRightAt closed.now receipts.now p) }
    ensures fault { IfErr result (λ fault. IsFault closed.now receipts.now fault × IsUnfolded closed.now fault) }
    ensures before { IfErr result (λ fault. (p : _) → from ≤ p → p < fault_place fault → IsRightAt closed.now receipts.now p) }
{
    tell(closed, receipts, from, table);
    let _end = closed.book().len();
    for k in 0..table.len() {
        let place = from + k;
        let named = named_at(closed, place, table[k]);
        if let Some(fault) = fault_at(place, named, is_due_at(closed, place)) {
            return Err(fault);
        }
    }
    Ok(())
}

/// How an index is named. One that was folded since the book was shared is left aside: nothing is due there, and
/// none is taken to name it.
fn named_at<S: BookRows>(closed: &Closed<S>, place: usize, named: ReceiptMatch) -> ReceiptMatch
    ensures { result ≡ (if is_folded closed.now place then ReceiptMatch.Never else named) }
{
    if closed.first() <= place && place < closed.book().first_place() {
        return ReceiptMatch::Never;
    }
    named
}

/// What is wrong at an index, by how it is named, and by whether a receipt is due there.
fn fault_at(place: usize, named: ReceiptMatch, is_due: bool) -> Option<AuditFault>
    ensures { result ≡ fault_at place named is_due }
{
    match named {
        ReceiptMatch::Never if is_due => Some(AuditFault::Missing(place)),
        ReceiptMatch::Never | ReceiptMatch::Right => None,
        ReceiptMatch::Wrong => Some(AuditFault::Differs(place)),
        ReceiptMatch::Often => Some(AuditFault::Doubled(place)),
    }
}

/// Fills the table with how the receipts name the indices from `from` on.
fn tell<S: BookRows>(
    closed: &Closed<S>,
    receipts: &[Receipt],
    from: usize,
    table: &mut [ReceiptMatch],
)
    ensures size { length table.new ≡ length table.old }
    ensures told { Tells closed.now receipts.now from table.new }
{
    table.fill(ReceiptMatch::Never);
    for receipt in receipts {
        let place = receipt.entry;
        if from <= place && place - from < table.len() {
            let k = place - from;
            table[k] = table[k].named_again(is_due(closed, receipt));
        }
    }
}

/// Whether a receipt is the one that is due at the index that it names.
fn is_due<S: BookRows>(closed: &Closed<S>, receipt: &Receipt) -> bool
    ensures { IsTrue result ↔ (receipt.now ∷ [] ≡ naming receipt.now.entry (receipts_due closed.now)) }
{
    let place = receipt.entry;
    if place < closed.first() {
        return false;
    }
    match closed.book().entry(place) {
        Some(entry) => is_receipt_of(receipt, entry),
        None => false,
    }
}

/// Whether a receipt is due at an index.
fn is_due_at<S: BookRows>(closed: &Closed<S>, place: usize) -> bool
    ensures { IsTrue result ↔ (naming place (receipts_due closed.now) ≢ []) }
{
    if place < closed.first() {
        return false;
    }
    match closed.book().entry(place) {
        Some(entry) => is_arrival(entry),
        None => false,
    }
}

/// Whether an entry is an arrival, which has a receipt.
fn is_arrival(entry: &Entry) -> bool
    ensures { (place : _) → is_some (receipt_at place entry.now) ≡ result }
{
    matches!(entry, Entry::Arrival { .. })
}

/// Whether a receipt is that of an entry at the index that it names.
fn is_receipt_of(receipt: &Receipt, entry: &Entry) -> bool
    ensures { IsTrue result ↔ (receipt_at receipt.now.entry entry.now ≡ Some receipt.now) }
{
    match entry {
        Entry::Arrival {
            conn,
            channel,
            raw,
            told,
        } => {
            *conn == receipt.conn
                && *channel == receipt.channel
                && *told == receipt.told
                && raw.as_slice() == receipt.raw.as_slice()
        }
        _ => false,
    }
}
