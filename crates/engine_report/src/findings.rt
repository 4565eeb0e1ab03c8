//! What is wrong with the receipts of the connections.

ghost use Rattle.std.specs.Prelude.{◌≡◌, ◌↔◌, ◌++◌, All, IfOk, IsErr, IsTrue, OnOk};
ghost use Rattle.std.specs.Option.{option_copied};
ghost use Rattle.engine_report.specs.Findings.{IsFinding, IsRising, audit_faults, finding_of, receipts_in};

use crate::fault::{Fault, Finding};
use book_core::{BookRows, Receipt};
use book_lock::{AuditFault, Closed, audit, rising};
use conn_worker::ServeReport;
use std::alloc::{AllocError, Global};

/// Whether the receipts of each connection are in the order in which they were booked.
fn are_rising(served: &[ServeReport]) -> bool
    ensures { IsTrue result ↔ All IsRising served.now }
{
    for report in served {
        if !rising(&report.receipts) {
            return false;
        }
    }
    true
}

/// The receipts of all connections.
fn gather(alloc: Global, served: Vec<ServeReport>) -> Result<Vec<Receipt>, AllocError>
    ensures { IfOk result (λ all. all.items ≡ receipts_in served.items) }
{
    let mut all = Vec::new(alloc);
    for report in served {
        let ServeReport { mut receipts, .. } = report;
        all.append(&mut receipts)?;
    }
    Ok(all)
}

/// The name of what an audit found.
fn finding_of(fault: AuditFault) -> Finding
    ensures { result ≡ finding_of fault }
{
    match fault {
        AuditFault::Missing(_) => Finding::Missing,
        AuditFault::Doubled(_) => Finding::Doubled,
        AuditFault::Differs(_) => Finding::Differs,
    }
}

/// What is wrong with the receipts of the connections, if anything is, once the book is closed. It couldn't be where
/// shares of it were missing.
///
/// # Errors
///
/// Where memory is refused.
pub fn find<S: BookRows>(
    alloc: Global,
    closed: Option<&Closed<S>>,
    served: Vec<ServeReport>,
) -> Result<Option<Finding>, AllocError>
    ensures { IfOk result (λ found. IsFinding (option_copied closed.entry) served.items found) }
{
    let Some(closed) = closed else {
        return Ok(Some(Finding::SharesMissing));
    };
    let in_order = are_rising(&served);
    let receipts = gather(alloc, served)?;
    match audit(closed, &receipts) {
        Err(fault) => Ok(Some(finding_of(fault))),
        Ok(()) if in_order => Ok(None),
        Ok(()) => Ok(Some(Finding::OutOfOrder)),
    }
}

/// Adds what was found, if anything was, to the faults of the doors.
///
/// # Errors
///
/// Where memory is refused. Nothing is added then.
pub fn add_finding(faults: &mut Vec<Fault<'_>>, found: Option<Finding>) -> Result<(), AllocError>
    ensures added { OnOk result (faults.new.items ≡ faults.old.items ++ audit_faults found) }
    ensures refused { IsErr result → faults.new.items ≡ faults.old.items }
{
    if let Some(found) = found {
        faults.push(Fault::Audit(found))?;
    }
    Ok(())
}
