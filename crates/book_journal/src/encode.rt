//! A change as the body of a row.

ghost use Rattle.std.specs.Prelude.{IfOk};
ghost use Rattle.book_lock.specs.Journal.{change_copied};
ghost use Rattle.restart_laws.specs.Restart.{IsRecordIn};
ghost use Rattle.book_journal.specs.inner.Held.{IsBodyOf};

use book_lock::Copied;
use event_records::{Record, put_record};
use judge_core::Text;
use std::alloc::{AllocError, Global};

/// The record of a change, which shares its text.
fn record_of(alloc: Global, change: &Copied) -> Result<Record, AllocError>
    ensures { IfOk result (λ r. IsRecordIn r (change_copied change.now)) }
{
    let item = match change {
        Copied::Arrival {
            conn,
            channel,
            raw,
            told,
        } => Record::Arrival {
            conn: *conn,
            channel: *channel,
            raw: raw.share()?,
            told: *told,
        },
        Copied::Take { ticket, now } => Record::Take {
            destination: ticket.destination,
            now: *now,
        },
        Copied::Settle {
            outcome,
            ticket,
            now,
            ..
        } => Record::Settle {
            ticket: *ticket,
            outcome: *outcome,
            now: *now,
        },
        Copied::Cancel { number, among, .. } => Record::Cancel {
            number: *number,
            among: *among,
        },
        Copied::Deploy { plan } => Record::Deploy {
            document: Text::new(alloc, Vec::from_slice(alloc, plan.plan().document())?)?,
        },
        Copied::Prune { before } => Record::Prune { before: *before },
    };
    Ok(item)
}

/// The body of the row of a change: the encoding of its record.
///
/// # Errors
///
/// Where memory is refused, or the change has a text of 4 GiB or more, which is refused as memory is.
pub(crate) fn body_of(alloc: Global, change: &Copied) -> Result<Vec<u8>, AllocError>
    ensures { IfOk result (λ body. IsBodyOf body.items (change_copied change.now)) }
{
    let item = record_of(alloc, change)?;
    let mut body = Vec::new(alloc);
    put_record(&mut body, &item)?;
    Ok(body)
}
