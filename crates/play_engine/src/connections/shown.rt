//! How answers are written.

use book_core::{Book, BookRows, Receipt, Told};
use conn_worker::ServeReport;
use event_log::Entry;
use play_script::shown;
use std::alloc::{AllocError, Global};

/// Replies, a block a line.
///
/// # Errors
///
/// Where memory is refused.
pub(crate) fn replies_shown(alloc: Global, bytes: &[u8]) -> Result<String, AllocError> {
    if bytes.is_empty() {
        return Ok(String::new(alloc));
    }
    let blocks = shown(alloc, bytes)?;
    let lines = blocks.replace(alloc, "<FS><CR><VT>", "<FS><CR>\n  <VT>")?;
    format!(in alloc; "  {lines}\n")
}

/// Adds an arrival: its entry, the connection and the channel over which it was received, its number of bytes and its answer.
fn add_arrival(
    text: &mut String,
    entry: usize,
    conn: u32,
    channel: u32,
    len: usize,
    told: Told,
) -> Result<(), AllocError> {
    writeln!(
        text,
        "  entry {entry}: connection {conn}, channel {channel}, {len} bytes, {told:?}"
    )
}

/// Adds the arrivals of which receipts were kept.
///
/// # Errors
///
/// Where memory is refused.
pub(crate) fn add_receipts(text: &mut String, receipts: &[Receipt]) -> Result<(), AllocError> {
    for receipt in receipts {
        let len = receipt.raw.as_slice().len();
        add_arrival(
            text,
            receipt.entry,
            receipt.conn,
            receipt.channel,
            len,
            receipt.told,
        )?;
    }
    Ok(())
}

/// Adds the arrivals that a book holds from an entry on.
///
/// # Errors
///
/// Where memory is refused.
pub(crate) fn add_entries<S: BookRows>(
    text: &mut String,
    book: &Book<S>,
    first: usize,
) -> Result<(), AllocError> {
    for place in first..book.len() {
        if let Some(
            Entry::Arrival {
                conn,
                channel,
                raw,
                told,
            },
        ) = book.entry(place)
        {
            add_arrival(text, place, *conn, *channel, raw.as_slice().len(), *told)?;
        }
    }
    Ok(())
}

/// Adds what the blocks of a connection and its end were.
///
/// # Errors
///
/// Where memory is refused.
pub(crate) fn add_end<K>(text: &mut String, report: &ServeReport<K>) -> Result<(), AllocError> {
    writeln!(
        text,
        "  unreadable {}, strays {}, breaks {}, unbooked {}, end {:?}",
        report.unreadable, report.strays, report.breaks, report.unbooked, report.end
    )
}

/// What is sent of a message.
///
/// # Errors
///
/// Where memory is refused.
pub(crate) fn payload_shown(alloc: Global, payload: &[u8]) -> Result<String, AllocError> {
    let payload = shown(alloc, payload)?;
    format!(in alloc; "  {payload}\n")
}
