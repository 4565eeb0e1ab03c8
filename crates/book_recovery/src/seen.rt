//! What the records of a file say beside the book.

ghost use Rattle.std.specs.Prelude.{◌≡◌, max, map, None};
ghost use Rattle.std.specs.Option.{option_map_or};
ghost use Rattle.book_recovery.specs.Seen.{connection_of, last_second, moment_of, second_of};
ghost use Rattle.book_recovery.specs.inner.Redone.{more_connection, more_moment};

use event_records::Record;
use event_store::StoredRecord;

/// What the records so far say beside the book.
#[derive(Clone, Copy, Debug, PartialEq, Eq)]
pub(crate) struct Seen {
    /// The highest number of a connection over which a message arrived, if one did.
    pub(crate) connection: Option<u32>,
    /// The last moment of a take or a settlement, in seconds since 1970.
    pub(crate) moment: u64,
}

/// The greater of two numbers, of which the first may be missing.
fn greater(a: Option<u32>, b: u32) -> u32
    ensures { result ≡ option_map_or (λ a. max a b) a b }
{
    match a {
        Some(a) if a > b => a,
        _ => b,
    }
}

impl Seen {
    /// What no records say.
    pub(crate) fn nothing() -> Seen
        ensures connection { result.connection ≡ None }
        ensures moment { result.moment ≡ 0 }
    {
        Seen {
            connection: None,
            moment: 0,
        }
    }

    /// Adds what one more record says.
    pub(crate) fn note(&mut self, item: &Record)
        ensures connection { self.new.connection ≡ more_connection self.old.connection (connection_of item.now) }
        ensures moment { self.new.moment ≡ more_moment self.old.moment (moment_of item.now) }
    {
        match item {
            Record::Arrival { conn, .. } => {
                self.connection = Some(greater(self.connection, *conn));
            }
            Record::Take { now, .. } | Record::Settle { now, .. } => {
                let now = now.secs();
                if now > self.moment {
                    self.moment = now;
                }
            }
            _ => {}
        }
    }
}

/// The second of a moment in milliseconds since 1970, or 0 where it is before.
fn second_of(at: i64) -> u64
    ensures { result ≡ second_of at }
{
    match u64::try_from(at) {
        Ok(at) => at / 1_000,
        Err(_) => 0,
    }
}

/// The last second at which a row was written, or 0 where there is none.
pub(crate) fn last_second(rows: &[StoredRecord]) -> u64
    ensures { result ≡ last_second (map (λ r. r.at) rows.now) }
{
    let mut last = 0;
    for row in rows {
        let second = second_of(row.at);
        if second > last {
            last = second;
        }
    }
    last
}
