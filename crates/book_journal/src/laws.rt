//! What is held is recovered.

ghost use Rattle.std.specs.Prelude.{◌≡◌, ◌∷◌, ◌++◌, ℕ, List};
ghost use Rattle.event_log.specs.History.{History};
ghost use Rattle.event_log.specs.declared.entry.Entry.TheVariants.{Arrival};
ghost use Rattle.event_log.specs.declared.entry.Told.{Told};
ghost use Rattle.event_store.specs.Records.{Record as Row};
ghost use Rattle.book_lock.specs.Durable.{AreArrivalsDurable, AreCommitted, HasDurable, changes_of};
ghost use Rattle.book_lock.specs.Log.{IsLegalLog, Log, SeatView, after_log};
ghost use Rattle.book_lock.specs.declared.log_entry.LogEntry.TheVariants.{Booked};
ghost use Rattle.book_recovery.specs.inner.File.{IsRecovered};
ghost use Rattle.book_journal.specs.inner.Crash.{AllBelowOutliveCrash, OutlivesCrash, WasCommitted};
ghost use Rattle.book_journal.specs.inner.Held.{HasRows, bodies_of};

use sqlite_trees::store::Store;

/// The law of what a journal holds, for every opening, every legal log of a shared book and all rows.
pub fn journal_rules()
    // Where the opening is recovered from the rows that were there before, the book after a log is recovered from these rows
    // with those of the log's changes behind them. So a start after a crash has all that was published as durable.
    ensures recovered { (before all : List Row) (opening : History) (entries : Log)
        → HasRows before all (changes_of entries) → IsLegalLog opening entries
        → IsRecovered (bodies_of before) opening
        → IsRecovered (bodies_of all) (after_log opening entries) }
{}

/// The laws of a crash, for every opening that is recovered from the rows that were there before, and every legal log.
pub fn crash_rules<S: Store>()
    // Each arrival that a seat added outlives a crash, with all that the seat had seen before it, where it is durable by what the
    // seat has seen, and what is durable follows its commit. So a sender who was answered finds the message in the file.
    ensures acknowledged { (before : List Row) (opening : History) (seat : SeatView)
        → IsRecovered (bodies_of before) opening → IsLegalLog opening seat.seen
        → AreArrivalsDurable opening seat
        → AreCommitted opening (WasCommitted S.Store.view S.Store.recovers before) seat.seen
        → (seen : Log) (conn channel : ℕ) (raw : List ℕ) (told : Told) (after : Log)
        → seat.seen ≡ seen ++ (seat.number, Booked (Arrival conn channel raw told)) ∷ after
        → OutlivesCrash S.Store.view S.Store.recovers opening seat.seen seen
        (seat.number, Booked (Arrival conn channel raw told)) }

    // All entries below an index that was published outlive a crash. So does a message that is sent by the rule that it is
    // durable, unless it was there at the opening.
    ensures published { (before : List Row) (opening : History) (entries : Log) (below : ℕ)
        → IsRecovered (bodies_of before) opening → IsLegalLog opening entries
        → AreCommitted opening (WasCommitted S.Store.view S.Store.recovers before) entries
        → HasDurable entries below
        → AllBelowOutliveCrash S.Store.view S.Store.recovers opening entries below }
{}
