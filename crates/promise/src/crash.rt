//! The promise after a crash.

ghost use Rattle.std.specs.Prelude.{ℕ, List};
ghost use mathlib.Core.List.{IsPrefix};
ghost use Rattle.event_log.specs.History.{History};
ghost use Rattle.event_log.specs.declared.entry.Entry.TheVariants.{Arrival};
ghost use Rattle.event_log.specs.declared.entry.Told.{Told};
ghost use Rattle.event_store.specs.Records.{AreDurable, Record as Row};
ghost use Rattle.book_lock.specs.Durable.{AreCommitted};
ghost use Rattle.book_lock.specs.Log.{IsBookOf, IsLegalLog, Log, after_log};
ghost use Rattle.book_lock.specs.declared.log_entry.LogEntry.TheVariants.{Booked};
ghost use Rattle.book_lock.specs.inner.Sound.{IsSoundBook};
ghost use Rattle.book_recovery.specs.inner.File.{IsRecovered};
ghost use Rattle.book_journal.specs.inner.Crash.{OutlivesCrash, WasCommitted};
ghost use Rattle.book_journal.specs.inner.Held.{bodies_of};
ghost use Rattle.conn_worker.specs.Arriving.{IsDurablyKnown};
ghost use Rattle.promise.specs.Promise.{IsSuccess};
ghost use Rattle.promise.specs.inner.Found.{IsFoundAfterCrash};

use sqlite_trees::store::Store;

/// A message that was acknowledged with CA, or with AA in original mode, by a service with a store, is in the book that is recovered
/// after a crash at any moment, or what it repeats is, and it is kept there as `ca_is_kept` says.
pub fn ca_outlives_a_crash<S: Store>()
    // The premise that the arrival outlives a crash is what `crash_rules` of book_journal says of each arrival that is durable by
    // what its seat has seen (`acknowledged`): no acknowledgment is written before (`write_out` requires it).
    ensures found { (opening : History) (entries seen : Log) (number conn channel : ℕ) (raw : List ℕ) (answer : Told)
        → IsSoundBook opening → IsLegalLog opening entries → IsSuccess answer
        → OutlivesCrash S.Store.view S.Store.recovers opening entries seen
        (number, Booked (Arrival conn channel raw answer))
        → IsFoundAfterCrash S.Store.view S.Store.recovers opening entries channel raw }

    // So is a message that was answered as a repeat without being booked: the book that is recovered had its key with its bytes at
    // a moment of its run. The premises are what `persist` ensures before the answer is written (`outlives`: all that the book had
    // when it knew the message is durable), what `write_out` requires (`survives`), and what the start ensures: the opening
    // is recovered from rows that a store holds, and these are durable (`recovered`, `durable`).
    ensures repeated_unbooked { (before : List Row) (opening : History) (entries : Log) (store : S)
        → (channel : ℕ) (raw : List ℕ)
        → IsRecovered (bodies_of before) opening
        → AreDurable (S.Store.view store) (S.Store.recovers store) before
        → IsSoundBook opening → IsLegalLog opening entries
        → AreCommitted opening (WasCommitted S.Store.view S.Store.recovers before) entries
        → IsDurablyKnown opening entries channel raw
        → IsFoundAfterCrash S.Store.view S.Store.recovers opening entries channel raw }

    // What is recovered is the book of a run: that of the beginning of the log.
    ensures run { (opening : History) (entries durable : Log) → IsLegalLog opening entries → IsPrefix durable entries
        → IsBookOf opening durable (after_log opening durable) }
{}
