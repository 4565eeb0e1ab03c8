//! The laws of a restart.

ghost use Rattle.std.specs.Prelude.{◌≡◌, ◌<◌, ◌∷◌, ◌++◌, [], ℕ, List, map};
ghost use mathlib.Core.List.{IsPrefix};
ghost use Rattle.event_log.specs.History.{History, next_place};
ghost use Rattle.book_lock.specs.declared.copied.Copied.{Copied};
ghost use Rattle.book_lock.specs.declared.log_entry.LogEntry.{LogEntry};
ghost use Rattle.event_records.specs.declared.record.Record.{Record};
ghost use Rattle.book_lock.specs.Durable.{IsCommittedBelow, changes_of};
ghost use Rattle.book_lock.specs.Journal.{Copies, change_copied};
ghost use Rattle.book_lock.specs.Log.{IsLegalLog, Log, SeatView, after_log};
ghost use Rattle.book_replay.specs.Replay.{AreReplayed, after_records};
ghost use Rattle.restart_laws.specs.Restart.{AreRecordsOf};

/// The laws of a restart, for every opening, every legal log of a shared book and the records of its changes.
pub fn restart_rules()
    // The records of a log's changes make of the opening what the log makes of it: so a book through which they are replayed
    // has the history of the shared book after just that log.
    ensures same { (opening : History) (entries : Log) (rs : List Record) → IsLegalLog opening entries
        → AreRecordsOf rs (changes_of entries) → after_records opening rs ≡ after_log opening entries }

    // So do the records of a beginning of the log, as a crash leaves them.
    ensures beginning { (opening : History) (durable rest : Log) (rs : List Record) → IsLegalLog opening (durable ++ rest)
        → AreRecordsOf rs (changes_of durable) → after_records opening rs ≡ after_log opening durable }

    // Records of what a journal has copied, with records behind them of what it copies now, are the records of the
    // log as far as it has then seen it. So `same` is about them: the log that it has seen is legal.
    ensures copied { (opening : History) (old new : SeatView) (changes : List Copied) (rs more : List Record)
        → Copies opening old new changes → AreRecordsOf rs (changes_of old.seen)
        → AreRecordsOf more (map change_copied changes) → AreRecordsOf (rs ++ more) (changes_of new.seen) }

    // Where such records were committed below an index, a book through which they are replayed has that next index: so it has
    // each entry below it.
    ensures committed { (opening : History) (entries : Log) (rs : List Record) (below : ℕ) → IsLegalLog opening entries
        → IsCommittedBelow opening (AreRecordsOf rs) entries below → next_place (after_records opening rs) ≡ below }

    // Of an entry of a seat's own: where the index behind what is durable is above the index that the entry was given, it is
    // durable, with all that the seat had seen. So one comparison of two indices says whether an arrival is durable.
    ensures covered { (opening : History) (seen durable entries : Log) (own : ℕ × LogEntry) → IsPrefix (seen ++ own ∷ []) entries
        → IsPrefix durable entries → next_place (after_log opening seen) < next_place (after_log opening durable)
        → IsPrefix (seen ++ own ∷ []) durable }

    // Each record is booked again, and each arrival is answered as its sender was: so a replay of them stops neither because
    // the book refuses one nor because it answers one otherwise (`replay_rules` of book_replay).
    ensures replayed { (opening : History) (entries : Log) (rs : List Record) → IsLegalLog opening entries
        → AreRecordsOf rs (changes_of entries) → AreReplayed opening rs }
{}
