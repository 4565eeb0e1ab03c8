//! What follows for records that the sequential engine books again.

ghost use Rattle.std.specs.Prelude.{◌≡◌, ◌⊎◌, ℕ, List};
ghost use Rattle.event_log.specs.History.{History};
ghost use Rattle.event_records.specs.declared.record.Record.{Record};
ghost use Rattle.book_replay.specs.declared.fault.ReplayFault.{ReplayFault};
ghost use Rattle.book_replay.specs.declared.fault.ReplayFault.TheVariants.{Invalid, NoMemory};
ghost use Rattle.book_replay.specs.Replay.{AreReplayed, IsStopped};

/// A replay of records that the sequential engine books, and answers as they say, stops at none of them because the book
/// refuses it or answers it otherwise.
pub fn replay_rules()
    ensures only { (index : ℕ) (fault : ReplayFault) (old new : History) (records : List Record) → AreReplayed old records
        → IsStopped index fault old new records → (fault ≡ NoMemory) ⊎ (fault ≡ Invalid) }
{}
