//! What was written is read back.

ghost use Rattle.std.specs.Prelude.{◌≡◌, ◌≤◌, ◌+◌, [], ◌∷◌, ℕ, List, IsUtf8, Ok, Some, false, map};
ghost use Rattle.std.specs.Option.{option_map};
ghost use Rattle.plan_text.specs.Entries.{PlanEntry};
ghost use Rattle.dest_queue.specs.declared.SlotState.{SlotState};
ghost use Rattle.event_log.specs.History.{History, Snapshot, begun, message_at, queue, slot};
ghost use Rattle.event_log.specs.Room.{is_in_flight};
ghost use Rattle.event_log.specs.inner.Legal.{IsGoodOpening};
ghost use Rattle.event_log.specs.inner.Room.{in_flight};
ghost use Rattle.opening_maps.specs.inner.GivenBack.{AreStarted, given_back, state_given_back};
ghost use Rattle.opening_records.specs.inner.Openings.{with_bound};
ghost use Rattle.book_recovery.specs.Interrupting.{flying};
ghost use Rattle.event_records.specs.declared.record.Record.{Record};
ghost use Rattle.event_records.specs.inner.Encoding.{encoding};
ghost use Rattle.book_replay.specs.Replay.{after_records};
ghost use Rattle.book_recovery.specs.declared.fault.RecoveryError.{RecoveryError};
ghost use Rattle.book_recovery.specs.inner.File.{AreAtRest, IsExcused, IsFailure, IsRecoverable, IsRecovered, MayGoOn, going_on, rebound, record_in, start};
ghost use Rattle.book_recovery.specs.inner.Header.{AreBytes, Contents, Fits, header_bytes, header_in};
ghost use Rattle.book_recovery.specs.inner.Preface.{Preface, PrefaceFits, preface_bytes, preface_in};

/// The laws of a header's encoding.
pub fn header_rules()
    // What is written is read back.
    ensures back { (c : Contents) → Fits c → header_in (header_bytes c) ≡ Ok c }

    // Bytes that are read are the encoding of what is read.
    ensures only { (bytes : List ℕ) (c : Contents) → AreBytes bytes → header_in bytes ≡ Ok c → bytes ≡ header_bytes c }

    // What is read fits.
    ensures fits { (bytes : List ℕ) (c : Contents) → AreBytes bytes → header_in bytes ≡ Ok c → Fits c }
{}

/// The laws of a preface's encoding.
pub fn preface_rules()
    // What is written is read back.
    ensures back { (p : Preface) → PrefaceFits p → preface_in (preface_bytes p) ≡ Some p }

    // Bytes that are read are the encoding of what is read.
    ensures only { (bytes : List ℕ) (p : Preface) → AreBytes bytes → preface_in bytes ≡ Some p → bytes ≡ preface_bytes p }

    // No preface is a header, and none is a record.
    ensures no_header { (p : Preface) (c : Contents) → preface_bytes p ≡ header_bytes c → ⊥ }
    ensures no_record { (body : List ℕ) (p : Preface) (r : Record) → AreBytes body → preface_in body ≡ Some p → record_in body ≡ Some r → ⊥ }

    // What is written of a preface and of records is recovered.
    ensures written { (p : Preface) (o : Snapshot) (rs : List Record) → MayGoOn p o rs
        → IsRecovered (preface_bytes p ∷ map encoding rs) (after_records (begun o) rs) }
{}

/// The laws of a book that goes on from another, whose entries are folded, with this bound of its entries.
pub fn going_on_rules()
    // No message changes: its channel, its bytes, where it goes and with which texts.
    ensures messages { (h : History) (bound n : ℕ) → h.entries ≡ [] →
        message_at (going_on bound h) n ≡ message_at h n }

    // A message in flight at a destination waits there again, its attempt not counted. No other state changes.
    ensures slots { (h : History) (bound n d : ℕ) → h.entries ≡ [] →
        slot (going_on bound h) n d ≡ option_map state_given_back (slot h n d) }
    ensures others { (s : SlotState) → is_in_flight s ≡ false → state_given_back s ≡ s }

    // Each queue has its messages in their order, and none is in flight.
    ensures queues { (h : History) (bound d : ℕ) → h.entries ≡ [] → queue (going_on bound h) d ≡ queue h d }
    ensures at_rest { (h : History) (bound : ℕ) → h.entries ≡ [] → flying (going_on bound h) ≡ 0 }

    // Where none was in flight nothing changes but the bound.
    ensures unchanged { (h : History) (bound : ℕ) → AreAtRest h.opening → going_on bound h ≡ rebound bound h }

    // A bound is enough that is greater than the old one by the number of messages that were in flight.
    ensures enough { (h : History) (bound : ℕ) → h.entries ≡ [] → IsGoodOpening h.opening → AreStarted h.opening →
        h.opening.events_max + in_flight h ≤ bound → IsGoodOpening (with_bound bound (given_back h.opening)) }
{}

/// The laws of a file's records.
pub fn recovery_rules()
    // No header is a record.
    ensures apart { (body : List ℕ) (c : Contents) (r : Record) → AreBytes body → header_in body ≡ Ok c → record_in body ≡ Some r → ⊥ }

    // What is written of a header and of records is recovered.
    ensures written { (c : Contents) (plan : PlanEntry) (rs : List Record) → IsRecoverable c plan rs
        → IsRecovered (header_bytes c ∷ map encoding rs) (after_records (start c plan) rs) }

    // Its recovery is refused neither for a record that is damaged, nor because the book refuses one or answers it otherwise.
    ensures not_refused { (c : Contents) (plan : PlanEntry) (rs : List Record) → IsRecoverable c plan rs → IsUtf8 c.document
        → (e : RecoveryError) → IsFailure (header_bytes c ∷ map encoding rs) e → IsExcused e }

    // One history alone is recovered from a file.
    ensures one { (bodies : List (List ℕ)) (h k : History) → IsRecovered bodies h → IsRecovered bodies k → h ≡ k }
{}
