//! The promise of the engine, for every run of it.

ghost use Rattle.std.specs.Prelude.{◌≡◌, ◌≤◌, ℕ, List, None, Some, map};
ghost use Rattle.std.specs.List.{AllByRecursion, Contains};
ghost use mathlib.Core.List.{IsPrefix};
ghost use Rattle.plan_text.specs.Entries.{IsPlan, PlanEntry};
ghost use Rattle.event_log.specs.declared.entry.Told.{Told};
ghost use Rattle.event_log.specs.History.{Accepted, History, message_at};
ghost use Rattle.book_core.specs.declared.receipt.Receipt.{Receipt};
ghost use Rattle.book_lock.specs.Log.{IsBookOf, Log, SeatView};
ghost use Rattle.book_lock.specs.inner.Sound.{IsSoundBook};
ghost use Rattle.conn_core.specs.Messages.{booked, message_by};
ghost use Rattle.conn_core.specs.Replies.{Answer, Due, dues_of};
ghost use Rattle.conn_worker.specs.Arriving.{BooksInLog, IsKnownIn};
ghost use Rattle.conn_worker.specs.Serving.{IsKnownIfRepeated};
ghost use Rattle.delivery_worker.specs.Sent.{book_before};
ghost use Rattle.promise.specs.Promise.{Arrival, IsHeld, IsPositive, IsPromised, IsSuccess, empty_book};

/// A message that is acknowledged with CA, or with AA in original mode, is kept exactly once for each destination that its channel
/// names, and for no other; or it was filtered, and goes nowhere; or it repeats one that the book had, and was booked as a repeat,
/// or there was no room for that. So it is in each run: one legal log of all calls, of whatever threads, makes the book of the sound book with which the run began.
pub fn ca_is_kept()
    // On a connection that is served at a seat of the run: it answered these messages, and what of them was booked has these
    // receipts, which the seat booked in the log (`served` and `booked` of the calls that serve a connection); and what was
    // answered as a repeat without being booked was known to the book at a moment that the seat has seen (`known` of `served`).
    ensures acknowledged { (opening : History) (entries : Log) (book : History)
        → IsSoundBook opening → IsBookOf opening entries book
        → (old new : SeatView) (receipts : List Receipt) → BooksInLog opening old new receipts → IsPrefix new.seen entries
        → (conn channel : ℕ) (answers : List Answer) → map message_by receipts ≡ booked conn channel answers
        → AllByRecursion (IsKnownIfRepeated (IsKnownIn opening new.seen channel)) answers
        → (answer : Answer) → Contains answers answer
        → (due : Due) → Contains (dues_of answer) due → IsPositive due.part.code
        → IsPromised opening entries book channel answer.raw }

    // Each arrival that was answered with a success is kept so.
    ensures answered { (opening : History) (entries : Log) (book : History)
        → IsSoundBook opening → IsBookOf opening entries book
        → (channel : ℕ) (raw : List ℕ) (answer : Told) → IsSuccess answer → Arrival entries channel raw answer
        → IsPromised opening entries book channel raw }

    // A message that the book knew at a moment of the run, by its key and its bytes, is kept so: it may be answered as a repeat
    // without being booked.
    ensures repeated_unbooked { (opening : History) (entries : Log) (book : History)
        → IsSoundBook opening → IsBookOf opening entries book
        → (channel : ℕ) (raw : List ℕ) → IsKnownIn opening entries channel raw
        → IsPromised opening entries book channel raw }

    // The book has no message, at any moment of the run, but those that it began with and those that were accepted in the log.
    ensures no_other { (opening : History) (entries : Log) (book : History)
        → IsSoundBook opening → IsBookOf opening entries book
        → (index n : ℕ) (m : Accepted) → message_at (book_before opening entries index) n ≡ Some m
        → IsHeld opening entries book n m }

    // A run may begin with the empty book of a plan, which has no message.
    ensures empty { (plan : PlanEntry) (events_max : ℕ) → IsPlan plan → events_max ≤ 1000000
        → IsSoundBook (empty_book plan events_max) × ((n : ℕ) → message_at (empty_book plan events_max) n ≡ None) }
{}
