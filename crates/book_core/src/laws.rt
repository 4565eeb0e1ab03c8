//! What holds of the statistics of every book.

ghost use Rattle.std.specs.Prelude.{◌≡◌, ◌<◌, ◌≤◌, ℕ, List, length, Ok};
ghost use Rattle.plan_text.specs.Entries.{PlanEntry};
ghost use Rattle.dest_queue.specs.declared.Outcome.{Outcome};
ghost use Rattle.dest_queue.specs.declared.SlotState.{SlotState};
ghost use Rattle.stat_count.specs.Sums.{arrivals, settlements, takes};
ghost use Rattle.event_log.specs.declared.entry.Entry.TheVariants.{Arrival, Take, Settle, Cancel, Deploy};
ghost use Rattle.event_log.specs.declared.entry.Ticket.{Ticket};
ghost use Rattle.event_log.specs.declared.entry.Told.{Told};
ghost use Rattle.event_log.specs.History.{History, followed_by, plan_in_force};
ghost use Rattle.event_log.specs.Answers.{cancel_answer, settle_answer, take_answer};
ghost use Rattle.event_log.specs.Legal.{MayFollow};
ghost use Rattle.event_log.specs.inner.Legal.{IsSound};
ghost use Rattle.event_log.specs.Counting.{counted};
ghost use Rattle.book_core.specs.inner.Counting.{SumsRise};

/// The laws of the three sums of the statistics: an arrival adds one to the arrivals, a take one to the attempts begun, a
/// settlement one to the attempts settled, and a cancellation and a deployment add to none.
pub fn three_sums()
    ensures arrival { (h : History) (conn channel : ℕ) (raw : List ℕ) (told : Told) →
        IsSound h → MayFollow h (Arrival conn channel raw told) → channel < length (plan_in_force h).channels →
        SumsRise 1 0 0 (counted h) (counted (followed_by h (Arrival conn channel raw told))) }
    ensures take { (h : History) (d now : ℕ) (ticket : Ticket) → IsSound h → take_answer h d now ≡ Ok ticket →
        SumsRise 0 1 0 (counted h) (counted (followed_by h (Take ticket now))) }
    ensures settlement { (h : History) (ticket : Ticket) (outcome : Outcome) (now : ℕ) (state : SlotState) →
        IsSound h → settle_answer h ticket outcome now ≡ Ok state →
        SumsRise 0 0 1 (counted h) (counted (followed_by h (Settle outcome ticket now state))) }
    ensures cancellation { (h : History) (number among mask : ℕ) → IsSound h → cancel_answer h number among ≡ Ok mask →
        SumsRise 0 0 0 (counted h) (counted (followed_by h (Cancel number among mask))) }
    ensures deployment { (h : History) (plan : PlanEntry) → IsSound h → MayFollow h (Deploy plan) →
        SumsRise 0 0 0 (counted h) (counted (followed_by h (Deploy plan))) }

    // The entries of a book are bounded, and so is what its statistics add up to.
    ensures few_arrivals { (h : History) → IsSound h → length h.entries ≤ 1000000 → arrivals (counted h) ≤ 128128000000 }
    ensures few_takes { (h : History) → IsSound h → length h.entries ≤ 1000000 → takes (counted h) ≤ 32032000000 }
    ensures few_settlements { (h : History) → IsSound h → length h.entries ≤ 1000000 → settlements (counted h) ≤ 32032000000 }
{}
