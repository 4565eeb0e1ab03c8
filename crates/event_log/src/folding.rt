//! What a pruned history still says.

ghost use Rattle.std.specs.Prelude.{◌≡◌, ◌<◌, ◌≤◌, ◌+◌, ℕ, List, None, Some, false, nat_le, if◌then◌else◌, option_and_then, All, AllPairs, map};
ghost use Rattle.std.specs.List.{filter_map};
ghost use Rattle.std.specs.List.Sorted.{IsStrictlyIncreasing};
ghost use Rattle.judge_core.specs.Judging.{key_of};
ghost use Rattle.event_log.specs.Alike.{AllReplyAlike, RepliesAlike, AreMet, Aside, IsAlike, IsMet, forgotten_by};
ghost use Rattle.event_log.specs.Answers.{has_key, known};
ghost use Rattle.event_log.specs.Counting.{destination_counts};
ghost use Rattle.event_log.specs.Folding.{arrival_place, folded, prune_answer, pruned};
ghost use Rattle.event_log.specs.History.{History, message_count, plan_in_force};
ghost use Rattle.event_log.specs.inner.History.{number_of};
ghost use Rattle.event_log.specs.inner.Legal.{IsGoodOpening, IsMemory, IsSound};
ghost use Rattle.event_log.specs.Event.{Event, next, run};
ghost use Rattle.event_log.specs.Room.{owed};

use fixed_numbers::EVENTS_MAX;

/// The laws of pruning, for every history and every number of messages that are forgotten of it.
pub fn folding_rules()
    // A pruned history is alike the one that was pruned, but for what was forgotten.
    ensures folded { (h : History) (bound : ℕ) → IsSound h → prune_answer h bound ≡ None
        → IsAlike (forgotten_by bound h) h (pruned bound h) }

    // It has the same bound of entries.
    ensures bound_kept { (h : History) (bound : ℕ) → (pruned bound h).opening.events_max ≡ h.opening.events_max }

    // What remains is remembered in order of index and of number, each arrival as an opening may have it, with a key
    // of its own. As much is owed as before.
    ensures memories { (h : History) (bound : ℕ) → IsSound h → All (IsMemory (plan_in_force h)) (folded bound h).remembered }
    ensures places { (h : History) (bound : ℕ) → IsSound h → IsStrictlyIncreasing (map (λ r. r.place) (folded bound h).remembered) }
    ensures numbers { (h : History) (bound : ℕ) → IsSound h → IsStrictlyIncreasing (filter_map number_of (folded bound h).remembered) }
    ensures numbers_within { (h : History) (bound : ℕ) → IsSound h →
        All (λ n. n < message_count h) (filter_map number_of (folded bound h).remembered) }
    ensures keys { (h : History) (bound : ℕ) → IsSound h
        → AllPairs (λ r s. has_key (key_of r.channel r.raw) s ≡ false) (folded bound h).remembered }
    ensures owes { (h : History) (bound : ℕ) → IsSound h → prune_answer h bound ≡ None → owed (pruned bound h) ≡ owed h }

    // Keys of arrivals from the first remembered message on keep their index; keys of earlier arrivals are unknown.
    ensures known { (h : History) (bound : ℕ) (key : List ℕ) → IsSound h → prune_answer h bound ≡ None
        → known (pruned bound h) key
        ≡ option_and_then (λ place. if nat_le (arrival_place h bound) place then Some place else None) (known h key) }

    // So a book may go on from it, where no more messages were delivered or are in flight at a destination than attempts were begun.
    ensures good { (h : History) (bound : ℕ) → IsSound h → prune_answer h bound ≡ None → h.opening.events_max ≤ EVENTS_MAX
        → ((d : ℕ) → d < 32 → (destination_counts h d).inflight + (destination_counts h d).delivered ≤ (destination_counts h d).attempts)
        → IsGoodOpening (folded bound h) }

    // Two histories that are alike, but for what is left aside, answer alike each event that names nothing of it, where both have room for it. They
    // stay alike with it.
    ensures answered { (aside : Aside) (h k : History) (e : Event) → IsSound h → IsSound k →
        IsAlike aside h k → IsMet aside h k e → RepliesAlike h k e }
    ensures followed { (aside : Aside) (h k : History) (e : Event) → IsSound h → IsSound k → IsAlike aside h k → IsMet aside h k e
        → IsAlike aside (next h e) (next k e) }

    // So it is with every list of such events.
    ensures answered_all { (aside : Aside) (h k : History) (es : List Event) → IsSound h → IsSound k →
        IsAlike aside h k → AreMet aside h k es → AllReplyAlike h k es }
    ensures run_on { (aside : Aside) (h k : History) (es : List Event) → IsSound h → IsSound k → IsAlike aside h k → AreMet aside h k es
        → IsAlike aside (run h es) (run k es) }

    // So a pruned history answers like the one that was pruned, event by event, as long as they name nothing that was forgotten and both have room.
    ensures pruned_answers { (h : History) (bound : ℕ) (es : List Event) → IsSound h → prune_answer h bound ≡ None
        → AreMet (forgotten_by bound h) h (pruned bound h) es → AllReplyAlike h (pruned bound h) es }
    ensures pruned_runs { (h : History) (bound : ℕ) (es : List Event) → IsSound h → prune_answer h bound ≡ None
        → AreMet (forgotten_by bound h) h (pruned bound h) es
        → IsAlike (forgotten_by bound h) (run h es) (run (pruned bound h) es) }
{}
