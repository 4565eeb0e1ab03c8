//! What holds of every history.

ghost use Rattle.std.specs.Prelude.{◌≡◌, ◌<◌, ◌≤◌, ◌+◌, ◌⊎◌, ℕ, List, Result, Ok, Err, None, Some, true, false, All, IsTrue, IsFalse};
ghost use Rattle.std.specs.List.{AllWithin, HoldsAt};
ghost use Rattle.plan_text.specs.Entries.{PlanEntry, IsPlan};
ghost use Rattle.dest_queue.specs.declared.SlotState.{SlotState};
ghost use Rattle.dest_queue.specs.declared.Outcome.{Outcome};
ghost use Rattle.event_log.specs.declared.entry.Ticket.{Ticket};
ghost use Rattle.event_log.specs.declared.entry.Entry.{Entry};
ghost use Rattle.event_log.specs.declared.entry.Entry.TheVariants.{Take, Settle, Cancel};
ghost use Rattle.event_log.specs.History.{History, followed_by, next_place};
ghost use Rattle.event_log.specs.inner.History.{snapshot_after};
ghost use Rattle.event_log.specs.Answers.{cancel_answer, keeps, known, known_before, settle_answer, take_answer};
ghost use Rattle.event_log.specs.Legal.{IsLegal, MayFollow};
ghost use Rattle.event_log.specs.inner.Legal.{IsGoodOpening, IsSound};
ghost use Rattle.event_log.specs.declared.entry.Told.{Told};
ghost use Rattle.event_log.specs.declared.refusal.DeployRefusal.{DeployRefusal};
ghost use Rattle.event_log.specs.declared.refusal.DeployRefusal.TheVariants as deploy_refusal;
ghost use Rattle.event_log.specs.Answers.{arrival_answer};
ghost use Rattle.event_log.specs.Deployment.{deploy_answer};
ghost use Rattle.event_log.specs.Event.{IsPossible, Does, Event, Refusal, Reply, answer, arrive, cancel, deploy, entry_of, event_of, full, next, settle, take};
ghost use Rattle.event_log.specs.Replay.{replay};
ghost use Rattle.event_log.specs.Room.{is_over_limit, is_full, owed};

/// The laws of histories, for every plan, bound, entry and key.
pub fn history_rules()
    // A legal history is what the sequential engine gives of its events alone, reply for reply.
    ensures replayed { (h : History) → IsLegal h → replay h ≡ h }

    // What a sequential engine gives from a good opening is sound; so it is at first, and with each entry that may follow.
    ensures sound { (h : History) → IsGoodOpening h.opening → IsLegal h → IsSound h }
    ensures opened { (plan : PlanEntry) (events_max : ℕ) → IsPlan plan → IsSound (snapshot_after plan events_max) }
    ensures followed { (h : History) (e : Entry) → IsSound h → MayFollow h e → IsSound (followed_by h e) }

    // A take, a settlement and a cancellation need no room beyond what is owed: none is ever refused for it.
    ensures take_fits { (h : History) (d now : ℕ) (ticket : Ticket) → IsSound h → take_answer h d now ≡ Ok ticket →
        let after = followed_by h (Take ticket now) in next_place after + owed after ≤ next_place h + owed h }
    ensures settle_fits { (h : History) (ticket : Ticket) (outcome : Outcome) (now : ℕ) (state : SlotState) →
        IsSound h → settle_answer h ticket outcome now ≡ Ok state →
        let after = followed_by h (Settle outcome ticket now state) in next_place after + owed after ≤ next_place h + owed h }
    ensures cancel_fits { (h : History) (number among mask : ℕ) → IsSound h → cancel_answer h number among ≡ Ok mask →
        let after = followed_by h (Cancel number among mask) in next_place after + owed after ≤ next_place h + owed h }

    // A key is known where it is remembered, else at the first entry that keeps it, and unknown where there is neither.
    ensures known_inside { (h : History) (key : List ℕ) (place : ℕ) → IsGoodOpening h.opening
        → known h key ≡ Some place → place < next_place h }
    ensures known_remembered { (h : History) (key : List ℕ) (place : ℕ) → known_before h.opening key ≡ Some place
        → known h key ≡ Some place }
    ensures known_there { (h : History) (key : List ℕ) (place : ℕ) →
        known_before h.opening key ≡ None → known h key ≡ Some (h.opening.places + place) →
        HoldsAt (λ e. IsTrue (keeps key e)) h.entries place }
    ensures known_first { (h : History) (key : List ℕ) (place : ℕ) →
        known_before h.opening key ≡ None → known h key ≡ Some (h.opening.places + place) →
        AllWithin (λ e. IsFalse (keeps key e)) h.entries 0 place }
    ensures unknown { (h : History) (key : List ℕ) → known h key ≡ None →
        (known_before h.opening key ≡ None) × All (λ e. IsFalse (keeps key e)) h.entries }
{}

/// The laws of events, for every history.
pub fn event_rules()
    // The reply to an event is by its kind one of five.
    ensures arrival { (h : History) (conn channel : ℕ) (raw : List ℕ) (told : Told) →
        is_full h channel raw ≡ false → arrival_answer h channel raw ≡ Some told →
        answer h (arrive conn channel raw) ≡ Ok told }
    ensures arrival_full { (h : History) (conn channel : ℕ) (raw : List ℕ) →
        is_full h channel raw ≡ true → answer h (arrive conn channel raw) ≡ Err full }
    ensures taken { (h : History) (d now : ℕ) → answer h (take d now) ≡ take_answer h d now }
    ensures settled { (h : History) (ticket : Ticket) (outcome : Outcome) (now : ℕ) →
        answer h (settle ticket outcome now) ≡ settle_answer h ticket outcome now }
    ensures cancelled { (h : History) (number among : ℕ) → answer h (cancel number among) ≡ cancel_answer h number among }
    ensures deployed { (h : History) (plan : PlanEntry) →
        deploy_answer h plan ≡ None → is_over_limit h 0 ≡ false → answer h (deploy plan) ≡ Ok tt }
    ensures deployed_full { (h : History) (plan : PlanEntry) →
        deploy_answer h plan ≡ None → is_over_limit h 0 ≡ true → answer h (deploy plan) ≡ Err deploy_refusal.Full }
    ensures not_deployed { (h : History) (plan : PlanEntry) (refusal : DeployRefusal) →
        deploy_answer h plan ≡ Some refusal → answer h (deploy plan) ≡ Err refusal }

    // An entry that may follow is what its event brings, and what is booked of a possible event may follow.
    ensures again { (h : History) (e : Entry) → MayFollow h e → next h (event_of e) ≡ followed_by h e }
    ensures follows { (h : History) (e : Event) (reply : Reply e) →
        IsPossible e → answer h e ≡ Ok reply → MayFollow h (entry_of e reply) }

    // A call that does an event leaves the history after it, or as it was.
    ensures leaves { (e : Event) (old new : History) (result : Result (Reply e) (Refusal e)) →
        Does e old new result → (new ≡ next old e) ⊎ (new ≡ old) }
{}
