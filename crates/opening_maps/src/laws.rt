//! What the maps of openings keep.

ghost use Rattle.std.specs.Prelude.{◌≡◌, ◌<◌, ◌≤◌, ◌+◌, ℕ, List, None, All, false};
ghost use Rattle.std.specs.Option.{option_map};
ghost use Rattle.dest_queue.specs.declared.SlotState.{SlotState};
ghost use Rattle.stat_count.specs.Statistics.{channel_at, destination_at};
ghost use Rattle.event_log.specs.Answers.{known};
ghost use Rattle.event_log.specs.Counting.{channel_counts, destination_counts};
ghost use Rattle.event_log.specs.History.{Snapshot, begun, message_at, slot};
ghost use Rattle.event_log.specs.Room.{is_in_flight, owed};
ghost use Rattle.event_log.specs.inner.Legal.{IsGoodOpening};
ghost use Rattle.event_log.specs.inner.Room.{in_flight};
ghost use Rattle.opening_maps.specs.inner.GivenBack.{AreStarted, counts_given_back, given_back, state_given_back};
ghost use Rattle.opening_maps.specs.inner.Openings.{with_bound};
ghost use Rattle.opening_maps.specs.declared.rebasing.Lowered.{Lowered};
ghost use Rattle.opening_maps.specs.inner.Rebased.{IsNoMore, MayBeLowered, first_number, first_place, lowering, opening_lower, rebased};
ghost use Rattle.opening_maps.specs.inner.SetAside.{channels_added, counts_aside, destinations_added, uncounted};

/// The laws of giving back what was in flight.
pub fn given_back_rules()
    // No message changes: its channel, its bytes, where it goes and with which texts.
    ensures messages { (o : Snapshot) (n : ℕ) → message_at (begun (given_back o)) n ≡ message_at (begun o) n }

    // A slot in flight waits again, and no other slot changes. None is in flight then.
    ensures slots { (o : Snapshot) (n d : ℕ) →
        slot (begun (given_back o)) n d ≡ option_map state_given_back (slot (begun o) n d) }
    ensures others { (s : SlotState) → is_in_flight s ≡ false → state_given_back s ≡ s }
    ensures at_rest { (o : Snapshot) →
        All (λ r. All (λ s. is_in_flight s.state ≡ false) r.slots) (given_back o).remembered }

    // What was counted as in flight is counted as waiting, and nothing else is counted otherwise.
    ensures channels { (o : Snapshot) (c : ℕ) → channel_counts (begun (given_back o)) c ≡ channel_counts (begun o) c }
    ensures destinations { (o : Snapshot) (d : ℕ) →
        destination_counts (begun (given_back o)) d ≡ counts_given_back (destination_counts (begun o) d) }

    // Each slot that was given back owes one entry more.
    ensures owed { (o : Snapshot) → IsGoodOpening o → AreStarted o →
        owed (begun (given_back o)) ≡ owed (begun o) + in_flight (begun o) }

    // A book may go on from it, where there is room for what is owed.
    ensures good { (o : Snapshot) (bound : ℕ) → IsGoodOpening o → AreStarted o →
        owed (begun (given_back o)) ≤ bound → IsGoodOpening (with_bound bound (given_back o)) }
{}

/// The laws of lowering the numbers of an opening.
pub fn rebased_rules()
    // A message has its channel, its bytes, and where it goes with which texts, by a number that is lower by as much.
    ensures messages { (o : Snapshot) (n : ℕ) → IsGoodOpening o →
        message_at (begun (rebased o)) n ≡ message_at (begun o) (n + (lowering o).messages) }
    ensures slots { (o : Snapshot) (n d : ℕ) → IsGoodOpening o →
        slot (begun (rebased o)) n d ≡ slot (begun o) (n + (lowering o).messages) d }

    // No message that is remembered had a number below that.
    ensures forgotten { (o : Snapshot) (n : ℕ) → IsGoodOpening o → n < (lowering o).messages → message_at (begun o) n ≡ None }

    // A key is known by an index that is lower by as much.
    ensures keys { (o : Snapshot) (key : List ℕ) → IsGoodOpening o →
        option_map (λ place. place + (lowering o).places) (known (begun (rebased o)) key) ≡ known (begun o) key }

    // Nothing is counted otherwise, and no more and no less is owed.
    ensures channels { (o : Snapshot) (c : ℕ) → channel_counts (begun (rebased o)) c ≡ channel_counts (begun o) c }
    ensures destinations { (o : Snapshot) (d : ℕ) → IsGoodOpening o →
        destination_counts (begun (rebased o)) d ≡ destination_counts (begun o) d }
    ensures owed { (o : Snapshot) → IsGoodOpening o → owed (begun (rebased o)) ≡ owed (begun o) }

    // A book may go on from it.
    ensures good { (o : Snapshot) → IsGoodOpening o → IsGoodOpening (rebased o) }

    // None may go on from it by lower numbers.
    ensures lowest { (o : Snapshot) (by : Lowered) → IsGoodOpening o → MayBeLowered o by →
        IsGoodOpening (opening_lower by o) → IsNoMore by (lowering o) }
{}

/// The laws of setting counters aside.
pub fn uncounted_rules()
    // The messages and their slots are the same, and so is what is owed.
    ensures messages { (o : Snapshot) (n : ℕ) → message_at (begun (uncounted o)) n ≡ message_at (begun o) n }
    ensures slots { (o : Snapshot) (n d : ℕ) → slot (begun (uncounted o)) n d ≡ slot (begun o) n d }
    ensures owed { (o : Snapshot) → owed (begun (uncounted o)) ≡ owed (begun o) }

    // What is counted then, with what was set aside, is what was counted before.
    ensures channels { (o : Snapshot) (c : ℕ) → IsGoodOpening o → c < 64 → channel_counts (begun o) c
        ≡ channels_added (channel_counts (begun (uncounted o)) c) (channel_at c (counts_aside o)) }
    ensures destinations { (o : Snapshot) (d : ℕ) → IsGoodOpening o → d < 32 → destination_counts (begun o) d
        ≡ destinations_added (destination_counts (begun (uncounted o)) d) (destination_at d (counts_aside o)) }

    // A book may go on from it.
    ensures good { (o : Snapshot) → IsGoodOpening o → IsGoodOpening (uncounted o) }

    // Its numbers may be lowered to the first arrival that is remembered, and to the first message.
    ensures places { (o : Snapshot) → IsGoodOpening o → (lowering (uncounted o)).places ≡ first_place o }
    ensures numbers { (o : Snapshot) → IsGoodOpening o → (lowering (uncounted o)).messages ≡ first_number o }
{}
