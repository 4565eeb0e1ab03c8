//! Laws of delivering in the log of a closed book. Each is a function with an empty body: a caller knows its clauses.

ghost use Rattle.std.specs.Prelude.{◌≡◌, ℕ, List, flat_map, map};
ghost use Rattle.std.specs.List.{Contains};
ghost use Rattle.event_log.specs.History.{History};
ghost use Rattle.book_lock.specs.Callers.{IsClosedBy};
ghost use Rattle.book_lock.specs.Log.{SeatView};
ghost use Rattle.book_lock.specs.Outcomes.{IsAccountedFor};
ghost use Rattle.book_lock.specs.Shares.{DeskView, StationView};
ghost use Rattle.delivery_worker.specs.Sent.{DeskWork, EveryDeliveredWasSent, IsTraced, SettledIsSent, StationWork};

/// What a closed book shows as delivered was sent: a station took the message as the book had it then, sent it as one
/// block, and read that it was accepted, where its destination acknowledges.
pub fn delivered_is_sent()
    // What a station settled as delivered, it sent in one of its turns.
    ensures settled { (opening book : History) (seats : ℕ) (seen : List SeatView)
        (closed : IsAccountedFor opening seats seen book) (work : StationWork opening) →
        Contains seen work.last → SettledIsSent closed.one_history.entries work }

    // Each message that is delivered was so at the opening, or one of the stations that the book was closed with sent it.
    ensures delivered { (opening book : History) (seats : ℕ) (desks : List DeskView)
        (stations : List StationView) (closed : IsClosedBy opening seats desks stations book)
        (works : List (StationWork opening)) →
        map (λ w. w.last) works ≡ map (λ s. s.seat) stations →
        EveryDeliveredWasSent closed.accounted.one_history.entries works book }

    // So the messages of a closed book are traced by what was done at its desks and stations.
    ensures traced { (opening book : History) (seats : ℕ) (desks : List DeskView)
        (stations : List StationView) (booked : List (DeskWork opening))
        (delivered : List (StationWork opening)) →
        IsClosedBy opening seats desks stations book →
        map (λ w. w.last) booked ≡ map (λ d. d.seat) desks →
        map (λ w. w.last) delivered ≡ map (λ s. s.seat) stations →
        IsTraced opening (flat_map (λ w. w.receipts) booked) delivered book }
{}
