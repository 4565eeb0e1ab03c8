//! What holds of every run.

ghost use Rattle.std.specs.Prelude.{◌≡◌, ◌<◌, ◌≤◌, ◌++◌, List, ℕ, length, map};
ghost use Rattle.event_log.specs.History.{History, Snapshot};
ghost use Rattle.event_log.specs.Legal.{IsLegal};
ghost use Rattle.plan_text.specs.Entries.{PlanEntry};
ghost use Rattle.conn_core.specs.Replies.{Answer, replies};
ghost use Rattle.engine_model.specs.Run.{Connection, Run, started};
ghost use Rattle.engine_model.specs.inner.Run.{opened};
ghost use Rattle.engine_model.specs.Turn.{Turn, chunk};
ghost use Rattle.engine_model.specs.Steps.{ReadsOn, RepliesFront, Runs, Steps, frame_events_max};
ghost use Rattle.engine_model.specs.Converse.{IsRunOf};
ghost use Rattle.engine_model.specs.inner.Converse.{HaveChannels, KeepToOne, KeepsTo, steps_of};
ghost use Rattle.engine_model.specs.Promise.{RunInvariant};
ghost use Rattle.engine_model.specs.inner.Promise.{IsFrontOf, NoneLacked};

/// The laws of runs, for every plan, bound, connections and steps.
pub fn run_rules()
    // A run keeps its word at first, from any opening on, after each step, and after any steps.
    ensures started { (opening : Snapshot) (channels : List ℕ) → RunInvariant (started opening channels) }
    ensures opened { (plan : PlanEntry) (events_max : ℕ) (channels : List ℕ) → RunInvariant (opened plan events_max channels) }
    ensures stepped { (step : Turn) (r r' : Run) → RunInvariant r → Steps step r r' → RunInvariant r' }
    ensures ran { (steps : List Turn) (r r' : Run) → RunInvariant r → Runs steps r r' → RunInvariant r' }

    // It is cut between any two steps, and goes on behind its last one.
    ensures cut { (xs ys : List Turn) (r r' : Run) → Runs (xs ++ ys) r r' → (between : Run) × Runs xs r between × Runs ys between r' }
    ensures goes_on { (xs ys : List Turn) (r between r' : Run) → Runs xs r between → Runs ys between r' → Runs (xs ++ ys) r r' }

    // Two pieces at one moment do what the piece may do that they make.
    ensures joined { (conn : ℕ) (xs ys : List ℕ) (now : ℕ) (r between r' : Run) →
        Steps (chunk conn xs now) r between → Steps (chunk conn ys now) between r' → Steps (chunk conn (xs ++ ys) now) r r' }

    // Each connection keeps to its channel.
    ensures kept { (r : Run) → RunInvariant r → KeepsTo (map (λ c. c.channel) r.connections) r.history.entries }

    // Conversely, each legal history in which every connection keeps to its channel follows from the steps made of it.
    ensures reached { (h : History) (channels : List ℕ) → IsLegal h → KeepsTo channels h.entries →
        length h.entries < frame_events_max → IsRunOf (steps_of h) h channels }

    // Where no connection has arrivals on two channels, there are channels to which they keep.
    ensures fit { (h : History) → KeepToOne h.entries → HaveChannels h.entries }

    // What a piece does is determined, unless a message was answered that memory was refused.
    ensures determined { (conn : ℕ) (bytes : List ℕ) (now : ℕ) (h g g' : History) (c d d' : Connection)
        (one : ReadsOn conn bytes now h g c d) (other : ReadsOn conn bytes now h g' c d') →
        NoneLacked one.new → NoneLacked other.new → (g ≡ g') × (d ≡ d') }

    // What a connection that has ended was sent is a prefix of its replies.
    ensures front { (conn : ℕ) (answers : List Answer) (text : List ℕ) → RepliesFront conn 1 answers text
        → IsFrontOf text (replies conn answers) }
{}
