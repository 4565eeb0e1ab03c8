//! Where a link leads.

use crate::words::Cause;
use dest_queue::Outcome;
use plan_text::{Destination, Plan};

/// Where a link leads, and whether its waits are cut short.
pub trait Way {
    ghost use Rattle.std.specs.Prelude.{◌≡◌, ℕ, Option};
    ghost use Rattle.std.specs.Option.{option_copied};
    ghost use Rattle.plan_text.specs.Entries.{PlanEntry};
    ghost use Rattle.delivery_worker.specs.inner.Links.{destination_at};

    /// The index in the plan of the destination that it leads to. It never changes.
    ghost leads_to: { Self → ℕ };

    /// The plan that was taken up last. None where none could be.
    ghost plan: { Self → Option PlanEntry };

    /// The destination as the plan that was taken up last has it. None where that plan has none at this index any more.
    fn destination(&self) -> Option<&Destination>
        ensures { option_copied result ≡ destination_at (plan self.now) (leads_to self.now) };

    /// Takes up the plan in force. Returns whether the address or the timeout differs from the one before.
    fn renew(&mut self) -> bool
        ensures { leads_to self.new ≡ leads_to self.old }
    {
        false
    }

    /// Whether every wait is to end now, since delivering is halted.
    fn is_halted(&self) -> bool {
        false
    }

    /// Whether it can be halted at all. Only then are waits cut into slices.
    fn can_halt(&self) -> bool {
        false
    }

    /// Is called with the outcome of an attempt, once it is settled.
    fn note(&mut self, _outcome: Outcome)
        ensures { leads_to self.new ≡ leads_to self.old }
    {}

    /// Is called once a message is settled that was sent a second time within its attempt.
    fn note_sent_again(&mut self)
        ensures { leads_to self.new ≡ leads_to self.old }
    {}

    /// Is called for a message that failed since its last attempt was cut off by a halt.
    fn note_cut(&mut self)
        ensures { leads_to self.new ≡ leads_to self.old }
    {}

    /// Is called for each connection that was opened.
    fn note_connected(&mut self)
        ensures { leads_to self.new ≡ leads_to self.old }
    {}

    /// Is called where the connection failed or none could be opened, with the cause and the number of seconds before which no other
    /// connection is tried. The number is None where an attempt failed, since the next attempt connects at once.
    fn note_fault(&mut self, _cause: &Cause, _wait: Option<u32>)
        ensures { leads_to self.new ≡ leads_to self.old }
    {}

    /// Is called once the connection was ended because the plan that was taken up has another address or timeout for the
    /// destination, or awaits its answers otherwise.
    fn note_moved(&mut self)
        ensures { leads_to self.new ≡ leads_to self.old }
    {}
}

/// The way to the destination at an index of a plan that stays in force. Nothing cuts a wait short.
#[derive(Clone, Copy)]
pub struct FixedWay<'a> {
    pub plan: &'a Plan,
    pub index: u32,
}

impl<'a> Way for FixedWay<'a> {
    ghost use Rattle.std.specs.Prelude.{Some};

    ghost leads_to = { λ way. way.index };

    ghost plan = { λ way. Some way.plan.now };

    fn destination(&self) -> Option<&Destination> {
        self.plan.destination(self.index)
    }
}
