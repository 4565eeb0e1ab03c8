//! What messages are sent by.

use crate::answers::Reply;
use book_core::Job;
use dest_queue::{Outcome, SlotState};
use thiserror::Error;

/// A link failed: no connection could be opened, or the open one can't be used any more.
#[derive(Clone, Copy, Debug, PartialEq, Eq, Error)]
#[error("the link failed")]
pub struct LinkFault;

/// A link to a destination, over which blocks are sent and answers received (MLLP Release 1).
pub trait Link {
    ghost use Rattle.std.specs.Prelude.{◌≡◌, ◌≤◌, ◌⊎◌, ℕ, List, Option, None, true, length, take, IfOk, OnOk, OnErr};
    ghost use Rattle.std.specs.Result.{is_err};
    ghost use Rattle.std.specs.Io.KnownBytes.{Appends, Keeps};
    ghost use Rattle.conn_worker.specs.Faults.{with_fault};
    ghost use Rattle.delivery_worker.specs.inner.Calls.{CallsMore};

    /// How many calls failed so far. The number stays at its greatest value.
    ghost fault_count: { Self → ℕ };

    /// The bytes of all sends that succeeded, one behind the other, where the link records them.
    ghost sent: { Self → Option (List ℕ) } = { λ _. None };

    /// The bytes that were received, over all connections, one behind the other, where the link records them.
    ghost received: { Self → Option (List ℕ) } = { λ _. None };

    /// How many receives were made, over all connections, where the link counts them.
    ghost receives: { Self → Option ℕ } = { λ _. None };

    /// The index in the plan of the destination that the link leads to. It never changes.
    ghost leads_to: { Self → ℕ };

    /// Begins an attempt: the calls of the link until the next call of this have to end in time.
    fn begin(&mut self)
        ensures faults { fault_count self.new ≡ fault_count self.old }
        ensures sent { Keeps (sent self.old) (sent self.new) }
        ensures received { Keeps (received self.old) (received self.new) }
        ensures receives { CallsMore (receives self.old) (receives self.new) 0 }
        ensures leads { leads_to self.new ≡ leads_to self.old }
    {}

    /// Looks, without waiting, whether the connection can still be used, as far as is known: its peer has not ended it.
    fn is_open(&mut self) -> bool
        ensures faults { fault_count self.new ≡ fault_count self.old }
        ensures sent { Keeps (sent self.old) (sent self.new) }
        ensures received { Keeps (received self.old) (received self.new) }
        ensures receives { CallsMore (receives self.old) (receives self.new) 0 }
        ensures leads { leads_to self.new ≡ leads_to self.old }
    {
        true
    }

    /// Looks, without waiting, whether the connection can still be used for this message. A link may want a new one for it: a
    /// message with its control id was sent over the open one, and what still answers that would be taken for an answer to this.
    fn is_open_for(&mut self, _job: &Job) -> bool
        ensures faults { fault_count self.new ≡ fault_count self.old }
        ensures sent { Keeps (sent self.old) (sent self.new) }
        ensures received { Keeps (received self.old) (received self.new) }
        ensures receives { CallsMore (receives self.old) (receives self.new) 0 }
        ensures leads { leads_to self.new ≡ leads_to self.old }
    {
        self.is_open()
    }

    /// Whether the last call met the end of the connection, by its peer. A timeout is no such end.
    fn was_ended(&self) -> bool {
        false
    }

    /// Whether a message whose attempt failed waits before it is sent again: the destination's interval is not zero.
    fn has_interval(&self) -> bool {
        true
    }

    /// Is called with the outcome of an attempt, once it is settled: what the answers said, the outcome, and the
    /// state of the message at its destination, none where the settlement was refused.
    fn settled(&mut self, _job: &Job, _reply: Reply, _outcome: Outcome, _state: Option<SlotState>)
        ensures faults { fault_count self.new ≡ fault_count self.old }
        ensures sent { Keeps (sent self.old) (sent self.new) }
        ensures received { Keeps (received self.old) (received self.new) }
        ensures receives { CallsMore (receives self.old) (receives self.new) 0 }
        ensures leads { leads_to self.new ≡ leads_to self.old }
    {}

    /// Ends the connection in order, if there is one: nothing more is sent, and what still comes is dropped, up to the end
    /// of the input and for a bounded time.
    fn finish(&mut self)
        ensures faults { fault_count self.new ≡ fault_count self.old }
        ensures sent { Keeps (sent self.old) (sent self.new) }
        ensures received { Keeps (received self.old) (received self.new) }
        ensures receives { CallsMore (receives self.old) (receives self.new) 0 }
        ensures leads { leads_to self.new ≡ leads_to self.old }
    {}

    /// Opens a new connection, and drops what was left of an earlier one, and what has arrived on the new one already.
    ///
    /// # Errors
    ///
    /// Where none could be opened. There is no connection then.
    fn connect(&mut self) -> Result<(), LinkFault>
        ensures faults { fault_count self.new ≡ with_fault (is_err result) (fault_count self.old) }
        ensures sent { Keeps (sent self.old) (sent self.new) }
        ensures received { Keeps (received self.old) (received self.new) }
        ensures receives { CallsMore (receives self.old) (receives self.new) 0 }
        ensures leads { leads_to self.new ≡ leads_to self.old };

    /// Readies the connection for a message that is not taken yet. What has arrived on the open connection is read and
    /// dropped, for it answers nothing that is still to be sent. Where none is open, by a look, a new one is opened.
    ///
    /// # Errors
    ///
    /// Where none could be opened, or it is too soon to try that again. There is no connection then.
    fn prepare(&mut self) -> Result<(), LinkFault>
        ensures ready { OnOk result (fault_count self.new ≡ fault_count self.old) }
        ensures failed { OnErr result (
            (fault_count self.new ≡ fault_count self.old) ⊎ (fault_count self.new ≡ with_fault true (fault_count self.old))) }
        ensures sent { Keeps (sent self.old) (sent self.new) }
        ensures received { Keeps (received self.old) (received self.new) }
        ensures receives { CallsMore (receives self.old) (receives self.new) 0 }
        ensures leads { leads_to self.new ≡ leads_to self.old }
    {
        if self.is_open() {
            return Ok(());
        }
        match self.connect() {
            Ok(()) => Ok(()),
            Err(fault) => Err(fault),
        }
    }

    /// Writes all of these bytes and flushes them.
    ///
    /// # Errors
    ///
    /// Where that failed, perhaps in the middle: the connection can't be used any more.
    fn send(&mut self, bytes: &[u8]) -> Result<(), LinkFault>
        ensures faults { fault_count self.new ≡ with_fault (is_err result) (fault_count self.old) }
        ensures sent { OnOk result (Appends (sent self.old) (sent self.new) bytes.now) }
        ensures unsent { OnErr result (Keeps (sent self.old) (sent self.new)) }
        ensures received { Keeps (received self.old) (received self.new) }
        ensures receives { CallsMore (receives self.old) (receives self.new) 0 }
        ensures leads { leads_to self.new ≡ leads_to self.old };

    /// Waits for the next bytes, writes them at the beginning of the buffer, and returns how many they are: none at
    /// the end of the input.
    ///
    /// # Errors
    ///
    /// Where that failed, or lasted too long: the connection can't be used any more.
    fn receive(&mut self, buffer: &mut [u8]) -> Result<usize, LinkFault>
        ensures bound { IfOk result (λ len. len ≤ length buffer.new) }
        ensures faults { fault_count self.new ≡ with_fault (is_err result) (fault_count self.old) }
        ensures received { IfOk result (λ len. Appends (received self.old) (received self.new) (take len buffer.new)) }
        ensures unreceived { OnErr result (Keeps (received self.old) (received self.new)) }
        ensures sent { Keeps (sent self.old) (sent self.new) }
        ensures receives { CallsMore (receives self.old) (receives self.new) 1 }
        ensures leads { leads_to self.new ≡ leads_to self.old };

    /// How many calls failed so far.
    fn faults(&self) -> u64
        ensures { result ≡ fault_count self.now };
}
