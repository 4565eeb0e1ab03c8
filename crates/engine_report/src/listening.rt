//! The channels that couldn't listen to the end.

ghost use Rattle.std.specs.Prelude.{◌≡◌, ◌++◌, ◌∷◌, [], Some, IsErr, OnOk, map};
ghost use Rattle.engine_report.specs.Findings.{failed_channels};
ghost use Rattle.engine_report.specs.inner.Findings.{listening};

use crate::fault::Fault;
use plan_text::Channel;
use std::alloc::{AllocError, Global};

/// Adds a fault that names the channel, where any call of its door failed. `failed` is how many did.
///
/// # Errors
///
/// Where memory is refused. Nothing is added then.
pub fn add_listen_fault<'f>(
    alloc: Global,
    faults: &mut Vec<Fault<'f>>,
    channel: &Channel,
    failed: u64,
) -> Result<(), AllocError>
    ensures added { OnOk result (map listening faults.new.items
        ≡ map listening faults.old.items ++ map Some (failed_channels (channel.now ∷ []) (failed ∷ []))) }
    ensures refused { IsErr result → faults.new.items ≡ faults.old.items }
{
    if failed > 0 {
        faults.push(Fault::Listen(channel.name().to_string(alloc)?))?;
    }
    Ok(())
}
