//! The standard descriptors.

ghost use Rattle.std.specs.Prelude.{◌≡◌, ◌⊎◌, IfErr};

use crate::fault::Fault;
use descriptors::{is_open, open_null};

/// Opens the standard descriptors that the program was started without, so that no socket takes their numbers: reading
/// standard input fails then, and what goes to standard error is dropped. Without standard output the program doesn't start.
///
/// # Errors
///
/// `Write` where standard output is closed, `Read` or `Write` where nothing can be opened instead of another one.
pub fn open_standard<'a>(rt: &HostRuntime) -> Result<(), Fault<'a>>
    ensures { IfErr result (λ fault. (fault ≡ Fault.Read) ⊎ (fault ≡ Fault.Write)) }
{
    if !is_open(&rt.stdin()) {
        open_null(rt).map_err(|_| Fault::Read)?;
    }
    if !is_open(&rt.stdout()) {
        return Err(Fault::Write);
    }
    if !is_open(&rt.stderr()) {
        open_null(rt).map_err(|_| Fault::Write)?;
    }
    Ok(())
}
