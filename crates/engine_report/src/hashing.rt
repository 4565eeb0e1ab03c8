//! How the keys of the program's book are hashed.

ghost use Rattle.std.specs.Prelude.{◌≡◌, IfErr};

use crate::fault::Fault;
use std::hash::RandomState;
use std::random::RandomSource;

/// A hasher for the keys of the book, of the runtime's random bytes, so that no sender can choose keys that fall together.
///
/// # Errors
///
/// `Random` where the system gave no random bytes.
pub fn hasher<'a>(rt: &impl RandomSource) -> Result<RandomState, Fault<'a>>
    ensures { IfErr result (λ fault. fault ≡ Fault.Random) }
{
    RandomState::new(rt).map_err(|_| Fault::Random)
}
