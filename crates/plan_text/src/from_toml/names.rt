//! Names that no other in a list has.

ghost use Rattle.std.specs.Prelude.{◌≡◌, ℕ, List};
ghost use Rattle.plan_text.specs.inner.AtKey.{at_key};
ghost use Rattle.plan_text.specs.inner.Fault.{Gives};
ghost use Rattle.plan_text.specs.Keys.{required};
ghost use Rattle.plan_text.specs.Kinds.{is_one_named, new_name};

use crate::channel::Channel;
use crate::destination::Destination;
use crate::fault::{PlanFaultKind, Stop};
use crate::from_toml::keys::Key;
use crate::from_toml::kinds::is_name;

/// What has a name in a plan.
pub(crate) trait Named {
    ghost named: { Self → List ℕ };

    /// The name.
    fn plan_name(&self) -> &str
        ensures { result.now ≡ named self.now };
}

impl Named for Destination {
    ghost named = { λ d. d.name };

    fn plan_name(&self) -> &str {
        self.name()
    }
}

impl Named for Channel {
    ghost named = { λ c. c.name };

    fn plan_name(&self) -> &str {
        self.name()
    }
}

fn is_named<N: Named>(all: &[N], name: &str) -> bool
    ensures { result ≡ is_one_named N.named all.now name.now }
{
    all.iter().any(|one| one.plan_name() == name)
}

/// The required name at a key, which none of those before it has.
pub(crate) fn new_name<'a, N: Named>(key: &Key<'a>, before: &[N]) -> Result<&'a str, Stop>
    ensures { Gives (λ s. s.now) result (at_key key.now (required (new_name (is_one_named N.named before.now)))) }
{
    let value = key.required()?;
    match value.as_str() {
        Some(name) if is_name(name) => {
            if is_named(before, name) {
                Err(key.fault(PlanFaultKind::DoubleName))
            } else {
                Ok(name)
            }
        }
        _ => Err(key.fault(PlanFaultKind::BadRange)),
    }
}
