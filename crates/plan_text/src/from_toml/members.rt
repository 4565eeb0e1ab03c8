//! The members of a list, read one after the other.

ghost use Rattle.std.specs.Prelude.{◌≡◌, ◌++◌, ◌∷◌, ℕ, List, [], length, Result};
ghost use Rattle.toml.specs.Data.{Data};
ghost use Rattle.toml.specs.View.{view, array_view};
ghost use Rattle.plan_text.specs.declared.fault.PlanFault.{PlanFault};
ghost use Rattle.plan_text.specs.inner.Fault.{Gives};
ghost use Rattle.plan_text.specs.Keys.{each_after};

use crate::fault::Stop;
use crate::from_toml::keys::member_path;
use std::alloc::Global;
use toml::Value;
use toml::value::Array;

/// How the members of a list are read.
pub(crate) trait Reader {
    type Item: Drop;

    /// What an item says.
    ghost Said: { Type 0 };

    ghost said: { Self.Item → Said };

    ghost all_said: { List Self.Item → List Said };

    /// What a member at a path is read as, behind those that were read before it.
    ghost reading: { Self → List Said → List ℕ → Data → Result Said PlanFault };

    /// Reads the member at `at`, which follows these.
    fn read(
        &self,
        alloc: Global,
        before: &[Self::Item],
        at: &str,
        value: &Value,
    ) -> Result<Self::Item, Stop>
        ensures { Gives said result (reading self.now (all_said before.now) at.now (view value.now)) };

    ghost none_said: { all_said [] ≡ [] };

    ghost one_more: { (xs : List Self.Item) (x : Self.Item) → all_said (xs ++ x ∷ []) ≡ all_said xs ++ said x ∷ [] };

    ghost as_many: { (xs : List Self.Item) → length (all_said xs) ≡ length xs };
}

/// Reads the members of the list at `at`.
pub(crate) fn each<R: Reader>(
    alloc: Global,
    reader: &R,
    at: &str,
    values: &Array,
) -> Result<Vec<R::Item>, Stop>
    ensures { Gives (λ v. R.all_said v.items) result (each_after (R.reading reader.now) at.now [] (array_view values.now)) }
{
    let mut items = Vec::new(alloc);
    for value in values {
        let at = member_path(alloc, at, items.len())?;
        let item = reader.read(alloc, items.as_slice(), at.as_str(), value)?;
        items.push(item)?;
    }
    Ok(items)
}
