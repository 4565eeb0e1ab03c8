//! The steps of a plan.

ghost use Rattle.std.specs.Prelude.{◌≡◌, ◌∷◌, [], codes, false, None, Ok, option_map, refl};
ghost use Rattle.std.proofs.lemmas.List.{map-append, length-map};
ghost use Rattle.std.specs.Option.{option_map_or};
ghost use Rattle.toml.specs.Data.{Members, get_member};
ghost use Rattle.toml.specs.View.{view, table_view as members_of, items_view, array_view};
ghost use Rattle.hl7_transform.specs.Step.{Edit, lookup, remove};
ghost use Rattle.hl7_transform.specs.inner.View.{view as step_view, steps_view, table_view};
ghost use Rattle.plan_text.specs.inner.AtKey.{at_key, key_at, value_at};
ghost use Rattle.er7_tree.specs.Tree.{◌>>=◌ as and_then};
ghost use Rattle.plan_text.specs.inner.Fault.{Gives};
ghost use Rattle.plan_text.specs.Conditions.{text_pair};
ghost use Rattle.plan_text.specs.Keys.{each, key as read_at, key_path, required, or_else, only_keys};
ghost use Rattle.plan_text.specs.Steps.{stands_at, two_texts, looks_up, any_looks_up, has_double, pairs, pair_at, any_text, default_text, lookup_at, known_keys, step_key, copy_at, step_by, step, steps_at};

use crate::fault::{PlanFaultKind, Stop};
use crate::from_toml::conditions::{bytes_of, text_pair};
use crate::from_toml::keys::{Key, Keys, fault_at};
use crate::from_toml::members::{Reader, each};
use er7_tree::Path;
use fixed_numbers::{MEMBERS_MAX, PAIRS_MAX};
use hl7_filter::Bytes;
use hl7_transform::{Pair, Step, StepCheck, check_step};
use std::alloc::Global;
use toml::Value;
use toml::value::Array;

/// Whether the lookup text of a pair is this.
fn looks_up(text: &str, value: &Value) -> bool
    ensures { result ≡ looks_up text.now (view value.now) }
{
    match text_pair(value) {
        Some((from, _)) => from == text,
        None => false,
    }
}

fn any_looks_up(text: &str, values: &[Value]) -> bool
    ensures { result ≡ any_looks_up text.now (items_view values.now) }
{
    for value in values {
        if looks_up(text, value) {
            return true;
        }
    }
    false
}

/// Whether the lookup text of the first pair is that of one of the others.
fn stands_again(value: &Value, others: &[Value]) -> bool
    ensures { result ≡ option_map_or (λ p. any_looks_up p.0 (items_view others.now)) (text_pair (view value.now)) false }
{
    match text_pair(value) {
        Some((from, _)) => any_looks_up(from, others),
        None => false,
    }
}

/// Whether a lookup text occurs twice.
fn has_double(values: &[Value]) -> bool
    ensures { result ≡ has_double (items_view values.now) }
{
    let mut rest = values;
    while let [value, others @ ..] = rest {
        if stands_again(value, others) {
            return true;
        }
        rest = others;
    }
    false
}

impl<'a> Key<'a> {
    /// A required text, of any length.
    fn any_text(&self) -> Result<&'a str, Stop>
        ensures { Gives (λ s. s.now) result (at_key self.now (required any_text)) }
    {
        let value = self.required()?;
        match value.as_str() {
            Some(text) => Ok(text),
            None => Err(self.fault(PlanFaultKind::BadRange)),
        }
    }

    /// Two texts.
    fn two_texts(&self) -> Result<(&'a str, &'a str), Stop>
        ensures { Gives (λ p. (p.0.now, p.1.now)) result (at_key self.now (required two_texts)) }
    {
        let value = self.required()?;
        match text_pair(value) {
            Some(texts) => Ok(texts),
            None => Err(self.fault(PlanFaultKind::BadRange)),
        }
    }

    /// Whether a transformer may have the step; else the fault at this key.
    fn stands(&self, step: &Step) -> Result<(), Stop>
        ensures { Gives (λ _. tt) result (stands_at (key_at self.now) (step_view step.now)) }
    {
        match check_step(step) {
            Ok(()) => Ok(()),
            Err(StepCheck::BadPath) => Err(self.fault(PlanFaultKind::BadPath)),
            Err(StepCheck::ForbiddenWrite) => Err(self.fault(PlanFaultKind::ForbiddenWrite)),
        }
    }

    /// The list of a lookup table, in which no lookup text occurs twice.
    fn pairs(&self) -> Result<&'a Array, Stop>
        ensures { Gives (λ v. array_view v.now) result (at_key self.now (required pairs)) }
    {
        let values = self.list(PAIRS_MAX)?;
        if has_double(values.as_slice()) {
            return Err(self.fault(PlanFaultKind::DoubleName));
        }
        Ok(values)
    }

    /// A text that may be left out.
    fn default_text(&self) -> Result<Option<Bytes>, Stop>
        ensures { Gives (λ t. t) result (at_key self.now (or_else None default_text)) }
    {
        let Some(value) = self.value else {
            return Ok(None);
        };
        match value.as_str() {
            Some(text) => Ok(Some(bytes_of(self.alloc, text)?)),
            None => Err(self.fault(PlanFaultKind::BadRange)),
        }
    }
}

/// The reader of a lookup table's pairs.
#[derive(Clone, Copy)]
struct Pairs;

impl Reader for Pairs {
    ghost use Rattle.std.specs.Prelude.{ℕ, List};

    type Item = Pair;

    ghost Said = { List ℕ × List ℕ };

    ghost said = { λ p. (p.from, p.to) };

    ghost all_said = { table_view };

    ghost reading = { λ s before. pair_at };

    ghost none_said = { refl };

    ghost one_more = { λ xs x. map-append (λ p. (p.from, p.to)) xs (x ∷ []) };

    ghost as_many = { λ xs. length-map xs (λ p. (p.from, p.to)) };

    fn read(&self, alloc: Global, _before: &[Pair], at: &str, value: &Value) -> Result<Pair, Stop> {
        let Some((from, to)) = text_pair(value) else {
            return Err(fault_at(alloc, PlanFaultKind::BadRange, at));
        };
        Ok(Pair {
            from: bytes_of(alloc, from)?,
            to: bytes_of(alloc, to)?,
        })
    }
}

/// The table of a lookup from its list, which is the value at this key.
fn table_of(key: &Key<'_>, values: &Array) -> Result<Vec<Pair>, Stop>
    ensures { Gives (λ v. table_view v.items) result (each pair_at (key_at key.now) (array_view values.now)) }
{
    let at = key.path()?;
    each(key.alloc, &Pairs, at.as_str(), values)
}

/// The lookup that writes this path, by its other keys.
fn lookup_to(path: Path, keys: &Keys<'_>) -> Result<Step, Stop>
    ensures { let at = keys.now.at.now in let t = members_of keys.now.table.now in
        Gives step_view result (and_then (read_at at t (codes "table") (required pairs)) λ ds.
        and_then (each pair_at (key_path at (codes "table")) ds) λ table.
        and_then (read_at at t (codes "default") (or_else None default_text)) λ default. Ok (lookup path table default)) }
{
    let key = keys.key("table");
    let table = table_of(&key, key.pairs()?)?;
    let default = keys.key("default").default_text()?;
    Ok(Step::Lookup {
        path,
        table,
        default,
    })
}

#[tactic(auto, unfolding(crate::specs::Steps::lookup_at))]
fn lookup_of(keys: &Keys<'_>) -> Result<Step, Stop>
    ensures { Gives step_view result (lookup_at keys.now.at.now (members_of keys.now.table.now)) }
{
    let key = keys.key("lookup");
    let path = key.piece()?;
    // A fault of what a lookup writes comes before those of its table; it may write what it may clear.
    key.stands(&Step::Clear(path))?;
    lookup_to(path, keys)
}

/// Refuses keys other than those of a step; `table` and `default` are known beside `lookup` alone.
fn only_step_keys(keys: &Keys<'_>) -> Result<(), Stop>
    ensures { Gives (λ _. tt) result (only_keys (known_keys (members_of keys.now.table.now)) keys.now.at.now (members_of keys.now.table.now)) }
{
    if keys.has("lookup") {
        keys.only(&[
            "set", "copy", "clear", "lookup", "remove", "table", "default",
        ])
    } else {
        keys.only(&["set", "copy", "clear", "lookup", "remove"])
    }
}

/// The one first key of a step.
#[tactic(auto, unfolding(crate::specs::Steps::step_key))]
fn step_key(keys: &Keys<'_>) -> Result<&'static str, Stop>
    ensures { Gives (λ k. k.now) result (step_key keys.now.at.now (members_of keys.now.table.now)) }
{
    only_step_keys(keys)?;
    keys.one_of(&["set", "copy", "clear", "lookup", "remove"])
}

/// The step that copies what the first of two paths names to the second.
fn copy_of(key: &Key<'_>) -> Result<Step, Stop>
    ensures { (t : Members) → value_at key.now ≡ get_member key.now.name.now t →
        Gives step_view result (copy_at key.now.name.now key.now.at.now t) }
{
    let (from, to) = key.two_texts()?;
    let from = key.path_in(from)?;
    let to = key.path_in(to)?;
    Ok(Step::Copy { from, to })
}

/// The step that removes the segments of a name.
fn remove_of(key: &Key<'_>) -> Result<Step, Stop>
    ensures { (t : Members) → value_at key.now ≡ get_member key.now.name.now t →
        Gives step_view result (and_then (read_at key.now.at.now t key.now.name.now (required any_text)) λ name. Ok (remove name)) }
{
    let name = key.any_text()?;
    Ok(Step::RemoveSegments(bytes_of(key.alloc, name)?))
}

/// A step by its first key.
#[tactic(auto, unfolding(crate::specs::Steps::step_by))]
fn step_by(name: &str, keys: &Keys<'_>) -> Result<Step, Stop>
    ensures { Gives step_view result (step_by name.now keys.now.at.now (members_of keys.now.table.now)) }
{
    let key = keys.key(name);
    match name {
        "set" => {
            let (path, text) = key.path_and_text()?;
            Ok(Step::Set(path, text))
        }
        "copy" => copy_of(&key),
        "clear" => Ok(Step::Clear(key.piece()?)),
        "lookup" => lookup_of(keys),
        _ => remove_of(&key),
    }
}

/// The reader of steps.
#[derive(Clone, Copy)]
struct Steps;

impl Reader for Steps {
    type Item = Step;

    ghost Said = { Edit };

    ghost said = { step_view };

    ghost all_said = { steps_view };

    ghost reading = { λ s before. step };

    ghost none_said = { refl };

    ghost one_more = { λ xs x. map-append step_view xs (x ∷ []) };

    ghost as_many = { λ xs. length-map xs step_view };

    #[tactic(auto, unfolding(crate::specs::Steps::step))]
    fn read(&self, alloc: Global, _before: &[Step], at: &str, value: &Value) -> Result<Step, Stop> {
        let keys = Keys::of(alloc, at, value)?;
        let name = step_key(&keys)?;
        let step = step_by(name, &keys)?;
        keys.key(name).stands(&step)?;
        Ok(step)
    }
}

/// The steps of a list, none where it is left out.
#[tactic(auto, unfolding(crate::specs::Steps::steps_at))]
pub(crate) fn steps_of(key: &Key<'_>) -> Result<Vec<Step>, Stop>
    ensures { Gives (λ v. steps_view v.items) result (steps_at (key_at key.now) (value_at key.now)) }
{
    if key.value.is_none() {
        return Ok(Vec::new(key.alloc));
    }
    let at = key.path()?;
    each(key.alloc, &Steps, at.as_str(), key.list(MEMBERS_MAX)?)
}
