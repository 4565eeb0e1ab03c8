//! The conditions of a plan.

ghost use Rattle.std.specs.Prelude.{◌≡◌, map, IfOk, Ok, option_map};
ghost use Rattle.toml.specs.View.{view, table_view, array_view};
ghost use Rattle.toml.specs.Data.{Members, get_member};
ghost use Rattle.hl7_filter.specs.Condition.{negated};
ghost use Rattle.hl7_filter.specs.inner.View.{view as condition_view};
ghost use Rattle.plan_text.specs.inner.AtKey.{at_key, key_at, value_at};
ghost use Rattle.er7_tree.specs.Tree.{◌>>=◌ as and_then};
ghost use Rattle.plan_text.specs.Fault.{told};
ghost use Rattle.plan_text.specs.inner.Fault.{Gives};
ghost use Rattle.plan_text.specs.Keys.{required, each, list_within};
ghost use Rattle.plan_text.specs.Conditions.{pair_of, text_pair, text_and_list, all_texts, path_in, path, path_and_text, path_and_texts, condition_key, on_piece, condition, by_key, filter_at};

use crate::fault::{PlanFaultKind, Stop};
use crate::from_toml::keys::{Key, Keys, fault_at, member_path};
use er7_tree::Path;
use fixed_numbers::{LEVELS_MAX, MEMBERS_MAX};
use hl7_filter::{Bytes, Cond};
use std::alloc::{AllocError, Global};
use toml::Value;
use toml::value::Array;

/// The two members of a list of two.
pub(crate) fn pair_of(value: &Value) -> Option<(&Value, &Value)>
    ensures { option_map (λ p. (view p.0.now, view p.1.now)) result ≡ pair_of (view value.now) }
{
    let values = value.as_array()?;
    if values.len() != 2 {
        return None;
    }
    Some((&values[0], &values[1]))
}

/// Two texts.
pub(crate) fn text_pair(value: &Value) -> Option<(&str, &str)>
    ensures { option_map (λ p. (p.0.now, p.1.now)) result ≡ text_pair (view value.now) }
{
    let (first, second) = pair_of(value)?;
    Some((first.as_str()?, second.as_str()?))
}

/// A text and a list.
fn text_and_list(value: &Value) -> Option<(&str, &Array)>
    ensures { option_map (λ p. (p.0.now, array_view p.1.now)) result ≡ text_and_list (view value.now) }
{
    let (first, second) = pair_of(value)?;
    Some((first.as_str()?, second.as_array()?))
}

/// A copy of a text's bytes.
pub(crate) fn bytes_of(alloc: Global, text: &str) -> Result<Bytes, AllocError>
    ensures { IfOk result (λ b. b ≡ text.now) }
{
    Ok(Bytes::new(Vec::from_slice(alloc, text.as_bytes())?))
}

/// The members of a list of texts; none where one is no text.
fn texts_of(alloc: Global, values: &Array) -> Result<Option<Vec<Bytes>>, AllocError>
    ensures { IfOk result (λ o. option_map (λ v. v.items) o ≡ all_texts (array_view values.now)) }
{
    let mut texts = Vec::new(alloc);
    for value in values {
        let Some(text) = value.as_str() else {
            return Ok(None);
        };
        texts.push(bytes_of(alloc, text)?)?;
    }
    Ok(Some(texts))
}

impl<'a> Key<'a> {
    /// The path that a text of this key names.
    pub(crate) fn path_in(&self, text: &str) -> Result<Path, Stop>
        ensures { Gives (λ p. p) result (told (key_at self.now) (path_in text.now)) }
    {
        match Path::parse(text) {
            Ok(path) => Ok(path),
            Err(_) => Err(self.fault(PlanFaultKind::BadPath)),
        }
    }

    /// A path.
    pub(crate) fn piece(&self) -> Result<Path, Stop>
        ensures { Gives (λ p. p) result (at_key self.now (required path)) }
    {
        match self.required()?.as_str() {
            Some(text) => self.path_in(text),
            None => Err(self.fault(PlanFaultKind::BadRange)),
        }
    }

    /// A path and a text.
    pub(crate) fn path_and_text(&self) -> Result<(Path, Bytes), Stop>
        ensures { Gives (λ p. p) result (at_key self.now (required path_and_text)) }
    {
        let Some((path, text)) = text_pair(self.required()?) else {
            return Err(self.fault(PlanFaultKind::BadRange));
        };
        let path = self.path_in(path)?;
        Ok((path, bytes_of(self.alloc, text)?))
    }

    /// A path and a list of at most 256 texts.
    #[tactic(auto, using(crate::proofs::Items::item_count_view))]
    fn path_and_texts(&self) -> Result<(Path, Vec<Bytes>), Stop>
        ensures { Gives (λ p. (p.0, p.1.items)) result (at_key self.now (required path_and_texts)) }
    {
        let Some((path, values)) = text_and_list(self.required()?) else {
            return Err(self.fault(PlanFaultKind::BadRange));
        };
        let Some(texts) = texts_of(self.alloc, values)? else {
            return Err(self.fault(PlanFaultKind::BadRange));
        };
        if values.len() > MEMBERS_MAX {
            return Err(self.fault(PlanFaultKind::TooMany));
        }
        Ok((self.path_in(path)?, texts))
    }
}

/// The one key of a condition.
#[tactic(auto, unfolding(crate::specs::Conditions::condition_key))]
fn condition_key<'a>(keys: &Keys<'a>) -> Result<&'static str, Stop>
    ensures { Gives (λ k. k.now) result (condition_key keys.now.at.now (table_view keys.now.table.now)) }
{
    keys.only(&[
        "equals", "one_of", "exists", "starts", "contains", "all", "any", "not",
    ])?;
    keys.one_of(&[
        "equals", "one_of", "exists", "starts", "contains", "all", "any", "not",
    ])
}

/// A condition of at most `levels` levels.
#[cycle(condition)]
#[tactic(auto, unfolding(crate::specs::Conditions::condition, crate::specs::Conditions::with_one_key))]
fn condition_of(alloc: Global, levels: u32, at: &str, value: &Value) -> Result<Cond, Stop>
    ensures { Gives condition_view result (condition levels at.now (view value.now)) }
{
    let keys = Keys::of(alloc, at, value)?;
    let name = condition_key(&keys)?;
    if levels == 0 {
        return Err(fault_at(alloc, PlanFaultKind::TooMany, at));
    }
    by_key(levels - 1, &keys.key(name))
}

/// The condition on one piece of a message, at its key.
#[tactic(auto, unfolding(crate::specs::Conditions::on_piece))]
fn on_piece(key: &Key<'_>) -> Result<Cond, Stop>
    ensures { (t : Members) → value_at key.now ≡ get_member key.now.name.now t →
        Gives condition_view result (on_piece key.now.at.now t key.now.name.now) }
{
    match key.name {
        "one_of" => {
            let (path, texts) = key.path_and_texts()?;
            Ok(Cond::OneOf(path, texts))
        }
        "exists" => Ok(Cond::Exists(key.piece()?)),
        "equals" => {
            let (path, text) = key.path_and_text()?;
            Ok(Cond::Equals(path, text))
        }
        "starts" => {
            let (path, text) = key.path_and_text()?;
            Ok(Cond::Starts(path, text))
        }
        _ => {
            let (path, text) = key.path_and_text()?;
            Ok(Cond::Contains(path, text))
        }
    }
}

/// The negation of a condition.
fn negation(alloc: Global, inner: Cond) -> Result<Cond, AllocError>
    ensures { IfOk result (λ c. condition_view c ≡ negated (condition_view inner)) }
{
    Ok(Cond::Not(Box::new(alloc, inner)?))
}

/// The condition at its one key, with conditions of at most `levels` levels inside.
#[cycle(condition)]
#[tactic(auto, unfolding(crate::specs::Conditions::by_key))]
fn by_key(levels: u32, key: &Key<'_>) -> Result<Cond, Stop>
    ensures { (t : Members) → value_at key.now ≡ get_member key.now.name.now t →
        Gives condition_view result (by_key (condition levels) key.now.at.now t key.now.name.now) }
{
    match key.name {
        "all" => Ok(Cond::All(conditions_at(levels, key)?)),
        "any" => Ok(Cond::Any(conditions_at(levels, key)?)),
        "not" => Ok(negation(key.alloc, condition_at(levels, key, key.required()?)?)?),
        _ => on_piece(key),
    }
}

/// The condition at a key.
#[cycle(condition)]
fn condition_at(levels: u32, key: &Key<'_>, value: &Value) -> Result<Cond, Stop>
    ensures { Gives condition_view result (condition levels (key_at key.now) (view value.now)) }
{
    let at = key.path()?;
    condition_of(key.alloc, levels, at.as_str(), value)
}

/// The conditions of the list at a key, at most 256.
#[cycle(condition)]
fn conditions_at(levels: u32, key: &Key<'_>) -> Result<Vec<Cond>, Stop>
    ensures { Gives (λ v. map condition_view v.items) result
        (and_then (at_key key.now (required (list_within 256))) (each (condition levels) (key_at key.now))) }
{
    let values = key.list(MEMBERS_MAX)?;
    let at = key.path()?;
    conditions_of(key.alloc, levels, at.as_str(), values)
}

/// The conditions of a list.
#[cycle(condition)]
fn conditions_of(alloc: Global, levels: u32, at: &str, values: &Array) -> Result<Vec<Cond>, Stop>
    ensures { Gives (λ v. map condition_view v.items) result (each (condition levels) at.now (array_view values.now)) }
{
    let mut conds = Vec::new(alloc);
    for value in values {
        let at = member_path(alloc, at, conds.len())?;
        let cond = condition_of(alloc, levels, at.as_str(), value)?;
        conds.push(cond)?;
    }
    Ok(conds)
}

/// A filter that may be left out.
#[tactic(auto, unfolding(crate::specs::Conditions::filter_at))]
pub(crate) fn filter_of(key: &Key<'_>) -> Result<Option<Cond>, Stop>
    ensures { Gives (λ f. option_map condition_view f) result (filter_at (key_at key.now) (value_at key.now)) }
{
    let Some(value) = key.value else {
        return Ok(None);
    };
    Ok(Some(condition_at(LEVELS_MAX, key, value)?))
}
