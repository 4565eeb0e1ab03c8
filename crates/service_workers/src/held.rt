//! The destinations that an operator holds.

ghost use Rattle.std.specs.Prelude.{◌≡◌, ◌≢◌, ◌<◌, ◌==◌, ◌++◌, ℕ, [], ◌∷◌, IfOk, OnErr, OnOk};
ghost use Rattle.std.specs.Int.{bit_at};
ghost use Rattle.service_workers.specs.inner.Held.{is_held_at, is_named, names_of, without};

use plan_text::Plan;
use std::alloc::{AllocError, Global};

/// The names of the destinations that are held. A name stays, whatever plan is in force, until it is released.
#[derive(Drop)]
pub struct HeldNames {
    names: Vec<String>,
}

/// Whether a name is among these.
fn is_named(names: &[String], name: &[u8]) -> bool
    ensures { result ≡ is_named names.now name.now }
{
    names.iter().any(|held| held.as_bytes() == name)
}

/// Removes a name from these, and no other.
fn remove(names: &mut Vec<String>, name: &[u8])
    ensures { names.new.items ≡ without name.now names.old.items }
{
    names.retain(|held| held.as_bytes() != name);
}

/// Whether the bit of a destination is set in a mask.
pub(crate) fn has_destination(mask: u32, destination: u32) -> bool
    requires { destination < 32 }
    ensures { result ≡ (bit_at mask destination == 1) }
{
    mask >> destination & 1 == 1
}

/// A mask, with the bit of a destination set where this is so.
#[tactic(auto, using(crate::proofs::HeldMask::set_here, crate::proofs::HeldMask::set_others))]
fn with_destination(mask: u32, destination: u32, is_set: bool) -> u32
    requires { destination < 32 }
    ensures here { bit_at mask destination ≡ 0 → (bit_at result destination == 1) ≡ is_set }
    ensures others { (d : ℕ) → d ≢ destination → bit_at result d ≡ bit_at mask d }
{
    if is_set {
        mask | 1 << destination
    } else {
        mask
    }
}

/// Whether the destination at an index of this plan has one of these names.
fn is_held_at(names: &[String], plan: &Plan, index: u32) -> bool
    ensures { result ≡ is_held_at names.now plan.now index }
{
    match plan.destination(index) {
        Some(destination) => is_named(names, destination.name().as_bytes()),
        None => false,
    }
}

/// The destinations of this plan that have one of these names, one bit each.
#[tactic(auto, using(crate::proofs::Masks::mask_none, crate::proofs::Masks::mask_more, crate::proofs::HeldMask::mask_all_held))]
fn mask_of(names: &[String], plan: &Plan) -> u32
    ensures { (d : ℕ) → (bit_at result d == 1) ≡ is_held_at names.now plan.now d }
{
    plan.rules();
    let mut mask = 0;
    for index in 0..plan.destinations() {
        mask = with_destination(mask, index, is_held_at(names, plan, index));
    }
    mask
}

impl HeldNames {
    /// These names.
    pub fn new(names: Vec<String>) -> HeldNames
        ensures { result.names ≡ names }
    {
        HeldNames { names }
    }

    /// The names, in the order in which they were held.
    pub fn names(&self) -> &[String]
        ensures { result.now ≡ self.now.names.items }
    {
        self.names.as_slice()
    }

    /// Whether the destination of a name is held.
    pub fn has(&self, name: &[u8]) -> bool
        ensures { result ≡ is_named self.now.names.items name.now }
    {
        is_named(self.names.as_slice(), name)
    }

    /// Holds the destination of a name, which is not held.
    ///
    /// # Errors
    ///
    /// Where memory is refused.
    pub fn hold(&mut self, alloc: Global, name: &str) -> Result<(), AllocError>
        ensures held { OnOk result (
            names_of self.new.names.items ≡ names_of self.old.names.items ++ name.now ∷ []) }
        ensures unchanged { OnErr result (self.new.names.items ≡ self.old.names.items) }
    {
        let held = String::from_str(alloc, name)?;
        self.names.push(held)?;
        Ok(())
    }

    /// Releases the destination of a name, and no other.
    pub fn release(&mut self, name: &[u8])
        ensures { self.new.names.items ≡ without name.now self.old.names.items }
    {
        remove(&mut self.names, name);
    }

    /// The destinations of a plan that are held, one bit each.
    pub fn mask(&self, plan: &Plan) -> u32
        ensures { (d : ℕ) → (bit_at result d == 1) ≡ is_held_at self.now.names.items plan.now d }
    {
        mask_of(self.names.as_slice(), plan)
    }

    /// A copy of the names.
    ///
    /// # Errors
    ///
    /// Where memory is refused.
    pub fn copy(&self, alloc: Global) -> Result<HeldNames, AllocError>
        ensures { IfOk result (λ copied. names_of copied.names.items ≡ names_of self.now.names.items) }
    {
        let mut names = Vec::new(alloc);
        for name in &self.names {
            names.push(String::from_str(alloc, name)?)?;
        }
        Ok(HeldNames { names })
    }
}
