ghost use Rattle.std.specs.Prelude.{◌≡◌};
ghost use Rattle.hl7_transform.specs.Check.{is_protected, writable, removable, check_step, may_stand};
ghost use Rattle.hl7_transform.specs.inner.Check.{check_code};
ghost use Rattle.std.specs.List.{list_all};
ghost use Rattle.hl7_transform.specs.inner.View.{view, steps_view};

use crate::step::Step;
use er7_tree::{Path, is_header, is_name};
use fixed_numbers::CONTROL_ID_FIELD;
use thiserror::Error;

/// Why a transformer may not have a step.
#[derive(Clone, Copy, Debug, PartialEq, Eq, Error)]
pub enum StepCheck {
    /// A copy between levels, or from or to MSH-1 or MSH-2; or a segment name that isn't one.
    #[error("bad path")]
    BadPath,
    /// A write to MSH-1, to MSH-2 or into MSH-10, or a removal of MSH.
    #[error("forbidden write")]
    ForbiddenWrite,
}

impl StepCheck {
    /// The number of the answer, 1 or 2.
    pub fn code(self) -> u32
        ensures { result ≡ check_code self }
    {
        match self {
            StepCheck::BadPath => 1,
            StepCheck::ForbiddenWrite => 2,
        }
    }
}

/// Whether this is MSH-1, MSH-2, MSH-10 or a part of MSH-10.
fn is_protected(path: &Path) -> bool
    ensures { result ≡ is_protected path.now }
{
    path.is_fixed() || (is_header(path.segment()) && path.field() == CONTROL_ID_FIELD)
}

/// Whether a step may write to a path.
fn writable(path: &Path) -> Result<(), StepCheck>
    ensures { result ≡ writable path.now }
{
    if is_protected(path) {
        return Err(StepCheck::ForbiddenWrite);
    }
    Ok(())
}

/// A removal of the segments of a name.
fn removable(name: &[u8]) -> Result<(), StepCheck>
    ensures { result ≡ removable name.now }
{
    if !is_name(name) {
        return Err(StepCheck::BadPath);
    }
    if is_header(name) {
        return Err(StepCheck::ForbiddenWrite);
    }
    Ok(())
}

/// Whether a transformer may have a step, or why it may not.
///
/// # Errors
///
/// `BadPath` for a copy that doesn't lead from a field to a field, from a repetition to a repetition, from a
/// component to a component or from a subcomponent to a subcomponent, or that leads from or to MSH-1 or
/// MSH-2, and for a removal that names no segment. Then `ForbiddenWrite` for a step that writes to MSH-1 or
/// MSH-2, which declare the delimiters, or into MSH-10, the message control id by which the message is
/// acknowledged, or that removes MSH.
pub fn check_step(step: &Step) -> Result<(), StepCheck>
    ensures { result ≡ check_step (view step.now) }
{
    match step {
        Step::Set(path, _) | Step::Clear(path) | Step::Lookup { path, .. } => writable(path),
        Step::Copy { from, to } => {
            if from.is_fixed() || to.is_fixed() || !from.is_level_with(to) {
                return Err(StepCheck::BadPath);
            }
            writable(to)
        }
        Step::RemoveSegments(name) => removable(name.as_slice()),
    }
}

/// Whether a transformer may have each of the steps.
pub fn all_may_stand(steps: &[Step]) -> bool
    ensures { result ≡ list_all may_stand (steps_view steps.now) }
{
    for step in steps {
        if check_step(step).is_err() {
            return false;
        }
    }
    true
}
