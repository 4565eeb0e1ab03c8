//! A plan that is read from a text, with lines that explain its fault.

ghost use Rattle.std.specs.Prelude.{[], IsErrAnd, IsUtf8};
ghost use Rattle.engine_report.specs.Ending.{IsFaultOfPlan, TellsRead};
ghost use Rattle.plan_text.specs.Document.{plan_in};
ghost use Rattle.plan_text.specs.Fault.{fault_at};
ghost use Rattle.plan_text.specs.declared.fault.PlanFaultKind.TheVariants as name;

use crate::fault::Fault;
use plan_notes::{Line, fault_notes};
use plan_text::Plan;
use std::alloc::AllocError;

/// Writes lines to standard error, if memory for them was there. One that can't be written changes nothing.
pub fn tell_lines(rt: &impl Eprint, lines: Result<Vec<Line>, AllocError>) {
    let Ok(lines) = lines else {
        return;
    };
    for line in &lines {
        let _ = eprintln!(rt; "{line}");
    }
}

/// The plan of a text. Notes on standard error explain a fault that it has; they change nothing of what is returned.
///
/// # Errors
///
/// `Plan` with its first fault, or `Memory` where memory was refused.
pub fn explained_plan<'a, R: Eprint + AllocGlobal>(rt: &R, text: &[u8]) -> Result<Plan, Fault<'a>>
    ensures text { IsUtf8 text.now → TellsRead (plan_in text.now) result }
    ensures no_text { ¬ (IsUtf8 text.now) → IsErrAnd result (IsFaultOfPlan (fault_at name.NotToml [])) }
{
    match Plan::read(rt.alloc(), text) {
        Ok(plan) => Ok(plan),
        Err(fault) => {
            tell_lines(rt, fault_notes(rt.alloc(), text, &fault));
            Err(Fault::from(fault))
        }
    }
}
