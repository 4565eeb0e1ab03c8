//! The plan of a start is put in force.

ghost use Rattle.std.specs.Prelude.{◌≡◌, ◌≢◌, ◌⊎◌, Err, IfErr, IfOk, OnErr, OnOk};
ghost use Rattle.std.specs.Arc.{arc_value};
ghost use Rattle.event_log.specs.Event.{answer, deploy};
ghost use Rattle.event_log.specs.History.{plan_in_force};
ghost use Rattle.book_replay.specs.Replay.{IsBooked};
ghost use Rattle.book_recovery.specs.Adopted.{IsAdopted};

use book_core::{Book, BookRows, DeployRefusal};
use event_records::Record;
use judge_core::Text;
use plan_text::Plan;
use std::alloc::Global;
use std::sync::Arc;

/// Deploys a plan, and returns the record of that.
#[tactic(auto, using(crate::proofs::Deployed::deployed, crate::proofs::Deployed::in_force, crate::proofs::Deployed::refused))]
fn deployed<S: BookRows>(
    alloc: Global,
    book: &mut Book<S>,
    plan: Arc<Plan>,
) -> Result<Record, DeployRefusal>
    ensures booked { IfOk result (λ r. IsBooked book.old book.new r) }
    ensures in_force { OnOk result (plan_in_force book.new ≡ arc_value plan) }
    ensures refused { IfErr result (λ e. (answer book.old (deploy (arc_value plan)) ≡ Err e) ⊎ (e ≡ DeployRefusal.NoMemory)) }
    ensures unchanged { OnErr result (book.new ≡ book.old) }
{
    let document = Text::new(alloc, Vec::from_slice(alloc, plan.document())?)?;
    book.deploy(plan)?;
    Ok(Record::Deploy { document })
}

/// Puts the plan of a start in force, where another one is: deploys it, and returns the record of that, which is to be appended
/// to the file. Returns nothing where the plan in force says the same.
///
/// # Errors
///
/// Why the book refuses the plan, which differs from the one in force then; the book is unchanged.
pub fn adopt_plan<S: BookRows>(
    alloc: Global,
    book: &mut Book<S>,
    plan: Arc<Plan>,
) -> Result<Option<Record>, DeployRefusal>
    // Without a record the book is as it was. With one, its plan was another, and a replay of the record makes the same of it.
    ensures adopted { IfOk result (IsAdopted (arc_value plan) book.old book.new) }
    ensures in_force { OnOk result (plan_in_force book.new ≡ arc_value plan) }

    // Each refusal is the sequential engine's, unless memory ran out.
    ensures refused { IfErr result (λ e. (answer book.old (deploy (arc_value plan)) ≡ Err e) ⊎ (e ≡ DeployRefusal.NoMemory)) }
    ensures differs { OnErr result (plan_in_force book.old ≢ arc_value plan) }
    ensures unchanged { OnErr result (book.new ≡ book.old) }
{
    if book.plan().same(&plan) {
        return Ok(None);
    }
    match deployed(alloc, book, plan) {
        Ok(item) => Ok(Some(item)),
        Err(refusal) => Err(refusal),
    }
}
