ghost use Rattle.std.specs.Prelude.{◌≡◌, IfOk, IsOk, IsTrue};
ghost use Rattle.std.specs.Option.{option_copied};
ghost use Rattle.std.specs.List.{list_all};
ghost use Rattle.er7_tree.specs.Path.{value};
ghost use Rattle.hl7_filter.specs.inner.Condition.{is_unescaped};
ghost use Rattle.hl7_transform.specs.Check.{may_stand};
ghost use Rattle.hl7_transform.specs.inner.Outcome.{Gives, Takes};
ghost use Rattle.hl7_transform.specs.Step.{partner};
ghost use Rattle.hl7_transform.specs.inner.View.{view, steps_view, table_view};

use crate::fault::{StepFault, StopCause};
use crate::step::{Pair, Step};
use crate::stop::Stop;
use er7_tree::{Message, Path};
use hl7_filter::{Bytes, value};
use std::alloc::AllocError;

/// The partner of a value, that of the first pair that has it, else the default.
fn partner<'t>(table: &'t [Pair], default: Option<&'t Bytes>, value: &[u8]) -> Option<&'t Bytes>
    ensures { option_copied result ≡ partner (table_view table.now) (option_copied default.entry) value.now }
{
    for pair in table {
        if pair.from.as_slice() == value {
            return Some(&pair.to);
        }
    }
    default
}

/// The partner of the value of a piece.
///
/// # Errors
///
/// Where the piece holds an escape character, and the memory for its value is refused.
fn look_up<'t>(
    message: &Message,
    path: &Path,
    table: &'t [Pair],
    default: Option<&'t Bytes>,
) -> Result<Option<&'t Bytes>, AllocError>
    ensures partner { IfOk result (λ text. option_copied text
        ≡ partner (table_view table.now) (option_copied default.entry) (value message.now path.now)) }
    ensures unescaped { IsTrue (is_unescaped message.now path.now) → IsOk result }
{
    let value = value(message, path)?;
    Ok(partner(table, default, &value))
}

/// Takes one step.
fn take(step: &Step, message: &mut Message) -> Result<(), Stop>
    ensures { Takes (view step.now) message.old result message.new }
{
    match step {
        Step::Set(path, text) => message.set(path, text.as_slice())?,
        Step::Copy { from, to } => message.copy(from, to)?,
        Step::Clear(path) => message.clear(path)?,
        Step::Lookup {
            path,
            table,
            default,
        } => {
            let Some(text) = look_up(message, path, table, default.as_ref())? else {
                return Err(Stop::Cause(StopCause::NotInTable));
            };
            message.set(path, text.as_slice())?;
        }
        Step::RemoveSegments(name) => message.remove_segments(name.as_slice())?,
    }
    Ok(())
}

/// The message after the steps, each of which sees the result of the one before.
///
/// # Errors
///
/// `Stopped` is the first step that can't be taken, with its index from 0 and the cause. `NoMemory` is answered where memory
/// was refused for a step that could be taken, or for the value that a lookup reads from a piece with escape sequences. On a
/// fault the message is dropped.
pub fn apply(steps: &[Step], mut message: Message) -> Result<Message, StepFault>
    requires { IsTrue (list_all may_stand (steps_view steps.now)) }
    ensures { Gives (steps_view steps.now) message result }
{
    for (place, step) in steps.iter().enumerate() {
        if let Err(stop) = take(step, &mut message) {
            return Err(match stop {
                Stop::Cause(cause) => StepFault::Stopped { place, cause },
                Stop::NoMemory => StepFault::NoMemory,
            });
        }
    }
    Ok(message)
}
