//! The message, the plan, the streams and the keys of a script, and calls on them.

use crate::plans::Plans;
use crate::stores::Stores;
use crate::texts::Text;
use anyhow::Result;
use call_window::Window;
use call_window::script::Stage;
use play_script::first_word;
use std::alloc::AllocError;

/// The values that calls are made on.
#[derive(Drop)]
pub struct Calls {
    text: Text,
    plans: Plans,
    stores: Stores,
}

/// All values as they are before any call.
///
/// # Errors
///
/// Where memory is refused.
pub(crate) fn make_calls(rt: &HostRuntime) -> Result<Calls> {
    Ok(Calls {
        text: Text::new(rt.alloc())?,
        plans: Plans::new(rt.alloc()),
        stores: Stores::new(rt)?,
    })
}

/// What all values are.
fn state(stage: &Calls) -> Result<String, AllocError> {
    let text = stage.text.state()?;
    let stores = stage.stores.state()?;
    format!(in *text.allocator(); "{text} {stores}")
}

impl Stage for Calls {
    fn answer(&mut self, rt: &HostRuntime, window: &Window<'_>, call: &str) -> Result<String> {
        let (name, words) = first_word(call);
        if name == "state" {
            return Ok(state(self)?);
        }
        if let Some(answer) = self.stores.answer(window, name, words)? {
            return Ok(answer);
        }
        match self.plans.answer(rt, window, &self.text, name, words)? {
            Some(answer) => Ok(answer),
            None => self.text.answer(window, name, words),
        }
    }
}
