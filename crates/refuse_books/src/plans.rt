//! The plan of a script, and calls by its rules.

use crate::texts::Text;
use anyhow::{Result, bail};
use call_window::{Window, no_memory};
use er7_tree::Message;
use hl7_filter::Cond;
use hl7_transform::{Step, StepFault, all_may_stand, apply};
use judge_core::{Delivery, Judged, Verdict, fits_block, judge};
use plan_text::{Channel, Plan, PlanFault, PlanFaultKind};
use play_script::{bytes_of, shown};
use std::alloc::{AllocError, Global};
use std::fmt::Write;
use std::fs;
use std::sync::Arc;

/// The plan that calls go by, once one was read.
#[derive(Drop)]
pub struct Plans {
    alloc: Global,
    plan: Option<Arc<Plan>>,
}

/// What is wrong with a plan. Where memory was refused, no key is named.
fn fault_told(alloc: Global, fault: &PlanFault) -> Result<String, AllocError> {
    if fault.name == PlanFaultKind::NoMemory && fault.path.as_str().is_empty() {
        return no_memory(alloc);
    }
    format!(in alloc; "fault {fault}")
}

/// What becomes of a message that isn't accepted, or that it is.
fn verdict_told(verdict: &Verdict) -> &'static str {
    match verdict {
        Verdict::Unreadable => "unreadable",
        Verdict::Stray => "stray",
        Verdict::Refuse(_) => "refused",
        Verdict::Filtered => "filtered",
        Verdict::Accept(_) => "accepted",
    }
}

/// Appends what goes to each destination.
fn push_deliveries(told: &mut String, deliveries: &[Delivery]) -> Result<(), AllocError> {
    for delivery in deliveries {
        let payload = shown(*told.allocator(), delivery.payload.as_slice())?;
        write!(told, ", to {}: {payload}", delivery.destination)?;
    }
    Ok(())
}

/// What was judged.
fn judged_told(alloc: Global, judged: &Judged) -> Result<String, AllocError> {
    let verdict = verdict_told(judged.verdict());
    let mut told = format!(in alloc; "{verdict}, a key of {} bytes", judged.key().len())?;
    if let Verdict::Accept(deliveries) = judged.verdict() {
        push_deliveries(&mut told, deliveries.as_slice())?;
    }
    Ok(told)
}

/// Judges a text by a plan.
fn judged(alloc: Global, window: &Window, plan: &Arc<Plan>, text: &str) -> Result<String> {
    let raw = bytes_of(alloc, text)?;
    if plan.channels() == 0 || !fits_block(&raw) {
        bail!("it can't be judged");
    }
    window.begin()?;
    let judged = judge(alloc, plan, 0, raw);
    window.end()?;
    match judged {
        Ok(judged) => Ok(judged_told(alloc, &judged)?),
        Err(AllocError) => Ok(no_memory(alloc)?),
    }
}

/// Whether a condition is true of a message.
fn held(alloc: Global, window: &Window, cond: &Cond, message: &Message) -> Result<String> {
    window.begin()?;
    let truth = cond.holds(message);
    window.end()?;
    match truth {
        Ok(truth) => Ok(format!(in alloc; "{truth}")?),
        Err(AllocError) => Ok(no_memory(alloc)?),
    }
}

/// The result of steps.
fn stepped(alloc: Global, changed: Result<Message, StepFault>) -> Result<String, AllocError> {
    match changed {
        Ok(changed) => shown(alloc, &changed.print()?),
        Err(StepFault::Stopped { place, cause }) => format!(in alloc; "stopped {place} {cause:?}"),
        Err(StepFault::NoMemory) => no_memory(alloc),
    }
}

/// The message after steps.
fn applied(alloc: Global, window: &Window, steps: &[Step], message: Message) -> Result<String> {
    if !all_may_stand(steps) {
        bail!("they may not stand");
    }
    window.begin()?;
    let changed = apply(steps, message);
    window.end()?;
    Ok(stepped(alloc, changed)?)
}

impl Plans {
    /// No plan yet.
    pub(crate) fn new(alloc: Global) -> Plans {
        Plans { alloc, plan: None }
    }

    /// Keeps a plan, and tells its size.
    fn keep(&mut self, plan: Plan) -> Result<String, AllocError> {
        let plan = self.plan.insert(Arc::new(self.alloc, plan)?);
        let (channels, destinations) = (plan.channels(), plan.destinations());
        format!(in self.alloc; "{channels} channels, {destinations} destinations")
    }

    /// Reads the plan in a file.
    fn read(&mut self, rt: &HostRuntime, window: &Window, name: &str) -> Result<String> {
        let text = fs::read(rt, name)?;
        window.begin()?;
        let plan = Plan::read(self.alloc, &text);
        window.end()?;
        match plan {
            Ok(plan) => Ok(self.keep(plan)?),
            Err(fault) => Ok(fault_told(self.alloc, &fault)?),
        }
    }

    /// The plan.
    fn plan(&self) -> Result<&Arc<Plan>> {
        match &self.plan {
            Some(plan) => Ok(plan),
            None => bail!("no plan was read"),
        }
    }

    /// The first channel of the plan.
    fn channel(&self) -> Result<&Channel> {
        match self.plan()?.channel(0) {
            Some(channel) => Ok(channel),
            None => bail!("no channel"),
        }
    }

    /// Whether the filter of the first channel is true of a message.
    fn holds(&self, window: &Window, message: &Message) -> Result<String> {
        match self.channel()?.filter() {
            Some(cond) => held(self.alloc, window, cond, message),
            None => bail!("no filter"),
        }
    }

    /// The answer to a call, if it is one by a plan.
    ///
    /// # Errors
    ///
    /// Where the words are no such call, standard output can't be written, or memory is refused outside of the
    /// call's own requests.
    pub(crate) fn answer(
        &mut self,
        rt: &HostRuntime,
        window: &Window,
        text: &Text,
        name: &str,
        words: &str,
    ) -> Result<Option<String>> {
        Ok(match name {
            "plan" => Some(self.read(rt, window, words)?),
            "holds" => Some(self.holds(window, &text.message)?),
            "apply" => {
                let message = text.message.clone()?;
                Some(applied(self.alloc, window, self.channel()?.steps(), message)?)
            }
            "judge" => Some(judged(self.alloc, window, self.plan()?, words)?),
            _ => None,
        })
    }
}
