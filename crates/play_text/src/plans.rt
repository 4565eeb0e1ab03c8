//! Plays plans and messages: each plan is read and shown with its first fault, or with its channels and destinations, and
//! the messages that follow it are judged by it.
//!
//! `--- NAME` begins the text of a plan and `---` ends it. `judge CHANNEL TEXT` judges a message that arrives on a
//! channel of the plan before it. A carriage return is written `\r`, in these lines and in the answers.

use anyhow::{Result, bail};
use hl7_head::Cause;
use judge_core::{Delivery, Judged, Verdict, fits_block, judge};
use plan_text::Plan;
use std::alloc::{AllocError, Global};
use std::io::{self, Write};
use std::str;
use std::sync::Arc;

/// The channel and the text of a message, where a line has both.
fn arrival_of(line: &str) -> Option<(u32, &str)> {
    let (channel, text) = line.strip_prefix("judge ")?.split_once(' ')?;
    Some((channel.parse().ok()?, text))
}

/// Appends bytes as the script writes them.
fn push_shown(told: &mut Vec<u8>, bytes: &[u8]) -> Result<(), AllocError> {
    for byte in bytes {
        if *byte == b'\r' {
            told.extend_from_slice(b"\\r")?;
        } else {
            told.push(*byte)?;
        }
    }
    Ok(())
}

/// Appends why a message is refused.
fn push_refusal(told: &mut Vec<u8>, cause: Cause) -> io::Result<()> {
    write!(told, "Refuse {} ", cause.code())?;
    told.write_all(cause.text())
}

/// Appends, in a line, what goes to a destination.
fn push_delivery(told: &mut Vec<u8>, plan: &Plan, delivery: &Delivery) -> Result<()> {
    let Some(destination) = plan.destination(delivery.destination) else {
        bail!("no such destination");
    };
    write!(told, "\n  {}: ", destination.name())?;
    Ok(push_shown(told, delivery.payload.as_slice())?)
}

/// Appends that a message is taken and, in a line each, what goes where.
fn push_deliveries(told: &mut Vec<u8>, plan: &Plan, deliveries: &[Delivery]) -> Result<()> {
    told.write_all(b"Accept")?;
    for delivery in deliveries {
        push_delivery(told, plan, delivery)?;
    }
    Ok(())
}

/// Appends what was decided of a message.
fn push_verdict(told: &mut Vec<u8>, judged: &Judged) -> Result<()> {
    match judged.verdict() {
        Verdict::Unreadable => told.write_all(b"Unreadable")?,
        Verdict::Stray => told.write_all(b"Stray")?,
        Verdict::Refuse(cause) => push_refusal(told, *cause)?,
        Verdict::Filtered => told.write_all(b"Filtered")?,
        Verdict::Accept(deliveries) => {
            push_deliveries(told, judged.plan(), deliveries.as_slice())?;
        }
    }
    Ok(told.push(b'\n')?)
}

/// What is decided by a plan of a message that is written so.
fn judged(alloc: Global, plan: &Arc<Plan>, channel: u32, text: &str) -> Result<Judged> {
    let raw = text.replace(alloc, "\\r", "\r")?.into_bytes();
    if plan.channels() <= channel || !fits_block(&raw) {
        bail!("it can't be judged");
    }
    Ok(judge(alloc, plan, channel, raw)?)
}

/// The result of the lines so far.
#[derive(Drop)]
struct Player {
    alloc: Global,
    /// The name and the text of the plan that began last.
    name: String,
    text: Vec<u8>,
    /// The plan that was read last, where it had no fault.
    plan: Option<Arc<Plan>>,
}

impl Player {
    fn new(alloc: Global) -> Player {
        Player {
            alloc,
            name: String::new(alloc),
            text: Vec::new(alloc),
            plan: None,
        }
    }

    /// Begins the text of a plan.
    fn begin(&mut self, name: &str) -> Result<()> {
        self.name.clear();
        self.text.clear();
        Ok(self.name.push_str(name)?)
    }

    /// Adds a line to the text of the plan.
    fn add(&mut self, line: &[u8]) -> Result<()> {
        self.text.extend_from_slice(line)?;
        Ok(self.text.push(b'\n')?)
    }

    /// Keeps a plan, and tells what it says.
    fn keep(&mut self, told: &mut Vec<u8>, plan: Plan) -> Result<()> {
        let plan = self.plan.insert(Arc::new(self.alloc, plan)?);
        let (channels, destinations) = (plan.channels(), plan.destinations());
        writeln!(
            told,
            "{}: plan ok: {channels} channels, {destinations} destinations",
            self.name
        )?;
        Ok(())
    }

    /// Reads the plan whose text has ended, and tells what it says or its first fault.
    fn end(&mut self, told: &mut Vec<u8>) -> Result<()> {
        self.plan = None;
        match Plan::read(self.alloc, &self.text) {
            Ok(plan) => self.keep(told, plan),
            Err(fault) => Ok(writeln!(told, "{}: {} {fault}", self.name, fault.name.code())?),
        }
    }

    /// Judges a message by the plan that was read last, and tells what is decided.
    fn judge(&self, told: &mut Vec<u8>, channel: u32, text: &str) -> Result<()> {
        let Some(plan) = &self.plan else {
            bail!("no plan was read");
        };
        push_verdict(told, &judged(self.alloc, plan, channel, text)?)
    }

    /// Plays a line, and appends what it tells.
    fn play(&mut self, told: &mut Vec<u8>, line: &[u8]) -> Result<()> {
        let text = str::from_utf8(line).unwrap_or("");
        if let Some((channel, message)) = arrival_of(text) {
            self.judge(told, channel, message)
        } else if let Some(name) = text.strip_prefix("--- ") {
            self.begin(name)
        } else if text == "---" {
            self.end(told)
        } else {
            self.add(line)
        }
    }
}

/// Plays a line, and writes what it tells.
fn play_line(rt: &HostRuntime, player: &mut Player, line: &[u8]) -> Result<()> {
    let mut told = Vec::new(rt.alloc());
    player.play(&mut told, line)?;
    io::writer(rt).write_all(&told)?;
    Ok(())
}

/// Plays lines, one after another.
fn play_all(rt: &HostRuntime, player: &mut Player, lines: &[Vec<u8>]) -> Result<()> {
    for line in lines {
        play_line(rt, player, line)?;
    }
    Ok(())
}

/// Plays lines, of which the first begins a plan.
///
/// # Errors
///
/// Where a message comes that no plan judges, or memory is refused.
pub(crate) fn play(rt: &HostRuntime, lines: &[Vec<u8>]) -> Result<()> {
    let mut player = Player::new(rt.alloc());
    play_all(rt, &mut player, lines)
}
