//! The messages of an input, tried one by one.

ghost use Rattle.std.specs.Prelude.{◌≡◌, ◌<◌, ◌&&◌, ◌++◌, [], ◌∷◌, false, IfOk, OnOk, length};
ghost use Rattle.std.specs.Arc.{arc_value};
ghost use Rattle.std.specs.List.{list_all};
ghost use Rattle.mllp_frame.specs.inner.Event.{event_of};
ghost use Rattle.mllp_frame.specs.Framing.{blocks};
ghost use Rattle.mllp_frame.specs.inner.Framing.{HoldsData, open_end};
ghost use Rattle.dry_run.specs.inner.Segments.{segments};
ghost use Rattle.dry_run.specs.inner.Trying.{IsTextTaken, IsInputTaken, event_taken};

use crate::report::try_text;
use crate::text_input::segments_of;
use hl7_head::Moment;
use judge_core::fits_block;
use mllp_frame::{Break, FrameEvent, Framer, START_BLOCK};
use plan_text::Plan;
use std::alloc::{AllocError, Global};
use std::io::Write;
use std::sync::Arc;

/// Why trying ends before the end of the input.
#[derive(Clone, Copy, Debug, PartialEq, Eq)]
pub enum TryFault {
    /// Memory was refused.
    Memory,
    /// The writer failed.
    Write,
}

impl From<AllocError> for TryFault {
    ghost use Rattle.std.specs.Prelude.{◌≡◌};
    ghost use Rattle.dry_run.specs.declared.trial.TryFault.TheVariants.{Memory};

    ghost from_gives = { λ _ fault. fault ≡ Memory };

    fn from(_: AllocError) -> Self {
        TryFault::Memory
    }
}

/// What messages are tried by: a plan, a channel of it by its index, and the moment of the acknowledgments.
#[derive(Drop)]
pub struct Trial {
    /// What memory is requested from.
    pub alloc: Global,
    /// The plan.
    pub plan: Arc<Plan>,
    /// The channel's index in the plan.
    pub channel: u32,
    /// The moment in MSH-7 of the acknowledgments.
    pub moment: Moment,
}

/// How a block was broken, in words.
fn break_text(cause: Break) -> &'static str {
    match cause {
        Break::NewStart => "a start block character (0x0B) in the block",
        Break::BadEnd => "no carriage return behind the end block character (0x1C)",
        Break::TooLong => "more than 1048576 bytes in the block",
    }
}

/// Appends that the text of this number couldn't be read, and why.
fn add_unreadable(alloc: Global, out: &mut Vec<u8>, reason: &str) -> Result<(), AllocError> {
    let lines = format!(in alloc; "verdict: unreadable\nreason: {reason}\n\n")?;
    out.extend_from_slice(lines.as_bytes())
}

/// What is printed above a message.
fn heading(alloc: Global, number: u64) -> Result<Vec<u8>, AllocError> {
    let line = format!(in alloc; "message {number}\n")?;
    Vec::from_slice(alloc, line.as_bytes())
}

/// Prints what becomes of an event: whether it is a block whose message could be read and is not refused. `last` is what
/// is said of a block that the end of the input breaks.
fn try_event<W: Write>(
    trial: &Trial,
    event: FrameEvent,
    number: u64,
    last: Option<&str>,
    writer: &mut W,
) -> Result<bool, TryFault>
    requires known { trial.now.channel < length (arc_value trial.now.plan).channels }
    requires sound { HoldsData (event_of event) }
    ensures { IfOk result (λ taken. taken ≡ event_taken (arc_value trial.now.plan) trial.now.channel (event_of event)) }
{
    let mut out = heading(trial.alloc, number)?;
    let taken = match event {
        FrameEvent::Block(raw) => try_text(
            trial.alloc,
            &trial.plan,
            trial.channel,
            raw,
            trial.moment,
            &mut out,
        )?,
        FrameEvent::Broken(cause) => {
            let reason = last.unwrap_or(break_text(cause));
            add_unreadable(trial.alloc, &mut out, reason)?;
            false
        }
    };
    writer.write_all(&out).map_err(|_| TryFault::Write)?;
    Ok(taken)
}

/// Prints what becomes of each event that a framer has: whether all are blocks whose messages could be read and are not
/// refused. They are numbered on from `number`.
fn try_events<W: Write>(
    trial: &Trial,
    framer: &mut Framer,
    number: &mut u64,
    last: Option<&str>,
    writer: &mut W,
) -> Result<bool, TryFault>
    requires known { trial.now.channel < length (arc_value trial.now.plan).channels }
    ensures taken { IfOk result (λ taken. taken
        ≡ list_all (event_taken (arc_value trial.now.plan) trial.now.channel) framer.old.to_come) }
    ensures rest { OnOk result (framer.new ≡ record framer.old { to_come = [] }) }
{
    let mut all = true;
    'events: while let Some(event) = framer.next() {
        *number = number.saturating_add(1);
        let taken = try_event(trial, event, *number, last, writer)?;
        all = all && taken;
    }
    Ok(all)
}

/// Prints what becomes of each block of an input.
fn try_blocks<W: Write>(trial: &Trial, input: &[u8], writer: &mut W) -> Result<bool, TryFault>
    requires known { trial.now.channel < length (arc_value trial.now.plan).channels }
    ensures { IfOk result (λ taken. taken
        ≡ (list_all (event_taken (arc_value trial.now.plan) trial.now.channel) (blocks input.now)
        && list_all (event_taken (arc_value trial.now.plan) trial.now.channel) (blocks (open_end input.now ++ 11 ∷ [])))) }
{
    let mut framer = Framer::new(trial.alloc);
    let mut number = 0;
    framer.feed(input).map_err(|_| TryFault::Memory)?;
    let all = try_events(trial, &mut framer, &mut number, None, writer)?;
    framer.feed(&[START_BLOCK]).map_err(|_| TryFault::Memory)?;
    let last = Some("the input ends within the block");
    let ended = try_events(trial, &mut framer, &mut number, last, writer)?;
    Ok(all && ended)
}

/// Prints what becomes of a text that is one message, whose segments end by CR, LF or CR LF.
fn try_lines<W: Write>(trial: &Trial, input: &[u8], writer: &mut W) -> Result<bool, TryFault>
    requires known { trial.now.channel < length (arc_value trial.now.plan).channels }
    ensures { IfOk result (IsTextTaken (arc_value trial.now.plan) trial.now.channel (segments false input.now)) }
{
    let mut out = heading(trial.alloc, 1)?;
    let raw = segments_of(trial.alloc, input)?;
    let taken = if fits_block(&raw) {
        try_text(
            trial.alloc,
            &trial.plan,
            trial.channel,
            raw,
            trial.moment,
            &mut out,
        )?
    } else {
        let reason =
            "no block can hold the text: it has a byte 0x0B or 0x1C, or more than 1048576 bytes";
        add_unreadable(trial.alloc, &mut out, reason)?;
        false
    };
    writer.write_all(&out).map_err(|_| TryFault::Write)?;
    Ok(taken)
}

/// Prints what would become of each message of an input: of blocks where its first byte is the start block character (MLLP
/// Release 1), and else of one message as text. Returns whether each of them could be read and is not refused.
///
/// # Errors
///
/// Where memory is refused or the writer fails.
pub fn try_input<W: Write>(trial: &Trial, input: &[u8], writer: &mut W) -> Result<bool, TryFault>
    requires known { trial.now.channel < length (arc_value trial.now.plan).channels }
    ensures { IfOk result (IsInputTaken (arc_value trial.now.plan) trial.now.channel input.now) }
{
    if input.first() == Some(&START_BLOCK) {
        try_blocks(trial, input, writer)
    } else {
        try_lines(trial, input, writer)
    }
}
