//! What is printed of one message.

ghost use Rattle.std.specs.Prelude.{◌≡◌, ◌<◌, ◌++◌, ◌∷◌, [], IfOk, OnOk, length};
ghost use Rattle.std.specs.Arc.{arc_value};
ghost use Rattle.mllp_frame.specs.Framing.{IsBlockData};
ghost use Rattle.judge_core.specs.Judging.{verdict as decided};
ghost use Rattle.dry_run.specs.inner.Trying.{Tells, cause_word, is_taken, verdict_line, verdict_word};

use crate::explanation::{Explanation, Stopped, Way, explain};
use crate::lines::add_lines;
use ack_rule::{AckMode, Verdictum, parts};
use er7_tree::{Message, Refusal};
use hl7_head::{Cause, Header, Moment, ack_text};
use hl7_transform::StopCause;
use judge_core::{Delivery, Judged, Verdict, judge};
use plan_text::Plan;
use std::alloc::{AllocError, Global};
use std::sync::Arc;

/// The connection whose number the acknowledgments bear in MSH-10.
const CONNECTION: u32 = 0;

/// Appends a text.
fn add(out: &mut Vec<u8>, text: &str) -> Result<(), AllocError> {
    out.extend_from_slice(text.as_bytes())
}

/// Whether a message with this verdict could be read, and is not refused.
fn is_taken(verdict: &Verdict) -> bool
    ensures { result ≡ is_taken verdict.now }
{
    !matches!(verdict, Verdict::Unreadable | Verdict::Refuse(_))
}

/// The word for a verdict.
fn verdict_word(verdict: &Verdict) -> &'static [u8]
    ensures { result.now ≡ verdict_word verdict.now }
{
    match verdict {
        Verdict::Unreadable => b"unreadable",
        Verdict::Stray => b"acknowledgment",
        Verdict::Refuse(_) => b"refused ",
        Verdict::Filtered => b"filtered",
        Verdict::Accept(_) => b"accepted",
    }
}

/// The name of the cause for which a verdict refuses, and else nothing.
fn cause_word(verdict: &Verdict) -> &'static [u8]
    ensures { result.now ≡ cause_word verdict.now }
{
    match verdict {
        Verdict::Refuse(cause) => cause.text(),
        _ => b"",
    }
}

/// Appends the line of a verdict, which has its cause.
fn add_verdict(out: &mut Vec<u8>, verdict: &Verdict) -> Result<(), AllocError>
    ensures { OnOk result (out.new.items ≡ out.old.items ++ verdict_line verdict.now) }
{
    out.extend_from_slice(b"verdict: ")?;
    out.extend_from_slice(verdict_word(verdict))?;
    out.extend_from_slice(cause_word(verdict))?;
    out.extend_from_slice(b"\n")
}

/// Why a step can't be taken, in words.
fn stop_text(cause: StopCause) -> &'static str {
    match cause {
        StopCause::NoSuchSegment => "the message has no such segment",
        StopCause::NotInTable =>
            "the value is in no pair of the lookup table, and there is no default",
    }
}

/// The name of a destination.
fn name_of(plan: &Plan, destination: u32) -> &str {
    match plan.destination(destination) {
        Some(destination) => destination.name(),
        None => "",
    }
}

/// Appends the line of a step that can't be taken, if there is one; `whose` names the steps.
fn add_stop(
    alloc: Global,
    out: &mut Vec<u8>,
    whose: &str,
    stop: Option<Stopped>,
) -> Result<(), AllocError> {
    let Some(Stopped { place, cause }) = stop else {
        return Ok(());
    };
    let number = place.saturating_add(1);
    let why = stop_text(cause);
    let line = format!(in alloc; "{whose}: step {number} stopped: {why}\n")?;
    add(out, &line)
}

/// Appends how a message fares on a route, the one of this number.
fn add_way(
    alloc: Global,
    out: &mut Vec<u8>,
    plan: &Plan,
    number: u32,
    way: &Way,
) -> Result<(), AllocError> {
    let name = name_of(plan, way.to);
    let passes = way.passes;
    let whose = format!(in alloc; "route {number} to {name}")?;
    let line = format!(in alloc; "{whose}: filter {passes}\n")?;
    add(out, &line)?;
    add_stop(alloc, out, &whose, way.stop)
}

/// Appends how a message fares in its channel.
fn add_explanation(
    alloc: Global,
    out: &mut Vec<u8>,
    plan: &Plan,
    explanation: &Explanation,
) -> Result<(), AllocError> {
    let passes = explanation.passes;
    let line = format!(in alloc; "channel: filter {passes}\n")?;
    add(out, &line)?;
    add_stop(alloc, out, "channel", explanation.stop)?;
    let mut number: u32 = 0;
    for way in &explanation.ways {
        number = number.saturating_add(1);
        add_way(alloc, out, plan, number, way)?;
    }
    Ok(())
}

/// Appends what becomes of a message in the channel with this index in the plan.
fn add_ways(
    alloc: Global,
    out: &mut Vec<u8>,
    plan: &Plan,
    channel: u32,
    message: Message,
) -> Result<(), AllocError> {
    plan.rules();
    match plan.channel(channel) {
        Some(rules) => {
            let explanation = explain(alloc, rules, message)?;
            add_explanation(alloc, out, plan, &explanation)
        }
        None => Ok(()),
    }
}

/// Whether the channel's filter, steps and routes are reached with this verdict.
fn comes_to_routes(verdict: &Verdict) -> bool {
    matches!(
        verdict,
        Verdict::Filtered
            | Verdict::Accept(_)
            | Verdict::Refuse(Cause::SourceTransform | Cause::RouteTransform)
    )
}

/// Appends why a text is no message, or how the message fares in its channel.
fn add_reasons(alloc: Global, out: &mut Vec<u8>, judged: &Judged) -> Result<(), AllocError> {
    match Message::parse(alloc, judged.raw().as_slice()) {
        Ok(message) => {
            if comes_to_routes(judged.verdict()) {
                add_ways(alloc, out, judged.plan(), judged.channel(), message)?;
            }
            Ok(())
        }
        Err(Refusal::NoMemory) => Err(AllocError),
        Err(refusal) => {
            let line = format!(in alloc; "reason: {refusal}\n")?;
            add(out, &line)
        }
    }
}

/// Appends the payload of a delivery, a segment a line.
fn add_payload(
    alloc: Global,
    out: &mut Vec<u8>,
    plan: &Plan,
    delivery: &Delivery,
) -> Result<(), AllocError> {
    let name = name_of(plan, delivery.destination);
    let line = format!(in alloc; "payload for {name}:\n")?;
    add(out, &line)?;
    add_lines(out, delivery.payload.as_slice())
}

/// Appends the payload for each destination.
fn add_payloads(alloc: Global, out: &mut Vec<u8>, judged: &Judged) -> Result<(), AllocError> {
    if let Verdict::Accept(deliveries) = judged.verdict() {
        for delivery in deliveries.as_slice() {
            add_payload(alloc, out, judged.plan(), delivery)?;
        }
    }
    Ok(())
}

/// What is acknowledged of a verdict; nothing where the text is no message.
fn told_of(verdict: &Verdict) -> Option<Verdictum> {
    match verdict {
        Verdict::Unreadable | Verdict::Stray => None,
        Verdict::Refuse(cause) => Some(Verdictum::of_cause(*cause)),
        Verdict::Filtered | Verdict::Accept(_) => Some(Verdictum::Success),
    }
}

/// Appends the acknowledgments that a message is due, as the first of a connection (HL7 v2.5.1, 2.9.2 and 2.9.3).
fn add_acks(
    alloc: Global,
    out: &mut Vec<u8>,
    header: &Header,
    told: Verdictum,
    now: Moment,
) -> Result<(), AllocError> {
    let mut number: u32 = 0;
    for part in parts(AckMode::of(header), told) {
        if let Some(part) = part {
            number = number.saturating_add(1);
            let text = ack_text(alloc, header, &part, now, CONNECTION, number)?;
            add(out, "acknowledgment:\n")?;
            add_lines(out, &text)?;
        }
    }
    if number == 0 {
        add(out, "acknowledgment: none\n")?;
    }
    Ok(())
}

/// Appends all that is printed of a message behind its verdict.
fn add_details(
    alloc: Global,
    out: &mut Vec<u8>,
    judged: &Judged,
    now: Moment,
) -> Result<(), AllocError> {
    add_reasons(alloc, out, judged)?;
    add_payloads(alloc, out, judged)?;
    if let (Some(header), Some(told)) = (judged.header(), told_of(judged.verdict())) {
        add_acks(alloc, out, header, told, now)?;
    }
    add(out, "\n")
}

/// Judges a text that arrived on a channel, at this moment, and appends its verdict, with its cause; whether each
/// filter is true and which step can't be taken; the payload for each destination; and the acknowledgments. Whether
/// the message could be read and is not refused.
///
/// # Errors
///
/// Where memory is refused.
pub fn try_text(
    alloc: Global,
    plan: &Arc<Plan>,
    channel: u32,
    raw: Vec<u8>,
    now: Moment,
    out: &mut Vec<u8>,
) -> Result<bool, AllocError>
    requires known { channel < length (arc_value plan.now).channels }
    requires fits { IsBlockData raw.items }
    ensures told { OnOk result (Tells out.old.items out.new.items (decided (arc_value plan.now) channel raw.items)) }
    ensures taken { IfOk result (λ taken. taken ≡ is_taken (decided (arc_value plan.now) channel raw.items)) }
{
    let judged = judge(alloc, plan, channel, raw)?;
    let mut details = Vec::new(alloc);
    add_details(alloc, &mut details, &judged, now)?;
    add_verdict(out, judged.verdict())?;
    out.extend_from_slice(&details)?;
    Ok(is_taken(judged.verdict()))
}
