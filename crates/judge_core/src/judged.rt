//! A text with what was decided of it.

ghost use Rattle.std.specs.Prelude.{◌≡◌, ◌+◌, ◌<◌, ◌≤◌, ◌∷◌, ◌++◌, IfOk, IfSome, IsTrue, None, Some, All, is_some, length, option_copied, take};
ghost use Rattle.mllp_frame.specs.Framing.{IsBlockData};
ghost use Rattle.hl7_transform.specs.Step.{after_steps};
ghost use Rattle.plan_text.specs.Entries.{AllStand};
ghost use Rattle.std.specs.Arc.{arc_value};
ghost use Rattle.std.specs.Result.{result_ok};
ghost use Rattle.er7_tree.specs.Tree.{tree, text_of};
ghost use Rattle.hl7_head.specs.Header.{header_of};
ghost use Rattle.judge_core.specs.inner.Delivering.{AreDeliveries};
ghost use Rattle.judge_core.specs.Judging.{header_fault, key_by, deliveries_by, routed, stepped, verdict_of};

use crate::delivery::{Deliveries, by_routes, passes, transformed};
use crate::text::Text;
use dup_index::Key;
use er7_tree::{Message, Refusal, is_vacant};
use fixed_numbers::CONTROL_ID_MAX;
use hl7_head::{Cause, Header};
use plan_text::{Channel, Plan, Route};
use std::alloc::{AllocError, Global};
use std::marker::Model;
use std::sync::Arc;

/// What is decided of a text.
#[derive(Drop)]
pub enum Verdict {
    /// It is no message: there is no answer.
    Unreadable,
    /// It is an acknowledgment, which isn't answered.
    Stray,
    /// It is refused, and acknowledged with the cause.
    Refuse(Cause),
    /// It is taken, and goes nowhere.
    Filtered,
    /// It is taken, and goes to these destinations, at least one.
    Accept(Deliveries),
}

impl Verdict {
    ghost use Rattle.judge_core.specs.inner.Judging.{is_booked};

    /// Whether the arrival is booked, since it is answered.
    pub fn is_booked(&self) -> bool
        ensures { result ≡ is_booked self.now }
    {
        match self {
            Verdict::Unreadable | Verdict::Stray => false,
            Verdict::Refuse(_) | Verdict::Filtered | Verdict::Accept(_) => true,
        }
    }
}

/// A text that arrived on a channel, with what a plan decides of it.
#[derive(Drop)]
pub struct Judged {
    plan: Arc<Plan>,
    channel: u32,
    raw: Text,
    header: Option<Header>,
    key: Key,
    verdict: Verdict,
}

impl Model for Judged {
    ghost use Rattle.std.specs.Prelude.{◌≡◌, ◌<◌, length};
    ghost use Rattle.std.specs.Arc.{arc_value};
    ghost use Rattle.hl7_head.specs.Header.{header_of};
    ghost use Rattle.mllp_frame.specs.Framing.{IsBlockData};
    ghost use Rattle.judge_core.specs.Judging.{Judgement, verdict as decided, key_of};

    ghost Value = { Judgement };

    ghost use Rattle.judge_core.specs.inner.Coding.{judgement_code};

    ghost coded = { judgement_code };

    ghost view = { λ j. record { plan = arc_value j.plan; channel = j.channel; raw = j.raw } };

    ghost invariant = { λ j. record {
      known : j.channel < length (arc_value j.plan).channels;
      fits : IsBlockData j.raw;
      header_is : j.header ≡ header_of j.raw;
      key_is : j.key ≡ key_of j.channel j.raw;
      verdict_is : j.verdict ≡ decided (arc_value j.plan) j.channel j.raw;
    } };
}

/// The first fault of a message's header, if it has one: what the channel doesn't take, or a bad control id.
#[tactic(auto, unfolding(crate::specs::Judging::header_fault))]
fn header_fault(channel: &Channel, header: &Header) -> Option<Cause>
    ensures { result ≡ header_fault channel.now header.now }
{
    let control_id = header.control_id();
    if !channel.takes_type(header.message_code(), header.trigger_event()) {
        Some(Cause::UnsupportedType)
    } else if !channel.takes_processing(header.processing_code()) {
        Some(Cause::UnsupportedProcessing)
    } else if !channel.takes_version(header.version_code()) {
        Some(Cause::UnsupportedVersion)
    } else if is_vacant(control_id) {
        Some(Cause::MissingControlId)
    } else if control_id.len() > CONTROL_ID_MAX {
        Some(Cause::BadControlId)
    } else {
        None
    }
}

/// The message as it is printed, which shares the received bytes where they are the same.
fn payload_of(alloc: Global, message: &Message, raw: &Text) -> Result<Text, AllocError>
    ensures { IfOk result (λ text. text ≡ text_of message.now) }
{
    if let Some(text) = message.printed_text() {
        return Ok(Text::of(Arc::try_clone(text)?));
    }
    let printed = message.print()?;
    if printed.as_slice() == raw.as_slice() {
        raw.share()
    } else {
        Text::new(alloc, printed)
    }
}

/// The most bytes of a key that is put together in a run.
const RUN_MAX: usize = 30;

/// Writes bytes into a run at an offset, and returns the offset behind them.
#[inline(always)]
fn put(run: &mut [u8; RUN_MAX], at: usize, bytes: &[u8]) -> usize
    requires { at + length bytes.now ≤ RUN_MAX }
    ensures end { result ≡ at + length bytes.now }
    ensures written { take result run.new ≡ take at run.old ++ bytes.now }
{
    let end = at + bytes.len();
    run[at..end].copy_from_slice(bytes);
    end
}

/// The key of a message with these three fields, of any length.
#[inline(never)]
fn long_key(
    alloc: Global,
    channel: u8,
    application: &[u8],
    facility: &[u8],
    control_id: &[u8],
) -> Result<Key, AllocError>
    ensures { IfOk result (λ key. key
        ≡ channel ∷ application.now ++ 13 ∷ facility.now ++ 13 ∷ control_id.now) }
{
    Key::new()
        .with(alloc, &[channel])?
        .with(alloc, application)?
        .with(alloc, b"\r")?
        .with(alloc, facility)?
        .with(alloc, b"\r")?
        .with(alloc, control_id)
}

/// The key of a message, by which its repeats are known. A short one is put together in a run, for speed: a key that is made
/// of six parts is moved six times, some 150 instructions more by an estimate.
fn key_bytes(alloc: Global, channel: u8, header: &Header) -> Result<Key, AllocError>
    ensures { IfOk result (λ key. key ≡ key_by channel header.now) }
{
    let application = header.sending_application();
    let facility = header.sending_facility();
    let control_id = header.control_id();
    let fields = application.len().saturating_add(facility.len());
    if fields.saturating_add(control_id.len()) > RUN_MAX - 3 {
        return long_key(alloc, channel, application, facility, control_id);
    }
    let mut run = [0; RUN_MAX];
    let at = put(&mut run, 0, &[channel]);
    let at = put(&mut run, at, application);
    let at = put(&mut run, at, b"\r");
    let at = put(&mut run, at, facility);
    let at = put(&mut run, at, b"\r");
    let at = put(&mut run, at, control_id);
    Key::new().with(alloc, &run[..at])
}

/// What becomes of a message by routes; `payload` is its text. Where the steps of one can't be taken, the whole message is
/// refused, and where it goes nowhere it is filtered.
fn routed(
    alloc: Global,
    routes: &[Route],
    message: &Message,
    payload: &Text,
) -> Result<Verdict, AllocError>
    requires stand { All (λ r. AllStand r.steps) routes.now }
    requires payload { payload.now ≡ text_of message.now }
    requires goes { AreDeliveries (deliveries_by routes.now message.now) }
    ensures { IfOk result (λ verdict. verdict ≡ routed routes.now message.now) }
{
    let Some(deliveries) = by_routes(alloc, routes, message, payload)? else {
        return Ok(Verdict::Refuse(Cause::RouteTransform));
    };
    if deliveries.is_empty() {
        return Ok(Verdict::Filtered);
    }
    Ok(Verdict::Accept(Deliveries::new(alloc, deliveries)?))
}

/// What becomes of a message by routes, which share the received bytes where it is printed so.
fn sent_by(
    alloc: Global,
    routes: &[Route],
    message: &Message,
    raw: &Text,
) -> Result<Verdict, AllocError>
    requires stand { All (λ r. AllStand r.steps) routes.now }
    requires goes { AreDeliveries (deliveries_by routes.now message.now) }
    ensures { IfOk result (λ verdict. verdict ≡ routed routes.now message.now) }
{
    let payload = payload_of(alloc, message, raw)?;
    routed(alloc, routes, message, &payload)
}

/// What becomes of a message that the channel changes. It is not inlined, for speed: what it keeps of the changed message
/// would be cleared for each message that isn't changed, some 40 instructions by an estimate.
#[inline(never)]
fn changed(
    alloc: Global,
    channel: &Channel,
    message: &Message,
    raw: &Text,
) -> Result<Verdict, AllocError>
    requires stand { AllStand channel.now.steps }
    requires routes_stand { All (λ r. AllStand r.steps) channel.now.routes }
    requires goes { IfOk (after_steps channel.now.steps message.now) (λ t. AreDeliveries (deliveries_by channel.now.routes t)) }
    ensures { IfOk result (λ verdict. verdict ≡ stepped channel.now.routes (after_steps channel.now.steps message.now)) }
{
    let Some(message) = transformed(channel.steps(), message.clone()?)? else {
        return Ok(Verdict::Refuse(Cause::SourceTransform));
    };
    sent_by(alloc, channel.routes(), &message, raw)
}

/// What becomes of a message that passes the channel's filter. One that the channel doesn't change is not copied.
fn stepped(
    alloc: Global,
    channel: &Channel,
    message: &Message,
    raw: &Text,
) -> Result<Verdict, AllocError>
    requires stand { AllStand channel.now.steps }
    requires routes_stand { All (λ r. AllStand r.steps) channel.now.routes }
    requires goes { IfOk (after_steps channel.now.steps message.now) (λ t. AreDeliveries (deliveries_by channel.now.routes t)) }
    ensures { IfOk result (λ verdict. verdict ≡ stepped channel.now.routes (after_steps channel.now.steps message.now)) }
{
    if !channel.steps().is_empty() {
        return changed(alloc, channel, message, raw);
    }
    sent_by(alloc, channel.routes(), message, raw)
}

/// What a channel decides of a message.
fn decide(
    alloc: Global,
    channel: &Channel,
    message: &Message,
    header: &Header,
    raw: &Text,
) -> Result<Verdict, AllocError>
    requires stand { AllStand channel.now.steps }
    requires routes_stand { All (λ r. AllStand r.steps) channel.now.routes }
    requires goes { IfOk (after_steps channel.now.steps message.now) (λ t. AreDeliveries (deliveries_by channel.now.routes t)) }
    ensures { IfOk result (λ verdict. verdict ≡ verdict_of (Some channel.now) header.now message.now) }
{
    if header.message_code() == b"ACK".as_slice() {
        return Ok(Verdict::Stray);
    }
    if let Some(cause) = header_fault(channel, header) {
        return Ok(Verdict::Refuse(cause));
    }
    if !passes(channel.filter(), message)? {
        return Ok(Verdict::Filtered);
    }
    stepped(alloc, channel, message, raw)
}

/// A text that is no message, as it is judged.
fn unreadable(plan: Arc<Plan>, channel: u32, raw: Text) -> Judged
    requires known { channel < length (arc_value plan).channels }
    requires fits { IsBlockData raw }
    requires none { result_ok (tree raw) ≡ None }
    ensures { result ≡ record { plan = arc_value plan; channel = channel; raw = raw } }
{
    Judged {
        plan,
        channel,
        raw,
        header: None,
        key: Key::new(),
        verdict: Verdict::Unreadable,
    }
}

/// Judges a message that was read from a text.
fn judge_message(
    alloc: Global,
    plan: Arc<Plan>,
    channel: u32,
    raw: Text,
    message: &Message,
) -> Result<Judged, AllocError>
    requires known { channel < length (arc_value plan).channels }
    requires fits { IsBlockData raw }
    requires read { result_ok (tree raw) ≡ Some message.now }
    ensures { IfOk result (λ judged. judged ≡ record { plan = arc_value plan; channel = channel; raw = raw }) }
{
    plan.rules();
    let header = Header::read(message)?;
    let key = key_bytes(alloc, channel as u8, &header)?;
    let rules = plan.channel(channel).unwrap();
    let verdict = decide(alloc, rules, message, &header, &raw)?;
    Ok(Judged {
        plan,
        channel,
        raw,
        header: Some(header),
        key,
        verdict,
    })
}

/// Judges a text that arrived on a channel of the plan.
///
/// # Errors
///
/// Where memory is refused, or the plan has more owners than can be counted; the text is dropped then.
pub fn judge(
    alloc: Global,
    plan: &Arc<Plan>,
    channel: u32,
    raw: Vec<u8>,
) -> Result<Judged, AllocError>
    requires known { channel < length (arc_value plan.now).channels }
    requires fits { IsBlockData raw.items }
    ensures { IfOk result (λ judged. judged ≡ record { plan = arc_value plan.now; channel = channel; raw = raw.items }) }
{
    let shared = Arc::new(alloc, raw)?;
    let plan = Arc::try_clone(plan)?;
    // What was read is judged where it is, and not moved, for speed: it takes 170 bytes.
    let read = Message::parse_shared(alloc, &shared);
    let raw = Text::of(shared);
    match &read {
        Ok(message) => judge_message(alloc, plan, channel, raw, message),
        Err(Refusal::NoMemory) => Err(AllocError),
        Err(_) => Ok(unreadable(plan, channel, raw)),
    }
}

/// A message that is to be booked: a judged text that has a header and is no acknowledgment.
#[derive(Drop)]
pub struct JudgedMessage<'a> {
    judged: &'a Judged,
    header: &'a Header,
}

impl<'a> Model for JudgedMessage<'a> {
    ghost use Rattle.std.specs.Prelude.{◌≡◌, IsTrue, Some};
    ghost use Rattle.hl7_head.specs.Header.{header_of};
    ghost use Rattle.judge_core.specs.Judging.{Judgement, is_bookable};

    ghost Value = { Judgement };

    ghost use Rattle.judge_core.specs.inner.Coding.{judgement_code};

    ghost coded = { judgement_code };

    ghost view = { λ message. message.judged.now };

    ghost invariant = { λ message. record {
      bookable : IsTrue (is_bookable message.judged.now.raw);
      header_is : header_of message.judged.now.raw ≡ Some message.header.now;
    } };
}

impl<'a> JudgedMessage<'a> {
    ghost use Rattle.judge_core.specs.Judging.{is_bookable};

    /// The text as it was judged.
    pub fn judged(&self) -> &'a Judged
        ensures value { result.now ≡ self.now }
        ensures bookable { IsTrue (is_bookable result.now.raw) }
    {
        self.judged
    }

    /// The header.
    pub fn header(&self) -> &'a Header
        ensures { header_of self.now.raw ≡ Some result.now }
    {
        self.header
    }
}

impl Judged {
    ghost use Rattle.judge_core.specs.Judging.{verdict, key_of, is_bookable};
    ghost use Rattle.judge_core.specs.inner.Judging.{is_booked};

    /// The plan by which it was judged.
    pub fn plan(&self) -> &Plan
        ensures { result.now ≡ self.now.plan }
    {
        &self.plan
    }

    /// The channel's index in the plan.
    pub fn channel(&self) -> u32
        ensures value { result ≡ self.now.channel }
        ensures known { result < length self.now.plan.channels }
    {
        self.channel
    }

    /// The text as it was received.
    pub fn raw(&self) -> &Text
        ensures value { result.now ≡ self.now.raw }
        ensures fits { IsBlockData result.now }
    {
        &self.raw
    }

    /// The header, if the text is a message.
    pub fn header(&self) -> Option<&Header>
        ensures { option_copied result ≡ header_of self.now.raw }
    {
        self.header.as_ref()
    }

    /// The key: the channel as one byte, MSH-3, 0x0D, MSH-4, 0x0D and MSH-10; empty where the text is no message.
    pub fn key(&self) -> &[u8]
        ensures { result.now ≡ key_of self.now.channel self.now.raw }
    {
        self.key.as_slice()
    }

    /// What was decided.
    pub fn verdict(&self) -> &Verdict
        ensures value { result.now ≡ verdict self.now.plan self.now.channel self.now.raw }
        ensures booked { is_booked result.now ≡ is_bookable self.now.raw }
    {
        &self.verdict
    }

    /// Whether its arrival is booked: a message that is no acknowledgment.
    pub fn bookable(&self) -> bool
        ensures { result ≡ is_bookable self.now.raw }
    {
        self.verdict.is_booked()
    }

    /// The message, where the text is one that is to be booked.
    pub fn message(&self) -> Option<JudgedMessage<'_>>
        ensures value { IfSome result (λ message. message ≡ self.now) }
        ensures booked { is_some result ≡ is_bookable self.now.raw }
    {
        let header = self.header.as_ref()?;
        if !self.bookable() {
            return None;
        }
        Some(JudgedMessage {
            judged: self,
            header,
        })
    }
}
