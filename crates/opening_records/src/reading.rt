//! An opening is decoded.

ghost use Rattle.std.specs.Prelude.{◌≡◌, IfOk, IsUtf8, MatchResult, Ok};
ghost use Rattle.std.specs.Int.{w32};
ghost use Rattle.plan_text.specs.Document.{plan_in};
ghost use Rattle.plan_text.specs.Entries.{PlanEntry};
ghost use Rattle.event_log.specs.History.{Snapshot};
ghost use Rattle.opening_records.specs.declared.fault.OpeningFault.TheVariants.{NoMemory};
ghost use Rattle.opening_records.specs.inner.Openings.{IsEncoding, IsOrderly};
ghost use Rattle.opening_records.specs.inner.Decoding.{Reads, many_at, opening_in, remembered_at, several_at};
ghost use Rattle.opening_records.specs.inner.Reading.{IsSnapshotOf, written_of};

use crate::checks::places_increase;
use crate::fault::{OpeningFault, Reason, fault_at};
use crate::head::Head;
use crate::parts::{channels_at, destinations_at, head_at, remembered_at};
use event_log::{Remembered, Snapshot};
use event_records::{text_at, u32_at};
use plan_text::{Plan, PlanFaultKind};
use stat_count::{ChannelCounts, Counts, DestinationCounts};
use std::alloc::Global;
use std::str;
use std::sync::Arc;

/// The bytes of the format and of the numbers.
const HEAD_LEN: usize = 25;

/// The bytes of a count.
const COUNT_LEN: usize = 4;

/// The bytes of the counters of 64 channels and 32 destinations behind their counts.
const COUNTERS_LEN: usize = 3848;

/// The parts of an opening.
#[derive(Drop)]
struct Parts {
    head: Head,
    document: Vec<u8>,
    channels: Vec<ChannelCounts>,
    destinations: Vec<DestinationCounts>,
    remembered: Vec<Remembered>,
}

/// A remembered arrival of an opening of this many bytes, and the bytes behind it.
fn arrival_at(alloc: Global, len: usize, bytes: &[u8]) -> Result<(Remembered, &[u8]), OpeningFault>
    ensures { Reads (λ x. (x.0, x.1.now)) result (remembered_at bytes.now) }
{
    match remembered_at(alloc, bytes) {
        Ok(found) => Ok(found),
        Err(error) => Err(fault_at(len.saturating_sub(bytes.len()), error)),
    }
}

/// This number of remembered arrivals of an opening of this many bytes, and the bytes behind them.
fn arrivals_of(
    alloc: Global,
    len: usize,
    count: u32,
    bytes: &[u8],
) -> Result<(Vec<Remembered>, &[u8]), OpeningFault>
    ensures { Reads (λ x. (x.0.items, x.1.now)) result (many_at remembered_at count bytes.now) }
{
    let mut items = Vec::new(alloc);
    let mut rest = bytes;
    for _ in 0..count {
        let (item, after) = arrival_at(alloc, len, rest)?;
        items.push(item)?;
        rest = after;
    }
    Ok((items, rest))
}

/// The remembered arrivals of an opening of this many bytes behind their count, and the bytes behind them.
fn arrivals_at(
    alloc: Global,
    len: usize,
    bytes: &[u8],
) -> Result<(Vec<Remembered>, &[u8]), OpeningFault>
    ensures { Reads (λ x. (x.0.items, x.1.now)) result (several_at remembered_at bytes.now) }
{
    let at = len.saturating_sub(bytes.len());
    let (count, rest) = u32_at(bytes).map_err(|error| fault_at(at, error))?;
    arrivals_of(alloc, len, count, rest)
}

/// The parts of the opening that the bytes are.
#[tactic(auto, unfolding(crate::specs::inner::Decoding::opening_in, crate::specs::inner::Decoding::opening_at))]
fn parts_of(alloc: Global, bytes: &[u8]) -> Result<Parts, OpeningFault>
    ensures { Reads written_of result (opening_in bytes.now) }
{
    let (head, rest) = head_at(bytes).map_err(|error| fault_at(0, error))?;
    let (text, rest) = text_at(rest).map_err(|error| fault_at(HEAD_LEN, error))?;
    let at = bytes.len().saturating_sub(rest.len());
    let (channels, rest) = channels_at(alloc, rest).map_err(|error| fault_at(at, error))?;
    let (destinations, rest) = destinations_at(alloc, rest).map_err(|error| fault_at(at, error))?;
    let (remembered, rest) = arrivals_at(alloc, bytes.len(), rest)?;
    if !rest.is_empty() {
        let at = bytes.len().saturating_sub(rest.len());
        return Err(OpeningFault::NotAnOpening {
            at,
            reason: Reason::Longer,
        });
    }
    Ok(Parts {
        head,
        document: Vec::from_slice(alloc, text)?,
        channels,
        destinations,
        remembered,
    })
}

/// The plan of a document.
fn plan_of(alloc: Global, document: &[u8]) -> Result<Plan, OpeningFault>
    ensures found { IfOk result (λ plan. IsUtf8 document.now × (plan_in document.now ≡ Ok plan)) }
    ensures only { (plan : PlanEntry) → IsUtf8 document.now → plan_in document.now ≡ Ok plan
        → MatchResult result (λ p. p ≡ plan) (λ fault. fault ≡ NoMemory) }
{
    if str::from_utf8(document).is_err() {
        return Err(OpeningFault::NotAnOpening {
            at: HEAD_LEN,
            reason: Reason::NotAPlan,
        });
    }
    match Plan::read(alloc, document) {
        Ok(plan) => Ok(plan),
        Err(fault) => Err(match fault.name {
            PlanFaultKind::NoMemory => OpeningFault::NoMemory,
            _ => OpeningFault::NotAnOpening {
                at: HEAD_LEN,
                reason: Reason::NotAPlan,
            },
        }),
    }
}

/// The opening of its parts.
fn snapshot_of(alloc: Global, parts: Parts) -> Result<Snapshot, OpeningFault>
    ensures found { IfOk result (λ o. IsSnapshotOf (written_of parts) o) }
    ensures only { (o : Snapshot) → IsOrderly o → IsSnapshotOf (written_of parts) o
        → MatchResult result (λ x. x ≡ o) (λ fault. fault ≡ NoMemory) }
{
    let plan = plan_of(alloc, &parts.document)?;
    let at = parts.document.len().saturating_add(HEAD_LEN + COUNT_LEN);
    let Some(forgotten) = Counts::of(&parts.channels, &parts.destinations) else {
        return Err(OpeningFault::NotAnOpening {
            at,
            reason: Reason::Counters,
        });
    };
    if !places_increase(&parts.remembered) {
        return Err(OpeningFault::NotAnOpening {
            at: at.saturating_add(COUNTERS_LEN),
            reason: Reason::Order,
        });
    }
    let head = parts.head;
    Ok(Snapshot::of(
        Arc::new(alloc, plan)?,
        head.events_max,
        head.places as usize,
        head.messages,
        head.deployments,
        head.prunings,
        forgotten,
        parts.remembered,
    ))
}

/// The opening that the bytes are.
///
/// # Errors
///
/// `NoMemory`, or `NotAnOpening` where the bytes are no opening.
pub fn read_opening(alloc: Global, bytes: &[u8]) -> Result<Snapshot, OpeningFault>
    // Bytes that are read are those of the opening.
    ensures read { IfOk result (λ opening. IsEncoding opening bytes.now) }
    // Bytes of an opening are read as that opening, unless memory is refused.
    ensures given_back { (o : Snapshot) → IsOrderly o → IsEncoding o bytes.now
        → MatchResult result (λ opening. opening ≡ o) (λ fault. fault ≡ NoMemory) }
{
    let parts = parts_of(alloc, bytes)?;
    snapshot_of(alloc, parts)
}
