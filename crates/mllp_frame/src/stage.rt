//! How a framer reads a piece of its stream: outside of blocks, in a block's data, and behind an end block character.

ghost use Rattle.std.specs.Prelude.{◌≡◌, ◌≢◌, ◌+◌, ◌*◌, ◌<◌, ◌≤◌, List, ◌++◌, drop, length, map, slice_index, OnOk, OnErr, IfOk, IfSome, IsOk, IsOkAnd};
ghost use Rattle.memchr.specs.Find.{IsFirstByte, is_byte2};
ghost use Rattle.mllp_frame.specs.Event.{FramingEvent};
ghost use Rattle.mllp_frame.specs.inner.Event.{event_of};
ghost use Rattle.mllp_frame.specs.Framing.{blocks, ended_block, start_block, end_block};
ghost use Rattle.mllp_frame.specs.inner.Framing.{HasNoStart, least_too_long, shortened, begun_block, ending_block};
ghost use Rattle.mllp_frame.specs.inner.Framed.{AddsFront};
ghost use Rattle.mllp_frame.specs.inner.Stage.{Reads, HoldsShortData, IsQuiet, IsShortData, open_block, work};

use crate::search::{find_framing, find_start};
use crate::{Break, CARRIAGE_RETURN, DATA_MAX, END_BLOCK, FrameEvent, START_BLOCK};
use std::alloc::{AllocError, Global};
use std::collections::VecDeque;

/// The position of a framer in its stream.
#[derive(Drop)]
pub enum Stage {
    /// Outside of blocks.
    Outside,
    /// Inside a block with this data so far, kept up to the first byte past the limit.
    Inside(Vec<u8>),
    /// Behind the end block character of a block with this data, kept likewise.
    Ended(Vec<u8>),
}

/// Appends data, up to the first byte past the limit, so that what a block without end can take is bounded.
fn keep(bytes: &mut Vec<u8>, more: &[u8]) -> Result<(), AllocError>
    requires { length bytes.old.items ≤ least_too_long }
    ensures { OnOk result (bytes.new.items ≡ shortened (bytes.old.items ++ more.now)) }
{
    let room = DATA_MAX + 1 - bytes.len();
    bytes.extend_from_slice(&more[..room.min(more.len())])
}

/// The event of a block that has both its end bytes.
fn closed(bytes: Vec<u8>) -> FrameEvent
    ensures { event_of result ≡ ended_block bytes.items }
{
    if bytes.len() <= DATA_MAX {
        FrameEvent::Block(bytes)
    } else {
        FrameEvent::Broken(Break::TooLong)
    }
}

/// Reads the byte that follows an end block character. Another byte than a carriage return is left to be read outside.
fn read_ended<'a>(
    bytes: Vec<u8>,
    events: &mut VecDeque<FrameEvent>,
    piece: &'a [u8],
) -> Result<(Stage, &'a [u8]), AllocError>
    requires short { IsShortData bytes.items }
    requires some { 0 < length piece.now }
    ensures reads { IfOk result (λ next.
        Reads (map event_of events.old.items) (map event_of events.new.items)
        (ending_block bytes.items ++ piece.now) (open_block next.0 ++ next.1.now)) }
    ensures short { IfOk result (λ next. HoldsShortData next.0) }
    ensures nearer { IfOk result (λ next. work next.0 next.1.now < 2 * length piece.now + 1) }
    ensures err { OnErr result (events.new.items ≡ events.old.items) }
{
    events.reserve(1)?;
    if piece[0] != CARRIAGE_RETURN {
        events.push_back_reserved(FrameEvent::Broken(Break::BadEnd));
        return Ok((Stage::Outside, piece));
    }
    events.push_back_reserved(closed(bytes));
    Ok((Stage::Outside, &piece[1..]))
}

/// Reads on behind an end block character, where something follows it.
fn read_end<'a>(
    bytes: Vec<u8>,
    events: &mut VecDeque<FrameEvent>,
    piece: &'a [u8],
) -> Result<(Stage, &'a [u8]), AllocError>
    requires { IsShortData bytes.items }
    ensures reads { IfOk result (λ next.
        Reads (map event_of events.old.items) (map event_of events.new.items)
        (ending_block bytes.items ++ piece.now) (open_block next.0 ++ next.1.now)) }
    ensures short { IfOk result (λ next. HoldsShortData next.0) }
    ensures nearer { IfOk result (λ next. work next.0 next.1.now < 2 * length piece.now + 2) }
    ensures err { OnErr result (events.new.items ≡ events.old.items) }
{
    if piece.is_empty() {
        return Ok((Stage::Ended(bytes), piece));
    }
    read_ended(bytes, events, piece)
}

/// Reads the part of a block's data up to its last start block character before another framing byte: each breaks the block and
/// opens the next one. What is left is returned, with the index of its end block character, if it has one.
///
/// It exists for speed: no stage is kept between two start block characters, which saves some 120 instructions each.
fn read_starts<'a>(
    bytes: &mut Vec<u8>,
    events: &mut VecDeque<FrameEvent>,
    piece: &'a [u8],
) -> Result<(&'a [u8], Option<usize>), AllocError>
    requires { IsShortData bytes.old.items }
    ensures reads { IfOk result (λ next.
        Reads (map event_of events.old.items) (map event_of events.new.items)
        (begun_block bytes.old.items ++ piece.now) (begun_block bytes.new.items ++ next.0.now)) }
    ensures short { OnOk result (IsShortData bytes.new.items) }
    ensures first { IfOk result (λ next. IsFirstByte (is_byte2 start_block end_block) next.0.now next.1) }
    ensures ends { IfOk result (λ next. IfSome next.1 (λ at. slice_index next.0.now at ≢ start_block)) }
    ensures nearer { IfOk result (λ next. length next.0.now ≤ length piece.now) }
    ensures err { OnErr result (AddsFront (map event_of events.old.items) (map event_of events.new.items)
        (blocks (begun_block bytes.old.items ++ piece.now))) }
{
    let mut rest = piece;
    'starts: loop {
        let at = match find_framing(rest) {
            Some(at) if rest[at] == START_BLOCK => at,
            end => return Ok((rest, end)),
        };
        events.reserve(1)?;
        events.push_back_reserved(FrameEvent::Broken(Break::NewStart));
        bytes.clear();
        rest = &rest[at + 1..];
    }
}

/// Reads on in a block's data, up to its end or the piece's, and past the block's end where that is read too.
fn read_inside<'a>(
    mut bytes: Vec<u8>,
    events: &mut VecDeque<FrameEvent>,
    piece: &'a [u8],
) -> Result<(Stage, &'a [u8]), AllocError>
    requires { IsShortData bytes.items }
    ensures reads { IfOk result (λ next.
        Reads (map event_of events.old.items) (map event_of events.new.items)
        (begun_block bytes.items ++ piece.now) (open_block next.0 ++ next.1.now)) }
    ensures short { IfOk result (λ next. HoldsShortData next.0) }
    ensures nearer { IfOk result (λ next. 0 < length piece.now → work next.0 next.1.now < 2 * length piece.now) }
    ensures most { IfOk result (λ next. work next.0 next.1.now ≤ 2 * length piece.now) }
    ensures err { OnErr result (AddsFront (map event_of events.old.items) (map event_of events.new.items)
        (blocks (begun_block bytes.items ++ piece.now))) }
{
    let (rest, end) = read_starts(&mut bytes, events, piece)?;
    match end {
        None => {
            keep(&mut bytes, rest)?;
            Ok((Stage::Inside(bytes), &[]))
        }
        Some(at) => {
            keep(&mut bytes, &rest[..at])?;
            read_end(bytes, events, &rest[at + 1..])
        }
    }
}

/// Reads a block that the piece begins with and that lies whole in it, and returns how many bytes it takes, 0 where there is no
/// such block. Where it is broken or too long, nothing is read.
///
/// It exists for speed: the data is copied once, and no stage is kept on the way, which saves some 80 instructions a block.
fn take_block(
    alloc: Global,
    events: &mut VecDeque<FrameEvent>,
    piece: &[u8],
) -> Result<usize, AllocError>
    ensures within { IfOk result (λ n. n ≤ length piece.now) }
    ensures reads { IfOk result (λ n.
        Reads (map event_of events.old.items) (map event_of events.new.items) piece.now (drop n piece.now)) }
    ensures none { IfOk result (λ n. n ≡ 0 → events.new.items ≡ events.old.items) }
    ensures err { OnErr result (events.new.items ≡ events.old.items) }
    ensures quiet { HasNoStart piece.now → IsOkAnd result (λ n. n ≡ 0) }
{
    if piece.is_empty() || piece[0] != START_BLOCK {
        return Ok(0);
    }
    let data = &piece[1..];
    let Some(at) = find_framing(data) else {
        return Ok(0);
    };
    if at > DATA_MAX || at + 1 >= data.len() {
        return Ok(0);
    }
    if data[at] != END_BLOCK || data[at + 1] != CARRIAGE_RETURN {
        return Ok(0);
    }
    events.reserve(1)?;
    let bytes = Vec::from_slice(alloc, &data[..at])?;
    events.push_back_reserved(FrameEvent::Block(bytes));
    Ok(at + 3)
}

/// Reads on outside of blocks, and in the next block where its start block character is read.
fn read_outside<'a>(
    alloc: Global,
    events: &mut VecDeque<FrameEvent>,
    piece: &'a [u8],
) -> Result<(Stage, &'a [u8]), AllocError>
    ensures reads { IfOk result (λ next.
        Reads (map event_of events.old.items) (map event_of events.new.items) piece.now (open_block next.0 ++ next.1.now)) }
    ensures short { IfOk result (λ next. HoldsShortData next.0) }
    ensures nearer { IfOk result (λ next. 0 < length piece.now → work next.0 next.1.now < 2 * length piece.now) }
    ensures err { OnErr result (AddsFront (map event_of events.old.items) (map event_of events.new.items) (blocks piece.now)) }
    ensures quiet { HasNoStart piece.now → IsOkAnd result (λ next. IsQuiet (open_block next.0) next.1.now) }
{
    let taken = take_block(alloc, events, piece)?;
    if taken > 0 {
        return Ok((Stage::Outside, &piece[taken..]));
    }
    match find_start(piece) {
        Some(at) => read_inside(Vec::new(alloc), events, &piece[at + 1..]),
        None => Ok((Stage::Outside, &[])),
    }
}

/// Reads on, up to where the stage changes.
fn advance<'a>(
    alloc: Global,
    stage: Stage,
    events: &mut VecDeque<FrameEvent>,
    piece: &'a [u8],
) -> Result<(Stage, &'a [u8]), AllocError>
    requires short { HoldsShortData stage }
    requires some { 0 < length piece.now }
    ensures reads { IfOk result (λ next.
        Reads (map event_of events.old.items) (map event_of events.new.items) (open_block stage ++ piece.now) (open_block next.0 ++ next.1.now)) }
    ensures short { IfOk result (λ next. HoldsShortData next.0) }
    ensures nearer { IfOk result (λ next. work next.0 next.1.now < work stage piece.now) }
    ensures err { OnErr result (AddsFront (map event_of events.old.items) (map event_of events.new.items)
        (blocks (open_block stage ++ piece.now))) }
    ensures quiet { IsQuiet (open_block stage) piece.now → IsOkAnd result (λ next. IsQuiet (open_block next.0) next.1.now) }
{
    match stage {
        Stage::Outside => read_outside(alloc, events, piece),
        Stage::Inside(bytes) => read_inside(bytes, events, piece),
        Stage::Ended(bytes) => read_ended(bytes, events, piece),
    }
}

/// Reads a whole piece, and returns where it left off.
///
/// # Errors
///
/// Where memory is refused; the events found before that are kept.
pub fn read(
    alloc: Global,
    start: Stage,
    events: &mut VecDeque<FrameEvent>,
    piece: &[u8],
) -> Result<Stage, AllocError>
    requires { HoldsShortData start }
    ensures reads { IfOk result (λ last.
        Reads (map event_of events.old.items) (map event_of events.new.items) (open_block start ++ piece.now) (open_block last)) }
    ensures short { IfOk result (λ last. HoldsShortData last) }
    ensures err { OnErr result (AddsFront (map event_of events.old.items) (map event_of events.new.items) (blocks (open_block start ++ piece.now))) }
    ensures quiet { IsQuiet (open_block start) piece.now → IsOk result }
{
    let mut stage = start;
    let mut rest = piece;
    'piece: while !rest.is_empty() {
        let (next, left) = advance(alloc, stage, events, rest)?;
        stage = next;
        rest = left;
    }
    Ok(stage)
}
