//! Plays calls on framers: a line is a call, and is written with its answer. Empty lines and those that begin with `#` are
//! written as they are. Bytes are written as words, which are put together: those that aren't seen have names, as `<VT>`,
//! `a*1000` is a byte a thousand times, and `<>` is nothing.
//!
//! - `new`: a framer at the start of a stream, which `feed` reads on.
//! - `feed BYTES`: the events that a piece of that stream brings.
//! - `by N BYTES`: the events of a whole stream, in pieces of N bytes.
//! - `cuts BYTES`: the events of a whole stream, and whether they are the same where it is cut at any two places.
//! - `write BYTES`: a block of this text, and the events of that block.

ghost use Rattle.std.specs.Prelude.{IsTrue};
ghost use Rattle.mllp_frame.specs.Framing.{IsData};

use anyhow::{Result, bail};
use mllp_frame::{END_BLOCK, FrameEvent, FrameFault, Framer, START_BLOCK, write_block};
use play_script::{bytes_of, first_word, is_call, shown};
use std::alloc::{AllocError, Global};
use std::fmt::Write;
use std::str;

/// A block with more data is shown by its length.
const SHOWN_MAX: usize = 200;

/// A byte and how often it is repeated, where the word is of the form `a*1000`.
fn run_of(word: &str) -> Option<(u8, usize)> {
    let (byte, count) = word.split_once('*')?;
    byte.bytes().next().zip(count.parse().ok())
}

/// Appends the bytes that a word means.
fn push_word(bytes: &mut Vec<u8>, word: &str) -> Result<(), AllocError> {
    match run_of(word) {
        Some((byte, count)) => bytes.resize(bytes.len().saturating_add(count), byte),
        None => bytes.extend_from_slice(&bytes_of(*bytes.allocator(), word)?),
    }
}

/// The bytes that words mean, one behind the other; `<>` means none.
fn stream_of(alloc: Global, words: &str) -> Result<Vec<u8>, AllocError> {
    let mut bytes = Vec::new(alloc);
    for word in words.split(' ') {
        push_word(&mut bytes, word)?;
    }
    Ok(bytes)
}

/// Takes all events to come.
fn drain(framer: &mut Framer, events: &mut Vec<FrameEvent>) -> Result<(), AllocError> {
    while let Some(event) = framer.next() {
        events.push(event)?;
    }
    Ok(())
}

/// The events that these pieces of a stream bring, each taken as it comes.
fn feed_all(
    alloc: Global,
    framer: &mut Framer,
    pieces: &[&[u8]],
) -> Result<Vec<FrameEvent>, FrameFault> {
    let mut events = Vec::new(alloc);
    for piece in pieces {
        framer.feed(piece)?;
        drain(framer, &mut events)?;
    }
    Ok(events)
}

/// The events of a stream that comes in these pieces.
fn events_of(alloc: Global, pieces: &[&[u8]]) -> Result<Vec<FrameEvent>, FrameFault> {
    feed_all(alloc, &mut Framer::new(alloc), pieces)
}

/// The events of a stream in pieces of a length.
fn events_by(alloc: Global, stream: &[u8], len: usize) -> Result<Vec<FrameEvent>> {
    let mut pieces = Vec::new(alloc);
    for piece in stream.chunks(len.max(1)) {
        pieces.push(piece)?;
    }
    Ok(events_of(alloc, &pieces)?)
}

/// Whether these are the events of a stream that is cut at the end of its front and at any place before it.
fn are_so_cut_before(
    alloc: Global,
    front: &[u8],
    last: &[u8],
    events: &[FrameEvent],
) -> Result<bool, FrameFault> {
    for first in 0..=front.len() {
        let pieces = [&front[..first], &front[first..], last];
        if events_of(alloc, &pieces)?.as_slice() != events {
            return Ok(false);
        }
    }
    Ok(true)
}

/// Whether these are the events of a stream, at whichever two places it is cut.
fn are_so_however_cut(
    alloc: Global,
    stream: &[u8],
    events: &[FrameEvent],
) -> Result<bool, FrameFault> {
    for second in 0..=stream.len() {
        let (front, last) = stream.split_at(second);
        if !are_so_cut_before(alloc, front, last, events)? {
            return Ok(false);
        }
    }
    Ok(true)
}

/// Appends an event as a script tells it.
fn push_event(text: &mut String, event: &FrameEvent) -> Result<(), AllocError> {
    match event {
        FrameEvent::Broken(broken) => write!(text, "{broken:?}"),
        FrameEvent::Block(data) if data.len() > SHOWN_MAX => {
            write!(text, "Block of {} bytes", data.len())
        }
        FrameEvent::Block(data) => {
            let data = shown(*text.allocator(), data)?;
            write!(text, "Block {data}")
        }
    }
}

/// Events as a script tells them.
fn told(alloc: Global, events: &[FrameEvent]) -> Result<String, AllocError> {
    if events.is_empty() {
        return String::from_str(alloc, "nothing");
    }
    let mut text = String::new(alloc);
    for (place, event) in events.iter().enumerate() {
        if place > 0 {
            text.push_str(", ")?;
        }
        push_event(&mut text, event)?;
    }
    Ok(text)
}

/// Whether a block can hold this text: it has neither of the two framing characters.
fn is_data(text: &[u8]) -> bool
    ensures { IsTrue result → IsData text.now }
{
    !text
        .iter()
        .any(|byte| *byte == START_BLOCK || *byte == END_BLOCK)
}

/// All events to come.
fn news(alloc: Global, framer: &mut Framer) -> Result<String, AllocError> {
    let mut events = Vec::new(alloc);
    drain(framer, &mut events)?;
    told(alloc, &events)
}

/// The events that a piece of a stream brings, and why it was refused if it was.
fn fed(alloc: Global, framer: &mut Framer, piece: &[u8]) -> Result<String, AllocError> {
    let outcome = framer.feed(piece);
    let mut text = news(alloc, framer)?;
    if let Err(fault) = outcome {
        write!(text, ", refused {}", fault.code())?;
    }
    Ok(text)
}

/// The events of a whole stream, in pieces of a length.
fn by(alloc: Global, words: &str) -> Result<String> {
    let (len, words) = first_word(words);
    let len = len.parse()?;
    let events = events_by(alloc, &stream_of(alloc, words)?, len)?;
    Ok(told(alloc, &events)?)
}

/// The events of a whole stream, and whether they are the same however it is cut.
fn cut(alloc: Global, stream: &[u8]) -> Result<String> {
    let events = events_of(alloc, &[stream])?;
    let mut text = told(alloc, &events)?;
    if are_so_however_cut(alloc, stream, &events)? {
        text.push_str(", however it is cut")?;
    }
    Ok(text)
}

/// The block of a text.
fn block_of(alloc: Global, data: &[u8]) -> Result<Vec<u8>> {
    if !is_data(data) {
        bail!("no block holds this text");
    }
    let mut block = Vec::new(alloc);
    write_block(data, &mut block)?;
    Ok(block)
}

/// A block, and its events.
fn written(alloc: Global, block: &[u8]) -> Result<String> {
    let events = events_of(alloc, &[block])?;
    let mut text = shown(alloc, block)?;
    write!(text, ", {}", told(alloc, &events)?)?;
    Ok(text)
}

/// Puts a framer at the start of a stream.
fn renewed(alloc: Global, framer: &mut Framer) -> String {
    *framer = Framer::new(alloc);
    String::new(alloc)
}

/// The answer to a call with bytes.
fn answer(alloc: Global, framer: &mut Framer, call: &str, bytes: &[u8]) -> Result<String> {
    match call {
        "new" => Ok(renewed(alloc, framer)),
        "feed" => Ok(fed(alloc, framer, bytes)?),
        "cuts" => cut(alloc, bytes),
        "write" => written(alloc, &block_of(alloc, bytes)?),
        _ => bail!("{call} is no call"),
    }
}

/// The answer to the call that a line writes.
fn played(alloc: Global, framer: &mut Framer, line: &str) -> Result<String> {
    let (call, words) = first_word(line);
    match call {
        "by" => by(alloc, words),
        _ => answer(alloc, framer, call, &stream_of(alloc, words)?),
    }
}

/// Writes a line, with the answer to its call.
fn play_line(rt: &HostRuntime, framer: &mut Framer, line: &str) -> Result<()> {
    if is_call(line) {
        println!(rt; "{line} => {}", played(rt.alloc(), framer, line)?)?;
    } else {
        println!(rt; "{line}")?;
    }
    Ok(())
}

/// Plays lines, one after another.
fn play_all(rt: &HostRuntime, framer: &mut Framer, lines: &[Vec<u8>]) -> Result<()> {
    for line in lines {
        play_line(rt, framer, str::from_utf8(line)?)?;
    }
    Ok(())
}

/// Plays lines, beginning with a framer at the start of a stream.
///
/// # Errors
///
/// Where a line is no call, or memory is refused.
pub(crate) fn play(rt: &HostRuntime, lines: &[Vec<u8>]) -> Result<()> {
    let mut framer = Framer::new(rt.alloc());
    play_all(rt, &mut framer, lines)
}
