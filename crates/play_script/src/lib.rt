//! How the scripts that programs play are written: a line `== NAME` names the player of the lines below it, words are between
//! spaces, bytes that aren't seen have names, as `<CR>`, and `<>` is the empty text.
#![tactic(auto)]

ghost use Rattle.std.specs.Prelude.{◌≡◌, ◌==◌, ◌++◌, IfOk, OnOk, option_map, string_bytes};
ghost use Rattle.std.specs.List.{before_first, after_first, flat_map};
ghost use Rattle.play_script.specs.inner.Script.{name_of, shown_byte, shown};

use std::alloc::{AllocError, Global};
use std::io::{self, BufRead};

/// The lines of a script that one player plays.
#[derive(Drop)]
pub struct Part {
    /// The name of the player.
    pub player: String,
    /// The lines, without the line feeds that end them.
    pub lines: Vec<Vec<u8>>,
}

/// Adds a line of a script: it begins the part of another player, or it is one of the last part. A line before all parts is
/// left out.
fn push_line(parts: &mut Vec<Part>, line: Vec<u8>) -> Result<(), AllocError> {
    let alloc = *parts.allocator();
    if let [b'=', b'=', b' ', name @ ..] = line.as_slice() {
        let player = String::from_utf8_lossy(alloc, name)?;
        let lines = Vec::new(alloc);
        Ok(parts.push(Part { player, lines })?)
    } else if let Some(part) = parts.last_mut() {
        Ok(part.lines.push(line)?)
    } else {
        Ok(())
    }
}

/// Reads standard input: a script, part by part.
///
/// # Errors
///
/// Where it can't be read, or memory is refused.
pub fn read_parts(rt: &HostRuntime) -> io::Result<Vec<Part>> {
    let mut parts = Vec::new(rt.alloc());
    for line in rt.reader().split(rt.alloc(), b'\n') {
        push_line(&mut parts, line?)?;
    }
    Ok(parts)
}

/// Whether a line is a call: it isn't empty, and doesn't begin with `#`.
pub fn is_call(line: &str) -> bool {
    !line.is_empty() && !line.starts_with('#')
}

/// The bytes that have a name.
const NAMED: [u8; 6] = [b'\r', b'\n', 0x0B, 0x1C, b'\t', b' '];

/// The name of a byte that has one, behind its `<`.
fn name_of(byte: u8) -> Option<&'static str>
    ensures { option_map (λ name. name.now) result ≡ name_of byte }
{
    match byte {
        b'\r' => Some("CR>"),
        b'\n' => Some("LF>"),
        0x0B => Some("VT>"),
        0x1C => Some("FS>"),
        b'\t' => Some("TAB>"),
        b' ' => Some("SP>"),
        _ => None,
    }
}

/// The first word of a line, and what follows the space behind it.
pub fn first_word(line: &str) -> (&str, &str)
    ensures word { result.0.now ≡ before_first (λ b. b == 32) line.now }
    ensures rest { result.1.now ≡ after_first (λ b. b == 32) line.now }
{
    line.split_once(' ').unwrap_or((line, ""))
}

/// The words of a line, between spaces.
///
/// # Errors
///
/// Where memory is refused.
pub fn words_of(alloc: Global, line: &str) -> Result<Vec<&str>, AllocError> {
    let mut words = Vec::new(alloc);
    for word in line.split(' ') {
        words.push(word)?;
    }
    Ok(words)
}

/// The byte whose name a text begins with behind a `<`, and what follows; else the `<` itself.
fn unnamed(text: &str) -> (u8, &str) {
    for byte in NAMED {
        if let Some(rest) = name_of(byte).and_then(|name| text.strip_prefix(name)) {
            return (byte, rest);
        }
    }
    (b'<', text)
}

/// The bytes that a word means.
///
/// # Errors
///
/// Where memory is refused.
pub fn bytes_of(alloc: Global, word: &str) -> Result<Vec<u8>, AllocError> {
    let mut bytes = Vec::new(alloc);
    if word == "<>" {
        return Ok(bytes);
    }
    for (place, part) in word.split('<').enumerate() {
        if place == 0 {
            bytes.extend_from_slice(part.as_bytes())?;
        } else {
            let (byte, rest) = unnamed(part);
            bytes.push(byte)?;
            bytes.extend_from_slice(rest.as_bytes())?;
        }
    }
    Ok(bytes)
}

/// Adds a byte as a script writes it.
fn push_shown(text: &mut Vec<u8>, byte: u8) -> Result<(), AllocError>
    ensures { OnOk result (text.new.items ≡ text.old.items ++ shown_byte byte) }
{
    match name_of(byte) {
        Some(name) => {
            text.push(b'<')?;
            text.extend_from_slice(name.as_bytes())
        }
        None => Ok(text.push(byte)?),
    }
}

/// The bytes as a script writes them, one after the other.
fn each_shown(alloc: Global, bytes: &[u8]) -> Result<Vec<u8>, AllocError>
    ensures { IfOk result (λ text. text.items ≡ flat_map shown_byte bytes.now) }
{
    let mut text = Vec::new(alloc);
    for byte in bytes {
        push_shown(&mut text, *byte)?;
    }
    Ok(text)
}

/// Bytes as a script writes them; what is no UTF-8 is replaced.
///
/// # Errors
///
/// Where memory is refused.
pub fn shown(alloc: Global, bytes: &[u8]) -> Result<String, AllocError>
    ensures { IfOk result (λ text. string_bytes text ≡ shown bytes.now) }
{
    if bytes.is_empty() {
        return String::from_str(alloc, "<>");
    }
    String::from_utf8_lossy(alloc, &each_shown(alloc, bytes)?)
}
