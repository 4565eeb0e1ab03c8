//! Messages that are read, looked up and changed.

use er7_tree::{Message, Path, Refusal};
use std::alloc::{AllocError, Global};

/// What is done with the message.
#[derive(Clone, Copy, Debug, PartialEq, Eq)]
pub enum Work {
    Parse,
    Get,
    Set,
}

/// The paths that are read: fields, components and a repetition, and a segment that no message has, which looks at all.
const PATHS: [&str; 20] = [
    "MSH-3",
    "MSH-4",
    "MSH-7",
    "MSH-9.1",
    "MSH-9.2",
    "MSH-10",
    "MSH-12",
    "PID-1",
    "PID-3",
    "PID-3.1",
    "PID-3[2].1",
    "PID-5.1",
    "PID-5.2",
    "PID-8",
    "PID-11.3",
    "OBX-3.1",
    "OBX-3.2",
    "OBX-5",
    "OBX-11",
    "ZZZ-1",
];

/// A message of `segments` segments, all but two of them results.
fn message_text(alloc: Global, segments: u32) -> Result<Vec<u8>, AllocError> {
    let mut text = Vec::new(alloc);
    text.extend_from_slice(
        b"MSH|^~\\&|LAB|HOSP|ENG|HUB|20231114221300||ORU^R01^ORU_R01|M1|P|2.5.1|||AL|NE\r",
    )?;
    text.extend_from_slice(
        b"PID|1||77^^^H^MR~78^^^H^SS||DOE^JANE^Q||19620320|F|||153 FERNWOOD DR^^STATESVILLE^OH^35292\r",
    )?;
    for _ in 2..segments {
        text.extend_from_slice(
            b"OBX|1|NM|2345-7^GLUCOSE^LN||97|mg/dL|70-105|N|||F|||20231114220000\r",
        )?;
    }
    Ok(text)
}

fn read_paths(message: &Message) -> Result<usize, Refusal> {
    let mut bytes = 0usize;
    for text in PATHS {
        let path = Path::parse(text)?;
        bytes = bytes.wrapping_add(message.get(&path)?.len());
    }
    Ok(bytes)
}

/// Does the work once, with a value that changes from round to round, and returns a number that depends on it.
fn once(
    alloc: Global,
    what: Work,
    text: &[u8],
    message: &mut Message,
    path: &Path,
    round: u32,
) -> Result<usize, Refusal> {
    match what {
        Work::Parse => Ok(Message::parse(alloc, text)?.header().len()),
        Work::Get => read_paths(message),
        Work::Set => {
            let value: &[u8] = if round % 2 == 0 { b"98" } else { b"A|B" };
            message.set(path, value)?;
            Ok(value.len())
        }
    }
}

/// Does the work `rounds` times, and returns a number that depends on all of it.
///
/// # Errors
///
/// The refusal of a text, a path or a change, or of memory.
pub(crate) fn repeated(
    alloc: Global,
    what: Work,
    segments: u32,
    rounds: u32,
) -> Result<usize, Refusal> {
    let text = message_text(alloc, segments)?;
    let mut message = Message::parse(alloc, &text)?;
    let path = Path::parse("OBX-5")?;
    let mut sum = 0usize;
    for round in 0..rounds {
        let bytes = once(alloc, what, &text, &mut message, &path, round)?;
        sum = sum.wrapping_add(bytes);
    }
    Ok(sum)
}
