//! Lines of standard input, and the command that each is.

use service_commands::{Command, Input, read_command, read_line};
use std::process::Abort;

/// Lines, each with the command that it is.
type Rows = &'static [(&'static [u8], Command<&'static [u8]>)];

/// Asserts that each line is read as the command beside it.
fn assert_read(rt: &impl Abort, rows: Rows) {
    for (line, command) in rows {
        assert_eq!(rt; read_command(line), *command);
    }
}

const COMMANDS: Rows = &[
    (b"status", Command::Status),
    (b"metrics", Command::Metrics),
    (b"message 4294967295", Command::Message(4_294_967_295)),
    (b"show 0", Command::Show(0)),
    (b"show 1 LAB", Command::ShowAt(1, b"LAB")),
    (b"export 7 /tmp/a b", Command::Export(7, b"/tmp/a b")),
    (b"find A 1", Command::Find(b"A 1")),
    (b"waiting LAB", Command::Waiting(b"LAB")),
    (b"deploy /etc/a b.toml", Command::Deploy(b"/etc/a b.toml")),
    (b"plan", Command::Plan),
    (b"plan text", Command::PlanText),
    (b"prune", Command::Prune),
    (b"failed LAB", Command::Failed(b"LAB")),
    (b"hold LAB", Command::Hold(b"LAB")),
    (b"release LAB", Command::Release(b"LAB")),
    (b"links", Command::Links),
    (b"cancel 0", Command::Cancel(0)),
    (b"stop", Command::Stop),
    (b"stop now", Command::StopNow),
    (b"help", Command::Help),
];

#[test]
fn each_command_is_read(rt: HostRuntime) {
    assert_read(&rt, COMMANDS);
}

const CANCELLATIONS: Rows = &[
    (b"cancel 7 ", Command::Cancel(7)),
    (b"cancel 7 all", Command::CancelAll(7)),
    (b"cancel 7 LAB\r", Command::CancelAt(7, b"LAB")),
    (b"cancel 7 waiting", Command::CancelAt(7, b"waiting")),
    (b"cancel waiting LAB", Command::CancelWaiting(b"LAB")),
    (b"cancel waiting all", Command::CancelWaiting(b"all")),
    (
        b"cancel waiting LAB through 12",
        Command::CancelThrough(b"LAB", 12),
    ),
    (b"cancel LAB", Command::Unknown),
    (b"cancel all", Command::Unknown),
    (b"cancel waiting", Command::Unknown),
    (b"cancel waiting  LAB", Command::Unknown),
    (b"cancel waiting LAB 12", Command::Unknown),
    (b"cancel waiting LAB through", Command::Unknown),
    (b"cancel waiting LAB through 1 2", Command::Unknown),
    (b"cancel waiting LAB through 4294967296", Command::Unknown),
];

#[test]
fn cancellations_are_read_by_their_words(rt: HostRuntime) {
    assert_read(&rt, CANCELLATIONS);
}

const ENDS: Rows = &[
    (b"status\r", Command::Status),
    (b"stop now \t\r", Command::StopNow),
    (b"message 7 ", Command::Message(7)),
    (b"waiting LAB \r", Command::Waiting(b"LAB")),
    (b"find A \r", Command::Find(b"A ")),
    (b"deploy a.toml \r", Command::Deploy(b"a.toml ")),
    (b"export 7 a.hl7 \r", Command::Export(7, b"a.hl7 ")),
    (b"show 7 \r", Command::Show(7)),
    (b"show 7 LAB \r", Command::ShowAt(7, b"LAB")),
    (b"hold LAB \r", Command::Hold(b"LAB")),
    (b"find \r", Command::Unknown),
];

#[test]
fn the_end_of_a_line_is_dropped(rt: HostRuntime) {
    assert_read(&rt, ENDS);
}

const OTHERS: Rows = &[
    (b"", Command::Unknown),
    (b"Status", Command::Unknown),
    (b" status", Command::Unknown),
    (b"message", Command::Unknown),
    (b"message ", Command::Unknown),
    (b"message +1", Command::Unknown),
    (b"message 4294967296", Command::Unknown),
    (b"cancel 1x", Command::Unknown),
    (b"show", Command::Unknown),
    (b"show LAB", Command::Unknown),
    (b"show LAB 1", Command::Unknown),
    (b"hold", Command::Unknown),
    (b"hold ", Command::Unknown),
    (b"release", Command::Unknown),
    (b"links LAB", Command::Unknown),
    (b"export 1", Command::Unknown),
    (b"export 1 ", Command::Unknown),
    (b"export a.hl7 1", Command::Unknown),
    (b"plan  text", Command::Unknown),
    (b"find ", Command::Unknown),
    (b"stop  now", Command::Unknown),
];

#[test]
fn other_lines_are_unknown(rt: HostRuntime) {
    assert_read(&rt, OTHERS);
}

/// What each read gives, and the bytes that the buffer begins with then.
const READS: &[(Input, &[u8])] = &[
    (Input::Line(4), b"stop"),
    (Input::Line(0), b""),
    (Input::Line(8), b"12345678"),
    (Input::TooLong, b""),
    (Input::Line(8), b"stop now"),
    (Input::End, b""),
];

#[test]
fn lines_are_read_one_by_one(rt: HostRuntime) -> Result<(), std::io::Error> {
    let mut reader = b"stop\n\n12345678\n123456789\nstop now".as_slice();
    let mut buffer = [0u8; 8];
    for (input, bytes) in READS {
        assert_eq!(rt; read_line(&mut reader, &mut buffer)?, *input);
        assert!(rt; buffer.starts_with(bytes), "not {bytes:?}");
    }
    Ok(())
}
