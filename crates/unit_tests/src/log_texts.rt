//! Bytes of messages and of devices as the log shows them.

use log_text::{ControlId, Escaped, Shown};
use std::alloc::AllocError;

#[test]
fn bytes_are_shown_escaped(rt: HostRuntime) -> Result<(), AllocError> {
    let shown = format!(in rt.alloc(); "{} {}", Shown(b"A 1\r\\x"), Escaped("a b\x1b[1m"))?;
    assert_eq!(rt; shown.as_str(), "A\\x201\\x0D\\x5Cx a b\\x1B[1m");
    let long = format!(in rt.alloc(); "{}", ControlId(&[b'a'; 65]))?;
    assert_eq!(rt; long.len(), 66);
    Ok(())
}

#[test]
fn only_the_beginning_of_what_is_no_id_is_shown(rt: HostRuntime) -> Result<(), AllocError> {
    let ids = format!(in rt.alloc();
        "{} {} {} {}",
        ControlId(b"MSG00001-a/b.2"),
        ControlId(b"M1PID^1^77^DOE^JANE"),
        ControlId(b"MSG0000123\rPID"),
        ControlId(b"")
    )?;
    assert_eq!(rt; ids.as_str(), "MSG00001-a/b.2 M1PID..(19) MSG00001..(14) ");
    Ok(())
}
