//! What is shown of a destination's answer to a message.

use answer_words::answer_words;
use std::alloc::{AllocError, Global};

/// Two answers: the first is to another message.
const RECEIVED: &[u8] =
    b"\x0bMSH|^~\\&|L|X|||||ACK|1|P|2.5.1\rMSA|AE|OTHER|no\r\x1c\r\x0bMSH|^~\\&|L|X|||||ACK|2|P|2.5.1\rMSA|AE|M1|bad\\F\\PID\x07|||207^Application error\rERR|PID^1^3^101&missing|PID^1^3|101^Required|E|||PID-3 \"x\"|call us\r\x1c\r";

/// What is shown of the answer to a message.
fn shown(alloc: Global, control_id: &[u8]) -> Result<Option<String>, AllocError> {
    match answer_words(alloc, RECEIVED, control_id)? {
        Some(words) => Ok(Some(format!(in alloc; "{words}")?)),
        None => Ok(None),
    }
}

#[test]
fn the_first_answer_to_a_message_is_shown(rt: HostRuntime) -> Result<(), AllocError> {
    let text = shown(rt.alloc(), b"M1")?;
    assert_eq!(rt;
        text.as_deref(),
        Some(
            "MSA-3 bad|PID\\x07; MSA-6 207^Application error; ERR-1.4 101&missing; ERR-3 101^Required; ERR-7 PID-3 \\x22x\\x22; ERR-8 call us"
        )
    );
    Ok(())
}

#[test]
fn no_answer_to_another_message_is_shown(rt: HostRuntime) -> Result<(), AllocError> {
    let text = shown(rt.alloc(), b"M2")?;
    assert!(rt; text.is_none());
    Ok(())
}
