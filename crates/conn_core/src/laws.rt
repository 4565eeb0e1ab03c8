//! A law about replies.

ghost use Rattle.hl7_head.specs.Ack.{ack};
ghost use Rattle.mllp_frame.specs.Framing.{IsData};
ghost use Rattle.conn_core.specs.inner.Outcomes.{CameInBlock};

use hl7_head::{AckPart, Header, Moment, ack_adds_no_control};

/// An acknowledgment of a message that was received in a block holds no framing byte, so its own block holds it as it
/// is (MLLP Release 1, content model).
pub fn replies_fit_blocks(header: &Header, part: AckPart, now: Moment, conn: u32, number: u32)
    requires { CameInBlock header.now }
    ensures { IsData (ack header.now part now conn number) }
{
    ack_adds_no_control(part, now, conn, number);
}
