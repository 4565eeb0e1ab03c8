//! The measured book, and the messages that come.

ghost use Rattle.std.specs.Prelude.{IfSome, IsTrue};
ghost use Rattle.judge_core.specs.Judging.{is_bookable};

use book_core::{Book, EVENTS_MAX, Outbound};
use dest_queue::Queued;
use judge_core::{Judged, fits_block, judge};
use plan_text::Plan;
use record_list::RecordList;
use std::alloc::{AllocError, Global};
use std::hash::RandomState;
use std::sync::Arc;
use std::time::{Clock, Instant};

/// The rows as the program has them, in linked nodes.
pub type Rows = RecordList<Queued<Outbound>>;

/// The type of messages that the channels take.
pub const ADMISSION: &str = "ADT^A01^ADT_A01";

/// The type of messages that they don't take: each is refused, and takes one entry.
pub const RESULT: &str = "ORU^R01^ORU_R01";

/// Two channels, each with a destination: messages by the first are sent once, those by the second a hundred times.
const TEXT: &str = r#"
[[destination]]
name = "ONCE"
address = "127.0.0.1:6661"
attempts = 1

[[destination]]
name = "OFTEN"
address = "127.0.0.1:6662"
attempts = 100
interval = 0

[[channel]]
name = "MANY"
listen = "127.0.0.1:6660"
types = ["ADT"]
processing = ["P"]
versions = ["2.5.1"]
[[channel.route]]
to = "ONCE"

[[channel]]
name = "FEW"
listen = "127.0.0.1:6670"
types = ["ADT"]
processing = ["P"]
versions = ["2.5.1"]
[[channel.route]]
to = "OFTEN"
"#;

/// The channel by which most messages come, and their destination.
pub const MANY: u32 = 0;

/// The channel of the messages that are sent often, and their destination.
pub const FEW: u32 = 1;

/// An empty book of that plan. None where memory was refused.
pub(crate) fn empty_book(rt: &HostRuntime) -> Option<Book<Rows>> {
    let alloc = rt.alloc();
    let hasher = RandomState::new(rt).ok()?;
    let plan = Plan::read(alloc, TEXT.as_bytes()).ok()?;
    let plan = Arc::new(alloc, plan).ok()?;
    Some(Book::new(alloc, plan, EVENTS_MAX, hasher))
}

/// The text of a message of this type with this control id.
fn text_of(alloc: Global, kind: &str, control_id: u32) -> Result<Vec<u8>, AllocError> {
    let text = format!(in alloc;
        "MSH|^~\\&|REG|HOSP|ENG|HUB|20231114221300||{kind}|M{control_id}|P|2.5.1|||AL|NE\rPID|1||77^^^H\r"
    )?;
    Vec::from_slice(alloc, text.as_bytes())
}

/// A message of this type with this control id, judged as one that arrives on a channel. None where memory was refused.
pub(crate) fn judged(
    alloc: Global,
    plan: &Arc<Plan>,
    channel: u32,
    kind: &str,
    control_id: u32,
) -> Option<Judged>
    ensures { IfSome result (λ judged. IsTrue (is_bookable judged.raw)) }
{
    let raw = text_of(alloc, kind, control_id).ok()?;
    if plan.channels() <= channel || !fits_block(&raw) {
        return None;
    }
    let judged = judge(alloc, plan, channel, raw);
    judged.ok().filter(|judged| judged.bookable())
}

/// Nanoseconds since a moment. None where the clock was not read, then or now.
pub(crate) fn nanoseconds_since<H: Clock>(rt: &H, began: Option<Instant>) -> Option<u64> {
    let took = began?.elapsed(rt).ok()?;
    let seconds = took.as_secs().saturating_mul(1_000_000_000);
    Some(seconds.saturating_add(u64::from(took.subsec_nanos())))
}
