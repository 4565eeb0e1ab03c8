//! The texts of answers. Each ends with an empty line.

use std::fmt;

/// The answer to a line that is no command: the commands there are.
pub const UNKNOWN: &str = "\
unknown: status, metrics, links, message N, show N, show N NAME, export N PATH, find ID, waiting NAME, failed NAME, hold NAME, release NAME, plan, plan text, deploy PATH, prune, cancel N, cancel N NAME, cancel N all, cancel waiting NAME, stop, stop now, help

";

/// The answer to `help`: the commands, a line each.
pub const HELP: &str = "\
status        counts of channels and destinations, the book, connections, and the front of each queue
metrics       the same numbers in Prometheus' text format
links         for each destination whether it is connected and since when, its last fault, and when it is tried next
message N     where message N is
show N        the text of message N as it was received, a segment a line
show N NAME   the text of message N as it is or was sent to destination NAME
export N PATH the bytes of message N as they were received, into a new file
find ID       the numbers of the messages with this control id (MSH-10), as received or as the log shows it
waiting NAME  the first messages in the queue of destination NAME
failed NAME   the last messages that failed at destination NAME, newest first, and why
hold NAME     sends destination NAME no further message: what it would be sent waits
release NAME  sends messages to destination NAME again
plan          where the plan in force comes from, since when it is, and its SHA-256
plan text     the document of the plan in force
deploy PATH   puts the plan in the file PATH in force
prune         forgets what is settled
cancel N      message N is not delivered at the destination where it waits; where it waits at several it is refused
cancel N NAME message N is not delivered at destination NAME
cancel N all  message N is not delivered wherever it waits
cancel waiting NAME            changes nothing: how many messages wait at destination NAME, and the line that cancels them
cancel waiting NAME through N  the messages up to N that wait at destination NAME are not delivered there
stop          ends once nothing waits for delivery
stop now      ends without waiting for deliveries
help          this list

";

/// The answer that refuses what a command requested, with the reason.
#[derive(Clone, Copy, Debug, PartialEq, Eq)]
pub struct Refused<T>(pub T);

impl<T: fmt::Display> fmt::Display for Refused<T> {
    fn fmt<W: fmt::Write>(&self, f: &mut fmt::Formatter<W>) -> fmt::Result {
        let Refused(reason) = self;
        write!(f, "refused: {reason}\n\n")
    }
}
