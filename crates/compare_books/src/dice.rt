//! Chance that is the same on each run.

ghost use Rattle.std.specs.Prelude.{◌<◌};

use crate::plan::Said;
use anyhow::Result;
use dest_queue::Outcome;
use event_log::Ticket;
use hl7_head::Moment;
use std::alloc::{AllocError, Global};

/// A ticket that no take gives: attempts are counted from 1.
pub const NO_TICKET: Ticket = Ticket {
    number: 0,
    destination: 0,
    attempt: 0,
};

/// Numbers that look like chance, and the moment in seconds since 1970.
#[derive(Drop)]
pub struct Dice {
    state: u32,
    seconds: u32,
}

impl Dice {
    /// The numbers that begin with this one, at the first moment of 1970.
    pub(crate) fn new(state: u32) -> Dice {
        Dice { state, seconds: 0 }
    }

    /// A number below `sides`.
    pub(crate) fn roll(&mut self, sides: u32) -> u32
        requires { 0 < sides }
        ensures { result < sides }
    {
        self.state = self
            .state
            .wrapping_mul(1_664_525)
            .wrapping_add(1_013_904_223);
        (self.state >> 16) % sides
    }

    /// One of these.
    fn pick(&mut self, from: [&'static str; 4]) -> &'static str {
        from[self.roll(4) as usize]
    }

    /// The next moment, the same as the last or a second later.
    ///
    /// # Errors
    ///
    /// Where that is no moment.
    pub(crate) fn now(&mut self) -> Result<Moment> {
        let passed = self.roll(2);
        self.seconds = self.seconds.wrapping_add(passed);
        Ok(Moment::of_unix(i64::from(self.seconds))?)
    }

    /// The text of a message under a control id (MSH-10). What follows its version is given.
    ///
    /// # Errors
    ///
    /// Where memory is refused.
    pub(crate) fn message(
        &mut self,
        alloc: Global,
        id: u32,
        asked: &str,
    ) -> Result<String, AllocError> {
        let event = self.pick(["A01", "A08", "A08", "A04"]);
        let version = self.pick(["2.5.1", "2.5.1", "2.5.1", "2.9"]);
        let patient = self.pick(["77", "77", "", "78"]);
        let class = self.pick(["I", "O", "I", "E"]);
        format!(in alloc;
            "MSH|^~\\&|REG|HOSP|ENG|HUB|||ADT^{event}|{id}|P|{version}{asked}\rPID|1||{patient}\rPV1|1|{class}\r"
        )
    }

    /// Which acknowledgments a message requests (MSH-15 and MSH-16), as written behind its version.
    pub(crate) fn asked(&mut self) -> &'static str {
        self.pick(["", "|||AL|NE", "|||AL|AL", "|||ER|SU"])
    }

    /// A text that is no message, or an acknowledgment: it is not answered.
    ///
    /// # Errors
    ///
    /// Where memory is refused.
    pub(crate) fn unanswered(&mut self, alloc: Global) -> Result<String, AllocError> {
        let text = self.pick([
            "HELLO",
            "",
            "MSH|^~\\&|A|B|C|D|||ACK|9|P|2.5.1\rMSA|AA|1\r",
            "PID|1\r",
        ]);
        String::from_str(alloc, text)
    }

    /// What comes between two blocks: nothing, bytes that are skipped, or a block that is broken.
    pub(crate) fn between(&mut self) -> &'static str {
        self.pick(["", "\r\n", "\x0bMSH|", "\x0bMSH|\x1cx"])
    }

    /// What a plan says, mostly what the first one does.
    pub(crate) fn said(&mut self) -> Said {
        Said {
            destination: self.pick(["A", "A", "A", "X"]),
            attempts: self.pick(["2", "2", "2", "3"]),
            interval: self.pick(["3", "0", "5", "3"]),
            channel: self.pick(["ADT", "ADT", "ADT", "ORU"]),
        }
    }

    /// The last ticket, mostly, or one of an attempt of a message, each part of which is small.
    pub(crate) fn ticket(&mut self, last: Ticket, number: u32) -> Ticket {
        if self.roll(4) > 0 {
            return last;
        }
        Ticket {
            number,
            destination: self.roll(5),
            attempt: self.roll(3),
        }
    }

    /// The mask of the destinations among which a message is cancelled: every second time all 32, else some of the first four,
    /// or none.
    pub(crate) fn among(&mut self) -> u32 {
        if self.roll(2) == 0 {
            return u32::MAX;
        }
        self.roll(16)
    }

    /// An outcome, mostly one after which the message is delivered or sent again.
    pub(crate) fn outcome(&mut self) -> Outcome {
        match self.roll(8) {
            0..4 => Outcome::Delivered,
            4..7 => Outcome::Again,
            _ => Outcome::Rejected,
        }
    }
}
