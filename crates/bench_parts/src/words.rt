//! The words, and what they request.

use crate::text::Work;

/// What is measured.
#[derive(Clone, Copy)]
pub enum Measure {
    Calls,
    Arrivals,
    Audit,
    Foldings,
    Text(Work),
}

/// What the words request: what is measured, all where they don't say, and how often.
#[derive(Clone, Copy)]
pub struct Request {
    pub measure: Option<Measure>,
    /// Messages, entries, receipts or segments.
    pub count: u32,
    /// The prunings, or how often a message is read or changed.
    pub times: u32,
    /// The messages that a pruning leaves.
    pub kept: u32,
    pub timed: bool,
}

/// Which of the numbers comes next.
#[derive(Clone, Copy)]
enum Next {
    Count,
    Times,
    Kept,
}

impl Request {
    /// Takes the next number.
    fn number(&mut self, next: Next, number: u32) -> Next {
        match next {
            Next::Count => {
                self.count = number;
                Next::Times
            }
            Next::Times => {
                self.times = number;
                Next::Kept
            }
            Next::Kept => {
                self.kept = number;
                Next::Kept
            }
        }
    }

    /// Takes a word that is no number; one that isn't known says nothing.
    fn word(&mut self, word: &str) {
        match word {
            "calls" => self.measure = Some(Measure::Calls),
            "arrivals" => self.measure = Some(Measure::Arrivals),
            "audit" => self.measure = Some(Measure::Audit),
            "foldings" => self.measure = Some(Measure::Foldings),
            "parse" => self.measure = Some(Measure::Text(Work::Parse)),
            "get" => self.measure = Some(Measure::Text(Work::Get)),
            "set" => self.measure = Some(Measure::Text(Work::Set)),
            "--time" => self.timed = true,
            _ => {}
        }
    }
}

/// What the words request.
pub(crate) fn asked(words: &[String]) -> Request {
    let mut asked = Request {
        measure: None,
        count: 500,
        times: 3,
        kept: 100,
        timed: false,
    };
    let mut next = Next::Count;
    for word in words {
        match word.as_str().parse::<u32>() {
            Ok(number) => next = asked.number(next, number),
            Err(_) => asked.word(word.as_str()),
        }
    }
    asked
}
