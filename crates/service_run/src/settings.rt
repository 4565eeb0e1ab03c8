//! The settings of `run`.

use message_notes::AnswerText;
use service_answers::Origin;
use service_web::HttpSettings;

/// The settings of `run`, as the command line has them.
#[derive(Clone, Copy, Debug, PartialEq, Eq)]
pub struct Settings<'a> {
    /// What the plan of the start is read from.
    pub plan: Origin<'a>,
    /// The most connections of each channel at once.
    pub connections: u32,
    /// The most entries that the book may hold.
    pub events: u32,
    /// How many of the last messages a pruning keeps.
    pub keep: u32,
    /// After how many seconds without a byte a connection ends. 0: never.
    pub idle: u32,
    /// How many seconds connections may take at `stop` to write their last acknowledgments.
    pub grace: u32,
    /// Whether the commands `show` and `export` give the text of messages.
    pub show: bool,
    /// Where the words of the destinations' answers are shown.
    pub answer_text: AnswerText,
    /// Where requests over HTTP are answered, if anywhere.
    pub http: Option<HttpSettings<'a>>,
}
