//! The commands, and the one that a line is.

ghost use Rattle.std.specs.Prelude.{◌≡◌, ◌≤◌, ◌<◌, ◌==◌, IfSome, length, option_map};
ghost use Rattle.std.specs.List.{position};
ghost use Rattle.service_commands.specs.inner.Commands.{argument, cancel_of, cancel_waiting_of, cancelling, command_of, exporting, listing, named, numbered, number_of, seen, show_of, showing, single, trimmed, with_digit, without_return, word_len};

/// The command that a line is. Texts are of type `T`, the bytes as they are in the line.
#[derive(Clone, Copy, Debug, PartialEq, Eq)]
pub enum Command<T> {
    /// What each channel, each destination, the book and the connections have done.
    Status,
    /// The same numbers in the text format of Prometheus.
    Metrics,
    /// Where the message of this number is.
    Message(u32),
    /// The text of the message of this number as it was received.
    Show(u32),
    /// The text of the message of this number for the destination of this name, at least one byte.
    ShowAt(u32, T),
    /// The bytes of the message of this number, as they were received, into a new file of this path, at least one byte.
    Export(u32, T),
    /// The numbers of the messages with this control id (MSH-10, HL7 v2.5.1, 2.15.9.10), at least one byte.
    Find(T),
    /// The first messages in the queue of the destination of this name, at least one byte.
    Waiting(T),
    /// The plan in the file of this path, at least one byte, which is to replace the plan in force.
    Deploy(T),
    /// Where the plan in force comes from.
    Plan,
    /// The document of the plan in force.
    PlanText,
    /// Forgetting what is settled.
    Prune,
    /// The messages that failed at the destination of this name, at least one byte.
    Failed(T),
    /// No further message is sent to the destination of this name, at least one byte.
    Hold(T),
    /// Messages are sent again to the destination of this name, at least one byte, which is held.
    Release(T),
    /// What is known of the connection to each destination.
    Links,
    /// The message of this number is not delivered at the one destination where it waits.
    Cancel(u32),
    /// The message of this number is not delivered wherever it waits.
    CancelAll(u32),
    /// The message of this number is not delivered at the destination of this name, at least one byte.
    CancelAt(u32, T),
    /// What waits at the destination of this name, at least one byte, and the command that cancels it.
    CancelWaiting(T),
    /// The messages that wait at the destination of this name, at least one byte, up to this number, are not delivered there.
    CancelThrough(T, u32),
    /// The end, once nothing waits for delivery.
    Stop,
    /// The end, without waiting for deliveries.
    StopNow,
    /// What the commands are.
    Help,
    /// No command.
    Unknown,
}

/// What follows a word and one space, where something does.
fn argument<'a>(line: &'a [u8], word: &[u8]) -> Option<&'a [u8]>
    ensures { option_map (λ text. text.now) result ≡ argument word.now line.now }
{
    match line.strip_prefix(word) {
        Some(text) if !text.is_empty() => Some(text),
        _ => None,
    }
}

/// A number with a decimal digit written behind it, where that is one and the number stays below 2^32.
fn with_digit(number: u32, byte: u8) -> Option<u32>
    ensures { result ≡ with_digit number byte }
{
    match byte {
        b'0'..=b'9' => number.checked_mul(10)?.checked_add(u32::from(byte - b'0')),
        _ => None,
    }
}

/// The number below 2^32 that decimal digits write, where a text is one digit or more and nothing else.
fn number_of(text: &[u8]) -> Option<u32>
    ensures { result ≡ number_of text.now }
{
    if text.is_empty() {
        return None;
    }
    let mut number = 0;
    for byte in text {
        number = with_digit(number, *byte)?;
    }
    Some(number)
}

/// A line without the carriage return at its end, where it has one.
fn without_return(line: &[u8]) -> &[u8]
    ensures { result.now ≡ without_return line.now }
{
    match line.strip_suffix(b"\r".as_slice()) {
        Some(text) => text,
        None => line,
    }
}

/// The index of the first space of a text.
fn first_space(text: &[u8]) -> Option<usize>
    ensures at { result ≡ position (λ b. b == 32) text.now }
    ensures within { IfSome result (λ at. at < length text.now) }
{
    text.iter().position(|byte| *byte == b' ')
}

/// How many bytes there are before the first space of a text, or in all of it.
fn word_len(text: &[u8]) -> usize
    ensures len { result ≡ word_len text.now }
    ensures within { result ≤ length text.now }
{
    match first_space(text) {
        Some(at) => at,
        None => text.len(),
    }
}

/// The command that cancels a message, by what follows its number: nothing, ` all`, or a space and a destination's name.
fn cancel_of(number: u32, rest: &[u8]) -> Command<&[u8]>
    ensures { seen result ≡ cancel_of number rest.now }
{
    if rest.is_empty() {
        Command::Cancel(number)
    } else if rest == b" all".as_slice() {
        Command::CancelAll(number)
    } else if let Some(name) = argument(rest, b" ") {
        Command::CancelAt(number, name)
    } else {
        Command::Unknown
    }
}

/// The command about what waits at a destination, by its name and what follows it: nothing, or ` through ` and a number.
fn cancel_waiting_of<'a>(name: &'a [u8], rest: &[u8]) -> Command<&'a [u8]>
    ensures { seen result ≡ cancel_waiting_of name.now rest.now }
{
    if name.is_empty() {
        Command::Unknown
    } else if rest.is_empty() {
        Command::CancelWaiting(name)
    } else if let Some(text) = argument(rest, b" through ")
        && let Some(number) = number_of(text)
    {
        Command::CancelThrough(name, number)
    } else {
        Command::Unknown
    }
}

/// The command of a line behind `cancel `.
fn cancelling(text: &[u8]) -> Command<&[u8]>
    ensures { seen result ≡ cancelling text.now }
{
    if let Some(rest) = argument(text, b"waiting ") {
        let (name, rest) = rest.split_at(word_len(rest));
        return cancel_waiting_of(name, rest);
    }
    let (word, rest) = text.split_at(word_len(text));
    match number_of(word) {
        Some(number) => cancel_of(number, rest),
        None => Command::Unknown,
    }
}

/// The command of a line behind `export `: a number, a space and a path.
fn exporting(text: &[u8]) -> Command<&[u8]>
    ensures { seen result ≡ exporting text.now }
{
    let (word, rest) = text.split_at(word_len(text));
    if let Some(number) = number_of(word)
        && let Some(path) = argument(rest, b" ")
    {
        Command::Export(number, path)
    } else {
        Command::Unknown
    }
}

/// The command that shows a message, by what follows its number: nothing, or a space and a destination's name.
fn show_of(number: u32, rest: &[u8]) -> Command<&[u8]>
    ensures { seen result ≡ show_of number rest.now }
{
    if rest.is_empty() {
        Command::Show(number)
    } else if let Some(name) = argument(rest, b" ") {
        Command::ShowAt(number, name)
    } else {
        Command::Unknown
    }
}

/// The command of a line behind `show `: a number, and a space and a destination's name behind it or nothing.
fn showing(text: &[u8]) -> Command<&[u8]>
    ensures { seen result ≡ showing text.now }
{
    let (word, rest) = text.split_at(word_len(text));
    match number_of(word) {
        Some(number) => show_of(number, rest),
        None => Command::Unknown,
    }
}

/// The command of a line that begins with none of the words that a name follows.
fn numbered(line: &[u8]) -> Command<&[u8]>
    ensures { seen result ≡ numbered line.now }
{
    if let Some(text) = argument(line, b"message ") {
        return match number_of(text) {
            Some(number) => Command::Message(number),
            None => Command::Unknown,
        };
    }
    if let Some(text) = argument(line, b"show ") {
        return showing(text);
    }
    if let Some(text) = argument(line, b"cancel ") {
        return cancelling(text);
    }
    Command::Unknown
}

/// A line without the white space at its end.
fn trimmed(line: &[u8]) -> &[u8]
    ensures { result.now ≡ trimmed line.now }
{
    line.trim_ascii_end()
}

/// The command of a line that is no single word or two: a word and a destination's name, or a word and a number.
fn listing(line: &[u8]) -> Command<&[u8]>
    ensures { seen result ≡ listing line.now }
{
    if let Some(text) = argument(line, b"waiting ") {
        Command::Waiting(text)
    } else if let Some(text) = argument(line, b"failed ") {
        Command::Failed(text)
    } else if let Some(text) = argument(line, b"hold ") {
        Command::Hold(text)
    } else if let Some(text) = argument(line, b"release ") {
        Command::Release(text)
    } else {
        numbered(line)
    }
}

/// The command of a line without white space at its end that begins with none of `find `, `deploy ` and `export `.
fn single(line: &[u8]) -> Command<&[u8]>
    ensures { seen result ≡ single line.now }
{
    if line == b"status".as_slice() {
        Command::Status
    } else if line == b"metrics".as_slice() {
        Command::Metrics
    } else if line == b"plan".as_slice() {
        Command::Plan
    } else if line == b"plan text".as_slice() {
        Command::PlanText
    } else if line == b"prune".as_slice() {
        Command::Prune
    } else if line == b"stop".as_slice() {
        Command::Stop
    } else if line == b"stop now".as_slice() {
        Command::StopNow
    } else if line == b"help".as_slice() {
        Command::Help
    } else if line == b"links".as_slice() {
        Command::Links
    } else {
        listing(line)
    }
}

/// The command of a line that no carriage return ends. What a control id or a path ends with belongs to it; of any other command,
/// white space at its end is dropped.
fn named(line: &[u8]) -> Command<&[u8]>
    ensures { seen result ≡ named line.now }
{
    if let Some(text) = argument(line, b"find ") {
        Command::Find(text)
    } else if let Some(text) = argument(line, b"deploy ") {
        Command::Deploy(text)
    } else if let Some(text) = argument(line, b"export ") {
        exporting(text)
    } else {
        single(trimmed(line))
    }
}

/// The command that a line is. A line is one command; those that are none of the commands are `Unknown`. A carriage return at the
/// end of a line is dropped, and so is white space there, but for what a control id or a path ends with.
pub fn read_command(line: &[u8]) -> Command<&[u8]>
    ensures { seen result ≡ command_of line.now }
{
    named(without_return(line))
}
