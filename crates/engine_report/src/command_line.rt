//! The words of the command line.

ghost use Rattle.std.specs.Prelude.{◌≡◌, ◌≤◌, ℕ, None, Some, Ok, IfOk, false, true, length, map, option_map, min, pos, string_bytes};
ghost use Rattle.clap.specs.declared.builder.command.Command.TheViews.{out-Command as fields_of};
ghost use Rattle.clap.specs.declared.builder.value_parser.ValueParser.TheVariants as parser;
ghost use Rattle.clap.specs.Words.{FailsBy, app_of, fault_of, found_of, new_rule, rows_of, rule_of, subcommand_of, subcommand_rows_of, with_rule, with_subcommand};
ghost use Rattle.engine_report.specs.Request.{without_words, IsWithinLimits};
ghost use Rattle.engine_report.specs.Words.{accept_rule, answer_app, check_app, events_rule, now_rule, plan_rule, program, run_app, top, Asks, AsksAnswer, AsksBy, AsksRun, IsAccept, IsBound};

use clap::builder::ValueParser;
use clap::{Arg, ArgMatches, Command, Error, value_parser};
use fixed_numbers::{CONNECTIONS_MAX, EVENTS_MAX};
use hl7_head::{LAST_MOMENT, Moment};
use std::alloc::{AllocError, Global};

/// The moment of every acknowledgment where the program is called without words: 14 November 2023, 22:13:20 UTC.
const MOMENT_WITHOUT_WORDS: u64 = 1_700_000_000;

/// The version that `--version` prints.
const VERSION: &str = "0.1.0";

/// What the help of the program says beside its commands.
const STATUSES: &str = "\
Without words: the same as 'answer --now 1700000000'.

Each fault is a line on standard error. The exit status is that of the last one:
  0  done
  1  plan: NAME at PATH
  2  words that aren't taken; limit: connections
  3  file: PLAN; device: read, write, random or listen NAME; memory
  4  audit: NAME

Example: hl7_engine run plan.toml --accept 2";

/// What the help of `answer` says beside its words.
const ANSWERING: &str = "\
Example: hl7_engine answer plan.toml --now 1700000000 < message.hl7";

/// What the help of `check` says beside its words.
const CHECKING: &str = "\
Prints 'plan ok: C channels, D destinations', or 'plan: NAME at PATH' on standard error with exit status 1.

Example: hl7_engine check plan.toml";

/// What the help of `run` says beside its words.
const RUNNING: &str = "\
N times the channels of the plan is at most 9999. Connection K of channel C, both counted from 0, has number C * N + K.

Standard error has 'listening on ADDRESS for channel NAME' once a channel listens, and a line for each fault of a
connection or a destination. A message that can't be delivered is tried again, by the plan's attempts and interval.

Once the connections have ended and each message is delivered or failed, standard output has, in the plan's order:
  channel NAME received A filtered B accepted C refused D repeats E
  destination NAME waiting A inflight B delivered C failed D attempts E

Then standard error has 'device: listen NAME' of each channel that could take no further connection.

Example: hl7_engine run plan.toml --accept 2";

/// What the program is to do.
#[derive(Clone, Copy, Debug, PartialEq, Eq)]
pub enum Request<'a> {
    /// Acknowledge what arrives on standard input: by the plan in a file, or the built-in one; at one moment, or by the
    /// system's clock; in a book of at most `events` entries.
    Answer {
        plan: Option<&'a str>,
        now: Option<Moment>,
        events: u32,
    },
    /// Listen by the plan in a file, take `accept` connections on each channel, and deliver, in a book of at most `events`
    /// entries.
    Run {
        plan: &'a str,
        accept: u32,
        events: u32,
    },
    /// Read the plan in a file, and print its size or its first fault.
    Check {
        plan: &'a str,
    },
}

/// An option that takes a number.
fn number_option<'a>(
    alloc: Global,
    name: &'a str,
    value_name: &'a str,
    numbers: ValueParser<'a>,
    help: &'a str,
) -> Arg<'a>
    ensures rule { rule_of result
        ≡ record (new_rule name.entry.now) { long = Some name.entry.now; value_names = 1; parser = Some numbers.entry } }
    ensures local { result.global ≡ false }
{
    Arg::new(alloc, name)
        .long(name)
        .value_name(value_name)
        .value_parser(numbers)
        .help(help)
}

/// The numbers that `--now` takes.
fn seconds<'a>() -> ValueParser<'a>
    ensures { result ≡ parser.Unsigned 0 253_370_764_799 }
{
    value_parser!(u64).range(0..=LAST_MOMENT as i64)
}

fn now_option<'a>(alloc: Global) -> Arg<'a>
    ensures rule { rule_of result ≡ now_rule }
    ensures local { result.global ≡ false }
{
    let help =
        "The moment of every acknowledgment, in seconds since 1970; the clock where left out";
    number_option(alloc, "now", "SECS", seconds(), help)
}

/// The numbers that `--events` takes.
fn entries<'a>() -> ValueParser<'a>
    ensures { result ≡ parser.Signed (pos 1) (pos 1_000_000) }
{
    value_parser!(u32).range(1..=EVENTS_MAX as i64)
}

fn events_option<'a>(alloc: Global) -> Arg<'a>
    ensures rule { rule_of result ≡ events_rule }
    ensures local { result.global ≡ false }
{
    let help = "The most entries that the book may hold [default: 1000000]";
    number_option(alloc, "events", "N", entries(), help)
}

/// The numbers that `--accept` takes.
fn connections<'a>() -> ValueParser<'a>
    ensures { result ≡ parser.Signed (pos 1) (pos 9_999) }
{
    value_parser!(u32).range(1..=CONNECTIONS_MAX as i64)
}

fn accept_option<'a>(alloc: Global) -> Arg<'a>
    ensures rule { rule_of result ≡ accept_rule }
    ensures local { result.global ≡ false }
{
    let help = "How many connections each channel takes before it stops listening, 1 to 9999";
    number_option(alloc, "accept", "N", connections(), help).required(true)
}

/// The plan's file, which has to be given.
fn plan_word<'a>(alloc: Global) -> Arg<'a>
    ensures rule { rule_of result ≡ record plan_rule { required = true } }
    ensures local { result.global ≡ false }
{
    Arg::new(alloc, "PLAN")
        .required(true)
        .help("A plan in TOML")
}

/// The command with an option of its own, and `--events`.
fn with_options<'a>(
    alloc: Global,
    command: Command<'a>,
    option: Arg<'a>,
) -> Result<Command<'a>, AllocError>
    requires command { (fields_of command).has_globals ≡ false }
    requires option { option.global ≡ false }
    ensures app { IfOk result (λ c. app_of c ≡ with_rule (with_rule (app_of command.entry) (rule_of option.entry)) events_rule) }
    ensures local { IfOk result (λ c. (fields_of c).has_globals ≡ false) }
{
    command.arg(option)?.arg(events_option(alloc))
}

fn answer_command<'a>(alloc: Global) -> Result<Command<'a>, AllocError>
    ensures app { IfOk result (λ c. app_of c ≡ answer_app) }
    ensures local { IfOk result (λ c. (fields_of c).has_globals ≡ false) }
{
    let plan = Arg::new(alloc, "PLAN").help("A plan in TOML; the built-in plan where left out");
    let command = Command::new(alloc, "answer")
        .about(
            "Acknowledges the blocks on standard input, to standard output, as connection 0 of the plan's first channel",
        )
        .after_help(ANSWERING)
        .arg(plan)?;
    with_options(alloc, command, now_option(alloc))
}

fn check_command<'a>(alloc: Global) -> Result<Command<'a>, AllocError>
    ensures app { IfOk result (λ c. app_of c ≡ check_app) }
    ensures local { IfOk result (λ c. (fields_of c).has_globals ≡ false) }
{
    Command::new(alloc, "check")
        .about("Reads a plan, and prints its size or its first fault with its path")
        .after_help(CHECKING)
        .arg(plan_word(alloc))
}

fn run_command<'a>(alloc: Global) -> Result<Command<'a>, AllocError>
    ensures app { IfOk result (λ c. app_of c ≡ run_app) }
    ensures local { IfOk result (λ c. (fields_of c).has_globals ≡ false) }
{
    let command = Command::new(alloc, "run")
        .about(
            "Listens for each channel of a plan, acknowledges what is received, and delivers it to the destinations",
        )
        .after_help(RUNNING)
        .arg(plan_word(alloc))?;
    with_options(alloc, command, accept_option(alloc))
}

/// The program by its name, with its version and help, before it has any command.
fn top_command<'a>(alloc: Global) -> Command<'a>
    ensures { app_of result ≡ top }
{
    Command::new(alloc, "hl7_engine")
        .about(
            "An HL7 v2.5.1 interface engine: takes messages over MLLP, acknowledges them, and delivers them by a plan",
        )
        .after_help(STATUSES)
        .version(VERSION)
}

/// The program with `answer`, its first command.
fn answering<'a>(alloc: Global) -> Result<Command<'a>, AllocError>
    ensures { IfOk result (λ c. app_of c ≡ with_subcommand top answer_app.top) }
{
    let answer = answer_command(alloc)?;
    top_command(alloc).subcommand(answer)
}

/// The program with `answer` and `check`.
fn checking<'a>(alloc: Global) -> Result<Command<'a>, AllocError>
    ensures { IfOk result (λ c. app_of c ≡ with_subcommand (with_subcommand top answer_app.top) check_app.top) }
{
    let check = check_command(alloc)?;
    answering(alloc)?.subcommand(check)
}

fn program_command<'a>(alloc: Global) -> Result<Command<'a>, AllocError>
    ensures { IfOk result (λ c. app_of c ≡ program) }
{
    let run = run_command(alloc)?;
    checking(alloc)?.subcommand(run)
}

/// The moment that many seconds after the year 1970 began, or the last one.
fn nearest(seconds: u64) -> Moment
    ensures { result ≡ min seconds 253_370_764_799 }
{
    Moment::of_unix(seconds.min(LAST_MOMENT) as i64).unwrap()
}

/// What is requested where there are no words.
fn without_words<'a>() -> Request<'a>
    ensures { result ≡ without_words }
{
    Request::Answer {
        plan: None,
        now: Some(nearest(MOMENT_WITHOUT_WORDS)),
        events: EVENTS_MAX,
    }
}

/// The most entries that the book may hold, by what is given of them.
fn events_of(given: Option<u32>) -> u32
    ensures written { IsBound given result }
    ensures least { 1 ≤ result }
    ensures most { result ≤ 1_000_000 }
{
    given.unwrap_or(EVENTS_MAX).clamp(1, EVENTS_MAX)
}

/// The moment that is given in seconds, if one is.
fn moment_of_seconds(given: Option<u64>) -> Option<Moment>
    ensures { result ≡ option_map (λ s. min s 253_370_764_799) given }
{
    match given {
        Some(seconds) => Some(nearest(seconds)),
        None => None,
    }
}

/// What the words of `answer` request.
fn answer_request<'a>(matches: &ArgMatches<'a>) -> Request<'a>
    ensures limits { IsWithinLimits result }
    ensures written { AsksAnswer result (rows_of (found_of matches.now)) }
{
    Request::Answer {
        plan: matches.get_str("PLAN"),
        now: moment_of_seconds(matches.get_one("now")),
        events: events_of(matches.get_one("events")),
    }
}

/// How many connections each channel takes, by what is given of them.
fn accept_of(given: Option<u32>) -> u32
    ensures written { IsAccept given result }
    ensures least { 1 ≤ result }
    ensures most { result ≤ 9_999 }
{
    given.unwrap_or(1).clamp(1, CONNECTIONS_MAX)
}

/// What the words of `run` request.
fn run_request<'a>(matches: &ArgMatches<'a>) -> Request<'a>
    ensures limits { IsWithinLimits result }
    ensures written { AsksRun result (rows_of (found_of matches.now)) }
{
    Request::Run {
        plan: matches.get_str("PLAN").unwrap_or(""),
        accept: accept_of(matches.get_one("accept")),
        events: events_of(matches.get_one("events")),
    }
}

/// What the words of a command request, by its name.
fn request_of<'a>(matches: &ArgMatches<'a>) -> Request<'a>
    ensures limits { IsWithinLimits result }
    ensures written { AsksBy result (subcommand_rows_of matches.now) }
{
    match matches.subcommand() {
        Some(("check", given)) => Request::Check {
            plan: given.get_str("PLAN").unwrap_or(""),
        },
        Some(("run", given)) => run_request(given),
        Some((_, given)) => answer_request(given),
        None => without_words(),
    }
}

/// The matches of the words, of which the first is the program's name.
fn parse<'a>(alloc: Global, words: &'a [String]) -> Result<ArgMatches<'a>, Error>
    ensures rows { IfOk result (λ m. subcommand_rows_of m ≡ subcommand_of program (map string_bytes words.entry.now)) }
    ensures refused { FailsBy (fault_of program (map string_bytes words.entry.now)) result }
{
    program_command(alloc)?.try_get_matches_from(words)
}

/// What the words request, of which the first is the program's name.
///
/// # Errors
///
/// The text to be printed: the help, or what is wrong and what the program takes. Where memory isn't
/// refused, it is returned exactly for the words that have a fault, and is of that fault's kind.
pub fn parse_args<'a>(alloc: Global, words: &'a [String]) -> Result<Request<'a>, Error>
    ensures stored_run { length words.now ≤ 1 → result ≡ Ok without_words }
    ensures limits { IfOk result IsWithinLimits }
    ensures written { IfOk result (λ request. Asks request (map string_bytes words.entry.now)) }
    ensures refused { FailsBy (fault_of program (map string_bytes words.entry.now)) result }
{
    if words.len() <= 1 {
        return Ok(without_words());
    }
    let matches = parse(alloc, words)?;
    Ok(request_of(&matches))
}
