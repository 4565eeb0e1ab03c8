//! The words of the command line.

ghost use Rattle.std.specs.Prelude.{◌≡◌, ◌≤◌, ℕ, None, Some, IfOk, codes, false, length, map, option_map, pos, string_bytes, true};
ghost use Rattle.clap.specs.declared.builder.command.Command.TheViews.{out-Command as fields_of};
ghost use Rattle.clap.specs.declared.builder.value_parser.ValueParser.TheVariants as parser;
ghost use Rattle.clap.specs.Words.{FailsBy, app_of, fault_of, found_of, kind_of, new_app, new_rule, one_text, rows_of, rule_of, subcommand_of, subcommand_rows_of, with_rule, with_subcommand};
ghost use Rattle.service_words.specs.inner.Request.{IsWithinLimits};
ghost use Rattle.service_words.specs.inner.Words.{answer_text_rule, bounded_run, channel_rule, check_app, checked, connections_rule, events_rule, faults_of, folder_rule, grace_rule, has_memory, http_name_rule, http_rule, idle_rule, keep_rule, kept_run, keeping_fault, memory_rule, place_fault, plan_rule, program, run_app, run_fault, show_rule, shown_run, store_app, store_rule, top, try_app, verbose_rule, Asks, AsksBy, AsksCheck, AsksRun, AsksStore, AsksTry, IsRefusedBy, IsWithin, IsKept, KeepsIn, ReadsAddress, ReadsAnswerText};
ghost use Rattle.clap.specs.declared.error.kind.ErrorKind.TheVariants.{ValueValidation};

use crate::help::{
    ANSWER_TEXT, ASKING, CHECKING, HTTP_ADDRESS, ONE_PLACE, RUN_USAGE, RUNNING, STATUSES, TRYING,
};
use clap::builder::ValueParser;
use clap::error::ErrorKind;
use clap::{Arg, ArgAction, ArgMatches, Command, Error, value_parser};
use fixed_numbers::EVENTS_MAX;
use message_notes::AnswerText;
use std::alloc::{AllocError, Global};
use std::net::SocketAddr;

/// What `--version` prints after the program's name: its version, and the toolchain's logic by which its proofs were checked.
const VERSION: &str = "0.2.0 (toolchain logic dac8208d650f15bf)";

/// Where the history of the book is kept.
#[derive(Clone, Copy, Debug, PartialEq, Eq)]
pub enum Keeping<'a> {
    /// In memory alone: what is not delivered when the process ends is lost.
    Memory,
    /// In this folder: the next process on it continues where the last one ended.
    Store(&'a str),
}

/// What the program is asked to do.
#[derive(Clone, Copy, Debug, PartialEq, Eq)]
pub enum Request<'a> {
    /// Listen by the plan in a file, and serve, deliver and obey commands until a command stops it.
    Run {
        /// The plan's file.
        plan: &'a str,
        /// Where the history of the book is kept.
        keeping: Keeping<'a>,
        /// The most connections of each channel at once, 1 to 1,000.
        connections: u32,
        /// The most entries that the book may hold, 1 to 1,000,000.
        events: u32,
        /// How many of the last messages a pruning keeps, 0 to 1,000,000.
        keep: u32,
        /// After how many seconds without a byte a connection ends, 0 to 86,400. 0: never.
        idle: u32,
        /// How many seconds connections may take at `stop` to write their last acknowledgments, 0 to 3,600.
        grace: u32,
        /// Whether the commands `show` and `export` give the text of messages.
        show: bool,
        /// The word for where the words of the destinations' answers are shown; none where left out.
        answer_text: Option<&'a str>,
        /// The address at which requests over HTTP are answered; none where left out.
        http: Option<&'a str>,
        /// The names of hosts for which they are answered beside `localhost` and IP addresses, with commas between them.
        http_names: Option<&'a str>,
    },
    /// Judge what comes on standard input by the plan in a file, and print what would be answered and sent.
    Try {
        /// The plan's file.
        plan: &'a str,
        /// The channel's name; the plan's first channel where left out.
        channel: Option<&'a str>,
    },
    /// Read the plan in a file, and print its size or its first fault.
    Check {
        /// The plan's file.
        plan: &'a str,
        /// Whether to print which messages go where as well.
        verbose: bool,
    },
    /// Read the store in a folder, which no service uses, and answer questions about it. Nothing is changed.
    Ask {
        /// The folder.
        folder: &'a str,
    },
}

/// An option that takes a number.
fn number_option<'a>(
    alloc: Global,
    name: &'a str,
    value_name: &'a str,
    numbers: ValueParser<'a>,
    help: &'a str,
) -> Arg<'a>
    ensures rule { rule_of result
        ≡ record (new_rule name.entry.now) { long = Some name.entry.now; value_names = 1; parser = Some numbers.entry } }
    ensures local { result.global ≡ false }
{
    Arg::new(alloc, name)
        .long(name)
        .value_name(value_name)
        .value_parser(numbers)
        .help(help)
}

/// The folder of the store.
fn store_option<'a>(alloc: Global) -> Arg<'a>
    ensures rule { rule_of result ≡ store_rule }
    ensures local { result.global ≡ false }
{
    Arg::new(alloc, "store")
        .long("store")
        .value_name("FOLDER")
        .help(
            "Keeps the history in this folder, which is made where it is missing, and continues from it at the next start",
        )
}

fn memory_option<'a>(alloc: Global) -> Arg<'a>
    ensures rule { rule_of result ≡ memory_rule }
    ensures local { result.global ≡ false }
{
    Arg::new(alloc, "memory")
        .long("memory")
        .action(ArgAction::SetTrue)
        .help(
            "Keeps the history in memory alone: what is not yet delivered when the process ends is lost",
        )
}

/// The numbers that `--connections` takes.
fn connections<'a>() -> ValueParser<'a>
    ensures { result ≡ parser.Signed (pos 1) (pos 1_000) }
{
    value_parser!(u32).range(1..=1_000)
}

fn connections_option<'a>(alloc: Global) -> Arg<'a>
    ensures rule { rule_of result ≡ connections_rule }
    ensures local { result.global ≡ false }
{
    let help = "The most connections of each channel at once, 1 to 1000 [default: 64]";
    number_option(alloc, "connections", "N", connections(), help)
}

/// The numbers that `--events` takes.
fn entries<'a>() -> ValueParser<'a>
    ensures { result ≡ parser.Signed (pos 1) (pos 1_000_000) }
{
    value_parser!(u32).range(1..=EVENTS_MAX as i64)
}

fn events_option<'a>(alloc: Global) -> Arg<'a>
    ensures rule { rule_of result ≡ events_rule }
    ensures local { result.global ≡ false }
{
    let help = "The most entries that the book may hold, 1 to 1000000 [default: 1000000]";
    number_option(alloc, "events", "N", entries(), help)
}

/// The numbers that `--keep` takes.
fn kept<'a>() -> ValueParser<'a>
    ensures { result ≡ parser.Signed (pos 0) (pos 1_000_000) }
{
    value_parser!(u32).range(0..=1_000_000)
}

fn keep_option<'a>(alloc: Global) -> Arg<'a>
    ensures rule { rule_of result ≡ keep_rule }
    ensures local { result.global ≡ false }
{
    let help =
        "How many of the last messages a pruning keeps, 0 to 1000000 [default: the lesser of 100000 and a quarter of --events]";
    number_option(alloc, "keep", "N", kept(), help)
}

/// The numbers that `--idle` takes.
fn idle_seconds<'a>() -> ValueParser<'a>
    ensures { result ≡ parser.Signed (pos 0) (pos 86_400) }
{
    value_parser!(u32).range(0..=86_400)
}

fn idle_option<'a>(alloc: Global) -> Arg<'a>
    ensures rule { rule_of result ≡ idle_rule }
    ensures local { result.global ≡ false }
{
    let help =
        "Ends a connection that sends nothing for this many seconds, 0 to 86400; 0: never [default: 0]";
    number_option(alloc, "idle", "SECONDS", idle_seconds(), help)
}

/// The numbers that `--grace` takes.
fn grace_seconds<'a>() -> ValueParser<'a>
    ensures { result ≡ parser.Signed (pos 0) (pos 3_600) }
{
    value_parser!(u32).range(0..=3_600)
}

fn grace_option<'a>(alloc: Global) -> Arg<'a>
    ensures rule { rule_of result ≡ grace_rule }
    ensures local { result.global ≡ false }
{
    let help =
        "How long connections may take at 'stop' to write their last acknowledgments, 0 to 3600 [default: 5]";
    number_option(alloc, "grace", "SECONDS", grace_seconds(), help)
}

fn show_option<'a>(alloc: Global) -> Arg<'a>
    ensures rule { rule_of result ≡ show_rule }
    ensures local { result.global ≡ false }
{
    Arg::new(alloc, "show")
        .long("show")
        .value_name("ON|OFF")
        .value_parser(ValueParser::Boolish)
        .help(
            "Whether the commands 'show' and 'export' give the text of messages, on or off [default: on]",
        )
}

fn answer_text_option<'a>(alloc: Global) -> Arg<'a>
    ensures rule { rule_of result ≡ answer_text_rule }
    ensures local { result.global ≡ false }
{
    Arg::new(alloc, "answer-text")
        .long("answer-text")
        .value_name("WHERE")
        .help(
            "Where the words of the destinations' answers are shown, which may name a patient: none, commands, or log, which is both [default: commands]",
        )
}

fn http_option<'a>(alloc: Global) -> Arg<'a>
    ensures rule { rule_of result ≡ http_rule }
    ensures local { result.global ≡ false }
{
    Arg::new(alloc, "http")
        .long("http")
        .value_name("ADDRESS")
        .help(
            "Answers requests over HTTP at this IP address and port, as 127.0.0.1:9180 [default: nowhere]",
        )
}

fn http_name_option<'a>(alloc: Global) -> Arg<'a>
    ensures rule { rule_of result ≡ http_name_rule }
    ensures local { result.global ≡ false }
{
    Arg::new(alloc, "http-name")
        .long("http-name")
        .value_name("NAMES")
        .help(
            "Answers requests over HTTP for hosts of these names too, with commas between them [default: for IP addresses and localhost]",
        )
}

fn channel_option<'a>(alloc: Global) -> Arg<'a>
    ensures rule { rule_of result ≡ channel_rule }
    ensures local { result.global ≡ false }
{
    Arg::new(alloc, "channel")
        .long("channel")
        .value_name("NAME")
        .help("The channel by whose rules the messages are judged [default: the plan's first]")
}

fn verbose_option<'a>(alloc: Global) -> Arg<'a>
    ensures rule { rule_of result ≡ verbose_rule }
    ensures local { result.global ≡ false }
{
    Arg::new(alloc, "verbose")
        .long("verbose")
        .action(ArgAction::SetTrue)
        .help("Prints as well which messages go from each channel to which destination")
}

/// The plan's file, which has to be given.
fn plan_word<'a>(alloc: Global) -> Arg<'a>
    ensures rule { rule_of result ≡ plan_rule }
    ensures local { result.global ≡ false }
{
    Arg::new(alloc, "PLAN")
        .required(true)
        .help("A plan in TOML")
}

/// The command with one word more.
fn with_word<'a>(command: Command<'a>, word: Arg<'a>) -> Result<Command<'a>, AllocError>
    requires command { (fields_of command).has_globals ≡ false }
    requires word { word.global ≡ false }
    ensures app { IfOk result (λ c. app_of c ≡ with_rule (app_of command.entry) (rule_of word.entry)) }
    ensures local { IfOk result (λ c. (fields_of c).has_globals ≡ false) }
{
    command.arg(word)
}

fn check_command<'a>(alloc: Global) -> Result<Command<'a>, AllocError>
    ensures app { IfOk result (λ c. app_of c ≡ check_app) }
    ensures local { IfOk result (λ c. (fields_of c).has_globals ≡ false) }
{
    let command = Command::new(alloc, "check")
        .about("Reads a plan, and prints its size or its first fault")
        .after_help(CHECKING);
    let command = with_word(command, plan_word(alloc))?;
    with_word(command, verbose_option(alloc))
}

fn try_command<'a>(alloc: Global) -> Result<Command<'a>, AllocError>
    ensures app { IfOk result (λ c. app_of c ≡ try_app) }
    ensures local { IfOk result (λ c. (fields_of c).has_globals ≡ false) }
{
    let command = Command::new(alloc, "try")
        .about(
            "Judges the messages on standard input by a plan, and prints what would be answered and sent",
        )
        .after_help(TRYING);
    let command = with_word(command, plan_word(alloc))?;
    with_word(command, channel_option(alloc))
}

/// The folder of a store, which has to be given.
fn folder_word<'a>(alloc: Global) -> Arg<'a>
    ensures rule { rule_of result ≡ folder_rule }
    ensures local { result.global ≡ false }
{
    Arg::new(alloc, "FOLDER")
        .required(true)
        .help("The folder of a store that no service uses")
}

fn store_command<'a>(alloc: Global) -> Result<Command<'a>, AllocError>
    ensures app { IfOk result (λ c. app_of c ≡ store_app) }
    ensures local { IfOk result (λ c. (fields_of c).has_globals ≡ false) }
{
    let command = Command::new(alloc, "store")
        .about(
            "Answers questions about the store of a service that isn't running, and changes nothing",
        )
        .after_help(ASKING);
    with_word(command, folder_word(alloc))
}

/// `run` with its texts, before it takes any word.
fn bare_run<'a>(alloc: Global) -> Command<'a>
    ensures app { app_of result ≡ new_app (codes "run") }
    ensures local { (fields_of result).has_globals ≡ false }
{
    Command::new(alloc, "run")
        .about(
            "Listens for each channel of a plan, acknowledges what comes, and delivers it to the destinations",
        )
        .override_usage(RUN_USAGE)
        .after_help(RUNNING)
}

/// `run` with its plan, and the two options that say where the history is kept.
fn running<'a>(alloc: Global) -> Result<Command<'a>, AllocError>
    ensures app { IfOk result (λ c. app_of c ≡ kept_run) }
    ensures local { IfOk result (λ c. (fields_of c).has_globals ≡ false) }
{
    let command = with_word(bare_run(alloc), plan_word(alloc))?;
    let command = with_word(command, store_option(alloc))?;
    with_word(command, memory_option(alloc))
}

/// `run` with the bounds of its connections and of the book besides.
fn bounded_run<'a>(alloc: Global) -> Result<Command<'a>, AllocError>
    ensures app { IfOk result (λ c. app_of c ≡ bounded_run) }
    ensures local { IfOk result (λ c. (fields_of c).has_globals ≡ false) }
{
    let command = running(alloc)?;
    let command = with_word(command, connections_option(alloc))?;
    let command = with_word(command, events_option(alloc))?;
    with_word(command, keep_option(alloc))
}

/// `run` with what it says of time and of the text of messages besides.
fn shown_run<'a>(alloc: Global) -> Result<Command<'a>, AllocError>
    ensures app { IfOk result (λ c. app_of c ≡ shown_run) }
    ensures local { IfOk result (λ c. (fields_of c).has_globals ≡ false) }
{
    let command = bounded_run(alloc)?;
    let command = with_word(command, idle_option(alloc))?;
    let command = with_word(command, grace_option(alloc))?;
    let command = with_word(command, show_option(alloc))?;
    with_word(command, answer_text_option(alloc))
}

fn run_command<'a>(alloc: Global) -> Result<Command<'a>, AllocError>
    ensures app { IfOk result (λ c. app_of c ≡ run_app) }
    ensures local { IfOk result (λ c. (fields_of c).has_globals ≡ false) }
{
    let command = shown_run(alloc)?;
    let command = with_word(command, http_option(alloc))?;
    with_word(command, http_name_option(alloc))
}

/// The program by its name, with its version and help, before it has any command.
fn top_command<'a>(alloc: Global) -> Command<'a>
    ensures { app_of result ≡ top }
{
    Command::new(alloc, "hl7_service")
        .about(
            "An HL7 v2.5.1 interface engine as a service: takes messages over MLLP, acknowledges them, and delivers them by a plan",
        )
        .after_help(STATUSES)
        .version(VERSION)
        .subcommand_required(true)
}

/// The program with `run`, its first command.
fn with_run<'a>(alloc: Global) -> Result<Command<'a>, AllocError>
    ensures { IfOk result (λ c. app_of c ≡ with_subcommand top run_app.top) }
{
    let run = run_command(alloc)?;
    top_command(alloc).subcommand(run)
}

/// The program with `run` and `try`.
fn with_try<'a>(alloc: Global) -> Result<Command<'a>, AllocError>
    ensures { IfOk result (λ c. app_of c ≡ with_subcommand (with_subcommand top run_app.top) try_app.top) }
{
    let dry = try_command(alloc)?;
    with_run(alloc)?.subcommand(dry)
}

/// The program with `run`, `try` and `check`.
fn with_check<'a>(alloc: Global) -> Result<Command<'a>, AllocError>
    ensures { IfOk result (λ c. app_of c ≡ checked) }
{
    let check = check_command(alloc)?;
    with_try(alloc)?.subcommand(check)
}

fn program_command<'a>(alloc: Global) -> Result<Command<'a>, AllocError>
    ensures { IfOk result (λ c. app_of c ≡ program) }
{
    let store = store_command(alloc)?;
    with_check(alloc)?.subcommand(store)
}

/// The number given, or else the usual one.
fn number_of(given: Option<u32>, least: u32, most: u32, usual: u32) -> u32
    requires least { least ≤ usual }
    requires most { usual ≤ most }
    ensures written { IsWithin least most usual given result }
    ensures least { least ≤ result }
    ensures most { result ≤ most }
{
    given.unwrap_or(usual).clamp(least, most)
}

/// How many of the last messages a pruning keeps, by what is given of them, in a book of `events` entries.
fn keep_of(given: Option<u32>, events: u32) -> u32
    ensures written { IsKept events given result }
    ensures most { result ≤ 1_000_000 }
{
    given.unwrap_or((events / 4).min(100_000)).min(1_000_000)
}

/// Whether `show` and `export` give the text of messages: as `--show` says, and yes where it is left out.
fn shows(matches: &ArgMatches<'_>) -> bool
    ensures left_out { one_text (found_of matches.now) (codes "show") ≡ None → result ≡ true }
    ensures on { one_text (found_of matches.now) (codes "show") ≡ Some (codes "true") → result ≡ true }
    ensures off { one_text (found_of matches.now) (codes "show") ≡ Some (codes "false")
        → result ≡ false }
{
    matches.get_one("show").unwrap_or(true)
}

/// Whether `--memory` is given.
fn wants_memory(matches: &ArgMatches<'_>) -> bool
    ensures { result ≡ has_memory (rows_of (found_of matches.now)) }
{
    match matches.get_str("memory") {
        Some(written) => written == "true",
        None => false,
    }
}

/// Where `run` keeps the history.
///
/// # Errors
///
/// `MissingRequiredArgument` where neither `--store` nor `--memory` is given, and `ArgumentConflict` where both are.
fn keeping_of<'a>(folder: Option<&'a str>, memory: bool) -> Result<Keeping<'a>, ErrorKind>
    ensures kept { IfOk result (λ keeping. KeepsIn keeping (option_map (λ path. path.now) folder.entry) memory) }
    ensures refused { IsRefusedBy (place_fault (option_map (λ path. path.now) folder.entry) memory) result }
{
    match (folder, memory) {
        (Some(folder), false) => Ok(Keeping::Store(folder)),
        (None, true) => Ok(Keeping::Memory),
        (None, false) => Err(ErrorKind::MissingRequiredArgument),
        (Some(_), true) => Err(ErrorKind::ArgumentConflict),
    }
}

/// The request that the words of `run` make.
///
/// # Errors
///
/// As of `keeping_of`.
fn run_request<'a>(matches: &ArgMatches<'a>) -> Result<Request<'a>, ErrorKind>
    ensures limits { IfOk result IsWithinLimits }
    ensures written { IfOk result (λ request. AsksRun request (rows_of (found_of matches.now))) }
    ensures refused { IsRefusedBy (run_fault (rows_of (found_of matches.now))) result }
{
    let keeping = keeping_of(matches.get_str("store"), wants_memory(matches))?;
    let events = number_of(matches.get_one("events"), 1, EVENTS_MAX, EVENTS_MAX);
    Ok(Request::Run {
        plan: matches.get_str("PLAN").unwrap_or(""),
        keeping,
        connections: number_of(matches.get_one("connections"), 1, 1_000, 64),
        events,
        keep: keep_of(matches.get_one("keep"), events),
        idle: number_of(matches.get_one("idle"), 0, 86_400, 0),
        grace: number_of(matches.get_one("grace"), 0, 3_600, 5),
        show: shows(matches),
        answer_text: matches.get_str("answer-text"),
        http: matches.get_str("http"),
        http_names: matches.get_str("http-name"),
    })
}

/// The request that the words of `try` make.
fn try_request<'a>(matches: &ArgMatches<'a>) -> Request<'a>
    ensures limits { IsWithinLimits result }
    ensures written { AsksTry result (rows_of (found_of matches.now)) }
{
    Request::Try {
        plan: matches.get_str("PLAN").unwrap_or(""),
        channel: matches.get_str("channel"),
    }
}

/// The request that the words of `check` make.
fn check_request<'a>(matches: &ArgMatches<'a>) -> Request<'a>
    ensures limits { IsWithinLimits result }
    ensures written { AsksCheck result (rows_of (found_of matches.now)) }
{
    Request::Check {
        plan: matches.get_str("PLAN").unwrap_or(""),
        verbose: matches.get_flag("verbose"),
    }
}

/// The request that the words of `store` make.
fn store_request<'a>(matches: &ArgMatches<'a>) -> Request<'a>
    ensures limits { IsWithinLimits result }
    ensures written { AsksStore result (rows_of (found_of matches.now)) }
{
    Request::Ask {
        folder: matches.get_str("FOLDER").unwrap_or(""),
    }
}

/// The request that the words of a command make, by its name.
///
/// # Errors
///
/// As of `run_request`.
fn request_of<'a>(matches: &ArgMatches<'a>) -> Result<Request<'a>, ErrorKind>
    ensures limits { IfOk result IsWithinLimits }
    ensures written { IfOk result (λ request. AsksBy request (subcommand_rows_of matches.now)) }
    ensures refused { IsRefusedBy (keeping_fault (subcommand_rows_of matches.now)) result }
{
    match matches.subcommand() {
        Some(("check", given)) => Ok(check_request(given)),
        Some(("try", given)) => Ok(try_request(given)),
        Some(("store", given)) => Ok(store_request(given)),
        Some((_, given)) => run_request(given),
        // The parse fails where no command is given.
        None => Ok(Request::Check {
            plan: "",
            verbose: false,
        }),
    }
}

/// The error of a `run` for whose history no place is given, or two are.
fn one_place_error(alloc: Global, kind: ErrorKind) -> Result<Error, AllocError>
    ensures { IfOk result (λ error. kind_of error ≡ kind) }
{
    let mut command = run_command(alloc)?;
    command.error(kind, ONE_PLACE)
}

/// The error of a `run` with an HTTP address that is no IP address and port.
fn address_error(alloc: Global) -> Result<Error, AllocError>
    ensures { IfOk result (λ error. kind_of error ≡ ValueValidation) }
{
    let mut command = run_command(alloc)?;
    command.error(ErrorKind::ValueValidation, HTTP_ADDRESS)
}

/// The IP address and the port that a word writes.
///
/// # Errors
///
/// `ValueValidation` where it writes none. The error has the text to be printed.
pub fn http_address(alloc: Global, word: &str) -> Result<SocketAddr, Error>
    ensures { ReadsAddress word.now result }
{
    match word.parse::<SocketAddr>() {
        Ok(address) => Ok(address),
        Err(_) => Err(address_error(alloc)?),
    }
}

/// The error of a `run` with a word for where the words of answers are shown that is none.
fn answer_text_error(alloc: Global) -> Result<Error, AllocError>
    ensures { IfOk result (λ error. kind_of error ≡ ValueValidation) }
{
    let mut command = run_command(alloc)?;
    command.error(ErrorKind::ValueValidation, ANSWER_TEXT)
}

/// Where the words of the destinations' answers are shown, by the word of the option: `none`, `commands` or `log`.
///
/// # Errors
///
/// `ValueValidation` where it is another word. The error has the text to be printed.
pub fn answer_text(alloc: Global, word: &str) -> Result<AnswerText, Error>
    ensures { ReadsAnswerText word.now result }
{
    match word {
        "none" => Ok(AnswerText::Nowhere),
        "commands" => Ok(AnswerText::Commands),
        "log" => Ok(AnswerText::Log),
        _ => Err(answer_text_error(alloc)?),
    }
}

/// The matches of the words, of which the first is the program's name.
fn parse<'a>(alloc: Global, words: &'a [String]) -> Result<ArgMatches<'a>, Error>
    ensures rows { IfOk result (λ m. subcommand_rows_of m ≡ subcommand_of program (map string_bytes words.entry.now)) }
    ensures refused { FailsBy (fault_of program (map string_bytes words.entry.now)) result }
{
    program_command(alloc)?.try_get_matches_from(words)
}

/// The request that the words make, of which the first is the program's name.
///
/// # Errors
///
/// The error has the text to be printed: the help, or what is wrong and what the program takes. Unless the system is out of
/// memory, there is an error exactly where the words have a fault, and it is of that fault's kind.
pub fn parse_args<'a>(alloc: Global, words: &'a [String]) -> Result<Request<'a>, Error>
    ensures limits { IfOk result IsWithinLimits }
    ensures written { IfOk result (λ request. Asks request (map string_bytes words.entry.now)) }
    ensures refused { FailsBy (faults_of (map string_bytes words.entry.now)) result }
{
    let matches = parse(alloc, words)?;
    match request_of(&matches) {
        Ok(request) => Ok(request),
        Err(kind) => Err(one_place_error(alloc, kind)?),
    }
}
