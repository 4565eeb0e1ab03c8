//! Doing what the command line requests.

ghost use Rattle.std.specs.Prelude.{◌≡◌, IfErr, IfOk};
ghost use Rattle.std.specs.Process.{exit_status};
ghost use Rattle.engine_report.specs.inner.Ended.{ended_status, trouble_status};

use crate::asking::ask_store;
use crate::check::check;
use crate::trying::try_messages;
use engine_report::{Ended, Fault, Trouble, bounded_file, warned_service_plan};
use message_notes::AnswerText;
use service_answers::Origin;
use service_run::{HttpSettings, PLAN_BYTES, RunEnd, Settings, run};
use service_words::{Keeping, Request, answer_text, http_address, parse_args};
use service_workers::Crew;
use std::env;
use std::io::ErrorKind;
use std::marker::PhantomData;
use std::net::{TcpListener, TcpStream};
use std::process::ExitCode;
use std::thread::Threads;

/// The words of the command line, of which the first is the program's name.
///
/// # Errors
///
/// `NoText` where a word is no text, and `Memory`.
pub fn words_given<'a>(rt: &HostRuntime) -> Result<Vec<String>, Trouble<'a>> {
    match env::args(rt) {
        Ok(words) => Ok(words.collect(rt.alloc())?),
        Err(error) if error.kind() == ErrorKind::OutOfMemory => {
            Err(Trouble::Engine(Fault::Memory))
        }
        Err(_) => Err(Trouble::Engine(Fault::NoText)),
    }
}

/// Prints the help or the version that was requested, which is a success, or passes on what is wrong with the words.
fn print_help<'a>(rt: &HostRuntime, error: clap::Error) -> Result<Ended, Trouble<'a>> {
    if error.use_stderr() {
        return Err(Trouble::Engine(Fault::from(error)));
    }
    match error.print(rt) {
        Ok(()) => Ok(Ended::Done),
        Err(_) => Err(Trouble::Engine(Fault::Write)),
    }
}

/// The sockets that the service listens and connects by, for a parameter that makes them known where `main` calls: the bounds of
/// `Crew` name them, and no value that `main` has is of their types.
pub type Sockets = PhantomData<(TcpListener, TcpStream)>;

/// Runs the service by the plan in a file, with its history kept in memory or in a store.
fn serve<'a, H: Crew + Threads + Eprint + Copy + Sync>(
    rt: &HostRuntime,
    handle: &H,
    path: &'a str,
    settings: &Settings,
    keeping: Keeping<'_>,
) -> Result<Ended, Trouble<'a>> {
    bounded_file(rt, path, PLAN_BYTES)?;
    let plan = warned_service_plan(rt, path, settings.events)?;
    let folder = match keeping {
        Keeping::Memory => None,
        Keeping::Store(folder) => Some(folder),
    };
    match run(rt, handle, path, plan, settings, folder)? {
        RunEnd::Drained | RunEnd::Stored => Ok(Ended::Done),
        RunEnd::Undelivered => Ok(Ended::Undelivered),
    }
}

/// Where requests over HTTP are answered, and for which hosts, by the words.
///
/// # Errors
///
/// `Words` where the address is none, and `Memory`.
fn http_settings<'a, 'w>(
    rt: &HostRuntime,
    http: Option<&'w str>,
    names: Option<&'w str>,
) -> Result<Option<HttpSettings<'w>>, Trouble<'a>> {
    let Some(word) = http else {
        return Ok(None);
    };
    match http_address(rt.alloc(), word) {
        Ok(address) => Ok(Some(HttpSettings {
            address,
            names: names.unwrap_or(""),
        })),
        Err(error) => Err(Trouble::Engine(Fault::from(error))),
    }
}

/// Where the words of the destinations' answers are shown, by the words; in the answers to commands where nothing is said of that.
///
/// # Errors
///
/// `Words` where the word is none of those that are taken, and `Memory`.
fn words_shown<'a>(rt: &HostRuntime, word: Option<&str>) -> Result<AnswerText, Trouble<'a>> {
    let Some(word) = word else {
        return Ok(AnswerText::Commands);
    };
    match answer_text(rt.alloc(), word) {
        Ok(shown) => Ok(shown),
        Err(error) => Err(Trouble::Engine(Fault::from(error))),
    }
}

/// Does what the words request. Threads are started, and waited for, by `handle`.
///
/// # Errors
///
/// What is wrong with the words, or the first fault found.
pub fn perform<'a, H: Crew + Threads + Eprint + Copy + Sync>(
    rt: &HostRuntime,
    handle: &H,
    _sockets: Sockets,
    words: &'a [String],
) -> Result<Ended, Trouble<'a>> {
    match parse_args(rt.alloc(), words) {
        Ok(Request::Try { plan, channel }) => try_messages(rt, plan, channel),
        Ok(Request::Check { plan, verbose }) => check(rt, plan, verbose),
        Ok(Request::Ask { folder }) => ask_store(rt, folder),
        Ok(
            Request::Run {
                plan,
                keeping,
                connections,
                events,
                keep,
                idle,
                grace,
                show,
                answer_text,
                http,
                http_names,
            },
        ) => {
            let settings = Settings {
                plan: Origin::File(plan),
                connections,
                events,
                keep,
                idle,
                grace,
                show,
                answer_text: words_shown(rt, answer_text)?,
                http: http_settings(rt, http, http_names)?,
            };
            serve(rt, handle, plan, &settings, keeping)
        }
        Err(error) => print_help(rt, error),
    }
}

/// Prints on standard error why the program couldn't do what was requested, if it couldn't, and returns the exit status.
pub fn finish(rt: &HostRuntime, ended: Result<Ended, Trouble<'_>>) -> ExitCode
    ensures success { IfOk ended.entry (λ it. exit_status result ≡ ended_status it) }
    ensures failure { IfErr ended.entry (λ it. exit_status result ≡ trouble_status it) }
{
    match ended {
        Ok(ended) => ExitCode::from(ended.status()),
        Err(trouble) => {
            let _ = match &trouble {
                Trouble::Engine(Fault::Words(error)) => error.print(rt),
                trouble => eprintln!(rt; "{trouble}"),
            };
            ExitCode::from(trouble.status())
        }
    }
}
