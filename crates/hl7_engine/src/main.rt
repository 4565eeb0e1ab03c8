//! An HL7 v2.5.1 interface engine: it answers the messages of one connection, from standard input to standard output,
//! serves and delivers by a plan over TCP, and checks plans.
#![tactic(auto)]

ghost use Rattle.std.specs.Prelude.{◌≡◌, IfErr, OnOk};
ghost use Rattle.std.specs.Process.{exit_status};
ghost use Rattle.engine_report.specs.Ending.{status_of};

mod commands;
mod handle;

use commands::execute;
use engine_report::{Fault, open_standard, parse_args};
use handle::Handle;
use std::env;
use std::io::ErrorKind;
use std::marker::PhantomData;
use std::net::{TcpListener, TcpStream};
use std::process::ExitCode;

/// The sockets that the program listens and connects by, for a parameter that makes them known where `main` calls: the
/// bounds of `Handle` name them, and no value that `main` has is of their types.
type Sockets = PhantomData<(TcpListener, TcpStream)>;

/// The words of the command line, of which the first is the program's name.
fn words_given<'a>(rt: &HostRuntime) -> Result<Vec<String>, Fault<'a>> {
    match env::args(rt) {
        Ok(words) => Ok(words.collect(rt.alloc())?),
        Err(error) if error.kind() == ErrorKind::OutOfMemory => Err(Fault::Memory),
        Err(_) => Err(Fault::NoText),
    }
}

/// Prints the help or the version that was requested, which is a success, or passes on what is wrong with the words.
fn print_help<'a>(rt: &HostRuntime, error: clap::Error) -> Result<(), Fault<'a>> {
    if error.use_stderr() {
        Err(Fault::from(error))
    } else {
        error.print(rt).map_err(|_| Fault::Write)
    }
}

/// Does what the words request.
fn perform<'a, H: Handle + Eprint>(
    rt: &HostRuntime,
    handle: &H,
    _sockets: Sockets,
    words: &'a [String],
) -> Result<(), Fault<'a>> {
    match parse_args(rt.alloc(), words) {
        Ok(request) => execute(rt, handle, &request),
        Err(error) => print_help(rt, error),
    }
}

/// Prints the fault, if there is one, on standard error, and returns the exit status.
fn finish(rt: &HostRuntime, ended: Result<(), Fault<'_>>) -> ExitCode
    ensures success { OnOk ended.entry (exit_status result ≡ 0) }
    ensures failure { IfErr ended.entry (λ fault. exit_status result ≡ status_of fault) }
{
    let Err(fault) = ended else {
        return ExitCode::SUCCESS;
    };
    let _ = match &fault {
        Fault::Words(error) => error.print(rt),
        fault => eprintln!(rt; "{fault}"),
    };
    ExitCode::from(fault.status())
}

fn main(rt: HostRuntime) -> ExitCode {
    if let Err(fault) = open_standard(&rt) {
        return finish(&rt, Err(fault));
    }
    match words_given(&rt) {
        Ok(words) => finish(&rt, perform(&rt, &rt, PhantomData, &words)),
        Err(fault) => finish(&rt, Err(fault)),
    }
}
