//! The commands on standard input.

use crate::cancelling::{
    ask_cancel_waiting, do_cancel, do_cancel_all, do_cancel_at, do_cancel_through,
};
use crate::figures::Watch;
use crate::holding::{ask_links, do_hold, do_release};
use crate::origin::{PlanOrigin, ask_plan, ask_plan_text};
use crate::output::{answer, say};
use crate::questions::{
    ask_failed, ask_find, ask_message, ask_metrics, ask_status, ask_waiting, do_deploy, do_prune,
};
use crate::settings::Settings;
use crate::showing::{ask_show, ask_show_at, do_export};
use crate::supervision::say_notices;
use crate::workers::Workers;
use book_lock::Sharing;
use log::{Log, info};
use notify_socket::Notice;
use service_answers::echo_text;
use service_commands::{Command, HELP, Input, UNKNOWN, read_command, read_line};
use service_store::HoldsFile;
use service_workers::{Crew, Site, Stage, StandardInput, StopMode, has_ended, stop};
use std::alloc::AllocError;
use std::str;
use std::time::Duration;

/// The most bytes of a line that is a command.
const LINE_BYTES: usize = 4_096;

/// How many milliseconds one look at the workers waits, once no command can follow.
const LOOK_MILLIS: u64 = 100;

/// The answer to a command that changed the book, where the change may not survive a crash.
const NOT_DURABLE: &str =
    "refused: the store has failed, so the change may be lost when the process ends\n\n";

/// The answer to a command with a path that is no text.
const NO_TEXT: &str = "refused: the path is not UTF-8\n\n";

/// The line before the answer to a command that can't be shown.
const UNSHOWN: &str = "> ..\n";

/// Writes the line before an answer, which repeats the command.
fn echo<A: Sharing, H: Crew>(rt: &HostRuntime, site: &Site<'_, A, H>, line: &[u8]) {
    match echo_text(site.alloc, line) {
        Ok(text) => say(rt, &text),
        Err(AllocError) => say(rt, UNSHOWN),
    }
}

/// Prints the answer to a command that changed the book, once the change survives a crash, where there is a store.
fn answer_durable<A: Sharing, H: Crew>(
    rt: &HostRuntime,
    site: &Site<'_, A, H>,
    workers: &Workers<A>,
    text: Result<String, AllocError>,
) {
    if workers.operator.wait_durable(site) {
        answer(rt, text);
    } else {
        say(rt, NOT_DURABLE);
    }
}

/// Says something to the service manager, where there is one.
fn notify<A: Sharing, H: Crew>(site: &Site<'_, A, H>, workers: &Workers<A>, notice: Notice<'_>) {
    if let Some(manager) = &workers.manager {
        say_notices(site.alloc, manager, &[notice]);
    }
}

/// Puts the plan in a file in force, where the path is text, and prints the result.
fn deploy<A: Sharing, H: Crew>(
    rt: &HostRuntime,
    site: &Site<'_, A, H>,
    workers: &Workers<A>,
    origin: &mut PlanOrigin<'_>,
    path: &[u8],
) {
    match str::from_utf8(path) {
        Ok(path) => {
            notify(site, workers, Notice::Reloading);
            let deployed = do_deploy(rt, site, &workers.gates, origin, path);
            notify(site, workers, Notice::Ready);
            answer_durable(rt, site, workers, deployed);
        }
        Err(_) => say(rt, NO_TEXT),
    }
}

/// Writes the bytes of a message to a new file, where its path is text, and prints the result.
fn export<A: Sharing, H: Crew>(
    rt: &HostRuntime,
    site: &Site<'_, A, H>,
    settings: &Settings,
    number: u32,
    path: &[u8],
) {
    match str::from_utf8(path) {
        Ok(path) => answer(rt, do_export(rt, site, settings, number, path)),
        Err(_) => say(rt, NO_TEXT),
    }
}

/// Executes a command that forgets or cancels messages, and returns its answer.
///
/// # Errors
///
/// Where memory is refused, or the plan has more owners than can be counted.
fn change<A: Sharing, H: Crew>(
    site: &Site<'_, A, H>,
    command: Command<&[u8]>,
) -> Result<String, AllocError> {
    match command {
        Command::Prune => do_prune(site),
        Command::Cancel(number) => do_cancel(site, number),
        Command::CancelAll(number) => do_cancel_all(site, number),
        Command::CancelAt(number, name) => do_cancel_at(site, number, name),
        Command::CancelThrough(name, number) => do_cancel_through(site, name, number),
        _ => UNKNOWN.to_string(site.alloc),
    }
}

/// Executes a command, and prints its answer.
fn execute<A: Sharing, H: Crew>(
    rt: &HostRuntime,
    site: &Site<'_, A, H>,
    workers: &Workers<A>,
    settings: &Settings,
    watch: Watch<'_>,
    origin: &mut PlanOrigin<'_>,
    holds: Option<&HoldsFile>,
    command: Command<&[u8]>,
) {
    match command {
        Command::Status => answer(rt, ask_status(site, watch)),
        Command::Metrics => answer(rt, ask_metrics(site, watch)),
        Command::Message(number) => answer(rt, ask_message(site, number)),
        Command::Show(number) => answer(rt, ask_show(site, settings, number)),
        Command::ShowAt(number, name) => answer(rt, ask_show_at(site, settings, number, name)),
        Command::Export(number, path) => export(rt, site, settings, number, path),
        Command::Find(id) => answer(rt, ask_find(site, id)),
        Command::Waiting(name) => answer(rt, ask_waiting(site, name)),
        Command::Failed(name) => answer(rt, ask_failed(site, name)),
        Command::Hold(name) => answer(rt, do_hold(rt, site, holds, name)),
        Command::Release(name) => answer(rt, do_release(rt, site, holds, name)),
        Command::Links => answer(rt, ask_links(site)),
        Command::CancelWaiting(name) => answer(rt, ask_cancel_waiting(site, name)),
        Command::Plan => answer(rt, ask_plan(site, origin)),
        Command::PlanText => answer(rt, ask_plan_text(site)),
        Command::Deploy(path) => deploy(rt, site, workers, origin, path),
        Command::Prune
        | Command::Cancel(_)
        | Command::CancelAll(_)
        | Command::CancelAt(..)
        | Command::CancelThrough(..) => {
            answer_durable(rt, site, workers, change(site, command));
        }
        Command::Stop => begin_stop(rt, site, workers, StopMode::Drain, settings.grace),
        Command::StopNow => begin_stop(rt, site, workers, StopMode::Now, settings.grace),
        Command::Help => say(rt, HELP),
        Command::Unknown => say(rt, UNKNOWN),
    }
}

/// Begins to end all workers, and prints that.
fn begin_stop<A: Sharing, H: Crew>(
    rt: &HostRuntime,
    site: &Site<'_, A, H>,
    workers: &Workers<A>,
    mode: StopMode,
    grace: u32,
) {
    match mode {
        StopMode::Drain => info!(site.rt; "stopping once nothing waits for delivery"),
        StopMode::Now => info!(site.rt; "stopping now"),
    }
    say(rt, "stopping\n\n");
    let grace = Duration::from_secs(u64::from(grace));
    stop(site, &workers.gates, &workers.places, mode, grace);
}

/// Waits until all workers have ended.
fn wait_for_end<A: Sharing, H: Crew>(site: &Site<'_, A, H>) {
    for _ in site.rt.forever() {
        if site.stage() != Stage::Open && has_ended(site) {
            return;
        }
        site.rt.sleep(Duration::from_millis(LOOK_MILLIS));
    }
}

/// Obeys the commands on standard input, one after another, until the workers have ended. Where no command can follow any more,
/// it waits for that. Where there is a store, its file keeps the names of the destinations that are held.
pub(crate) fn execute_all<A: Sharing, H: Crew>(
    rt: &HostRuntime,
    site: &Site<'_, A, H>,
    workers: &Workers<A>,
    settings: &Settings,
    watch: Watch<'_>,
    holds: Option<&HoldsFile>,
) {
    let mut reader = StandardInput::new(site, rt.stdin());
    let mut line = [0u8; LINE_BYTES];
    let mut origin = PlanOrigin::new(settings, watch.started);
    for _ in site.rt.forever() {
        match read_line(&mut reader, &mut line) {
            Ok(Input::Line(len)) => {
                echo(rt, site, &line[..len]);
                let command = read_command(&line[..len]);
                execute(
                    rt,
                    site,
                    workers,
                    settings,
                    watch,
                    &mut origin,
                    holds,
                    command,
                );
            }
            Ok(Input::TooLong) => {
                say(rt, UNSHOWN);
                say(rt, UNKNOWN);
            }
            Ok(Input::End) | Err(_) => return wait_for_end(site),
        }
    }
}
