//! The page: what a person on duty sees of the service at a glance. It has no script, no form and nothing that is loaded from
//! elsewhere, and is loaded again every ten seconds.

ghost use Rattle.std.specs.Prelude.{◌<◌};

use crate::levels::{
    Level, arrivals_level, behind_of, book_level, channel_level, destination_level, front_of,
    is_behind, is_cut_off, is_fresh, is_paused, is_refusing, is_taken, level_of, percent_level,
    plan_level, queue_level, remembered, remembered_level, store_level, used,
};
use crate::view::{Phase, View};
use fixed_numbers::{DEPLOYMENTS_MAX, PRUNINGS_MAX};
use service_answers::Utc;
use service_http::Document;
use std::alloc::{AllocError, Global};

/// The head of the page before its title.
const HEAD: &str =
    "<!DOCTYPE html>\n<html lang=\"en\"><head><meta charset=\"utf-8\"><meta name=\"viewport\" content=\"width=device-width,initial-scale=1\"><meta http-equiv=\"refresh\" content=\"10\"><link rel=\"icon\" href=\"data:,\"><title>";

/// The head of the page behind its title.
const STYLE: &str = "</title><style>
:root{color-scheme:light dark;--back:#f5f6f7;--card:#fff;--ink:#1b1f23;--soft:#57606a;--line:#d8dee4;--ok:#0b6b3a;--okb:#dff3e6;--look:#7a4d00;--lookb:#fff0c7;--act:#9b1616;--actb:#fde3e3}
@media(prefers-color-scheme:dark){:root{--back:#14171a;--card:#1d2126;--ink:#e8eaed;--soft:#a3abb3;--line:#353b42;--ok:#7fdca4;--okb:#153524;--look:#ffd479;--lookb:#3d2f0c;--act:#ff9c9c;--actb:#481a1a}}
*{box-sizing:border-box}
body{margin:0 auto;padding:1rem;max-width:68rem;background:var(--back);color:var(--ink);font:16px/1.45 system-ui,'DejaVu Sans',sans-serif}
.top{border-radius:.5rem;padding:.8rem 1.1rem;border-left:.6rem solid}
.top h1{margin:0;font-size:1.6rem}.top p,.top ul{margin:.3rem 0 0}.top ul{padding-left:1.2rem}.top li{margin:.25rem 0;color:var(--ink)}.top p{color:var(--ink)}
.ok{color:var(--ok);background:var(--okb)}.look{color:var(--look);background:var(--lookb)}.act{color:var(--act);background:var(--actb)}
h2{font-size:1.1rem;margin:1.4rem 0 .4rem}
table{width:100%;border-collapse:collapse;background:var(--card);border:1px solid var(--line);border-radius:.5rem;font-variant-numeric:tabular-nums}
th,td{text-align:left;padding:.45rem .7rem;border-top:1px solid var(--line);vertical-align:top}
thead th{border-top:0;color:var(--soft);font-weight:500;font-size:.85rem}
tbody th{font-weight:600;overflow-wrap:anywhere}
.n{text-align:right}.pill{display:inline-block;border-radius:1rem;padding:.05rem .7rem;font-weight:600;white-space:nowrap}
small{color:var(--soft);display:block;font-weight:400;white-space:nowrap}a{color:inherit}
.bar{height:1.1rem;border-radius:.55rem;background:var(--line);overflow:hidden}.bar i{display:block;height:100%;background:currentColor}
.box{background:var(--card);border:1px solid var(--line);border-radius:.5rem;padding:.7rem}
footer{color:var(--soft);margin-top:1.4rem;font-size:.9rem}
@media(max-width:42rem){body{padding:.6rem}thead{display:none}tr{display:block;border-top:1px solid var(--line);padding:.4rem 0}tr:first-child{border-top:0}tbody th{display:block;border:0;font-size:1.1rem;padding:.2rem .7rem}td{display:flex;justify-content:space-between;gap:1rem;border:0;padding:.15rem .7rem;text-align:right}td:before{content:attr(data-l);color:var(--soft);text-align:left}.n{text-align:right}}
</style></head><body>
";

/// Adds a duration, in the largest of seconds, minutes, hours and days of which it has enough.
fn add_span(document: &mut Document, seconds: u64) -> Result<(), AllocError> {
    if seconds < 120 {
        document.number(seconds)?;
        document.markup(" s")
    } else if seconds < 7_200 {
        document.number(seconds / 60)?;
        document.markup(" min")
    } else if seconds < 172_800 {
        document.number(seconds / 3_600)?;
        document.markup(" h ")?;
        document.number(seconds % 3_600 / 60)?;
        document.markup(" min")
    } else {
        document.number(seconds / 86_400)?;
        document.markup(" days")
    }
}

/// Adds a moment in UTC.
fn add_utc(alloc: Global, document: &mut Document, moment: u64) -> Result<(), AllocError> {
    let text = format!(in alloc; "{}", Utc(moment))?;
    document.text(&text)
}

/// Adds how long ago a moment was, with the moment below, or that there was none.
fn add_ago(
    alloc: Global,
    document: &mut Document,
    now: u64,
    moment: u64,
) -> Result<(), AllocError> {
    if moment == 0 {
        return document.markup("never");
    }
    document.markup("<span>")?;
    add_span(&mut *document, now.saturating_sub(moment))?;
    document.markup(" ago<small>")?;
    add_utc(alloc, &mut *document, moment)?;
    document.markup("</small></span>")
}

/// Adds the sentence about a destination that can't be reached though messages wait for it.
fn add_cut_off(
    document: &mut Document,
    view: &View<'_>,
    index: u32,
    name: &str,
    address: &str,
) -> Result<(), AllocError>
    requires { index < 32 }
{
    let counts = view.status.counts.destination(index);
    document.markup("<li><b>")?;
    document.text(name)?;
    document.markup("</b> can't be reached: there is no connection to ")?;
    document.text(address)?;
    document.markup(", and ")?;
    document.number(counts.waiting.saturating_add(counts.inflight))?;
    document.markup(" wait for it")?;
    if let Some((number, _, waited)) = front_of(view, index) {
        document.markup(", message ")?;
        document.number(u64::from(number))?;
        document.markup(" first for ")?;
        add_span(&mut *document, waited)?;
    }
    document.markup(".</li>")
}

/// Adds the sentences about a destination at the top of the page.
fn add_destination_news(
    document: &mut Document,
    view: &View<'_>,
    index: u32,
    name: &str,
    address: &str,
) -> Result<(), AllocError>
    requires { index < 32 }
{
    if view.figures.is_held(index) {
        document.markup("<li><b>")?;
        document.text(name)?;
        document.markup("</b> is held: what it would be sent waits until it is released.</li>")?;
    } else if is_cut_off(view, index) {
        add_cut_off(&mut *document, view, index, name, address)?;
    } else if is_behind(view, index) {
        document.markup("<li><b>")?;
        document.text(name)?;
        document.markup("</b> is behind: a message that was received ")?;
        add_span(&mut *document, behind_of(view, index))?;
        document.markup(" ago still waits. Does the receiver at ")?;
        document.text(address)?;
        document.markup(" answer, and fast enough?</li>")?;
    } else if let Some((number, failed, waited)) = front_of(view, index)
        && queue_level(view, index) > Level::Fine
    {
        document.markup("<li><b>")?;
        document.text(name)?;
        document.markup("</b> doesn't take message ")?;
        document.number(u64::from(number))?;
        document.markup(": it is first in the queue for ")?;
        add_span(&mut *document, waited)?;
        document.markup(", ")?;
        document.number(u64::from(failed))?;
        document.markup(" attempts failed. Does the receiver at ")?;
        document.text(address)?;
        document.markup(" take connections, and does it answer?</li>")?;
    }
    if is_fresh(view, index) {
        document.markup("<li><b>")?;
        document.text(name)?;
        document.markup("</b>: a message failed ")?;
        add_span(
            &mut *document,
            view.figures.now.saturating_sub(view.watch.failed_at(index)),
        )?;
        document.markup(" ago and won't be sent again.</li>")?;
    }
    Ok(())
}

/// Adds why a channel is paused.
fn add_pause(document: &mut Document, view: &View<'_>) -> Result<(), AllocError> {
    if remembered(view) < 100 {
        return document.markup("what waits for one of its destinations may take half of the book");
    }
    document.markup("as many messages are remembered as may be")?;
    let Some(number) = view.status.first_live else {
        return Ok(());
    };
    document.markup(", and none is forgotten while message ")?;
    document.number(u64::from(number))?;
    document.markup(" waits")?;
    for index in 0..view.plan.destinations() {
        if let Some((front, _, _)) = front_of(view, index)
            && front == number
            && let Some(destination) = view.plan.destination(index)
        {
            document.markup(" for <b>")?;
            document.text(destination.name())?;
            return document.markup("</b>");
        }
    }
    Ok(())
}

/// Adds the sentences about a channel at the top of the page.
fn add_channel_news(
    document: &mut Document,
    view: &View<'_>,
    index: u32,
    name: &str,
) -> Result<(), AllocError>
    requires { index < 64 }
{
    if is_paused(view, index) {
        document.markup("<li>Channel <b>")?;
        document.text(name)?;
        document.markup("</b> is paused, and its senders wait: ")?;
        add_pause(&mut *document, view)?;
        document.markup(".</li>")?;
    }
    if is_taken(view, index) {
        document.markup("<li>All connections of channel <b>")?;
        document.text(name)?;
        document.markup("</b> are taken: further senders wait unanswered.</li>")?;
    }
    if is_refusing(view, index) {
        document.markup("<li>Channel <b>")?;
        document.text(name)?;
        document.markup(
            "</b> refused messages by their content in the last 15 minutes: the log says why.</li>",
        )?;
    }
    Ok(())
}

/// Adds the sentences about the store, the book and the arrivals at the top of the page.
fn add_inner_news(document: &mut Document, view: &View<'_>) -> Result<(), AllocError> {
    match store_level(view) {
        Level::Fine => {}
        Level::Look => document.markup(
            "<li>The store is slow: its commits took more than 0.1 seconds in the last 15 minutes.</li>",
        )?,
        Level::Act => document.markup(
            "<li>The disk of the store has no room: nothing is acknowledged until it has.</li>",
        )?,
    }
    if book_level(view) > Level::Fine {
        document.markup(
            "<li>The book runs full, or few prunings or plans are left: see below.</li>",
        )?;
    }
    if plan_level(view) > Level::Fine {
        document.markup(
            "<li>The plan of the command line is not taken: the one in the store is in force. The log of the start says why.</li>",
        )?;
    }
    if arrivals_level(view) > Level::Fine {
        document.markup(
            "<li>Messages were not booked, or blocks dropped, in the last 15 minutes: their senders have to send again. The log says why.</li>",
        )?;
    }
    Ok(())
}

/// Adds a sentence for each thing that needs attention.
fn add_news(document: &mut Document, view: &View<'_>) -> Result<(), AllocError> {
    document.markup("<ul>")?;
    if view.phase != Phase::Open {
        document.markup("<li>The service is stopping: no channel is read.</li>")?;
    }
    view.plan.rules();
    for index in 0..view.plan.channels() {
        if let Some(channel) = view.plan.channel(index) {
            add_channel_news(&mut *document, view, index, channel.name())?;
        }
    }
    for index in 0..view.plan.destinations() {
        if let Some(destination) = view.plan.destination(index) {
            let (name, address) = (destination.name(), destination.address());
            add_destination_news(&mut *document, view, index, name, address)?;
        }
    }
    add_inner_news(&mut *document, view)?;
    document.markup("</ul>")
}

/// Adds the top of the page: the verdict, and a sentence for each thing that needs attention.
fn add_top(document: &mut Document, view: &View<'_>, level: Level) -> Result<(), AllocError> {
    document.markup("<div class=\"top ")?;
    document.markup(level.class())?;
    document.markup(match level {
        Level::Fine =>
            "\"><h1>&#10003; All is well</h1><p>Each channel takes messages, and each destination for which messages wait can be reached and keeps none waiting for 10 seconds. No message failed in the last hour, and none was refused or lost in the last 15 minutes.</p>",
        Level::Look => "\"><h1>! Look at this</h1>",
        Level::Act => "\"><h1>&#10007; Act now</h1>",
    })?;
    if level > Level::Fine {
        add_news(&mut *document, view)?;
    }
    document.markup("</div>\n")
}

/// Adds a word with the colours of a level.
fn add_pill(document: &mut Document, level: Level, word: &'static str) -> Result<(), AllocError> {
    document.markup("<span class=\"pill ")?;
    document.markup(level.class())?;
    document.markup("\">")?;
    document.markup(word)?;
    document.markup("</span>")
}

/// Adds a cell with a number.
fn add_count(document: &mut Document, label: &'static str, number: u64) -> Result<(), AllocError> {
    document.markup("<td class=\"n\" data-l=\"")?;
    document.markup(label)?;
    document.markup("\">")?;
    document.number(number)?;
    document.markup("</td>")
}

/// The word for how a channel does.
fn channel_word(view: &View<'_>, index: u32) -> &'static str
    requires { index < 64 }
{
    if is_paused(view, index) {
        "paused"
    } else if view.phase != Phase::Open {
        "stopping"
    } else if is_taken(view, index) {
        "all connections taken"
    } else if is_refusing(view, index) {
        "refused some"
    } else {
        "takes messages"
    }
}

/// Adds the channels.
fn add_channels(alloc: Global, document: &mut Document, view: &View<'_>) -> Result<(), AllocError> {
    document.markup(
        "<h2>Channels: does each take messages?</h2><table><thead><tr><th>Channel<th>State<th>Last message<th class=\"n\">Accepted<th class=\"n\">Filtered<th class=\"n\">Refused<th class=\"n\">Repeats</tr></thead><tbody>\n",
    )?;
    view.plan.rules();
    for index in 0..view.plan.channels() {
        let Some(channel) = view.plan.channel(index) else {
            break;
        };
        let counts = view.status.counts.channel(index);
        document.markup("<tr><th scope=\"row\">")?;
        document.text(channel.name())?;
        document.markup("<small>")?;
        document.text(channel.listen())?;
        document.markup("</small></th><td data-l=\"State\">")?;
        let level = channel_level(view, index);
        let word = channel_word(view, index);
        add_pill(&mut *document, level, word)?;
        document.markup("</td><td data-l=\"Last message\">")?;
        add_ago(
            alloc,
            &mut *document,
            view.figures.now,
            view.figures.received(index),
        )?;
        document.markup("</td>")?;
        add_count(&mut *document, "Accepted", counts.accepted)?;
        add_count(&mut *document, "Filtered", counts.filtered)?;
        add_count(&mut *document, "Refused", counts.refused)?;
        add_count(&mut *document, "Repeats", counts.repeats)?;
        document.markup("</tr>\n")?;
    }
    document.markup("</tbody></table>\n")
}

/// The word for how a destination does.
fn destination_word(view: &View<'_>, index: u32) -> &'static str
    requires { index < 32 }
{
    if view.figures.is_held(index) {
        return "held";
    }
    if is_cut_off(view, index) {
        return "can't be reached";
    }
    match front_of(view, index) {
        None if is_fresh(view, index) => "a message failed",
        None if view.figures.delivered(index) == 0 => "nothing to do yet",
        None => "has all",
        Some(_) => match queue_level(view, index) {
            Level::Fine => "sends",
            Level::Look => "slow",
            Level::Act => "doesn't deliver",
        },
    }
}

/// Adds what waits for a destination, and since when.
fn add_waiting(
    alloc: Global,
    document: &mut Document,
    view: &View<'_>,
    index: u32,
    name: &str,
    waiting: u64,
) -> Result<(), AllocError> {
    let Some((number, failed, _)) = front_of(view, index) else {
        return document.markup("nothing");
    };
    document.markup("<span><b>")?;
    document.number(waiting)?;
    document.markup("</b><small>message <a href=\"/messages/")?;
    document.number(u64::from(number))?;
    document.markup("\">")?;
    document.number(u64::from(number))?;
    document.markup("</a> first</small><small>since ")?;
    add_utc(alloc, &mut *document, view.watch.since(index))?;
    document.markup("</small><small>")?;
    document.number(u64::from(failed))?;
    document.markup(" attempts failed; <a href=\"/destinations/")?;
    document.text(name)?;
    document.markup("/waiting\">all that waits</a></small></span>")
}

/// Adds how many messages failed at a destination, and when that number was last seen to rise.
fn add_failure(
    alloc: Global,
    document: &mut Document,
    view: &View<'_>,
    index: u32,
    name: &str,
    failed: u64,
) -> Result<(), AllocError> {
    if failed == 0 {
        return document.markup("0");
    }
    document.markup("<span><b>")?;
    document.number(failed)?;
    document.markup("</b>")?;
    let moment = view.watch.failed_at(index);
    if moment > 0 {
        document.markup("<small>last ")?;
        add_span(&mut *document, view.figures.now.saturating_sub(moment))?;
        document.markup(" ago</small><small>")?;
        add_utc(alloc, &mut *document, moment)?;
        document.markup("</small>")?;
    }
    document.markup("<small><a href=\"/destinations/")?;
    document.text(name)?;
    document.markup("/failed\">the last that failed</a></small></span>")
}

/// Adds the destinations.
fn add_destinations(
    alloc: Global,
    document: &mut Document,
    view: &View<'_>,
) -> Result<(), AllocError> {
    document.markup(
        "<h2>Destinations: does each deliver, and what waits?</h2><table><thead><tr><th>Destination<th>State<th>Waiting<th>Last delivery<th class=\"n\">Delivered<th>Failed</tr></thead><tbody>\n",
    )?;
    view.plan.rules();
    for index in 0..view.plan.destinations() {
        let Some(destination) = view.plan.destination(index) else {
            break;
        };
        let counts = view.status.counts.destination(index);
        let name = destination.name();
        document.markup("<tr><th scope=\"row\">")?;
        document.text(name)?;
        document.markup("<small>")?;
        document.text(destination.address())?;
        document.markup("</small></th><td data-l=\"State\">")?;
        add_pill(
            &mut *document,
            destination_level(view, index),
            destination_word(view, index),
        )?;
        document.markup("</td><td data-l=\"Waiting\">")?;
        let waiting = counts.waiting.saturating_add(counts.inflight);
        add_waiting(alloc, &mut *document, view, index, name, waiting)?;
        document.markup("</td><td data-l=\"Last delivery\">")?;
        add_ago(
            alloc,
            &mut *document,
            view.figures.now,
            view.figures.delivered(index),
        )?;
        document.markup("</td>")?;
        add_count(&mut *document, "Delivered", counts.delivered)?;
        document.markup("<td data-l=\"Failed\">")?;
        add_failure(alloc, &mut *document, view, index, name, counts.failed)?;
        document.markup("</td></tr>\n")?;
    }
    document.markup("</tbody></table>\n")
}

/// Adds a bar of a percentage.
fn add_bar(document: &mut Document, level: Level, percent: u64) -> Result<(), AllocError> {
    document.markup("<div class=\"bar\" style=\"color:var(--")?;
    document.markup(level.class())?;
    document.markup(")\"><i style=\"width:")?;
    document.number(percent)?;
    document.markup("%\"></i></div><b>")?;
    document.number(percent)?;
    document.markup(" %</b> ")
}

/// Adds how full the book is.
fn add_book(document: &mut Document, view: &View<'_>) -> Result<(), AllocError> {
    let gauge = view.status.gauge;
    document.markup("<h2>Book: how full is it?</h2><div class=\"box\">")?;
    add_bar(&mut *document, percent_level(used(view)), used(view))?;
    document.markup("of the entries: ")?;
    document.number(gauge.held as u64)?;
    document.markup(" held and ")?;
    document.number(u64::from(gauge.owed))?;
    document.markup(" owed of ")?;
    document.number(u64::from(gauge.events_max))?;
    document.markup(".<p></p>")?;
    add_bar(&mut *document, remembered_level(view), remembered(view))?;
    document.markup("of the messages that may be remembered: ")?;
    document.number(u64::from(gauge.remembered()))?;
    document.markup(" of ")?;
    document.number(u64::from(view.figures.keep).saturating_add(u64::from(gauge.events_max)))?;
    document.markup("; ")?;
    document.number(u64::from(gauge.messages))?;
    document.markup(" accepted since the start.<p></p>Prunings left: ")?;
    document.number(u64::from(PRUNINGS_MAX.saturating_sub(gauge.prunings)))?;
    document.markup("; plans that can still be deployed: ")?;
    document.number(u64::from(DEPLOYMENTS_MAX.saturating_sub(gauge.deployments)))?;
    document.markup(".</div>\n")
}

/// Adds the connections, and what wasn't booked or answered.
fn add_rest(document: &mut Document, view: &View<'_>) -> Result<(), AllocError> {
    let figures = view.figures;
    document.markup(
        "<h2>Connections, and what was turned away since the start</h2><div class=\"box\"><b>",
    )?;
    document.number(u64::from(figures.open))?;
    document.markup("</b> connections of senders open, ")?;
    document.number(u64::from(view.status.gauge.admitted))?;
    document.markup(" taken, ")?;
    document.number(figures.refused)?;
    document.markup(" refused. Answered as not booked: ")?;
    document.number(figures.unbooked.full)?;
    document.markup(" book full, ")?;
    document.number(figures.unbooked.plan_changed)?;
    document.markup(" plan changed, ")?;
    document.number(figures.unbooked.no_memory)?;
    document.markup(" no memory. Dropped without an answer: ")?;
    document.number(figures.dropped.unreadable)?;
    document.markup(" unreadable, ")?;
    document.number(figures.dropped.acknowledgments)?;
    document.markup(" acknowledgments, ")?;
    document.number(figures.dropped.broken)?;
    document.markup(" broken.</div>\n")
}

/// The page.
///
/// # Errors
///
/// Where memory is refused.
pub fn status_page(alloc: Global, view: &View<'_>) -> Result<Vec<u8>, AllocError> {
    let level = level_of(view);
    let mut document = Document::new(alloc);
    document.markup(HEAD)?;
    document.markup(match level {
        Level::Fine => "OK: HL7 service",
        Level::Look => "LOOK: HL7 service",
        Level::Act => "ACT: HL7 service",
    })?;
    document.markup(STYLE)?;
    add_top(&mut document, view, level)?;
    add_destinations(alloc, &mut document, view)?;
    add_channels(alloc, &mut document, view)?;
    add_book(&mut document, view)?;
    add_rest(&mut document, view)?;
    document.markup("<footer>Seen at ")?;
    add_utc(alloc, &mut document, view.figures.now)?;
    document.markup("; renewed every 10 seconds. Running for ")?;
    add_span(
        &mut document,
        view.figures.now.saturating_sub(view.figures.started),
    )?;
    document.markup(", since ")?;
    add_utc(alloc, &mut document, view.figures.started)?;
    document.markup(
        ". <a href=\"/status\">status</a> <a href=\"/status.json\">JSON</a> <a href=\"/metrics\">metrics</a></footer></body></html>\n",
    )?;
    Ok(document.into_bytes())
}
