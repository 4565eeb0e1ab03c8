//! What answers requests.

use crate::counting::Counting;
use crate::credit::Credit;
use crate::probes::{health, readiness};
use crate::searches::{Failures, destination_named, failures_at, numbers_meant, queued};
use book_lock::{Found, Sharing, Status as BookStatus};
use httparse::spans::EMPTY_HEADER_SPAN;
use plan_text::Plan;
use service_answers::{Figures, Listed, ListedFailure, SHOWN_MAX, metrics_text, status_text};
use service_http::{
    Answer, FIELDS_MAX, HEAD_BYTES, Kind, Request, Status, Target, percent_decoded, read_request,
    target_of,
};
use service_pages::{
    Phase, View, Watch, failed_json, found_json, message_json, status_json, status_page,
    waiting_json,
};
use service_workers::{Crew, Site, Stage};
use std::alloc::AllocError;
use std::sync::Arc;

/// For how long one look at the book serves, in milliseconds.
const SERVES_MILLIS: u64 = 50;

/// After how many milliseconds the book is looked at where nothing is asked.
const WATCH_MILLIS: u64 = 1_000;

/// The answer about a destination that the plan doesn't have.
const NO_DESTINATION: &str = "the plan has no destination of that name";

/// What was seen of the service.
#[derive(Drop)]
struct Seen {
    /// When, in milliseconds of the monotonic clock.
    at: u64,
    status: BookStatus,
    plan: Arc<Plan>,
    figures: Figures,
}

/// What answers requests.
#[derive(Drop)]
pub(crate) struct Responder<'s, 'x, A: Sharing, H, C> {
    pub(crate) site: &'s Site<'x, A, H>,
    /// The names of hosts for which requests are answered.
    names: &'s [String],
    counting: C,
    watch: Watch,
    seen: Option<Seen>,
    credit: Credit,
}

/// The time of the monotonic clock in milliseconds; 0 where it can't be read.
pub(crate) fn millis<H: Crew>(rt: &H) -> u64 {
    match rt.monotonic() {
        Ok(time) => u64::try_from(time.as_millis()).unwrap_or(u64::MAX),
        Err(_) => 0,
    }
}

/// How far the end of the service is, as the page shows it.
fn phase_of(stage: Stage) -> Phase {
    match stage {
        Stage::Open => Phase::Open,
        Stage::Closing => Phase::Closing,
        Stage::Halted => Phase::Halted,
    }
}

/// A document in JSON as an answer.
fn json(status: Status, body: Vec<u8>) -> Answer {
    Answer {
        status,
        kind: Kind::Json,
        body,
    }
}

impl<'s, 'x, A: Sharing, H: Crew, C: Counting> Responder<'s, 'x, A, H, C> {
    /// What answers requests for the hosts of these names.
    pub(crate) fn new(site: &'s Site<'x, A, H>, names: &'s [String], counting: C) -> Self {
        Responder {
            site,
            names,
            counting,
            watch: Watch::new(),
            seen: None,
            credit: Credit::new(millis(site.rt)),
        }
    }

    /// Looks at the service, where the last look was `older` milliseconds ago or more. Where memory is refused, what was seen before
    /// stays.
    fn look_after(&mut self, older: u64) {
        let at = millis(self.site.rt);
        if let Some(seen) = &self.seen
            && at.saturating_sub(seen.at) < older
        {
            return;
        }
        let Ok((status, plan)) = self.site.shared.status(self.site.rt) else {
            return;
        };
        let figures = self.counting.figures();
        self.watch.look(&status, &figures);
        self.seen = Some(Seen {
            at,
            status,
            plan,
            figures,
        });
    }

    /// Looks at the service, where the last look was a second ago or more.
    pub(crate) fn watch(&mut self) {
        self.look_after(WATCH_MILLIS);
    }

    /// An answer made of what is seen of the service.
    fn shown(&mut self, target: Target<&[u8]>) -> Result<Answer, AllocError> {
        self.look_after(SERVES_MILLIS);
        let alloc = self.site.alloc;
        let Some(seen) = &self.seen else {
            return Err(AllocError);
        };
        let Seen {
            status,
            plan,
            figures,
            ..
        } = seen;
        let view = View {
            plan,
            status,
            figures,
            watch: &self.watch,
            phase: phase_of(self.site.stage()),
        };
        match target {
            Target::Metrics => {
                let text = metrics_text(alloc, plan, status, figures)?;
                Ok(Answer::of_text(Status::Ok, Kind::Metrics, text))
            }
            Target::Status => {
                let text = status_text(alloc, plan, status, figures)?;
                Ok(Answer::of_text(Status::Ok, Kind::Text, text))
            }
            Target::StatusJson => Ok(json(Status::Ok, status_json(alloc, &view)?)),
            _ => Ok(Answer {
                status: Status::Ok,
                kind: Kind::Html,
                body: status_page(alloc, &view)?,
            }),
        }
    }

    /// A line of text as an answer.
    fn line(&self, status: Status, text: &str) -> Result<Answer, AllocError> {
        Answer::line(self.site.alloc, status, text)
    }

    /// Whether all that delivers works, or ends in order.
    fn health(&self) -> Result<Answer, AllocError> {
        match health(self.site.stage(), self.site.posts()) {
            Status::Ok => self.line(Status::Ok, "ok"),
            status => self.line(status, "a thread that delivers has ended"),
        }
    }

    /// Whether messages are taken.
    fn readiness(&self) -> Result<Answer, AllocError> {
        match readiness(self.site.stage()) {
            Status::Ok => self.line(Status::Ok, "ready"),
            status => self.line(status, "stopping"),
        }
    }

    /// Where a message is.
    fn message(&self, number: u32) -> Result<Answer, AllocError> {
        let plan = self.site.shared.plan(self.site.rt)?;
        let found = self.site.shared.message(self.site.rt, number)?;
        let status = match found {
            Found::ToCome => Status::NotFound,
            Found::Forgotten => Status::Gone,
            Found::Kept(_) => Status::Ok,
        };
        let body = message_json(self.site.alloc, &plan, number, &found)?;
        Ok(json(status, body))
    }

    /// The messages with a control id, as received or as the log shows it.
    fn found(&self, id: &[u8]) -> Result<Answer, AllocError> {
        let numbers = numbers_meant(self.site, id)?;
        Ok(json(Status::Ok, found_json(self.site.alloc, &numbers)?))
    }

    /// What waits for the destination of a name.
    fn waiting(&self, name: &[u8]) -> Result<Answer, AllocError> {
        let (status, plan) = self.site.shared.status(self.site.rt)?;
        let Some(index) = destination_named(&plan, name) else {
            return self.line(Status::NotFound, NO_DESTINATION);
        };
        let Some(destination) = plan.destination(index) else {
            return self.line(Status::NotFound, NO_DESTINATION);
        };
        let counts = status.counts.destination(index);
        let all = counts.waiting.saturating_add(counts.inflight);
        let mut listed = Vec::new(self.site.alloc);
        for front in queued(self.site, index, SHOWN_MAX)? {
            let found = self.site.shared.message(self.site.rt, front.number)?;
            // No text of an answer is shown over HTTP.
            let note = None;
            listed.push(Listed { front, found, note })?;
        }
        let body = waiting_json(self.site.alloc, destination.name(), &listed, all)?;
        Ok(json(Status::Ok, body))
    }

    /// What failed at the destination of a name.
    fn failed(&self, name: &[u8]) -> Result<Answer, AllocError> {
        let plan = self.site.shared.plan(self.site.rt)?;
        let Some(index) = destination_named(&plan, name) else {
            return self.line(Status::NotFound, NO_DESTINATION);
        };
        let Some(destination) = plan.destination(index) else {
            return self.line(Status::NotFound, NO_DESTINATION);
        };
        let Failures { newest, remembered } = failures_at(self.site, index)?;
        let mut listed = Vec::new(self.site.alloc);
        for failure in newest {
            let found = self.site.shared.message(self.site.rt, failure.number)?;
            let note = None;
            listed.push(ListedFailure {
                failure,
                found,
                note,
            })?;
        }
        let (status, _plan) = self.site.shared.status(self.site.rt)?;
        let all = status.counts.destination(index).failed;
        let name = destination.name();
        let body = failed_json(self.site.alloc, name, &listed, remembered, all)?;
        Ok(json(Status::Ok, body))
    }

    /// What is searched for in the book by a text of the target, unless searches have taken more than their share of the time.
    fn searched(&mut self, target: Target<&[u8]>, text: &[u8]) -> Result<Answer, AllocError> {
        let start = millis(self.site.rt);
        if !self.credit.may_begin(start) {
            return self.line(
                Status::Unavailable,
                "searches have taken too much of the time",
            );
        }
        let Some(meant) = percent_decoded(self.site.alloc, text)? else {
            return self.line(
                Status::BadRequest,
                "a % needs two hexadecimal digits behind it",
            );
        };
        let answer = match target {
            Target::Find(_) => self.found(&meant),
            Target::Failed(_) => self.failed(&meant),
            _ => self.waiting(&meant),
        };
        let end = millis(self.site.rt);
        self.credit.spend(end.saturating_sub(start));
        answer
    }

    /// The answer to a request for a target.
    fn answer(&mut self, target: &[u8]) -> Result<Answer, AllocError> {
        let asked = target_of(target);
        match asked {
            Target::Health => self.health(),
            Target::Ready => self.readiness(),
            Target::Message(number) => self.message(number),
            Target::Find(text) | Target::Waiting(text) | Target::Failed(text) => self.searched(
                asked, text,
            ),
            Target::Nothing => self.line(Status::NotFound, "there is nothing here"),
            Target::Page | Target::Metrics | Target::Status | Target::StatusJson => self.shown(
                asked,
            ),
        }
    }

    /// The answer to a request for a target, or that memory was refused for it.
    fn answered(&mut self, target: &[u8]) -> Result<Answer, AllocError> {
        match self.answer(target) {
            Ok(answer) => Ok(answer),
            Err(AllocError) => self.line(Status::Unavailable, "out of memory"),
        }
    }

    /// The bytes of the answer that refuses a request.
    pub(crate) fn refusal(&self, status: Status) -> Result<Vec<u8>, AllocError> {
        let alloc = self.site.alloc;
        Answer::refusal(alloc, status)?.bytes(alloc, true)
    }

    /// The bytes of the answer to what a connection sent; none where it isn't a whole request yet.
    pub(crate) fn reply(&mut self, input: &[u8]) -> Result<Option<Vec<u8>>, AllocError> {
        let alloc = self.site.alloc;
        let mut fields = [EMPTY_HEADER_SPAN; FIELDS_MAX];
        let bytes = match read_request(input, self.names, &mut fields) {
            Request::More if input.len() < HEAD_BYTES => return Ok(None),
            Request::More => self.refusal(Status::HeadTooLarge)?,
            Request::Get(target) => self.answered(target)?.bytes(alloc, true)?,
            Request::Head(target) => self.answered(target)?.bytes(alloc, false)?,
            Request::Refused(status) => self.refusal(status)?,
        };
        Ok(Some(bytes))
    }
}
