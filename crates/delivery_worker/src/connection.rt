//! One attempt after another over a link's connection.

ghost use Rattle.std.specs.Prelude.{◌≡◌, ◌⊎◌, ℕ, List, [], true, None, Some, is_some, IfOk, IfErr, IfSome, OnOk, OnErr, ◌≤◌};
ghost use Rattle.std.specs.Io.KnownBytes.{Appends, Keeps};
ghost use Rattle.dest_queue.specs.declared.Outcome.TheVariants.{Again};
ghost use Rattle.fixed_numbers.specs.declared.serving.TheConstants.{RECEIVES_MAX};
ghost use Rattle.mllp_frame.specs.Framing.{block_bytes};
ghost use Rattle.mllp_frame.specs.inner.Framed.{blank, fed};
ghost use Rattle.delivery_worker.specs.Answers.{outcome_of};
ghost use Rattle.delivery_worker.specs.declared.answers.Decision.{Decision};
ghost use Rattle.delivery_worker.specs.inner.Calls.{CallsMore, CallsUpTo};
ghost use Rattle.delivery_worker.specs.inner.Stream.{ReadsFront, ReadsOn, Receives};
ghost use Rattle.delivery_worker.specs.Delivering.{IsSendingOf};
ghost use Rattle.delivery_worker.specs.inner.Delivering.{Sends, Spends, Tries};
ghost use Rattle.delivery_worker.specs.Taking.{MayBeSent};

use crate::answer::Answer;
use crate::answers::{Decision, Reply, decision_by, decision_of};
use crate::data::is_data;
use crate::link::{Link, LinkFault};
use crate::taking::TakeRule;
use book_core::Job;
use book_lock::{Sharing, Station};
use dest_queue::Outcome;
use fixed_numbers::{MAX_ANSWERS, RECEIVES_MAX};
use mllp_frame::{Framer, longer_streams, write_block};
use std::alloc::{AllocError, Global};

/// The most bytes that one receive requests.
const PIECE: usize = 1_024;

/// A connection can't be used any more.
#[derive(Clone, Copy)]
enum Lost {
    /// Its peer had ended it before a byte of an answer was received.
    Unanswered,
    /// The link failed otherwise, its input is at its end, too much was received with no answer in it, or memory was
    /// refused.
    Failed,
}

/// Nothing was received over a connection any more, since its peer had ended it.
#[derive(Clone, Copy)]
struct Unanswered {
    /// How many receives were made after the send: one, where it went well.
    receives: u32,
}

/// How a connection was lost at the link's last call.
fn lost_by<L: Link>(link: &L) -> Lost {
    if link.was_ended() {
        Lost::Unanswered
    } else {
        Lost::Failed
    }
}

/// The connection of a link, as far as it is open. Answers that were not read for one message are the first that are read
/// for the next.
#[derive(Drop)]
pub struct Connection {
    alloc: Global,
    /// What was received over the open connection; none while there is none.
    framer: Option<Framer>,
    /// What the answers to the last sending said.
    reply: Reply,
    /// The block of the last sending, and the answers to it. Their memory is used again for the next.
    block: Vec<u8>,
    answers: Vec<Answer>,
}

/// How far the answers to a message were read.
#[derive(Clone, Copy)]
enum Taken {
    /// Up to the last that was received; none of them decides.
    All,
    /// Up to one that decides, or up to the ninth.
    Enough,
    /// Up to the first of all, which decides. What it decides is kept, for speed: to look for its MSA again takes some 150
    /// instructions, by an estimate.
    First(Decision),
}

/// Reads the answers received so far, up to the one that decides and up to the ninth.
fn take_answers(
    alloc: Global,
    framer: &mut Framer,
    control_id: &[u8],
    answers: &mut Vec<Answer>,
) -> Result<Taken, AllocError>
    ensures read { OnOk result (ReadsOn framer.old framer.new answers.old.items answers.new.items) }
    ensures more { IfOk result (λ taken. taken ≡ Taken.All → framer.new.to_come ≡ []) }
    ensures first { IfOk result (λ taken. (decision : Decision) → taken ≡ Taken.First decision
        → decision.outcome ≡ outcome_of control_id.now answers.new.items) }
    ensures front { OnErr result (ReadsFront framer.old answers.old.items answers.new.items) }
{
    'answers: for _ in answers.len()..MAX_ANSWERS {
        let Some(event) = framer.next() else {
            return Ok(Taken::All);
        };
        let answer = match Answer::read(alloc, event) {
            Ok(answer) => answer,
            Err(fault) => return Err(fault),
        };
        let decision = decision_of(control_id, &answer);
        match answers.push(answer) {
            Ok(()) => {}
            Err(_) => return Err(AllocError),
        }
        match decision {
            Some(decision) if answers.len() == 1 => return Ok(Taken::First(decision)),
            Some(_) => return Ok(Taken::Enough),
            None => {}
        }
    }
    Ok(Taken::Enough)
}

/// Receives the next bytes.
fn receive_piece<L: Link>(link: &mut L, framer: &mut Framer, buffer: &mut [u8]) -> Result<(), Lost>
    ensures ok { OnOk result (
        (piece : List ℕ) × (framer.new ≡ fed framer.old piece) × Appends (L.received link.old) (L.received link.new) piece) }
    ensures lost { OnErr result ((piece : List ℕ) × Appends (L.received link.old) (L.received link.new) piece) }
    ensures unanswered { IfErr result (λ lost. lost ≡ Lost.Unanswered → Keeps (L.received link.old) (L.received link.new)) }
    ensures kept { Keeps (L.sent link.old) (L.sent link.new) }
    ensures receives { CallsMore (L.receives link.old) (L.receives link.new) 1 }
    ensures leads { L.leads_to link.new ≡ L.leads_to link.old }
{
    let len = match link.receive(buffer) {
        Ok(len) => len,
        Err(LinkFault) => return Err(lost_by(link)),
    };
    if len == 0 {
        return Err(lost_by(link));
    }
    match framer.feed(&buffer[..len]) {
        Ok(()) => Ok(()),
        Err(_) => Err(Lost::Failed),
    }
}

/// Receives until the answers decide, or nine blocks were received, in `limit` receives at most. Where the first answer
/// decides, what it decides is returned.
fn receive_answers<L: Link>(
    alloc: Global,
    link: &mut L,
    framer: &mut Framer,
    control_id: &[u8],
    answers: &mut Vec<Answer>,
    limit: u32,
) -> Result<Option<Decision>, Lost>
    ensures ok { OnOk result (Receives framer.old (Some framer.new) (L.received link.old) (L.received link.new) answers.old.items answers.new.items) }
    ensures first { IfOk result (λ first. IfSome first (λ decision.
        decision.outcome ≡ outcome_of control_id.now answers.new.items)) }
    ensures failed { IfErr result (λ lost.
        lost ≡ Lost.Failed → Receives framer.old None (L.received link.old) (L.received link.new) answers.old.items answers.new.items) }
    ensures unanswered { IfErr result (λ lost. lost ≡ Lost.Unanswered
        → Keeps (L.received link.old) (L.received link.new) × CallsMore (L.receives link.old) (L.receives link.new) 1) }
    ensures kept { Keeps (L.sent link.old) (L.sent link.new) }
    ensures receives { CallsUpTo (L.receives link.old) (L.receives link.new) limit }
    ensures leads { L.leads_to link.new ≡ L.leads_to link.old }
{
    longer_streams();
    let mut buffer = [0; PIECE];
    'receives: for n in 0..limit {
        match take_answers(alloc, framer, control_id, answers) {
            Ok(Taken::First(decision)) => return Ok(Some(decision)),
            Ok(Taken::Enough) => return Ok(None),
            Ok(Taken::All) => {}
            Err(_) => return Err(Lost::Failed),
        }
        match receive_piece(link, framer, &mut buffer) {
            Ok(()) => {}
            Err(Lost::Unanswered) if n == 0 => return Err(Lost::Unanswered),
            Err(_) => return Err(Lost::Failed),
        }
    }
    match take_answers(alloc, framer, control_id, answers) {
        Ok(Taken::First(decision)) => Ok(Some(decision)),
        Ok(Taken::Enough) => Ok(None),
        Ok(Taken::All) => Err(Lost::Failed),
        Err(_) => Err(Lost::Failed),
    }
}

/// What the answers decide of a message: what the first of them decides, where that is known, and else what is found among
/// them.
fn decided(first: Option<Decision>, control_id: &[u8], answers: &[Answer]) -> Decision
    requires { IfSome first (λ decision.
        decision.outcome ≡ outcome_of control_id.now answers.now) }
    ensures { result.outcome ≡ outcome_of control_id.now answers.now }
{
    match first {
        Some(decision) => decision,
        None => decision_by(control_id, answers),
    }
}

/// Sends a text as one block over the open connection. The block is made in the memory that is handed in.
fn send_block<L: Link>(block: &mut Vec<u8>, link: &mut L, payload: &[u8]) -> Result<(), Lost>
    ensures sent { OnOk result (Appends (L.sent link.old) (L.sent link.new) (block_bytes payload.now)) }
    ensures unsent { OnErr result (Keeps (L.sent link.old) (L.sent link.new)) }
    ensures received { Keeps (L.received link.old) (L.received link.new) }
    ensures receives { CallsMore (L.receives link.old) (L.receives link.new) 0 }
    ensures leads { L.leads_to link.new ≡ L.leads_to link.old }
{
    // A shared book hands out what its type says and no more, so this is looked at here.
    if !is_data(payload) {
        return Err(Lost::Failed);
    }
    block.clear();
    match write_block(payload, block) {
        Ok(()) => {}
        Err(_) => return Err(Lost::Failed),
    }
    match link.send(block) {
        Ok(()) => Ok(()),
        Err(LinkFault) => Err(lost_by(link)),
    }
}

impl Connection {
    /// A link's connection that is not open yet.
    pub fn new(alloc: Global) -> Self
        ensures { result.framer ≡ None }
    {
        Connection {
            alloc,
            framer: None,
            reply: Reply::Nothing,
            block: Vec::new(alloc),
            answers: Vec::new(alloc),
        }
    }

    /// What the answers to the last sending of the last attempt said of its message.
    pub fn reply(&self) -> Reply {
        self.reply
    }

    /// Readies the link for a message that is not taken yet. What was left of earlier answers is dropped, so the next answer
    /// that is read is received after this.
    ///
    /// # Errors
    ///
    /// The link's. There is no connection then.
    pub fn prepare<L: Link>(&mut self, link: &mut L) -> Result<(), LinkFault>
        ensures ready { OnOk result (self.new.framer ≡ Some blank) }
        ensures none { OnErr result (self.new.framer ≡ None) }
        ensures sent { Keeps (L.sent link.old) (L.sent link.new) }
        ensures received { Keeps (L.received link.old) (L.received link.new) }
        ensures receives { CallsMore (L.receives link.old) (L.receives link.new) 0 }
        ensures leads { L.leads_to link.new ≡ L.leads_to link.old }
    {
        self.framer = None;
        match link.prepare() {
            Ok(()) => {}
            Err(fault) => return Err(fault),
        }
        self.framer = Some(Framer::new(self.alloc));
        Ok(())
    }

    /// Sends a message over the open connection, whose framer this is, and reads the answers where the destination
    /// acknowledges, in `limit` receives at most. The framer is put back where the connection can still be used.
    ///
    /// # Errors
    ///
    /// Where the connection had been ended, and nothing was received over it after the message.
    fn exchange<L: Link>(
        &mut self,
        link: &mut L,
        framer: Framer,
        job: &Job,
        limit: u32,
    ) -> Result<Outcome, Unanswered>
        requires none { self.old.framer ≡ None }
        ensures ok { IfOk result (λ o.
            (s : Sends (Some framer) self.new.framer (L.sent link.old) (L.sent link.new) (L.received link.old) (L.received link.new) o)
            × IsSendingOf s.sending job.now.control_id job.now.payload job.now.ack) }
        ensures err { OnErr result (
            (s : Sends (Some framer) None (L.sent link.old) (L.sent link.new) (L.received link.old) (L.received link.new) Again)
            × IsSendingOf s.sending job.now.control_id job.now.payload job.now.ack) }
        ensures unanswered { OnErr result (Keeps (L.received link.old) (L.received link.new) × (self.new.framer ≡ None)) }

        // Where the text was sent, one receive was made.
        ensures asked { IfErr result (λ lost. (lost.receives ≤ 1) × CallsMore (L.receives link.old) (L.receives link.new) lost.receives) }
        ensures listened { IfErr result (λ lost. Keeps (L.sent link.old) (L.sent link.new) ⊎ (lost.receives ≡ 1)) }
        ensures receives { CallsUpTo (L.receives link.old) (L.receives link.new) limit }
        ensures leads { L.leads_to link.new ≡ L.leads_to link.old }
    {
        match send_block(&mut self.block, link, job.payload.as_slice()) {
            Ok(()) => {}
            Err(Lost::Unanswered) => return Err(Unanswered { receives: 0 }),
            Err(Lost::Failed) => return Ok(Outcome::Again),
        }
        let mut framer = framer;
        if !job.ack {
            self.framer = Some(framer);
            return Ok(Outcome::Delivered);
        }
        let control_id = job.control_id.as_slice();
        self.answers.clear();
        let first = match receive_answers(
            self.alloc,
            link,
            &mut framer,
            control_id,
            &mut self.answers,
            limit,
        ) {
            Ok(first) => {
                self.framer = Some(framer);
                first
            }
            Err(Lost::Failed) => None,
            Err(Lost::Unanswered) => return Err(Unanswered { receives: 1 }),
        };
        let decision = decided(first, control_id, &self.answers);
        self.reply = decision.reply;
        Ok(decision.outcome)
    }

    /// Sends a message over the connection that is open, where by a look at it that can still be used for this message.
    ///
    /// # Errors
    ///
    /// Where it is not, or was ended before a byte was received.
    fn exchange_kept<L: Link>(&mut self, link: &mut L, job: &Job) -> Result<Outcome, Unanswered>
        ensures ok { IfOk result (λ o.
            (s : Sends self.old.framer self.new.framer (L.sent link.old) (L.sent link.new) (L.received link.old) (L.received link.new) o)
            × IsSendingOf s.sending job.now.control_id job.now.payload job.now.ack) }
        ensures open { OnOk result (is_some self.old.framer ≡ true) }
        ensures err { OnErr result (
            Spends self.old.framer (L.sent link.old) (L.sent link.new) (L.received link.old) (L.received link.new)
            (L.receives link.old) (L.receives link.new) job.now.payload) }
        ensures over { OnErr result (self.new.framer ≡ None) }
        ensures asked { IfErr result (λ lost. (lost.receives ≤ 1) × CallsUpTo (L.receives link.old) (L.receives link.new) lost.receives) }
        ensures receives { CallsUpTo (L.receives link.old) (L.receives link.new) RECEIVES_MAX }
        ensures leads { L.leads_to link.new ≡ L.leads_to link.old }
    {
        let framer = match self.framer.take() {
            Some(framer) => framer,
            None => return Err(Unanswered { receives: 0 }),
        };
        if !link.is_open_for(job) {
            return Err(Unanswered { receives: 0 });
        }
        match self.exchange(link, framer, job, RECEIVES_MAX) {
            Ok(outcome) => Ok(outcome),
            Err(lost) => Err(lost),
        }
    }

    /// Sends a message over a new connection.
    fn exchange_anew<L: Link>(&mut self, link: &mut L, job: &Job, limit: u32) -> Outcome
        requires none { self.old.framer ≡ None }
        ensures sends { (s : Sends None self.new.framer (L.sent link.old) (L.sent link.new) (L.received link.old) (L.received link.new) result)
            × IsSendingOf s.sending job.now.control_id job.now.payload job.now.ack }
        ensures receives { CallsUpTo (L.receives link.old) (L.receives link.new) limit }
        ensures leads { L.leads_to link.new ≡ L.leads_to link.old }
    {
        match link.connect() {
            Ok(()) => {}
            Err(LinkFault) => return Outcome::Again,
        }
        match self.exchange(link, Framer::new(self.alloc), job, limit) {
            Ok(outcome) => outcome,
            Err(_) => Outcome::Again,
        }
    }

    /// Sends a message, and reads the answers where the destination acknowledges. Where the connection that was kept can't be
    /// used for it, or has ended before a byte of an answer was received, the message is sent over a new one, in the same attempt.
    /// After a fault of the link, the end of its input, too many receives or a refusal for memory the next attempt
    /// connects anew. By the rule `Durable` nothing is sent but what is durable by what the station's seat has seen.
    pub fn attempt<A: Sharing, L: Link>(
        &mut self,
        link: &mut L,
        station: &Station<A>,
        rule: TakeRule,
        job: &Job,
    ) -> Outcome
        requires durable { MayBeSent rule A.opening station.now.seat job.now.ticket.number }
        requires leads { L.leads_to link.old ≡ job.now.ticket.destination }
        ensures tries { (t : Tries self.old.framer self.new.framer (L.sent link.old) (L.sent link.new) (L.received link.old) (L.received link.new) result)
            × IsSendingOf t.attempt.last job.now.control_id job.now.payload job.now.ack }
        ensures receives { CallsUpTo (L.receives link.old) (L.receives link.new) RECEIVES_MAX }
        ensures leads { L.leads_to link.new ≡ L.leads_to link.old }
    {
        link.begin();
        self.reply = Reply::Nothing;
        match self.exchange_kept(link, job) {
            Ok(outcome) => outcome,
            Err(lost) => self.exchange_anew(link, job, RECEIVES_MAX - lost.receives),
        }
    }
}
