//! The book with which a file begins.

ghost use Rattle.std.specs.Prelude.{◌≡◌, ◌≢◌, ◌≤◌, [], ◌∷◌, Err, IfErr, IfOk, Ok};
ghost use Rattle.std.specs.Arc.{arc_value};
ghost use Rattle.plan_text.specs.Document.{plan_in};
ghost use Rattle.event_log.specs.History.{Snapshot};
ghost use Rattle.book_recovery.specs.inner.File.{IsBeginning, IsFailure, IsHeaded, IsOpened, IsOpeningFailure, IsOpeningOf, IsPlanFailure, connection_before, fault_of};
ghost use Rattle.book_recovery.specs.inner.Header.{contents_of, header_in};
ghost use Rattle.book_recovery.specs.inner.Preface.{Preface as Parts, preface_of};

use crate::fault::{HeaderFault, RecoveryError};
use crate::header::{Header, read_header};
use crate::preface::{Preface, last_before, read_preface};
use book_core::{Book, BookRows};
use book_resume::{ResumeFault, resume};
use opening_records::{OpeningFault, read_opening};
use plan_text::{Plan, PlanFaultKind};
use std::alloc::Global;
use std::hash::RandomState;
use std::str;
use std::sync::Arc;

/// The number of the format of a preface.
const PREFACE_FORMAT: u32 = 2;

/// The book before the first record of a file, with what the first row of the file says beside it.
#[derive(Drop)]
pub(crate) struct Begun<'a, S: BookRows> {
    /// The book.
    pub(crate) book: Book<S>,
    /// The version of the program that began the file.
    pub(crate) version: &'a str,
    /// The highest number of a connection that a message can have come over before the file was begun, if one came.
    pub(crate) last_connection: Option<u32>,
}

/// The plan of a document.
fn plan_of<'a>(alloc: Global, document: &[u8]) -> Result<Arc<Plan>, RecoveryError<'a>>
    ensures read { IfOk result (λ plan. plan_in document.now ≡ Ok (arc_value plan)) }
    ensures no_plan { IfErr result (λ e. IsPlanFailure e document.now) }
{
    if str::from_utf8(document).is_err() {
        return Err(RecoveryError::NoPlan);
    }
    match Plan::read(alloc, document) {
        Ok(plan) => Ok(Arc::new(alloc, plan)?),
        Err(fault) => Err(match fault.name {
            PlanFaultKind::NoMemory => RecoveryError::NoMemory,
            _ => RecoveryError::NoPlan,
        }),
    }
}

/// Why no opening was read, as a recovery names it.
fn opening_error<'a>(fault: OpeningFault) -> RecoveryError<'a>
    ensures { (p : Parts) → (fault ≢ OpeningFault.NoMemory → (o : Snapshot) → IsOpeningOf p o → ⊥)
        → IsOpeningFailure result p }
{
    match fault {
        OpeningFault::NoMemory => RecoveryError::NoMemory,
        OpeningFault::TooLong | OpeningFault::NotAnOpening { .. } => RecoveryError::NoOpening,
    }
}

/// The book that goes on from the opening of a preface.
pub(crate) fn opened<'a, S: BookRows + Drop>(
    alloc: Global,
    preface: Preface<'_>,
    hasher: RandomState,
) -> Result<Book<S>, RecoveryError<'a>>
    ensures opened { IfOk result (λ book. IsOpened (preface_of preface.entry) book) }
    ensures failure { IfErr result (λ e. IsOpeningFailure e (preface_of preface.entry)) }
{
    let opening = match read_opening(alloc, preface.opening) {
        Ok(opening) => opening,
        Err(fault) => return Err(opening_error(fault)),
    };
    if opening.events_max() != preface.events_max {
        return Err(RecoveryError::NoOpening);
    }
    match resume::<S>(alloc, opening, hasher) {
        Ok(book) => Ok(book),
        Err(ResumeFault::NoMemory) => Err(RecoveryError::NoMemory),
        Err(ResumeFault::NotGood) => Err(RecoveryError::NoOpening),
    }
}

/// The book with whose plan a header begins, which is empty.
fn headed<'a, S: BookRows>(
    alloc: Global,
    header: Header<'_>,
    hasher: RandomState,
) -> Result<Book<S>, RecoveryError<'a>>
    requires some { 1 ≤ header.events_max }
    requires few { header.events_max ≤ 1000000 }
    ensures headed { IfOk result (λ book. IsHeaded (contents_of header.entry) book) }
    ensures failure { IfErr result (λ e. IsPlanFailure e header.entry.document.now) }
{
    match plan_of(alloc, header.document) {
        Ok(plan) => Ok(Book::new(alloc, plan, header.events_max, hasher)),
        Err(error) => Err(error),
    }
}

/// The fault of a first row that is neither a header nor a preface, where this is why it is no header.
fn fault_of(fault: HeaderFault) -> HeaderFault
    ensures { result ≡ fault_of fault }
{
    match fault {
        HeaderFault::OtherFormat(PREFACE_FORMAT) => HeaderFault::Damaged,
        other => other,
    }
}

/// The book of a first row that is no header, for this reason.
fn opened_from<'a, S: BookRows + Drop>(
    alloc: Global,
    first: &'a [u8],
    fault: HeaderFault,
    hasher: RandomState,
) -> Result<Begun<'a, S>, RecoveryError<'a>>
    requires { header_in first.now ≡ Err fault }
    ensures begins { IfOk result (λ b. IsBeginning first.now b.version.now b.book) }
    ensures connection { IfOk result (λ b. b.last_connection ≡ connection_before first.now) }
    ensures failure { IfErr result (IsFailure (first.now ∷ [])) }
{
    let Some(preface) = read_preface(first) else {
        return Err(RecoveryError::Header(fault_of(fault)));
    };
    match opened::<S>(alloc, preface, hasher) {
        Ok(book) => Ok(Begun {
            book,
            version: preface.version,
            last_connection: last_before(preface.connections),
        }),
        Err(error) => Err(error),
    }
}

/// The book with which a file begins that has this first row.
///
/// # Errors
///
/// Where the row is neither a header nor a preface, the document of a header is no plan, no book can go on from the opening of a
/// preface, or memory is refused.
pub(crate) fn beginning<'a, S: BookRows + Drop>(
    alloc: Global,
    first: &'a [u8],
    hasher: RandomState,
) -> Result<Begun<'a, S>, RecoveryError<'a>>
    ensures begins { IfOk result (λ b. IsBeginning first.now b.version.now b.book) }
    ensures connection { IfOk result (λ b. b.last_connection ≡ connection_before first.now) }
    ensures failure { IfErr result (IsFailure (first.now ∷ [])) }
{
    let header = match read_header(first) {
        Ok(header) => header,
        Err(fault) => {
            return match opened_from(alloc, first, fault, hasher) {
                Ok(begun) => Ok(begun),
                Err(error) => Err(error),
            };
        }
    };
    match headed::<S>(alloc, header, hasher) {
        Ok(book) => Ok(Begun {
            book,
            version: header.version,
            last_connection: None,
        }),
        Err(error) => Err(error),
    }
}
