//! The answers to calls on the header of the message and on acknowledgments.

use ack_rule::{AckMode, AckType, Verdictum, parts};
use anyhow::{Result, anyhow, bail};
use er7_tree::Message;
use hl7_head::{AckPart, Cause, Header, Moment, Msa, ack_text, stamp};
use play_script::{first_word, shown};
use std::alloc::{AllocError, Global};
use std::fmt::Write;

const CAUSES: [Cause; 11] = [
    Cause::UnsupportedType,
    Cause::UnsupportedProcessing,
    Cause::UnsupportedVersion,
    Cause::MissingControlId,
    Cause::BadControlId,
    Cause::SourceTransform,
    Cause::RouteTransform,
    Cause::IdReused,
    Cause::NoMemory,
    Cause::Full,
    Cause::PlanChanged,
];

/// The cause of a name.
fn cause_named(name: &str) -> Result<Cause> {
    for cause in CAUSES {
        if cause.text() == name.as_bytes() {
            return Ok(cause);
        }
    }
    Err(anyhow!("{name} is no cause"))
}

/// The type of acknowledgment of a name.
fn type_named(name: &str) -> Result<AckType> {
    Ok(match name {
        "AL" => AckType::AL,
        "NE" => AckType::NE,
        "ER" => AckType::ER,
        "SU" => AckType::SU,
        _ => return Err(anyhow!("{name} is no type of acknowledgment")),
    })
}

/// What became of a message: success, or a refusal for a cause.
fn verdictum_named(name: &str) -> Result<Verdictum> {
    if name == "success" {
        return Ok(Verdictum::Success);
    }
    Ok(Verdictum::of_cause(cause_named(name)?))
}

/// Appends the codes that are sent, each after a space.
fn push_codes(told: &mut String, mode: AckMode, verdictum: Verdictum) -> Result<(), AllocError> {
    let before = told.len();
    for part in parts(mode, verdictum) {
        if let Some(part) = part {
            write!(told, " {:?}", part.code)?;
        }
    }
    if told.len() == before {
        told.push_str(" none")?;
    }
    Ok(())
}

/// The enhanced mode of two types of acknowledgment.
fn mode_named(words: &str) -> Result<AckMode> {
    let (accept, application) = first_word(words);
    Ok(AckMode::Enhanced {
        accept: type_named(accept)?,
        application: type_named(application)?,
    })
}

/// What is acknowledged in enhanced mode: on success, on a rejection and on an error.
fn pair_told(alloc: Global, mode: AckMode) -> Result<String, AllocError> {
    let mut told = String::from_str(alloc, "success")?;
    push_codes(&mut told, mode, Verdictum::Success)?;
    told.push_str(", rejected")?;
    push_codes(&mut told, mode, Verdictum::of_cause(Cause::UnsupportedType))?;
    told.push_str(", erroneous")?;
    push_codes(&mut told, mode, Verdictum::of_cause(Cause::IdReused))?;
    Ok(told)
}

/// The number of a cause, and by which codes it is acknowledged.
fn cause_told(alloc: Global, cause: Cause) -> Result<String, AllocError> {
    let always = AckMode::Enhanced {
        accept: AckType::AL,
        application: AckType::AL,
    };
    let mut told = format!(in alloc; "{}", cause.code())?;
    push_codes(&mut told, always, Verdictum::of_cause(cause))?;
    push_codes(&mut told, AckMode::Original, Verdictum::of_cause(cause))?;
    Ok(told)
}

/// The stamp of a moment.
fn stamped(alloc: Global, seconds: i64) -> Result<String, AllocError> {
    match Moment::of_unix(seconds) {
        Ok(moment) => {
            let stamp = shown(alloc, &stamp(moment))?;
            format!(in alloc; "{stamp} at {}", moment.secs())
        }
        Err(range) => format!(in alloc; "{range:?}"),
    }
}

/// The delimiters that the header declares.
fn delimiters(header: &Header) -> [u8; 5] {
    let delims = header.delims();
    [
        delims.field(),
        delims.component(),
        delims.repetition(),
        delims.escape(),
        delims.subcomponent(),
    ]
}

/// The fields and components of the header, each with its number.
fn pieces(header: &Header) -> [(&str, &[u8]); 14] {
    [
        (" 2", header.encoding_characters()),
        (" 3", header.sending_application()),
        (" 4", header.sending_facility()),
        (" 5", header.receiving_application()),
        (" 6", header.receiving_facility()),
        (" 9.1", header.message_code()),
        (" 9.2", header.trigger_event()),
        (" 10", header.control_id()),
        (" 11", header.processing_id()),
        (" 11.1", header.processing_code()),
        (" 12", header.version_id()),
        (" 12.1", header.version_code()),
        (" 15", header.accept_type()),
        (" 16", header.application_type()),
    ]
}

/// Appends a piece: its name, `=`, and its bytes.
fn push_piece(told: &mut String, name: &str, piece: &[u8]) -> Result<(), AllocError> {
    told.push_str(name)?;
    told.push_str("=")?;
    told.push_str(shown(*told.allocator(), piece)?.as_str())
}

/// The delimiters, fields and components of the header.
fn fields(alloc: Global, message: &Message) -> Result<String> {
    let header = Header::read(message)?;
    let mut told = String::new(alloc);
    push_piece(&mut told, "delimiters", &delimiters(&header))?;
    for (name, piece) in pieces(&header) {
        push_piece(&mut told, name, piece)?;
    }
    Ok(told)
}

/// The mode of acknowledgment that the header requests.
fn mode(alloc: Global, message: &Message) -> Result<String> {
    let mode = AckMode::of(&Header::read(message)?);
    Ok(format!(in alloc; "{mode:?}")?)
}

/// Appends an acknowledgment of the message in brackets.
fn push_ack(
    texts: &mut String,
    header: &Header,
    part: &AckPart,
    moment: Moment,
    connection: u32,
    number: u32,
) -> Result<()> {
    let alloc = *texts.allocator();
    let text = ack_text(alloc, header, part, moment, connection, number)?;
    write!(texts, "[{}]", shown(alloc, &text)?)?;
    Ok(())
}

/// The acknowledgments of the message, from a number on.
fn acknowledged(
    alloc: Global,
    header: &Header,
    verdictum: Verdictum,
    moment: Moment,
    connection: u32,
    first: u32,
) -> Result<String> {
    let mut number = first;
    let mut texts = String::new(alloc);
    for part in parts(AckMode::of(header), verdictum) {
        if let Some(part) = part {
            push_ack(&mut texts, header, &part, moment, connection, number)?;
            number = number.saturating_add(1);
        }
    }
    if texts.is_empty() {
        texts.push_str("none")?;
    }
    Ok(texts)
}

/// What is acknowledged of the message, where the words say what became of it, the moment, the connection and the
/// first number.
fn ack(alloc: Global, message: &Message, words: &str) -> Result<String> {
    let (told, words) = first_word(words);
    let (seconds, words) = first_word(words);
    let (connection, first) = first_word(words);
    let verdictum = verdictum_named(told)?;
    let moment = Moment::of_unix(seconds.parse()?)?;
    let (connection, first) = (connection.parse()?, first.parse()?);
    let header = Header::read(message)?;
    acknowledged(alloc, &header, verdictum, moment, connection, first)
}

/// The fields of an MSA, each with its number.
fn msa_told(alloc: Global, msa: &Msa) -> Result<String, AllocError> {
    let mut told = String::new(alloc);
    push_piece(&mut told, "1", &msa.code)?;
    push_piece(&mut told, " 2", &msa.control_id)?;
    push_piece(&mut told, " 3", &msa.text)?;
    Ok(told)
}

/// The fields of the message's first MSA.
fn answered(alloc: Global, message: &Message) -> Result<String> {
    match Msa::read(alloc, message)? {
        Some(msa) => Ok(msa_told(alloc, &msa)?),
        None => Ok(String::from_str(alloc, "none")?),
    }
}

/// The answer to a call on the header or on acknowledgments.
///
/// # Errors
///
/// Where there is no such call, its words can't be read, or memory is refused.
pub(crate) fn answer(alloc: Global, message: &Message, call: &str, words: &str) -> Result<String> {
    match call {
        "fields" => fields(alloc, message),
        "mode" => mode(alloc, message),
        "msa" => answered(alloc, message),
        "ack" => ack(alloc, message, words),
        "stamp" => Ok(stamped(alloc, words.parse()?)?),
        "cause" => Ok(cause_told(alloc, cause_named(words)?)?),
        "pair" => Ok(pair_told(alloc, mode_named(words)?)?),
        _ => bail!("{call} is no call"),
    }
}
