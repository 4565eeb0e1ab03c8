ghost use Rattle.std.specs.Prelude.{◌≡◌, ◌∷◌, [], true, false};
ghost use Rattle.std.specs.List.{flat_map};
ghost use Rattle.std.specs.Option.{option_to_list};
ghost use Rattle.ack_rule.specs.Due.{due, parts_of, refusal_codes, table};
ghost use Rattle.ack_rule.specs.inner.Due.{refusal_told, success_codes};

use crate::mode::{AckMode, AckType};
use crate::verdictum::Verdictum;
use hl7_head::{AckCode, AckPart, Cause};

/// The law of enhanced mode: success is reported by each acknowledgment that is requested on success, and
/// a refusal once, by the accept acknowledgment where that is requested on a refusal, else by the
/// application acknowledgment where that is.
pub fn enhanced_rules(accept: AckType, application: AckType)
    ensures success { (table accept application).0 ≡ success_codes accept application }
    ensures refusal { (table accept application).1 ≡ refusal_told accept application }
{}

/// The one acknowledgment of original mode.
fn original(code: AckCode, cause: Option<Cause>) -> [Option<AckPart>; 2]
    ensures { flat_map option_to_list result ≡ parts_of false cause (code ∷ []) }
{
    let part = AckPart {
        code,
        cause,
        enhanced: false,
    };
    [Some(part), None]
}

/// An acknowledgment of enhanced mode.
fn enhanced(code: AckCode, cause: Option<Cause>) -> Option<AckPart>
    ensures { result ≡ Some (record { code = code; cause = cause; enhanced = true }) }
{
    Some(AckPart {
        code,
        cause,
        enhanced: true,
    })
}

/// The acknowledgments of success in enhanced mode.
fn success(accept: AckType, application: AckType) -> [Option<AckPart>; 2]
    ensures { flat_map option_to_list result ≡ parts_of true None (table accept application).0 }
{
    let commit = if accept.tells_success() {
        enhanced(AckCode::CA, None)
    } else {
        None
    };
    let answer = if application.tells_success() {
        enhanced(AckCode::AA, None)
    } else {
        None
    };
    [commit, answer]
}

/// The acknowledgment of a refusal in enhanced mode, by a commit code or by an application code.
fn refusal(
    accept: AckType,
    application: AckType,
    commit: AckCode,
    answer: AckCode,
    cause: Cause,
) -> [Option<AckPart>; 2]
    ensures { flat_map option_to_list result ≡ parts_of true (Some cause) (refusal_codes commit answer (table accept application).1) }
{
    if accept.tells_refusal() {
        [enhanced(commit, Some(cause)), None]
    } else if application.tells_refusal() {
        [enhanced(answer, Some(cause)), None]
    } else {
        [None, None]
    }
}

/// The acknowledgments that a message is due, in the order in which they are sent.
pub fn parts(mode: AckMode, verdictum: Verdictum) -> [Option<AckPart>; 2]
    ensures { flat_map option_to_list result ≡ due mode verdictum }
{
    match mode {
        AckMode::Original => match verdictum {
            Verdictum::Success => original(AckCode::AA, None),
            Verdictum::Reject(cause) => original(AckCode::AR, Some(cause)),
            Verdictum::Error(cause) => original(AckCode::AE, Some(cause)),
        },
        AckMode::Enhanced {
            accept,
            application,
        } => match verdictum {
            Verdictum::Success => success(accept, application),
            Verdictum::Reject(cause) => {
                refusal(accept, application, AckCode::CR, AckCode::AR, cause)
            }
            Verdictum::Error(cause) => {
                refusal(accept, application, AckCode::CE, AckCode::AE, cause)
            }
        },
    }
}
