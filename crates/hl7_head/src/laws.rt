ghost use Rattle.std.specs.Prelude.{◌≡◌, ℕ, Bool, true, false, List, Some, All};
ghost use Rattle.hl7_head.specs.Ack.{ack};
ghost use Rattle.er7_tree.specs.Tree.{Tree, first_of};
ghost use Rattle.er7_tree.specs.inner.Tree.{IsMessage};
ghost use Rattle.hl7_head.specs.Header.{Msh, header, header_of};
ghost use Rattle.hl7_head.specs.Laws.{msa_of};
ghost use Rattle.hl7_head.specs.inner.Laws.{AreControl, answer_back, header_back};

use crate::ack::AckPart;
use crate::moment::Moment;
use crate::time_stamp::{SECONDS_PER_DAY, SECONDS_PER_HOUR, SECONDS_PER_MINUTE, ZERO};

/// A control byte other than the carriage return that the header segment of a message lacks, its acknowledgment lacks too;
/// and what the whole text lacks, the header segment lacks. So what can frame the message can frame the acknowledgment.
pub fn ack_adds_no_control(part: AckPart, moment: Moment, connection: u32, number: u32)
    ensures segment { (control : ℕ → Bool) → AreControl control → (t : Tree) → IsMessage t
        → All (λ b. control b ≡ false) (first_of t.segments) → All (λ b. control b ≡ false) (ack (header t) part moment connection number) }
    ensures text { (control : ℕ → Bool) → AreControl control → (text : List ℕ) (header : Msh) → header_of text ≡ Some header
        → All (λ b. control b ≡ false) text → All (λ b. control b ≡ false) (ack header part moment connection number) }
{}

/// An acknowledgment is a message again. Its header has sender and receiver exchanged and its own control id, and its MSA
/// names the control id of the message.
pub fn ack_reads_back(part: AckPart, moment: Moment, connection: u32, number: u32)
    ensures header { (text : List ℕ) (header : Msh) → header_of text ≡ Some header
        → header_of (ack header part moment connection number) ≡ Some (header_back header part connection number) }
    ensures answer { (text : List ℕ) (header : Msh) → header_of text ≡ Some header
        → msa_of (ack header part moment connection number) ≡ Some (answer_back header part) }
{}

/// The numbers that the definitions write out are those of the code: a day has 86,400 seconds, an hour 3,600 and a minute 60,
/// and the digit 0 is the character 48.
pub fn constant_rules()
    ensures day { SECONDS_PER_DAY ≡ 86400 }
    ensures hour { SECONDS_PER_HOUR ≡ 3600 }
    ensures minute { SECONDS_PER_MINUTE ≡ 60 }
    ensures zero { ZERO ≡ 48 }
{}
