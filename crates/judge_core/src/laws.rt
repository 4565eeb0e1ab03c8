//! What holds of every verdict and key.

ghost use Rattle.std.specs.Prelude.{◌≡◌, ◌<◌, ◌↔◌, ℕ, List, [], IsTrue, Some, All, length};
ghost use Rattle.mllp_frame.specs.Framing.{IsData};
ghost use Rattle.hl7_head.specs.Header.{Msh, header_of};
ghost use Rattle.plan_text.specs.Entries.{PlanEntry, IsPlan};
ghost use Rattle.judge_core.specs.inner.Delivering.{AreDeliveries};
ghost use Rattle.judge_core.specs.Judging.{deliveries_of, is_bookable, is_stray, is_unreadable, key_of, named, verdict};
ghost use Rattle.judge_core.specs.inner.Judging.{is_booked};

use crate::judged::Verdict;

/// The laws of verdicts, for every plan, channel and text.
pub fn verdict_rules()
    // Whether there is an answer depends on the text alone.
    ensures unreadable { (plan : PlanEntry) (channel : ℕ) (text : List ℕ) →
        (verdict plan channel text ≡ Verdict.Unreadable) ↔ IsTrue (is_unreadable text) }
    ensures stray { (plan : PlanEntry) (channel : ℕ) (text : List ℕ) →
        (verdict plan channel text ≡ Verdict.Stray) ↔ IsTrue (is_stray text) }
    ensures booked { (plan : PlanEntry) (channel : ℕ) (text : List ℕ) →
        is_booked (verdict plan channel text) ≡ is_bookable text }

    // A message goes to destinations of the plan, to each once, with texts that can be framed.
    ensures lead { (plan : PlanEntry) (channel : ℕ) (text : List ℕ) → IsPlan plan →
        All (λ d. d < length plan.destinations) (named plan channel text) }
    ensures deliveries { (plan : PlanEntry) (channel : ℕ) (text : List ℕ) → IsPlan plan → IsData text →
        AreDeliveries (deliveries_of (verdict plan channel text)) }
{}

/// The laws of keys, by which repeats are known.
pub fn key_rules()
    // Two messages have one key exactly where channel, MSH-3, MSH-4 and MSH-10 are equal.
    ensures told { (channel channel2 : ℕ) (text text2 : List ℕ) (h h2 : Msh) →
        header_of text ≡ Some h → header_of text2 ≡ Some h2 →
        (key_of channel text ≡ key_of channel2 text2) ↔ ((channel ≡ channel2)
        × (h.sending_application ≡ h2.sending_application)
        × (h.sending_facility ≡ h2.sending_facility)
        × (h.control_id ≡ h2.control_id)) }

    // Only a text that is no message has the empty key.
    ensures empty { (channel : ℕ) (text : List ℕ) → (key_of channel text ≡ []) ↔ IsTrue (is_unreadable text) }
{}
