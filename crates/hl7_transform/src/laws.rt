ghost use Rattle.std.specs.Prelude.{◌≡◌, ℕ, List, true, Contains, IfOk, Err};
ghost use Rattle.std.specs.List.{list_all};
ghost use Rattle.er7_tree.specs.Delims.{lacks};
ghost use Rattle.er7_tree.specs.Escape.{controls};
ghost use Rattle.er7_tree.specs.Tree.{Tree};
ghost use Rattle.er7_tree.specs.inner.Tree.{IsMessage};
ghost use Rattle.hl7_transform.specs.Check.{may_stand};
ghost use Rattle.hl7_transform.specs.inner.Rules.{names_paths, KeepsProtected, LacksSegment};
ghost use Rattle.hl7_transform.specs.Step.{Edit, change, after_steps};
ghost use Rattle.hl7_transform.specs.declared.fault.StopCause.TheVariants.{NoSuchSegment};

/// What steps leave as it is, and what stops them.
pub fn step_rules()
    // Steps bring in none of the control characters that end segments and lines or frame a message, so a message that
    // could be framed still can (HL7 v2.5.1, 2.5.2; MLLP Release 1).
    ensures control { (b : ℕ) (steps : List Edit) (t : Tree) →
        IsMessage t → Contains controls b → list_all (lacks b) t.segments ≡ true
        → IfOk (after_steps steps t) (λ new. list_all (lacks b) new.segments ≡ true) }

    // Steps that a transformer may have make a message again, and leave the delimiters and the message control id as
    // they are (HL7 v2.5.1, 2.5.4 and 2.15.9.10).
    ensures protected { (steps : List Edit) (t : Tree) →
        IsMessage t → list_all names_paths steps ≡ true → list_all may_stand steps ≡ true
        → IfOk (after_steps steps t) (KeepsProtected t) }

    // A step that a transformer may have is refused only where the segment that it writes to isn't there.
    ensures refused { (step : Edit) (t : Tree) →
        may_stand step ≡ true → change step t ≡ Err NoSuchSegment → LacksSegment step t }
{}
