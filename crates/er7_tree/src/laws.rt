//! Laws of reading and printing, for the contracts above this crate. Each is a function with an empty body: a caller
//! knows its clauses.

ghost use Rattle.std.specs.Prelude.{◌≡◌, ◌≢◌, ℕ, List, Ok, codes, true};
ghost use Rattle.std.specs.List.{list_all};
ghost use Rattle.er7_tree.specs.Delims.{lacks};
ghost use Rattle.er7_tree.specs.Path.{Place, raw};
ghost use Rattle.er7_tree.specs.Tree.{Tree, segment_end, segments_of, text_of, tree, written};
ghost use Rattle.er7_tree.specs.inner.Tree.{IsMessage};

use crate::segments::MSH;

/// Reading and printing undo each other (HL7 v2.5.1, 2.5.2 and 2.5.4).
pub fn printing_rules()
    // What is read is a message, whose segments are those of the text.
    ensures message { (text : List ℕ) (t : Tree) → tree text ≡ Ok t → IsMessage t }
    ensures segments { (text : List ℕ) (t : Tree) → tree text ≡ Ok t → t.segments ≡ segments_of text }

    // It prints as its text without the line feeds and the empty segments that reading drops, and with the last carriage return.
    ensures printed { (text : List ℕ) (t : Tree) → tree text ≡ Ok t → text_of t ≡ written (segments_of text) }

    // A printed message reads as that message, and so prints as the same text again.
    ensures again { (t : Tree) → IsMessage t → tree (text_of t) ≡ Ok t }
{}

/// A byte that a text lacks, as one that would break its framing, comes into no part of its message.
pub fn lacking_rules()
    ensures segments { (b : ℕ) (text : List ℕ) (t : Tree) →
        lacks b text ≡ true → tree text ≡ Ok t → list_all (lacks b) t.segments ≡ true }
    ensures pieces { (b : ℕ) (t : Tree) (p : Place) →
        IsMessage t → list_all (lacks b) t.segments ≡ true → lacks b (raw t p) ≡ true }

    // Printing adds the carriage returns alone.
    ensures printed { (b : ℕ) (t : Tree) →
        b ≢ segment_end → list_all (lacks b) t.segments ≡ true → lacks b (text_of t) ≡ true }
{}

/// The name of the header segment is that of the definitions.
pub fn header_name_rule()
    ensures { MSH ≡ codes "MSH" }
{}
