//! What edits keep, for the contracts above this crate. Each law is a function with an empty body: a caller knows its
//! clauses.

ghost use Rattle.std.specs.Prelude.{◌≡◌, ◌≢◌, [], ℕ, List, Ok, false, length, not, true};
ghost use Rattle.std.specs.List.{list_all};
ghost use Rattle.er7_tree.specs.Delims.{lacks};
ghost use Rattle.er7_tree.specs.Edit.{clear, copy, remove_segments, set};
ghost use Rattle.er7_tree.specs.Escape.{controls, escape};
ghost use Rattle.er7_tree.specs.Path.{Place, is_path, raw, value};
ghost use Rattle.er7_tree.specs.inner.Path.{are_apart};
ghost use Rattle.er7_tree.specs.Tree.{Tree, has_name};
ghost use Rattle.er7_tree.specs.inner.Tree.{IsMessage};

/// An edited message is a message again, with the same delimiters: so it can be printed and read, and is the same again.
pub fn edits_keep_messages()
    ensures set { (t u : Tree) (p : Place) (bytes : List ℕ) → IsMessage t → is_path p ≡ true →
        set t p bytes ≡ Ok u → IsMessage u }
    ensures copy { (t u : Tree) (from to : Place) → IsMessage t → is_path from ≡ true → is_path to ≡ true →
        copy t from to ≡ Ok u → IsMessage u }
    ensures clear { (t u : Tree) (p : Place) → IsMessage t → is_path p ≡ true →
        clear t p ≡ Ok u → IsMessage u }
    ensures remove_segments { (t u : Tree) (name : List ℕ) → IsMessage t →
        remove_segments t name ≡ Ok u → IsMessage u }
{}

/// No edit brings a byte that would break a message's framing: a control byte that is escaped is brought in by no
/// value, and no byte that the message lacks by copying, clearing or removing.
pub fn edits_add_no_byte()
    ensures set { (b : ℕ) (t u : Tree) (p : Place) (bytes : List ℕ) → IsMessage t → is_path p ≡ true →
        set t p bytes ≡ Ok u → lacks b controls ≡ false →
        list_all (lacks b) t.segments ≡ true → list_all (lacks b) u.segments ≡ true }
    ensures copy { (b : ℕ) (t u : Tree) (from to : Place) → IsMessage t → is_path from ≡ true → is_path to ≡ true →
        copy t from to ≡ Ok u →
        list_all (lacks b) t.segments ≡ true → list_all (lacks b) u.segments ≡ true }
    ensures clear { (b : ℕ) (t u : Tree) (p : Place) → IsMessage t → is_path p ≡ true →
        clear t p ≡ Ok u →
        list_all (lacks b) t.segments ≡ true → list_all (lacks b) u.segments ≡ true }
    ensures remove_segments { (b : ℕ) (t u : Tree) (name : List ℕ) →
        remove_segments t name ≡ Ok u →
        list_all (lacks b) t.segments ≡ true → list_all (lacks b) u.segments ≡ true }
{}

/// The piece at an edited path is the new one, and means what was set.
pub fn edits_read_back()
    ensures set { (t u : Tree) (p : Place) (bytes : List ℕ) → IsMessage t → is_path p ≡ true →
        set t p bytes ≡ Ok u → raw u p ≡ escape t.delims bytes }
    ensures meaning { (t u : Tree) (p : Place) (bytes : List ℕ) → IsMessage t → is_path p ≡ true →
        set t p bytes ≡ Ok u → value u p ≡ bytes }
    ensures copy { (t u : Tree) (from to : Place) → IsMessage t → is_path from ≡ true → is_path to ≡ true →
        copy t from to ≡ Ok u → raw u to ≡ raw t from }
    ensures clear { (t u : Tree) (p : Place) → IsMessage t → is_path p ≡ true →
        clear t p ≡ Ok u → raw u p ≡ [] }
    ensures remove_segments { (t u : Tree) (name : List ℕ) →
        remove_segments t name ≡ Ok u → list_all (λ segment. not (has_name name segment)) u.segments ≡ true }
{}

/// An edit of a piece changes no piece but those that hold it or are held by it, and adds and drops no segment; removing the
/// segments of a name leaves all others.
pub fn edits_leave_the_rest()
    ensures set { (t u : Tree) (p q : Place) (bytes : List ℕ) → IsMessage t → is_path p ≡ true → is_path q ≡ true →
        set t p bytes ≡ Ok u → are_apart p q ≡ true → raw u q ≡ raw t q }
    ensures copy { (t u : Tree) (from to q : Place) → IsMessage t → is_path from ≡ true → is_path to ≡ true → is_path q ≡ true →
        copy t from to ≡ Ok u → are_apart to q ≡ true → raw u q ≡ raw t q }
    ensures clear { (t u : Tree) (p q : Place) → IsMessage t → is_path p ≡ true → is_path q ≡ true →
        clear t p ≡ Ok u → are_apart p q ≡ true → raw u q ≡ raw t q }
    ensures remove_segments { (t u : Tree) (name : List ℕ) (q : Place) → IsMessage t → is_path q ≡ true →
        remove_segments t name ≡ Ok u → q.segment ≢ name → raw u q ≡ raw t q }

    ensures set_count { (t u : Tree) (p : Place) (bytes : List ℕ) → set t p bytes ≡ Ok u → length u.segments ≡ length t.segments }
    ensures copy_count { (t u : Tree) (from to : Place) → copy t from to ≡ Ok u → length u.segments ≡ length t.segments }
    ensures clear_count { (t u : Tree) (p : Place) → clear t p ≡ Ok u → length u.segments ≡ length t.segments }
{}
