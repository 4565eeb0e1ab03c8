//! Laws of framing, for the contracts above this crate. Each is a function with an empty body: a caller knows its
//! clauses.

ghost use Rattle.std.specs.Prelude.{◌≡◌, ◌≢◌, ℕ, ◌+◌, ◌<◌, ◌≤◌, List, [], ◌∷◌, ◌++◌, length, map};
ghost use Rattle.std.specs.List.{AllByRecursion, flat_map};
ghost use Rattle.mllp_frame.specs.Event.{FramingEvent, block, broken};
ghost use Rattle.mllp_frame.specs.Framing.{start_block, end_block, carriage_return, data_max, blocks, block_bytes, ended_block, IsData, IsBlockData};
ghost use Rattle.mllp_frame.specs.inner.Framing.{open_end, HoldsData, HasNoStart};
ghost use Rattle.mllp_frame.specs.inner.Framed.{Framed, AddsFront, IsFront, blank};
ghost use Rattle.mllp_frame.specs.inner.Calls.{Call, bytes_of, handed_out, after_calls};

use crate::Break;

/// The events of a byte string, read from its beginning: bytes that open no block are skipped, and what follows the
/// data of a block decides what becomes of it (MLLP Release 1, block format).
pub fn cutting_rules()
    // No block is opened, or none is ended or broken yet.
    ensures none { (s : List ℕ) → HasNoStart s → blocks s ≡ [] }
    ensures begun { (skipped bytes : List ℕ) → HasNoStart skipped → IsData bytes →
        blocks (skipped ++ start_block ∷ bytes) ≡ [] }
    ensures ending { (skipped bytes : List ℕ) → HasNoStart skipped → IsData bytes →
        blocks (skipped ++ start_block ∷ (bytes ++ end_block ∷ [])) ≡ [] }

    // A start byte breaks the block and opens a new one.
    ensures start { (skipped bytes rest : List ℕ) → HasNoStart skipped → IsData bytes →
        blocks (skipped ++ start_block ∷ (bytes ++ start_block ∷ rest)) ≡ broken Break.NewStart ∷ blocks (start_block ∷ rest) }

    // The two end bytes end it.
    ensures end { (skipped bytes rest : List ℕ) → HasNoStart skipped → IsData bytes →
        blocks (skipped ++ start_block ∷ (bytes ++ end_block ∷ carriage_return ∷ rest)) ≡ ended_block bytes ∷ blocks rest }

    // Another byte behind the first of them breaks it, and is read outside.
    ensures bad { (skipped bytes rest : List ℕ) (b : ℕ) → HasNoStart skipped → IsData bytes → b ≢ carriage_return →
        blocks (skipped ++ start_block ∷ (bytes ++ end_block ∷ b ∷ rest)) ≡ broken Break.BadEnd ∷ blocks (b ∷ rest) }

    // A block with data up to the limit is whole, and one with a byte more is too long.
    ensures whole { (bytes : List ℕ) → length bytes ≤ data_max → ended_block bytes ≡ block bytes }
    ensures long { (bytes : List ℕ) → data_max < length bytes → ended_block bytes ≡ broken Break.TooLong }
{}

/// However a stream is cut, the events handed out and then those still to come are the events of all bytes fed.
pub fn any_pieces()
    ensures events { (calls : List Call) → handed_out blank calls ++ (after_calls blank calls).to_come ≡ blocks (bytes_of calls) }
    ensures end { (calls : List Call) → (after_calls blank calls).open_end ≡ open_end (bytes_of calls) }

    // Where memory is refused within a further piece, they are the first of those events.
    ensures refused { (calls : List Call) (piece : List ℕ) (to_come : List FramingEvent) →
        AddsFront (after_calls blank calls).to_come to_come (blocks ((after_calls blank calls).open_end ++ piece)) →
        IsFront (handed_out blank calls ++ to_come) (blocks (bytes_of calls ++ piece)) }
{}

/// What more bytes do to a stream: what it has given stays, and its open end is all that has to be kept of it.
pub fn longer_streams()
    ensures blocks { (s more : List ℕ) → blocks (s ++ more) ≡ blocks s ++ blocks (open_end s ++ more) }
    ensures end { (s more : List ℕ) → open_end (s ++ more) ≡ open_end (open_end s ++ more) }
    ensures stays { (s more : List ℕ) → IsFront (blocks s) (blocks (s ++ more)) }
{}

/// One byte brings at most one event: it ends or breaks at most one block.
pub fn single_bytes()
    ensures stream { (s : List ℕ) (b : ℕ) → length (blocks (s ++ b ∷ [])) ≤ length (blocks s) + 1 }
    ensures piece { (s : List ℕ) (b : ℕ) → length (blocks (open_end s ++ b ∷ [])) ≤ 1 }
{}

/// How much is kept of a stream: at most the start byte, the data up to the first byte past the limit, and an end byte.
pub fn open_end_is_short()
    ensures { (s : List ℕ) → length (open_end s) ≤ data_max + 3 }
{}

/// Whatever a stream holds, the data of each of its blocks holds neither framing byte and is within the limit. So it can
/// be written as a block again.
pub fn blocks_hold_data()
    ensures { (s : List ℕ) → AllByRecursion HoldsData (blocks s) }
{}

/// Reading what was written as blocks gives the same blocks, behind any stream that ends outside of a block.
pub fn reading_back()
    ensures one { (s bytes : List ℕ) → open_end s ≡ [] → IsBlockData bytes →
        blocks (s ++ block_bytes bytes) ≡ blocks s ++ block bytes ∷ [] }
    ensures outside { (s bytes : List ℕ) → open_end s ≡ [] → IsBlockData bytes → open_end (s ++ block_bytes bytes) ≡ [] }

    // Blocks one behind the other are read as they were written.
    ensures all { (texts : List (List ℕ)) → AllByRecursion IsBlockData texts →
        blocks (flat_map block_bytes texts) ≡ map block texts }
{}
