//! What was written is read back.

ghost use Rattle.std.specs.Prelude.{◌≡◌, ◌<◌, ◌^◌, ◌++◌, ℕ, List, Ok, length};
ghost use Rattle.std.specs.List.{AllByRecursion};
ghost use Rattle.event_records.specs.inner.Fields.{AreBytes, Fits};
ghost use Rattle.event_records.specs.inner.Encoding.{batch_encoding, encoding};
ghost use Rattle.event_records.specs.inner.Decoding.{batch_at, record_at};

use crate::record::Record;

/// The laws of the encoding, for every record and any bytes behind it.
pub fn record_rules()
    // A record that is written is read back, and so are the bytes behind it.
    ensures back { (r : Record) (rest : List ℕ) → Fits r → record_at (encoding r ++ rest) ≡ Ok (r, rest) }

    // So is a batch of records.
    ensures batch_back { (rs : List Record) (rest : List ℕ) → length rs < 2 ^ 32 → AllByRecursion Fits rs
        → batch_at (batch_encoding rs ++ rest) ≡ Ok (rs, rest) }

    // Bytes that are read are the encoding of what is read, and the bytes behind it.
    ensures only { (bytes : List ℕ) (r : Record) (rest : List ℕ) → AreBytes bytes
        → record_at bytes ≡ Ok (r, rest) → bytes ≡ encoding r ++ rest }

    // So are those that are read as a batch.
    ensures batch_only { (bytes : List ℕ) (rs : List Record) (rest : List ℕ) → AreBytes bytes
        → batch_at bytes ≡ Ok (rs, rest) → bytes ≡ batch_encoding rs ++ rest }
{}
