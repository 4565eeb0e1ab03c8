//! What was written is read back.

ghost use Rattle.std.specs.Prelude.{◌≡◌, ◌++◌, ℕ, List, Ok};
ghost use Rattle.event_log.specs.History.{Snapshot};
ghost use Rattle.event_records.specs.inner.Fields.{AreBytes};
ghost use Rattle.opening_records.specs.inner.Encoding.{Written, opening_bytes};
ghost use Rattle.opening_records.specs.inner.Openings.{Fits, IsEncoding};
ghost use Rattle.opening_records.specs.inner.Decoding.{opening_at, opening_in};

/// The laws of the encoding, for every opening and any bytes behind it.
pub fn opening_rules()
    // An opening that is encoded is decoded again, and so are the bytes behind it.
    ensures back { (w : Written) (rest : List ℕ) → Fits w → opening_at (opening_bytes w ++ rest) ≡ Ok (w, rest) }

    // Bytes that are decoded are the encoding of what is decoded.
    ensures only { (bytes : List ℕ) (w : Written) → AreBytes bytes → opening_in bytes ≡ Ok w → bytes ≡ opening_bytes w }

    // Bytes are those of one opening at most.
    ensures one_opening { (a b : Snapshot) (bytes : List ℕ) → IsEncoding a bytes → IsEncoding b bytes → a ≡ b }
{}
