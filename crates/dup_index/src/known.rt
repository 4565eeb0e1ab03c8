//! A key that is known, as the index keeps it. For memory a short key and its history index are kept in the index itself: 32
//! bytes, where a list of bytes takes 24 and a block of its own, of 32 bytes or more, beside its history index.

ghost use Rattle.std.specs.Prelude.{◌≡◌, [], ◌∷◌, IfOk};
ghost use Rattle.std.proofs.Common.{ap};
ghost use Rattle.std.specs.Cmp.{on_equiv, on_per, partial_equiv_from_equiv};
ghost use Rattle.std.specs.Cmp.Lexicographic.{bytes_decides, nat_list_eq_equiv};
ghost use Rattle.std.specs.Str.{bytes_eq};

use indexmap::Equivalent;
use std::alloc::{AllocError, Global};
use std::hash::{Hash, Hasher};
use std::marker::Model;

/// The most bytes of a known key that is kept in the index itself.
const SHORT_MAX: usize = 26;

/// The bytes of a known key and its history index. They are fields of the variants for memory: an index of four bytes fills
/// the space that a list of bytes leaves beside the mark of the variant.
#[derive(Drop)]
enum Kept {
    /// The length of the key, a buffer that begins with its bytes, and its history index.
    Short {
        len: u8,
        bytes: [u8; SHORT_MAX],
        place: u32,
    },
    /// The same of a key of more than [`SHORT_MAX`] bytes.
    Long {
        place: u32,
        bytes: Vec<u8>,
    },
}

/// A key that is known, with the history index at which it was booked. Known keys are equal where their keys are.
#[derive(Drop)]
pub struct KnownKey {
    kept: Kept,
}

/// A known key takes 32 bytes with its history index.
const _: () = prove!(size_of::<KnownKey>() == 32);

impl Model for KnownKey {
    ghost use Rattle.dup_index.specs.inner.Known.{Known};

    ghost Value = { Known };

    ghost use Rattle.dup_index.specs.inner.Kept.{known_of, IsKept};

    ghost view = { λ k. known_of k.kept };

    ghost invariant = { λ k. IsKept k.kept };
}

impl KnownKey {
    /// A key with its history index.
    ///
    /// # Errors
    ///
    /// Where memory is refused for a key of more than 26 bytes.
    #[inline(always)]
    pub fn new(alloc: Global, key: &[u8], place: u32) -> Result<KnownKey, AllocError>
        ensures { IfOk result (λ known. known ≡ record { key = key.now; place = place }) }
    {
        let kept = if key.len() <= SHORT_MAX {
            let mut bytes = [0; SHORT_MAX];
            bytes[..key.len()].copy_from_slice(key);
            Kept::Short {
                len: key.len() as u8,
                bytes,
                place,
            }
        } else {
            Kept::Long {
                place,
                bytes: Vec::from_slice(alloc, key)?,
            }
        };
        Ok(KnownKey { kept })
    }

    /// The bytes of the key.
    pub(crate) fn key(&self) -> &[u8]
        ensures { result.now ≡ self.now.key }
    {
        match &self.kept {
            Kept::Short { len, bytes, .. } => &bytes[..*len as usize],
            Kept::Long { bytes, .. } => bytes.as_slice(),
        }
    }

    /// The history index.
    pub(crate) fn place(&self) -> u32
        ensures { result ≡ self.now.place }
    {
        match &self.kept {
            Kept::Short { place, .. } | Kept::Long { place, .. } => *place,
        }
    }
}

impl PartialEq for KnownKey {
    ghost eq = { λ x y. bytes_eq x.key y.key };

    ghost laws = { on_per (λ k. k.key) (partial_equiv_from_equiv nat_list_eq_equiv) };

    fn eq(&self, other: &KnownKey) -> bool {
        self.key() == other.key()
    }
}

impl Eq for KnownKey {
    ghost laws = { on_equiv (λ k. k.key) nat_list_eq_equiv };
}

/// For speed it is hashed by one write of all the bytes of the key, where a list of bytes is hashed by a write of each.
impl Hash for KnownKey {
    ghost hash_input = { λ k. k.key ∷ [] };

    ghost respects_eq = { λ x y same. ap (λ bytes. bytes ∷ []) ((bytes_decides x.key y.key).0 same) };

    fn hash<H: Hasher>(&self, state: &mut H) {
        state.write(self.key());
    }
}

/// A key that is sought.
#[derive(Clone, Copy)]
pub struct Sought<'k> {
    pub bytes: &'k [u8],
}

impl<'k> PartialEq for Sought<'k> {
    ghost eq = { λ x y. bytes_eq x.bytes.now y.bytes.now };

    ghost laws = { on_per (λ k. k.bytes.now) (partial_equiv_from_equiv nat_list_eq_equiv) };

    fn eq(&self, other: &Sought<'k>) -> bool {
        self.bytes == other.bytes
    }
}

impl<'k> Eq for Sought<'k> {
    ghost laws = { on_equiv (λ k. k.bytes.now) nat_list_eq_equiv };
}

impl<'k> Hash for Sought<'k> {
    ghost hash_input = { λ k. k.bytes.now ∷ [] };

    ghost respects_eq = { λ x y same. ap (λ bytes. bytes ∷ []) ((bytes_decides x.bytes.now y.bytes.now).0 same) };

    fn hash<H: Hasher>(&self, state: &mut H) {
        state.write(self.bytes);
    }
}

impl<'k> Equivalent<KnownKey> for Sought<'k> {
    ghost equivalent = { λ sought known. bytes_eq sought.bytes.now known.key };

    ghost respects_hash = { λ sought known same. ap (λ bytes. bytes ∷ []) ((bytes_decides sought.bytes.now known.key).0 same) };

    ghost respects_eq = { λ sought x y. nat_list_eq_equiv.congr sought.bytes.now x.key y.key };

    fn equivalent(&self, known: &KnownKey) -> bool {
        self.bytes == known.key()
    }
}
