//! The keys by which a repeated message is known, each with the history index at which it was booked.
#![tactic(auto)]

ghost use Rattle.std.specs.Prelude.{◌≡◌, ◌+◌, ◌<◌, ◌≤◌, ℕ, List, [], ◌∷◌, ◌++◌, Some, None, IsOk, OnOk, nat_le, option_and_then, if◌then◌else◌};
ghost use Rattle.std.specs.Str.{bytes_eq};
ghost use Rattle.dup_index.specs.inner.Known.{Known, place_of, from_place};

mod key;
mod known;

pub use crate::key::Key;
pub use crate::known::KnownKey;
use crate::known::Sought;
use indexmap::IndexSet;
use std::alloc::{AllocError, Global};
use std::hash::RandomState;
use std::marker::Model;

/// The known keys. They are hashed under a random seed, so that no sender can choose keys that collide.
#[derive(Drop)]
pub struct Keys {
    known: IndexSet<KnownKey, RandomState>,
}

impl Model for Keys {
    ghost use Rattle.indexmap.specs.IndexSet.{spare};
    ghost use Rattle.dup_index.specs.inner.Known.{Index, EachOnce};

    ghost Value = { Index };

    ghost view = { λ s. record { known = s.known.keys; room = spare s.known } };

    ghost invariant = { λ s. EachOnce s.known.keys };
}

impl Keys {
    /// An index without keys, which are hashed by `hasher`.
    pub fn new(alloc: Global, hasher: RandomState) -> Keys
        ensures { result.known ≡ [] }
    {
        Keys {
            known: IndexSet::with_hasher(alloc, hasher),
        }
    }

    /// The history index of a key, if it is known.
    pub fn find(&self, key: &[u8]) -> Option<u32>
        ensures { result ≡ place_of key.now self.now.known }
    {
        let known = self.known.get(Sought { bytes: key })?;
        Some(known.place())
    }

    /// Makes room for that many more keys. The keys stay, also where memory is refused.
    ///
    /// # Errors
    ///
    /// Where memory is refused, which it is only where there was less room than that.
    pub fn reserve(&mut self, additional: usize) -> Result<(), AllocError>
        ensures known { self.new.known ≡ self.old.known }
        ensures room { self.old.room ≤ self.new.room }
        ensures ok { OnOk result (additional ≤ self.new.room) }
        ensures succeeds { additional ≤ self.old.room → IsOk result }
    {
        self.known.reserve(additional)
    }

    /// Adds a key that is not known yet. There has to be room for it, so no memory is requested.
    pub fn add(&mut self, key: KnownKey)
        requires unknown { place_of key.key self.old.known ≡ None }
        requires room { 0 < self.old.room }
        ensures known { self.new.known ≡ self.old.known ++ key ∷ [] }
        ensures room { self.old.room ≤ self.new.room + 1 }
    {
        let _added = self.known.insert(key).unwrap();
    }

    /// Forgets the keys whose history index is before `place`, and releases the memory that those that stay don't
    /// need. Where it is refused a smaller piece of memory, it keeps what it has.
    pub fn drop_before(&mut self, place: usize)
        ensures known { self.new.known ≡ from_place place self.old.known }
        ensures found { (key : List ℕ) → place_of key self.new.known
            ≡ option_and_then (λ added. if nat_le place added then Some added else None) (place_of key self.old.known) }
    {
        self.known.retain(
            |known: &KnownKey| -> bool
                ensures { result ≡ nat_le place known.now.place }
            { place <= known.place() as usize },
        );
        self.known.shrink_to_fit();
    }
}

/// The law of keys: one that is added is found with its index, and every other as before.
pub fn key_rules()
    ensures { (known : List Known) (added key : List ℕ) (place : ℕ) → place_of added known ≡ None →
        place_of key (known ++ record { key = added; place = place } ∷ []) ≡ (if bytes_eq key added then Some place else place_of key known) }
{}
