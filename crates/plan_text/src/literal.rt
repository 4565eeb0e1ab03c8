//! A text of the plan.

ghost use Rattle.std.specs.Prelude.{◌≡◌, [], IfOk, string_bytes};

use std::alloc::{AllocError, Global};
use std::marker::Model;

/// A text as the plan writes it, in UTF-8: a name, an address, a code. Contracts see its bytes.
#[derive(Debug, Drop)]
pub struct Literal {
    text: String,
}

impl Model for Literal {
    ghost use Rattle.std.specs.Prelude.{List, ℕ, string_bytes};

    ghost Value = { List ℕ };

    ghost view = { λ l. string_bytes l.text };
}

impl Literal {
    /// A copy of the text.
    ///
    /// # Errors
    ///
    /// Where memory is refused.
    pub fn new(alloc: Global, text: &str) -> Result<Literal, AllocError>
        ensures { IfOk result (λ l. l ≡ text.now) }
    {
        Ok(Literal {
            text: String::from_str(alloc, text)?,
        })
    }

    /// The text without bytes.
    pub(crate) fn empty(alloc: Global) -> Literal
        ensures { result ≡ [] }
    {
        Literal {
            text: String::new(alloc),
        }
    }

    /// The text that a string holds.
    pub(crate) fn of_string(text: String) -> Literal
        ensures { result ≡ string_bytes text }
    {
        Literal { text }
    }

    /// The text.
    pub fn as_str(&self) -> &str
        ensures { result.now ≡ self.now }
    {
        self.text.as_str()
    }

    /// The bytes of the text.
    pub fn as_bytes(&self) -> &[u8]
        ensures { result.now ≡ self.now }
    {
        self.text.as_bytes()
    }
}

impl PartialEq for Literal {
    ghost use Rattle.std.specs.Str.{bytes_eq};
    ghost use Rattle.plan_text.specs.inner.Same.{text_laws};

    ghost eq = { bytes_eq };

    ghost laws = { text_laws };

    fn eq(&self, other: &Literal) -> bool {
        self.as_str() == other.as_str()
    }
}
