//! A document that is written piece by piece: the program's own text is written as it is, and all other text is escaped.

ghost use Rattle.std.specs.Prelude.{◌≡◌, ◌++◌, ◌∷◌, [], ℕ, List, OnOk, Some, false, true};
ghost use Rattle.std.specs.List.{flat_map, list_all};
ghost use Rattle.service_http.specs.inner.Escape.{after_string, html_text, html_byte, is_inert, json_text, json_byte};

use std::alloc::{AllocError, Global};

/// The laws of escaped text: in HTML it begins and ends no tag and ends no attribute's value; and a JSON string ends behind it, and
/// not within.
pub fn escape_rules()
    ensures html { (text : List ℕ) → list_all is_inert (html_text text) ≡ true }
    ensures json { (text rest : List ℕ)
        → after_string false (flat_map json_byte text ++ 34 ∷ rest) ≡ Some rest }
{}

/// A document that is being written. Its markup is the program's own text; text from outside is added by `text` or `string`.
#[derive(Drop)]
pub struct Document {
    bytes: Vec<u8>,
}

/// Adds a byte as HTML has it in text and in an attribute's value: `<`, `>`, `&`, `"` and `'` as references.
fn add_html_byte(bytes: &mut Vec<u8>, byte: u8) -> Result<(), AllocError>
    ensures { OnOk result (bytes.new.items ≡ bytes.old.items ++ html_byte byte) }
{
    match byte {
        b'<' => bytes.extend_from_slice(b"&lt;"),
        b'>' => bytes.extend_from_slice(b"&gt;"),
        b'&' => bytes.extend_from_slice(b"&amp;"),
        b'"' => bytes.extend_from_slice(b"&quot;"),
        b'\'' => bytes.extend_from_slice(b"&#39;"),
        byte => Ok(bytes.push(byte)?),
    }
}

/// Adds a byte as a JSON string has it between its quotation marks. A control byte is shown as a question mark.
fn add_json_byte(bytes: &mut Vec<u8>, byte: u8) -> Result<(), AllocError>
    ensures { OnOk result (bytes.new.items ≡ bytes.old.items ++ json_byte byte) }
{
    match byte {
        b'"' => bytes.extend_from_slice(b"\\\""),
        b'\\' => bytes.extend_from_slice(b"\\\\"),
        0..=31 => Ok(bytes.push(b'?')?),
        byte => Ok(bytes.push(byte)?),
    }
}

impl Document {
    /// An empty document.
    pub fn new(alloc: Global) -> Self
        ensures { result.bytes.items ≡ [] }
    {
        Document {
            bytes: Vec::new(alloc),
        }
    }

    /// Its bytes.
    pub fn into_bytes(self) -> Vec<u8>
        ensures { result.items ≡ self.bytes.items }
    {
        self.bytes
    }

    /// Adds the program's own text, as it is.
    ///
    /// # Errors
    ///
    /// Where memory is refused.
    pub fn markup(&mut self, text: &'static str) -> Result<(), AllocError>
        ensures { OnOk result (self.new.bytes.items ≡ self.old.bytes.items ++ text.now) }
    {
        self.bytes.extend_from_slice(text.as_bytes())
    }

    /// Adds a text as HTML shows it.
    ///
    /// # Errors
    ///
    /// Where memory is refused.
    pub fn text(&mut self, text: &str) -> Result<(), AllocError>
        ensures { OnOk result (self.new.bytes.items ≡ self.old.bytes.items ++ html_text text.now) }
    {
        for byte in text.as_bytes() {
            add_html_byte(&mut self.bytes, *byte)?;
        }
        Ok(())
    }

    /// Adds a text as a JSON string, with its quotation marks.
    ///
    /// # Errors
    ///
    /// Where memory is refused.
    pub fn string(&mut self, text: &str) -> Result<(), AllocError>
        ensures { OnOk result (self.new.bytes.items ≡ self.old.bytes.items ++ json_text text.now) }
    {
        self.bytes.push(b'"')?;
        for byte in text.as_bytes() {
            add_json_byte(&mut self.bytes, *byte)?;
        }
        self.bytes.push(b'"')?;
        Ok(())
    }

    /// Adds a number in decimal digits.
    ///
    /// # Errors
    ///
    /// Where memory is refused.
    pub fn number(&mut self, number: u64) -> Result<(), AllocError> {
        let mut digits = [0u8; 20];
        let mut left = number;
        let mut start = 20;
        for index in (0..20usize).rev() {
            digits[index] = b'0' + (left % 10) as u8;
            start = index;
            left /= 10;
            if left == 0 {
                break;
            }
        }
        self.bytes.extend_from_slice(&digits[start.min(20)..])
    }
}
