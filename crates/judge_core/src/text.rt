//! Bytes that many owners share.

ghost use Rattle.std.specs.Prelude.{◌≡◌, ◌↔◌, IfOk, IsTrue, length};
ghost use Rattle.std.specs.Arc.{arc_value};
ghost use Rattle.er7_tree.specs.inner.Spans.{covered, IsBetween};
ghost use Rattle.mllp_frame.specs.Framing.{IsBlockData};

use er7_tree::Span;
use mllp_frame::{DATA_MAX, END_BLOCK, START_BLOCK};
use std::alloc::{AllocError, Global};
use std::marker::Model;
use std::sync::Arc;

/// The bytes of a text, held once for all its owners.
#[derive(Drop)]
pub struct Text {
    shared: Arc<Vec<u8>>,
}

/// A text takes 8 bytes beside the bytes that it shares.
const _: () = prove!(size_of::<Text>() == 8);

impl Model for Text {
    ghost use Rattle.std.specs.Prelude.{List, ℕ};
    ghost use Rattle.std.specs.Arc.{arc_value};

    ghost Value = { List ℕ };

    ghost view = { λ t. (arc_value t.shared).items };
}

impl Text {
    /// The text of these bytes.
    ///
    /// # Errors
    ///
    /// Where memory is refused.
    pub fn new(alloc: Global, bytes: Vec<u8>) -> Result<Text, AllocError>
        ensures { IfOk result (λ text. text ≡ bytes.items) }
    {
        Ok(Text::of(Arc::new(alloc, bytes)?))
    }

    /// The text of bytes that are shared, as one more of their owners.
    pub(crate) fn of(shared: Arc<Vec<u8>>) -> Text
        ensures { result ≡ (arc_value shared).items }
    {
        Text { shared }
    }

    /// The same bytes for one more owner.
    ///
    /// # Errors
    ///
    /// Where its bytes have more owners than can be counted.
    pub fn share(&self) -> Result<Text, AllocError>
        ensures { IfOk result (λ text. text ≡ self.now) }
    {
        Ok(Text {
            shared: Arc::try_clone(&self.shared)?,
        })
    }

    /// The bytes.
    pub fn as_slice(&self) -> &[u8]
        ensures { result.now ≡ self.now }
    {
        self.shared.as_slice()
    }

    /// The piece that a span covers, as one more owner of the bytes.
    ///
    /// # Errors
    ///
    /// Where the span ends at 4 GiB or behind it, or the bytes have more owners than can be counted.
    pub fn piece(&self, span: Span) -> Result<TextPiece, AllocError>
        requires { IsBetween 0 (length self.now) span }
        ensures { IfOk result (λ piece. piece ≡ covered self.now span) }
    {
        TextPiece::of(&self.shared, span)
    }
}

/// A piece of a text, as a span of the bytes that its owners share: so it takes no memory of its own where it is kept.
#[derive(Drop)]
pub struct TextPiece {
    shared: Arc<Vec<u8>>,
    start: u32,
    end: u32,
}

/// A piece takes 16 bytes beside the bytes that it shares.
const _: () = prove!(size_of::<TextPiece>() == 16);

impl Model for TextPiece {
    ghost use Rattle.std.specs.Prelude.{List, ℕ, length};
    ghost use Rattle.std.specs.Arc.{arc_value};
    ghost use Rattle.er7_tree.specs.inner.Spans.{covered, IsBetween};

    ghost Value = { List ℕ };

    ghost view = { λ t. covered (arc_value t.shared).items (record { start = t.start; end = t.end }) };

    ghost invariant = { λ t. IsBetween 0 (length (arc_value t.shared).items) (record { start = t.start; end = t.end }) };
}

/// An offset in a text as 32 bits.
///
/// # Errors
///
/// Where the offset is 4 GiB or more; it is refused as memory is.
pub fn offset_32(offset: usize) -> Result<u32, AllocError>
    ensures { IfOk result (λ p. p ≡ offset) }
{
    u32::try_from(offset).map_err(|_| AllocError)
}

impl TextPiece {
    /// The piece of bytes that are shared, as one more of their owners. A span that ends at 4 GiB or behind it, where no
    /// block reaches, is refused as memory is.
    pub(crate) fn of(shared: &Arc<Vec<u8>>, span: Span) -> Result<TextPiece, AllocError>
        requires { IsBetween 0 (length (arc_value shared.now).items) span }
        ensures { IfOk result (λ piece. piece ≡ covered (arc_value shared.now).items span) }
    {
        let start = offset_32(span.start)?;
        let end = offset_32(span.end)?;
        Ok(TextPiece {
            shared: Arc::try_clone(shared)?,
            start,
            end,
        })
    }

    /// The same piece for one more owner.
    ///
    /// # Errors
    ///
    /// Where its bytes have more owners than can be counted.
    pub fn share(&self) -> Result<TextPiece, AllocError>
        ensures { IfOk result (λ piece. piece ≡ self.now) }
    {
        Ok(TextPiece {
            shared: Arc::try_clone(&self.shared)?,
            start: self.start,
            end: self.end,
        })
    }

    /// The bytes.
    pub fn as_slice(&self) -> &[u8]
        ensures { result.now ≡ self.now }
    {
        let span = Span {
            start: self.start as usize,
            end: self.end as usize,
        };
        span.of(self.shared.as_slice())
    }
}

/// Whether a block can hold this text (MLLP Release 1): it is short enough, and has neither 0x0B nor 0x1C.
pub fn fits_block(text: &[u8]) -> bool
    ensures { IsTrue result ↔ IsBlockData text.now }
{
    text.len() <= DATA_MAX && !text.iter().any(|b| *b == START_BLOCK || *b == END_BLOCK)
}
