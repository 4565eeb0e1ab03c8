ghost use Rattle.std.specs.Prelude.{◌≡◌, IfOk, length};
ghost use Rattle.std.specs.Arc.{arc_value};
ghost use Rattle.er7_tree.specs.inner.Spans.{covered, IsBetween};
ghost use Rattle.hl7_head.specs.inner.Places.{AreWithin, pieces_at};

use crate::places::Places;
use er7_tree::{Delims, Message, Span};
use std::alloc::AllocError;
use std::marker::Model;
use std::sync::Arc;

/// The header of a message: the fields and components of its segment MSH that an engine reads, raw. It keeps the text of the
/// message, as one more of its owners.
#[derive(Drop)]
pub struct Header {
    delims: Delims,
    text: Arc<Vec<u8>>,
    size: usize,
    places: Places,
}

impl Model for Header {
    ghost use Rattle.std.specs.Prelude.{length};
    ghost use Rattle.hl7_head.specs.Header.{Msh};
    ghost use Rattle.std.specs.Arc.{arc_value};
    ghost use Rattle.hl7_head.specs.inner.Places.{AreWithin, pieces_at};

    ghost Value = { Msh };

    ghost view = { λ h. pieces_at h.delims (arc_value h.text).items h.places };

    ghost invariant = { λ h. AreWithin (length (arc_value h.text).items) h.places };
}

impl Header {
    ghost use Rattle.hl7_head.specs.Header.{header};

    /// The header of a message.
    ///
    /// # Errors
    ///
    /// Where the message's text has more owners than can be counted.
    pub fn read(message: &Message) -> Result<Header, AllocError>
        ensures { IfOk result (λ h. h ≡ header message.now) }
    {
        let delims = message.delims();
        let (text, segment) = message.shared_header();
        let text = Arc::try_clone(text)?;
        let places = Places::of(text.as_slice(), segment, delims);
        Ok(Header {
            delims,
            text,
            size: segment.end - segment.start,
            places,
        })
    }

    /// The delimiters that MSH-1 and MSH-2 declare.
    pub fn delims(&self) -> Delims
        ensures { result ≡ self.now.delims }
    {
        self.delims
    }

    /// How many bytes the segment has.
    pub(crate) fn size(&self) -> usize {
        self.size
    }

    /// The text of the message, and the spans of the pieces in it.
    ///
    /// It exists for speed: pieces that are side by side in the text are copied as one.
    pub(crate) fn source(&self) -> (&[u8], &Places)
        ensures pieces { pieces_at self.now.delims result.0.now result.1.now ≡ self.now }
        ensures within { AreWithin (length result.0.now) result.1.now }
    {
        (self.text.as_slice(), &self.places)
    }

    /// MSH-2, the encoding characters, with the fifth where there is one.
    pub fn encoding_characters(&self) -> &[u8]
        ensures { result.now ≡ self.now.encoding_characters }
    {
        self.places.encoding_characters.of(self.text.as_slice())
    }

    /// MSH-3, the sending application.
    pub fn sending_application(&self) -> &[u8]
        ensures { result.now ≡ self.now.sending_application }
    {
        self.places.sending_application.of(self.text.as_slice())
    }

    /// MSH-4, the sending facility.
    pub fn sending_facility(&self) -> &[u8]
        ensures { result.now ≡ self.now.sending_facility }
    {
        self.places.sending_facility.of(self.text.as_slice())
    }

    /// MSH-5, the receiving application.
    pub fn receiving_application(&self) -> &[u8]
        ensures { result.now ≡ self.now.receiving_application }
    {
        self.places.receiving_application.of(self.text.as_slice())
    }

    /// MSH-6, the receiving facility.
    pub fn receiving_facility(&self) -> &[u8]
        ensures { result.now ≡ self.now.receiving_facility }
    {
        self.places.receiving_facility.of(self.text.as_slice())
    }

    /// MSH-9.1, the message code.
    pub fn message_code(&self) -> &[u8]
        ensures { result.now ≡ self.now.message_code }
    {
        self.places.message_code.of(self.text.as_slice())
    }

    /// MSH-9.2, the trigger event.
    pub fn trigger_event(&self) -> &[u8]
        ensures { result.now ≡ self.now.trigger_event }
    {
        self.places.trigger_event.of(self.text.as_slice())
    }

    /// MSH-10, the message control id.
    pub fn control_id(&self) -> &[u8]
        ensures { result.now ≡ self.now.control_id }
    {
        self.places.control_id.of(self.text.as_slice())
    }

    /// The text of the message, and the span of MSH-10 in it.
    ///
    /// It exists for speed: a value that keeps the control id shares that text, and copies nothing.
    pub fn shared_control_id(&self) -> (&Arc<Vec<u8>>, Span)
        ensures value { covered (arc_value result.0.now).items result.1 ≡ self.now.control_id }
        ensures between { IsBetween 0 (length (arc_value result.0.now).items) result.1 }
    {
        (&self.text, self.places.control_id)
    }

    /// MSH-11, the processing id.
    pub fn processing_id(&self) -> &[u8]
        ensures { result.now ≡ self.now.processing_id }
    {
        self.places.processing_id.of(self.text.as_slice())
    }

    /// MSH-11.1, the processing id proper (table 0103).
    pub fn processing_code(&self) -> &[u8]
        ensures { result.now ≡ self.now.processing_code }
    {
        self.places.processing_code.of(self.text.as_slice())
    }

    /// MSH-12, the version id.
    pub fn version_id(&self) -> &[u8]
        ensures { result.now ≡ self.now.version_id }
    {
        self.places.version_id.of(self.text.as_slice())
    }

    /// MSH-12.1, the version id proper (table 0104).
    pub fn version_code(&self) -> &[u8]
        ensures { result.now ≡ self.now.version_code }
    {
        self.places.version_code.of(self.text.as_slice())
    }

    /// MSH-15, the accept acknowledgment type (table 0155).
    pub fn accept_type(&self) -> &[u8]
        ensures { result.now ≡ self.now.accept_type }
    {
        self.places.accept_type.of(self.text.as_slice())
    }

    /// MSH-16, the application acknowledgment type (table 0155).
    pub fn application_type(&self) -> &[u8]
        ensures { result.now ≡ self.now.application_type }
    {
        self.places.application_type.of(self.text.as_slice())
    }
}
