//! Changes of a message. The changed segment is made first, with all the memory that it takes, and then replaces the
//! old one: so a refused change leaves the message as it was.

ghost use Rattle.std.specs.Prelude.{◌≡◌, Err, IfErr, IfOk, IsErrOf, Ok, OnErr, OnOk, true};
ghost use Rattle.er7_tree.specs.Edit.{clear, copy, field_levels, has, has_in, put_field, remove_segments, set, with_piece};
ghost use Rattle.er7_tree.specs.Path.{is_path};
ghost use Rattle.er7_tree.specs.inner.Tree.{Gives, IsMessage, IsOccurrence};

use crate::delims::Delims;
use crate::escapes::escape;
use crate::message::Message;
use crate::path::Path;
use crate::pieces::{has_part, has_piece, piece, put, put_part};
use crate::refusal::Refusal;
use crate::segments::{field_place, is_header, is_name};
use std::alloc::{AllocError, Global};

/// The segment with another raw piece at a path of it; missing pieces before it are added empty.
fn put_field(
    alloc: Global,
    delims: Delims,
    path: &Path,
    new: &[u8],
    segment: &[u8],
) -> Result<Vec<u8>, AllocError>
    ensures { IfOk result (λ changed. changed.items ≡ put_field delims path.now new.now segment.now) }
{
    let place = field_place(segment, path.field());
    let field = piece(segment, delims.field(), place);
    let field = put_part(alloc, delims, path.part(), new, field)?;
    put(alloc, segment, delims.field(), place, &field)
}

/// Whether the piece at a path of the segment is there.
fn has_field(delims: Delims, path: &Path, segment: &[u8]) -> bool
    ensures { result ≡ has_in (field_levels delims path.now segment.now) segment.now }
{
    let place = field_place(segment, path.field());
    has_piece(segment, delims.field(), place)
        && has_part(delims, path.part(), piece(segment, delims.field(), place))
}

impl Message {
    /// Puts a raw piece at a path whose segment has the index `place`.
    fn put_piece(&mut self, place: usize, path: &Path, new: &[u8]) -> Result<(), AllocError>
        requires path { is_path path.now ≡ true }
        requires there { IsOccurrence path.now.segment path.now.occurrence self.old.segments place }
        requires kept { IsMessage (with_piece self.old path.now new.now) }
        ensures made { OnOk result (self.new ≡ with_piece self.old path.now new.now) }
        ensures unchanged { OnErr result (self.new ≡ self.old) }
    {
        let segment = self.at(place);
        let changed = put_field(self.allocator(), self.delims(), path, new, segment)?;
        self.replace_segment(place, &changed)
    }

    /// Gives the piece at a path this meaning: the value is escaped, and missing pieces before it are added empty.
    ///
    /// # Errors
    ///
    /// `BadPath` for MSH-1 and MSH-2, then `NoSuchSegment` where the path's segment isn't there, then
    /// `NoMemory` where memory is refused. The message is as it was.
    pub fn set(&mut self, path: &Path, value: &[u8]) -> Result<(), Refusal>
        ensures made { OnOk result (set self.old path.now value.now ≡ Ok self.new) }
        ensures refused { IfErr result (λ e. Gives (Err e) (set self.old path.now value.now)) }
        ensures unchanged { OnErr result (self.new ≡ self.old) }
    {
        if path.is_fixed() {
            return Err(Refusal::BadPath);
        }
        let place = self
            .place_of(path.segment(), path.occurrence())
            .ok_or(Refusal::NoSuchSegment)?;
        let escaped = escape(self.allocator(), &self.delims(), value)?;
        self.put_piece(place, path, &escaped)?;
        Ok(())
    }

    /// Copies the raw piece at one path to another of the same level, as from component to component; missing pieces before
    /// it are added empty.
    ///
    /// A piece to copy that isn't there is empty.
    ///
    /// # Errors
    ///
    /// `BadPath` where the levels differ, and for MSH-1 and MSH-2; then `NoSuchSegment` where the segment of
    /// the second path isn't there; then `NoMemory` where memory is refused. The message is as it was.
    pub fn copy(&mut self, from: &Path, to: &Path) -> Result<(), Refusal>
        ensures made { OnOk result (copy self.old from.now to.now ≡ Ok self.new) }
        ensures refused { IfErr result (λ e. Gives (Err e) (copy self.old from.now to.now)) }
        ensures unchanged { OnErr result (self.new ≡ self.old) }
    {
        if from.is_fixed() || to.is_fixed() || !from.is_level_with(to) {
            return Err(Refusal::BadPath);
        }
        let place = self
            .place_of(to.segment(), to.occurrence())
            .ok_or(Refusal::NoSuchSegment)?;
        let copied = Vec::from_slice(self.allocator(), self.get_raw(from))?;
        self.put_piece(place, to, &copied)?;
        Ok(())
    }

    /// Empties the piece at a path, where it is there; the pieces behind it keep their positions. Where it isn't
    /// there, nothing changes and no memory is requested.
    ///
    /// # Errors
    ///
    /// `BadPath` for MSH-1 and MSH-2, then `NoMemory` where the piece is there and memory is refused. The
    /// message is as it was.
    pub fn clear(&mut self, path: &Path) -> Result<(), Refusal>
        ensures made { OnOk result (clear self.old path.now ≡ Ok self.new) }
        ensures refused { IfErr result (λ e. Gives (Err e) (clear self.old path.now)) }
        ensures memory { IsErrOf result Refusal.NoMemory → has self.old path.now ≡ true }
        ensures unchanged { OnErr result (self.new ≡ self.old) }
    {
        if path.is_fixed() {
            return Err(Refusal::BadPath);
        }
        let Some(place) = self.place_of(path.segment(), path.occurrence()) else {
            return Ok(());
        };
        if !has_field(self.delims(), path, self.at(place)) {
            return Ok(());
        }
        self.put_piece(place, path, &[])?;
        Ok(())
    }

    /// Removes all segments of a name; it is no fault where there are none. It requests no memory.
    ///
    /// # Errors
    ///
    /// `BadPath` for MSH and for what is no segment's name. The message is as it was.
    pub fn remove_segments(&mut self, name: &[u8]) -> Result<(), Refusal>
        ensures made { OnOk result (remove_segments self.old name.now ≡ Ok self.new) }
        ensures refused { IfErr result (λ e. remove_segments self.old name.now ≡ Err e) }
        ensures unchanged { OnErr result (self.new ≡ self.old) }
    {
        if !is_name(name) || is_header(name) {
            return Err(Refusal::BadPath);
        }
        self.remove_named(name);
        Ok(())
    }
}
