//! The framing of HL7's minimal lower layer protocol (MLLP), Release 1: messages as blocks of a byte stream.
//!
//! A block is the start block character, the data, the end block character and a carriage return (MLLP Release 1,
//! block format). The standard has data hold the carriage return and bytes above 0x1F. Here data may hold any byte but
//! the start and the end block character. Bytes outside blocks are skipped, and Release 1 has no acknowledgment bytes
//! of its own.
#![tactic(auto)]

ghost use Rattle.std.specs.Prelude.{◌≡◌, ◌≤◌, [], ◌∷◌, ◌++◌, length, OnOk, OnErr};
ghost use Rattle.mllp_frame.specs.Event.{block};
ghost use Rattle.mllp_frame.specs.Framing.{blocks, data_max, block_bytes, IsData};
ghost use Rattle.mllp_frame.specs.inner.Framing.{open_end};

mod laws;
mod search;
mod stage;

pub use fixed_numbers::{CARRIAGE_RETURN, DATA_MAX, END_BLOCK, START_BLOCK};
pub use laws::{
    any_pieces, blocks_hold_data, cutting_rules, longer_streams, open_end_is_short, reading_back,
    single_bytes,
};
use stage::{Stage, read};
use std::alloc::{AllocError, Global};
use std::collections::VecDeque;
use std::marker::Model;
use thiserror::Error;

/// How a block was broken.
#[derive(Clone, Copy, Debug, PartialEq, Eq)]
pub enum Break {
    /// A start block character was read in its data. It opens the next block.
    NewStart,
    /// Its end block character was followed by another byte than a carriage return. That byte is outside of blocks.
    BadEnd,
    /// It ended with more than [`DATA_MAX`] data bytes.
    TooLong,
}

/// What a stream holds, in order. Bytes outside of blocks give no event.
#[derive(PartialEq, Eq, Drop)]
pub enum FrameEvent {
    /// A whole block, by its data, of at most [`DATA_MAX`] bytes.
    Block(Vec<u8>),
    /// A broken block, whose data is dropped.
    Broken(Break),
}

/// Why a piece of a stream was refused.
#[derive(Clone, Copy, Debug, PartialEq, Eq, Error)]
pub enum FrameFault {
    /// Memory was refused, so that the rest of the stream can't be read. The events found so far can still be taken.
    #[error("no memory for the stream")]
    NoMemory,
    /// Memory was refused for an earlier piece.
    #[error("an earlier piece of the stream was refused")]
    Failed,
}

impl FrameFault {
    ghost use Rattle.std.specs.Prelude.{◌≡◌};
    ghost use Rattle.mllp_frame.specs.inner.Code.{code_of};

    /// The number of the fault, 1 or 2, as it is given where no name can be.
    pub fn code(&self) -> u32
        ensures { result ≡ code_of self.now }
    {
        match self {
            FrameFault::NoMemory => 1,
            FrameFault::Failed => 2,
        }
    }
}

impl From<AllocError> for FrameFault {
    ghost use Rattle.std.specs.Prelude.{◌≡◌};
    ghost use Rattle.mllp_frame.specs.declared.FrameFault.TheVariants.{NoMemory};

    ghost from_gives = { λ _ fault. fault ≡ NoMemory };

    fn from(_: AllocError) -> Self {
        FrameFault::NoMemory
    }
}

/// Finds the blocks of a stream that is received in pieces, however it is cut.
///
/// Contracts see the events to come, the open end of the stream, and whether memory was refused. Beside the events
/// at most one block's data is held.
#[derive(Drop)]
pub struct Framer {
    alloc: Global,
    /// The events to come.
    events: VecDeque<FrameEvent>,
    /// The position of the framer in the stream; none where memory was refused.
    stage: Option<Stage>,
}

impl Model for Framer {
    ghost use Rattle.std.specs.Prelude.{[], map, is_none};
    ghost use Rattle.std.specs.List.{AllByRecursion};
    ghost use Rattle.std.specs.Option.{ForSome, option_map_or};
    ghost use Rattle.mllp_frame.specs.inner.Framed.{Framed};

    ghost Value = { Framed };

    ghost use Rattle.mllp_frame.specs.inner.Event.{event_of};
    ghost use Rattle.mllp_frame.specs.inner.Framing.{HoldsData};
    ghost use Rattle.mllp_frame.specs.inner.Stage.{open_block, HoldsShortData};

    ghost view = { λ f. record { to_come = map event_of f.events.items; open_end = option_map_or open_block f.stage []; failed = is_none f.stage } };

    ghost invariant = { λ f. ForSome f.stage HoldsShortData × AllByRecursion HoldsData (map event_of f.events.items) };
}

impl Framer {
    ghost use Rattle.std.specs.Prelude.{◌≡◌, ◌↔◌, slice_get, false, true, OnOk, IfSome, IsErrOf, IsOk, option_map};
    ghost use Rattle.mllp_frame.specs.inner.Event.{event_of};
    ghost use Rattle.mllp_frame.specs.inner.Framing.{HoldsData};
    ghost use Rattle.mllp_frame.specs.inner.Framed.{blank, fed, taken, GivesUp};
    ghost use Rattle.mllp_frame.specs.inner.Stage.{IsQuiet};

    /// A framer at the start of a stream.
    pub fn new(alloc: Global) -> Self
        ensures { result ≡ blank }
    {
        Framer {
            alloc,
            events: VecDeque::new(alloc),
            stage: Some(Stage::Outside),
        }
    }

    /// Reads the next piece of the stream, of any length.
    ///
    /// # Errors
    ///
    /// `NoMemory` where a growth was refused: the first of the piece's events may have been found, and the rest of the
    /// stream is given up. From then on `Failed`.
    pub fn feed(&mut self, piece: &[u8]) -> Result<(), FrameFault>
        ensures ok { OnOk result (self.new ≡ fed self.old piece.now) }

        ensures failed { (result ≡ Err FrameFault.Failed) ↔ (self.old.failed ≡ true) }
        ensures unchanged { IsErrOf result FrameFault.Failed → self.new ≡ self.old }

        ensures gives_up { IsErrOf result FrameFault.NoMemory → GivesUp self.old self.new piece.now }

        // A piece that opens no block where none is open requests no memory.
        ensures quiet { self.old.failed ≡ false → IsQuiet self.old.open_end piece.now → IsOk result }
    {
        let Some(stage) = self.stage.take() else {
            return Err(FrameFault::Failed);
        };
        self.stage = Some(read(self.alloc, stage, &mut self.events, piece)?);
        Ok(())
    }

    /// Takes the next event, if one is left. It requests no memory, and a framer that has failed still returns
    /// the events that it found.
    pub fn next(&mut self) -> Option<FrameEvent>
        ensures event { option_map event_of result ≡ slice_get self.old.to_come 0 }
        ensures rest { self.new ≡ taken self.old }

        // A block's data can be read as a message, and written as a block again.
        ensures sound { IfSome result (λ event. HoldsData (event_of event)) }
    {
        self.events.pop_front()
    }
}

/// Appends a block with this text as its data. The text holds neither of the two framing bytes; its length has no
/// limit here, and a reader takes [`DATA_MAX`] bytes.
///
/// # Errors
///
/// `AllocError` where `out` could not grow; it is then as it was.
pub fn write_block(text: &[u8], out: &mut Vec<u8>) -> Result<(), AllocError>
    requires { IsData text.now }
    ensures ok { OnOk result (out.new.items ≡ out.old.items ++ block_bytes text.now) }
    ensures err { OnErr result (out.new.items ≡ out.old.items) }

    // Reading what was written finds the block, with the same data, behind what was there before.
    ensures read_back { OnOk result (length text.now ≤ data_max → open_end out.old.items ≡ [] →
        blocks out.new.items ≡ blocks out.old.items ++ block text.now ∷ []) }
{
    out.reserve(text.len() + 3)?;
    out.push_reserved(START_BLOCK);
    out.extend_from_slice(text)?;
    out.push_reserved(END_BLOCK);
    out.push_reserved(CARRIAGE_RETURN);
    Ok(())
}
