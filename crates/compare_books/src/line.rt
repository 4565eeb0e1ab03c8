//! What comes on a connection.

use crate::dice::Dice;
use crate::known::Keys;
use anyhow::Result;
use std::alloc::{AllocError, Global};
use std::mem;

/// A block is cut into pieces of at most this many bytes.
const PIECE: u32 = 120;

/// A block that comes: the control id of its text, where it is a message, and the text.
#[derive(Drop)]
pub struct Block {
    pub id: u32,
    pub raw: Vec<u8>,
}

/// What is received on a connection next: the first bytes of a text were received already. At its end these blocks have ended.
#[derive(Drop)]
pub struct Line {
    alloc: Global,
    channel: u32,
    coming: Vec<u8>,
    came: usize,
    blocks: Vec<Block>,
}

/// A piece that comes on a channel, and the blocks that it ends.
#[derive(Drop)]
pub struct Piece {
    pub channel: u32,
    pub bytes: Vec<u8>,
    pub ended: Vec<Block>,
}

/// The text of a block: a message under a control id, or what is not answered.
fn text(alloc: Global, dice: &mut Dice, id: u32) -> Result<String, AllocError> {
    match dice.roll(8) {
        0 => dice.unanswered(alloc),
        _ => {
            let asked = dice.asked();
            dice.message(alloc, id, asked)
        }
    }
}

impl Line {
    /// A line on a channel on which nothing was received yet.
    pub(crate) fn new(alloc: Global, channel: u32) -> Line {
        Line {
            alloc,
            channel,
            coming: Vec::new(alloc),
            came: 0,
            blocks: Vec::new(alloc),
        }
    }

    /// Another block is to come, with a message or without.
    fn add_block(&mut self, dice: &mut Dice, keys: &Keys) -> Result<()> {
        let id = keys.pick(dice, self.channel)?;
        let text = text(self.alloc, dice, id)?;
        self.come(dice.between(), &text)?;
        let raw = text.into_bytes();
        self.blocks.push(Block { id, raw })?;
        Ok(())
    }

    /// A text is to come in a block, with something before it.
    fn come(&mut self, before: &str, text: &str) -> Result<(), AllocError> {
        let block = format!(in self.alloc; "{before}\x0b{text}\x1c\r")?;
        self.coming.extend_from_slice(block.as_bytes())
    }

    /// Where all was received, another block follows: a few of them now and then.
    fn add_blocks(&mut self, dice: &mut Dice, keys: &Keys) -> Result<()> {
        self.coming.clear();
        self.came = 0;
        let blocks = match dice.roll(6) {
            0 => 3,
            _ => 1,
        };
        for _ in 0..blocks {
            self.add_block(dice, keys)?;
        }
        Ok(())
    }

    /// The next piece, of messages whose keys weren't forgotten. A few blocks come as one.
    ///
    /// # Errors
    ///
    /// Where there is no further control id, or memory is refused.
    pub(crate) fn next(&mut self, dice: &mut Dice, keys: &Keys) -> Result<Piece> {
        if self.came >= self.coming.len() {
            self.add_blocks(dice, keys)?;
        }
        let len = if self.blocks.len() > 1 {
            usize::MAX
        } else {
            dice.roll(PIECE) as usize
        };
        Ok(self.piece(len)?)
    }

    /// What is left of the blocks that began.
    ///
    /// # Errors
    ///
    /// Where memory is refused.
    pub(crate) fn rest(&mut self) -> Result<Piece, AllocError> {
        self.piece(usize::MAX)
    }

    /// A piece of a limited number of bytes.
    fn piece(&mut self, most: usize) -> Result<Piece, AllocError> {
        let rest = self.coming.get(self.came..).unwrap_or(&[]);
        let len = rest.len().min(most);
        let (piece, later) = rest.split_at(len);
        let bytes = Vec::from_slice(self.alloc, piece)?;
        let ended = if later.is_empty() {
            mem::replace(&mut self.blocks, Vec::new(self.alloc))
        } else {
            Vec::new(self.alloc)
        };
        self.came = self.came.saturating_add(len);
        Ok(Piece {
            channel: self.channel,
            bytes,
            ended,
        })
    }
}
