// Rows of dots, from the registers, display memory, a font and a frame number.
#![tactic(auto)]

mod blocks;
mod cursor;
mod fetching;
mod flashing;
mod glyphs;
mod layers;
mod refusals;
mod rows;
mod scene;
mod width;

use registers::Count;
pub use rows::{compose, frame_size};

// The four screen blocks. Public, as the table of edges names them.
#[derive(Clone, Copy)]
pub enum Block {
    One,
    Two,
    Three,
    Four,
}

// A row of a block, counted from the block's first. A layer shows one on a row, or none.
#[derive(Clone, Copy)]
pub(crate) struct BlockRow {
    pub block: Block,
    pub row: u16,
}

// Where a code's glyph comes from: nowhere, a glyph of the font, or CG RAM. Public, as the table of edges names it.
#[derive(Clone, Copy)]
pub enum Glyph {
    Empty,
    Font(u8),
    CgRam,
}

// The dots of a row, and the rows of a frame.
#[derive(Clone, Copy)]
pub struct FrameSize {
    pub width: u16,
    pub rows: Count,
}
