// The four screen blocks.
ghost use Rattle.std.specs.Prelude.{◌≡◌};
ghost use Rattle.row.specs.Layers.{is_text, sad, block_row};

use crate::{Block, BlockRow};
use registers::{Blocks, Overlay};

impl Block {
    // A row of it.
    pub(crate) fn row(self, row: u16) -> BlockRow
        ensures { result ≡ block_row self row }
    {
        BlockRow { block: self, row }
    }

    #[tactic(auto, unfolding(crate::specs::Layers::is_text))]
    pub(crate) fn is_text(self, o: Overlay) -> bool
        ensures { result ≡ is_text o self }
    {
        match self {
            Block::One => !o.dm1,
            Block::Three => !o.dm2,
            Block::Two | Block::Four => false,
        }
    }

    // Its start address.
    #[tactic(auto, unfolding(crate::specs::Layers::sad))]
    pub(crate) fn sad(self, b: Blocks) -> u16
        ensures { result ≡ sad b self }
    {
        match self {
            Block::One => b.sad1,
            Block::Two => b.sad2,
            Block::Three => b.sad3,
            Block::Four => b.sad4,
        }
    }
}
