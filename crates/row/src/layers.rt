// Which block each layer shows on a row.
ghost use Rattle.std.specs.Prelude.{◌≡◌};
ghost use Rattle.row.specs.Layers.{three_layers, split, halves, two_blocks, layer1, layer2, layer3};

use crate::{Block, BlockRow};
use registers::{Code, Overlay, Registers};

#[tactic(auto, unfolding(crate::specs::Layers::three_layers))]
pub fn three_layers(ws: bool, o: Overlay) -> bool
    ensures { result ≡ three_layers ws o }
{
    !ws && o.ov && o.dm2 && o.dm1
}

// A block for rows below [SL], then block 3.
#[tactic(auto, unfolding(crate::specs::Layers::split))]
fn split(block: Block, sl: Code, n: u16) -> BlockRow
    ensures { result ≡ split block sl n }
{
    let lines = sl.count().0;
    if n < lines {
        block.row(n)
    } else {
        Block::Three.row(n - lines)
    }
}

// A block in the upper half, blank from [SL] on, and a block in the lower half.
#[tactic(auto, unfolding(crate::specs::Layers::halves))]
fn halves(upper: Block, lower: Block, lf: Code, sl: Code, n: u16) -> Option<BlockRow>
    ensures { result ≡ halves upper lower lf sl n }
{
    let half = lf.count().0 / 2;
    if half <= n {
        Some(lower.row(n - half))
    } else if n < sl.count().0 {
        Some(upper.row(n))
    } else {
        None
    }
}

// What a layer shows that has two blocks: with W/S = 1 each in a half; else the first, above block 3 if `splits`.
fn two_blocks(
    r: &Registers,
    first: Block,
    second: Block,
    sl: Code,
    splits: bool,
    n: u16,
) -> Option<BlockRow>
    ensures { result ≡ two_blocks r.now first second sl splits n }
{
    if r.system.ws {
        halves(first, second, r.system.lf, sl, n)
    } else if splits && !three_layers(r.system.ws, r.overlay) {
        Some(split(first, sl, n))
    } else {
        Some(first.row(n))
    }
}

#[tactic(auto, unfolding(crate::specs::Layers::layer1))]
pub fn layer1(r: &Registers, n: u16) -> Option<BlockRow>
    ensures { result ≡ layer1 r.now n }
{
    let b = &r.blocks;
    two_blocks(r, Block::One, Block::Three, b.sl1, b.sl1.0 <= b.sl2.0, n)
}

#[tactic(auto, unfolding(crate::specs::Layers::layer2))]
pub fn layer2(r: &Registers, n: u16) -> Option<BlockRow>
    ensures { result ≡ layer2 r.now n }
{
    let b = &r.blocks;
    two_blocks(r, Block::Two, Block::Four, b.sl2, b.sl2.0 < b.sl1.0, n)
}

#[tactic(auto, unfolding(crate::specs::Layers::layer3))]
pub fn layer3(r: &Registers, n: u16) -> Option<BlockRow>
    ensures { result ≡ layer3 r.now n }
{
    three_layers(r.system.ws, r.overlay).then_some(Block::Three.row(n))
}
