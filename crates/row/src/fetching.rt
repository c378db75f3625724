// Stage 1 of a row: the bytes of a layer, one a column.
ghost use Rattle.std.specs.Prelude.{◌≡◌, ◌+◌, ◌≤◌, length, slice_index};
ghost use Rattle.dots.specs.Tables.{table};
ghost use Rattle.row.specs.Glyphs.{fetch, glyph_byte, block_byte};
ghost use Rattle.row.specs.Dots.{layer_byte};
ghost use Rattle.row.specs.Stages.{line_address};

use crate::BlockRow;
use crate::glyphs::fetch;
use crate::scene::Scene;
use dots::clear;
use registers::MEMORY_SIZE;

// The address of row q of a block, or of its text line q.
pub fn line_address(start: u16, pitch: u16, q: u16) -> u16
    ensures { result ≡ line_address start pitch q }
{
    start.wrapping_add(q.wrapping_mul(pitch))
}

// The bytes from an address on: one copy, unless they reach past the end of memory or of the addresses.
fn memory_bytes(memory: &[u8; MEMORY_SIZE], start: u16, line: &mut [u8])
    ensures { line.new ≡ table (length line.old) (λ c. fetch memory.now (start + c)) }
{
    let at = usize::from(start);
    let end = at + line.len();
    if end <= memory.len() {
        line.copy_from_slice(&memory[at..end]);
    } else {
        let mut address = start;
        for byte in line.iter_mut() {
            *byte = fetch(memory, address);
            address = address.wrapping_add(1);
        }
    }
}

impl Scene<'_> {
    // A glyph row of each code, in the code's place.
    fn glyph_bytes(&self, row: u16, line: &mut [u8])
        ensures { let s = self.now in
            line.new ≡ table (length line.old) (λ c. glyph_byte s.registers s.memory.now s.font.now (slice_index line.old c) row) }
    {
        // A copy, so that what each byte's glyph needs is read once, and not again behind each write.
        let scene = *self;
        for byte in line.iter_mut() {
            *byte = scene.glyph_byte(*byte, row);
        }
    }

    // The bytes of a row of text or graphics.
    fn block_bytes(&self, shown: BlockRow, line: &mut [u8])
        ensures { let s = self.now in
            line.new ≡ table (length line.old) (block_byte s.registers s.memory.now s.font.now shown) }
    {
        let r = &self.registers;
        let start = shown.block.sad(r.blocks);
        let pitch = r.system.ap;
        if shown.block.is_text(r.overlay) {
            let height = r.system.fy.count().0;
            let text_line = shown.row / height;
            memory_bytes(self.memory, line_address(start, pitch, text_line), line);
            self.glyph_bytes(shown.row % height, line);
        } else {
            memory_bytes(self.memory, line_address(start, pitch, shown.row), line);
        }
    }

    // The bytes of a layer: zeros where it shows nothing, or FP darkens its block.
    #[tactic(auto, unfolding(crate::specs::Dots::layer_byte))]
    pub fn layer_bytes(&self, layer: Option<BlockRow>, line: &mut [u8])
        ensures { let s = self.now in
            line.new ≡ table (length line.old) (layer_byte s.registers s.memory.now s.font.now s.frame layer) }
    {
        let fp = self.registers.display.fp;
        match layer {
            Some(shown) if shown.block.is_lit(fp, self.frame) => self.block_bytes(shown, line),
            _ => clear(line),
        }
    }
}
