// The cursor on a row.
ghost use Rattle.std.specs.Prelude.{◌≡◌, ℕ, ◌%◌, ◌≤◌, ◌&&◌, length, slice_index};
ghost use Rattle.registers.specs.Counts.{⁅◌⁆};
ghost use Rattle.dots.specs.Tables.{table};
ghost use Rattle.row.specs.Cursor.{in_shape, shows_cursor};
ghost use Rattle.row.specs.Stages.{first_bits, cursor_byte};

use crate::BlockRow;
use crate::fetching::line_address;
use crate::flashing::flashes;
use crate::layers::three_layers;
use crate::scene::Scene;
use registers::{Code, CursorForm};

const FIRST_BITS: [u8; 8] = [0, 128, 192, 224, 240, 248, 252, 254];

// A byte whose first [n] bits are set.
#[tactic(auto, unfolding(crate::specs::Stages::first_bits))]
fn first_bits(n: Code) -> u8
    ensures { result ≡ first_bits ⁅ n ⁆ }
{
    FIRST_BITS
        .get(usize::from(n.count().0))
        .copied()
        .unwrap_or(255)
}

// Whether the cursor's shape has a glyph row.
#[tactic(auto, unfolding(crate::specs::Cursor::in_shape))]
fn in_shape(f: CursorForm, row: u16) -> bool
    ensures { result ≡ in_shape f row }
{
    let height = f.cry.count().0;
    if f.cm {
        row < height
    } else {
        row == height - 1
    }
}

impl Scene<'_> {
    // Whether the cursor shows on a row of a block: then it inverts the cells whose code address it is.
    fn shows_cursor(&self, shown: BlockRow) -> bool
        ensures { result ≡ shows_cursor self.now.registers self.now.frame shown }
    {
        let r = &self.registers;
        !three_layers(r.system.ws, r.overlay)
            && shown.block.is_text(r.overlay)
            && flashes(r.display.fc, 64, self.frame)
            && in_shape(r.form, shown.row % r.system.fy.count().0)
    }

    // Stage 2 of a row: the cursor in the bytes of layer 1. A row has at most one column at its address.
    #[tactic(auto, unfolding(crate::specs::Cursor::has_cursor))]
    pub(crate) fn invert(&self, layer: Option<BlockRow>, line: &mut [u8])
        requires { length line.old ≤ 65536 }
        ensures { let s = self.now in
            line.new ≡ table (length line.old) (λ c. cursor_byte s.registers s.frame layer c (slice_index line.old c)) }
    {
        let Some(shown) = layer else { return };
        if self.shows_cursor(shown) {
            let r = &self.registers;
            let text_line = shown.row / r.system.fy.count().0;
            let start = line_address(shown.block.sad(r.blocks), r.system.ap, text_line);
            let at = usize::from(r.cursor.address.wrapping_sub(start));
            // By index: of a write through `get_mut` std says no more than that the length stays.
            if at < line.len() {
                line[at] ^= first_bits(r.form.crx);
            }
        }
    }
}
