// A row of dots.
ghost use Rattle.std.specs.Prelude.{◌≡◌, ◌+◌, ◌≤◌, length, slice_index};
ghost use Rattle.registers.specs.Counts.{⁅◌⁆};
ghost use Rattle.dots.specs.Tables.{table};
ghost use Rattle.dots.specs.Mixing.{mix_code};
ghost use Rattle.dots.specs.MixedBytes.{mix_byte};
ghost use Rattle.row.specs.Dots.{layer_byte, width, composed_dot, is_shown, dots};
ghost use Rattle.row.specs.Rows.{frame_size, row_outcome, composed_outcome};
ghost use Rattle.row.specs.Stages.{ColumnDots};

use crate::layers::{layer1, layer2, layer3};
use crate::refusals::check_row;
use crate::scene::Scene;
use crate::width::{columns, depth, dots_per_column, row_width, shown_columns};
use crate::{BlockRow, FrameSize};
use dots::{Mix, clear, expand_scrolled, mix_bytes};
use registers::{FONT_SIZE, MEMORY_SIZE, Refusal, Registers};

impl Scene<'_> {
    // The bytes of a layer mixed into those of the layers before it. As a call of its own it makes rows of three layers 4 % slower.
    #[inline(always)]
    fn mix_layer(&self, layer: Option<BlockRow>, mix: Mix, line: &mut [u8], scratch: &mut [u8])
        requires { length scratch.old ≡ length line.old }
        ensures { let s = self.now in
            line.new ≡ table (length line.old)
            (λ c. mix_byte (mix_code mix) s.registers.grey (slice_index line.old c) (layer_byte s.registers s.memory.now s.font.now s.frame layer c)) }
    {
        self.layer_bytes(layer, scratch);
        mix_bytes(mix, depth(&self.registers), line, scratch);
    }

    #[tactic(auto, using(dots::proofs::CodeLaws::mix_codes))]
    fn mix(&self) -> Mix
        ensures { mix_code result ≡ self.now.registers.overlay.mx }
    {
        self.registers.overlay.mx.into()
    }

    // The bytes of row n, all layers mixed.
    fn mix_layers(&self, n: u16, line: &mut [u8], scratch: &mut [u8])
        requires line { (length line.old ≡ ⁅ self.now.registers.system.cr ⁆) × (length line.old ≤ 256) }
        requires scratch { length scratch.old ≡ ⁅ self.now.registers.system.cr ⁆ }
        ensures { let s = self.now in ColumnDots s.registers s.memory.now s.font.now s.frame n line.new }
    {
        let r = &self.registers;
        let layer = layer1(r, n);
        self.layer_bytes(layer, line);
        self.invert(layer, line);
        let mix = self.mix();
        self.mix_layer(layer2(r, n), mix, line, scratch);
        let third = layer3(r, n);
        if third.is_some() {
            self.mix_layer(third, mix.third(), line, scratch);
        }
    }

    // The dots of row n with the display on, by way of a line of its bytes: fetched, with the cursor, mixed, scrolled, and expanded. The row's own buffer
    // holds the bytes of layers 2 and 3 until its dots go there.
    #[tactic(auto, unfolding(crate::specs::Dots::width))]
    fn draw(&self, n: u16, out: &mut [u8])
        requires { length out.old ≡ width self.now.registers }
        ensures { let s = self.now in
            out.new ≡ table (width s.registers) (λ x. composed_dot s.registers s.memory.now s.font.now s.frame n (x + s.registers.hdot)) }
    {
        let r = &self.registers;
        let count = columns(r.system.cr);
        let mut buffer = [0u8; 256];
        let line = &mut buffer[..count];
        self.mix_layers(n, line, &mut out[..count]);
        let per = dots_per_column(r.grey, r.system.fx);
        let shown = shown_columns(r.hdot, r.system.cr);
        expand_scrolled(depth(r), per, usize::from(r.hdot), shown, line, out);
    }
}

fn is_shown(r: &Registers) -> bool
    ensures { result ≡ is_shown r.now.display.on r.now.asleep }
{
    r.display.on && !r.asleep
}

// How large a frame is, refused or not.
pub fn frame_size(registers: Registers) -> FrameSize
    ensures { result ≡ frame_size registers }
{
    let r = registers.in_layout();
    FrameSize {
        width: row_width(&r) as u16,
        rows: r.system.lf.count(),
    }
}

// Row n of a frame into a buffer of a byte a dot, which stands where the row is refused. The sizes of memory
// and font are tested here once for all stages.
pub fn compose(
    registers: Registers,
    memory: &[u8],
    font: &[u8],
    frame: u32,
    n: u32,
    out: &mut [u8],
) -> Result<(), Refusal>
    ensures { composed_outcome result out.new
        ≡ row_outcome registers memory.now font.now frame n out.old }
{
    let Ok(memory) = <&[u8; MEMORY_SIZE]>::try_from(memory) else {
        return Err(Refusal::MemorySize);
    };
    let Ok(font) = <&[u8; FONT_SIZE]>::try_from(font) else {
        return Err(Refusal::FontSize);
    };
    let registers = registers.in_layout();
    check_row(&registers, n, out.len())?;
    // Before there is a scene, whose registers a dark row does not store.
    if !is_shown(&registers) {
        clear(out);
        return Ok(());
    }
    Scene {
        registers,
        memory,
        font,
        frame,
    }
    .draw(n as u16, out);
    Ok(())
}
