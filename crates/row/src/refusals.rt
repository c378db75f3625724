// Which rows are refused. Each rule takes the fields that it names. The grey code stays a number here, as in `dots_per_column`.
ghost use Rattle.std.specs.Prelude.{◌≡◌, ◌<◌, OnOk};
ghost use Rattle.registers.specs.Refusals.{reply};
ghost use Rattle.registers.specs.Sizes.{memory_size, font_size};
ghost use Rattle.row.specs.Refusals.{grey_mode, smooth_scroll, odd_lines, layer_order, cursor_shape, row_refusal};

use crate::layers::three_layers;
use crate::width::row_width;
use registers::{Blocks, Code, CursorForm, Overlay, Refusal, Registers};

#[tactic(auto, unfolding(crate::specs::Refusals::grey_mode))]
fn grey_mode(grey: u8, o: Overlay, fx: Code) -> bool
    ensures { result ≡ grey_mode grey o fx }
{
    grey != 0 && (!o.dm2 || !o.dm1 || fx.count().0 != 8)
}

#[tactic(auto, unfolding(crate::specs::Refusals::smooth_scroll))]
fn smooth_scroll(hdot: u8, grey: u8, fx: Code, cr: Code) -> bool
    ensures { result ≡ smooth_scroll hdot grey fx cr }
{
    hdot != 0 && (grey != 0 || fx.count().0 <= u16::from(hdot) || cr.count().0 == 1)
}

#[tactic(auto, unfolding(crate::specs::Refusals::odd_lines))]
fn odd_lines(ws: bool, lf: Code) -> bool
    ensures { result ≡ odd_lines ws lf }
{
    ws && lf.count().0 % 2 == 1
}

#[tactic(auto, unfolding(crate::specs::Refusals::layer_order))]
fn layer_order(ws: bool, o: Overlay, b: Blocks) -> bool
    ensures { result ≡ layer_order ws o b }
{
    !ws && !three_layers(ws, o) && b.sl2.0 < b.sl1.0 && (!o.dm2 || !o.dm1)
}

#[tactic(auto, unfolding(crate::specs::Refusals::cursor_shape))]
fn cursor_shape(fc: u8, f: CursorForm, fx: Code) -> bool
    ensures { result ≡ cursor_shape fc f fx }
{
    fc != 0 && (f.cry.0 == 0 || fx.count().0 < f.crx.count().0)
}

// The first refusal that applies to row n, with memory and font of their sizes. An accepted row number fits 16 bits.
#[tactic(auto, unfolding(crate::specs::Refusals::row_refusal))]
pub fn check_row(r: &Registers, n: u32, buffer_length: usize) -> Result<(), Refusal>
    requires { r.now.grey < 3 }
    ensures result_value { (reply result).refusal ≡ row_refusal r.now memory_size font_size n buffer_length }
    ensures n_bound { OnOk result (n < 65536) }
{
    let s = &r.system;
    let width = row_width(r);
    if grey_mode(r.grey, r.overlay, s.fx) {
        return Err(Refusal::GreyMode);
    }
    if 8 < s.fx.count().0 {
        return Err(Refusal::CharacterWidth);
    }
    if smooth_scroll(r.hdot, r.grey, s.fx, s.cr) {
        return Err(Refusal::SmoothScroll);
    }
    if 640 < width {
        return Err(Refusal::RowWidth);
    }
    if odd_lines(s.ws, s.lf) {
        return Err(Refusal::OddLines);
    }
    if u16::from(s.tcr.0) < u16::from(s.cr.0) + 4 {
        return Err(Refusal::ShortLine);
    }
    if layer_order(s.ws, r.overlay, r.blocks) {
        return Err(Refusal::LayerOrder);
    }
    if cursor_shape(r.display.fc, r.form, s.fx) {
        return Err(Refusal::CursorShape);
    }
    if u32::from(s.lf.count().0) <= n {
        return Err(Refusal::RowNumber);
    }
    if buffer_length != width {
        return Err(Refusal::BufferSize);
    }
    Ok(())
}
