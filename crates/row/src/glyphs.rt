// Bytes of display memory and of the font.
ghost use Rattle.std.specs.Prelude.{◌≡◌, ◌<◌};
ghost use Rattle.row.specs.Glyphs.{fetch, glyph_of, font_byte, cg_ram_byte, glyph_byte};

use crate::Glyph;
use crate::scene::Scene;
use registers::MEMORY_SIZE;

// A fetch past the end of memory gives 0.
#[tactic(auto, unfolding(crate::specs::Glyphs::fetch))]
pub fn fetch(memory: &[u8; MEMORY_SIZE], address: u16) -> u8
    ensures { result ≡ fetch memory.now address }
{
    memory.get(usize::from(address)).copied().unwrap_or(0)
}

#[tactic(auto, unfolding(crate::specs::Glyphs::glyph_of))]
fn glyph_of(m0: bool, code: u8) -> Glyph
    ensures { result ≡ glyph_of m0 code }
{
    match code {
        _ if m0 => Glyph::CgRam,
        0x00..=0x1F => Glyph::Empty,
        0x20..=0x7F | 0xA0..=0xDF => Glyph::Font(code - if code < 0x80 { 0x20 } else { 0x40 }),
        0x80..=0x9F | 0xE0..=0xFF => Glyph::CgRam,
    }
}

impl Scene<'_> {
    // The font has 160 glyphs.
    #[tactic(auto, unfolding(crate::specs::Glyphs::font_byte))]
    fn font_byte(&self, index: u8, row: u16) -> u8
        requires { index < 160 }
        ensures { result ≡ font_byte self.now.font.now index row }
    {
        if row < 8 {
            self.font[usize::from(index) * 8 + usize::from(row)]
        } else {
            0
        }
    }

    // Two arms: by one over the height as a number a row of text in CG RAM costs a fifth more.
    #[tactic(auto, unfolding(crate::specs::Glyphs::cg_ram_byte))]
    fn cg_ram_byte(&self, code: u8, row: u16) -> u8
        ensures { let r = self.now.registers in result ≡ cg_ram_byte r.system.m2 r.cgram self.now.memory.now code row }
    {
        let r = &self.registers;
        let at = r.cgram.wrapping_add(row);
        if r.system.m2 {
            fetch(self.memory, at.wrapping_add(u16::from(code) * 16))
        } else if row < 8 {
            fetch(self.memory, at.wrapping_add(u16::from(code) * 8))
        } else {
            0
        }
    }

    // A row of the glyph of a code. Each source is called from one place, so that it is inlined.
    #[tactic(auto, unfolding(crate::specs::Glyphs::glyph_byte, crate::specs::Glyphs::glyph_row))]
    pub fn glyph_byte(&self, code: u8, row: u16) -> u8
        ensures { let s = self.now in result ≡ glyph_byte s.registers s.memory.now s.font.now code row }
    {
        match glyph_of(self.registers.system.m0, code) {
            Glyph::Empty => 0,
            Glyph::Font(index) => self.font_byte(index, row),
            Glyph::CgRam => self.cg_ram_byte(code, row),
        }
    }
}
