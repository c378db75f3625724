// What the rows of a frame are composed of.
ghost use Rattle.std.specs.Prelude.{◌<◌};
ghost use Rattle.row.specs.Stages.{Composable};

use registers::{FONT_SIZE, MEMORY_SIZE, Registers};

// The registers of a row that is not refused, with memory and font of their sizes.
#[derive(Clone, Copy)]
pub(crate) struct Scene<'a> {
    pub registers: Registers,
    pub memory: &'a [u8; MEMORY_SIZE],
    pub font: &'a [u8; FONT_SIZE],
    pub frame: u32,
    ghost composable: { Composable registers },
    ghost mixes: { registers.overlay.mx < 4 },
}
