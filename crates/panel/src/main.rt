// Runs a bus file from standard input on one controller, with the font of font.bin, and prints what it was answered.
#![tactic(auto)]

mod file;
mod reading;

use reading::Input;
use registers::{FONT_SIZE, MEMORY_SIZE};
use session::LentStep;

fn main(rt: HostRuntime) {
    let mut memory = [0u8; MEMORY_SIZE];
    // A byte more than a font: a longer file is none.
    let mut font = [0u8; FONT_SIZE + 1];
    // Room for two records of any length, and for the lines that wait to be written out.
    let mut buffer = [0u8; 131072];
    let mut out = [0u8; 65536];
    let size = reading::read_font(&rt, &mut font);
    let mut run = LentStep::start(&rt, &mut memory, &font[..size], &mut out);
    let mut input = Input::new(rt.stdin(), &mut buffer);
    file::run_file(&mut run, &mut input);
}
