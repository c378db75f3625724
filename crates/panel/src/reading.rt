// The font, and a bus file from standard input. It is read in parts, so that a file of any length runs in the same memory.
ghost use Rattle.std.specs.Prelude.{◌≤◌, ◌≡◌, false, length};
ghost use Rattle.panel.specs.Reading.{InPart, at_hand, ReadBehind, Filled};

use std::fs;
use std::io::Read;
use std::rt::Files;

// A bus file that is read in parts: its bytes at hand are the first of the buffer, up to filled, as there is no heap to grow them in; ended says that
// no more come, and is a flag, since the bytes at hand count either way.
#[derive(Drop)]
pub struct Input<'b, R> {
    reader: R,
    buffer: &'b mut [u8],
    filled: usize,
    ended: bool,
}

// Reads until the buffer is full, the input ends or a read fails, and answers how many bytes came.
fn read_full(reader: &mut impl Read, buffer: &mut [u8]) -> usize
    ensures { result ≤ length buffer.new }
{
    let mut done = 0;
    while done < buffer.len() {
        match reader.read(&mut buffer[done..]) {
            Ok(0) | Err(_) => break,
            Ok(n) => done += n,
        }
    }
    done
}

// Reads the font file, and answers how many bytes came. One that cannot be opened counts as empty, one that fails midway as
// what came of it.
pub fn read_font(rt: &impl Files, font: &mut [u8]) -> usize
    ensures { result ≤ length font.new }
{
    match fs::open(rt, "font.bin") {
        Ok(mut file) => read_full(&mut file, font),
        Err(_) => 0,
    }
}

impl<'b, R: Read> Input<'b, R> {
    pub fn new(reader: R, buffer: &'b mut [u8]) -> Input<'b, R>
        ensures buffer { result.buffer.now ≡ buffer.old }
        ensures unread { (result.filled ≡ 0) × (result.ended ≡ false) }
    {
        Input {
            reader,
            buffer,
            filled: 0,
            ended: false,
        }
    }

    pub fn at_hand(&self) -> &[u8]
        ensures { result.now ≡ at_hand self.now }
    {
        busfile::part(self.buffer, 0, self.filled)
    }

    // Reads behind the first bytes until the buffer is full or the file ends.
    fn read_behind(&mut self, kept: usize)
        requires { kept ≤ length self.old.buffer.now }
        ensures { ReadBehind kept self.old self.new }
    {
        let size = self.buffer.len();
        self.filled = kept + read_full(&mut self.reader, &mut self.buffer[kept..]);
        self.ended = self.filled < size;
    }

    // Reads on from a place, unless the longest record there would be whole, and answers where the place is then.
    pub(crate) fn read_on(&mut self, at: usize) -> usize
        requires { InPart at self.old }
        ensures { Filled at self.old result self.new }
    {
        if self.ended || busfile::suffices(self.at_hand(), at) {
            return at;
        }
        let filled = self.filled;
        let kept = busfile::compact(self.buffer, at, filled);
        self.read_behind(kept);
        0
    }
}
