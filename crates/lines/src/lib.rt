// The lines that the program prints. Each is put whole behind those that wait in a buffer; one that does not fit is left out whole.
#![tactic(auto)]

mod text;

ghost use Rattle.std.specs.Prelude.{◌≡◌, ◌-◌, length, take};
ghost use Rattle.lines.specs.Lines.{line_text, row_line, appended, used_after};

use text::hex_digit;

// Every line but a row of dots. A refusal is a number here, as `lines` knows no registers.
#[derive(Clone, Copy, PartialEq, Eq, Debug)]
pub enum Line {
    // `refused RECORD BYTE NUMBER`
    Refused(u64, u64, u8),
    // `read RECORD INDEX VALUE`
    Read(u64, u64, u8),
    // `frame RECORD FRAME WIDTH ROWS`
    Frame(u64, u32, usize, u16),
    // `bad RECORD`
    Bad(u64),
    // `end COUNT`
    End(u64),
}

// Lines that wait in a lent buffer, whose first bytes they use: with a count, as the buffer is lent and of any length.
#[derive(Drop)]
pub struct Lines<'a> {
    pub buffer: &'a mut [u8],
    pub used: usize,
}

// The lines that wait in the first bytes of a buffer.
pub fn waiting(buffer: &[u8], used: usize) -> &[u8]
    ensures { result.now ≡ take used buffer.now }
{
    buffer.get(..used).unwrap_or(buffer)
}

// How many more bytes it has room for.
pub fn room(buffer: &[u8], used: usize) -> usize
    ensures { result ≡ length buffer.now - used }
{
    buffer.len().saturating_sub(used)
}

impl<'a> Lines<'a> {
    pub fn new(buffer: &'a mut [u8]) -> Lines<'a>
        ensures used { result.used ≡ 0 }
        ensures bytes { result.buffer.now ≡ buffer.old }
        ensures same_buffer { result.buffer.ghost_name ≡ buffer.entry.ghost_name }
    {
        Lines { buffer, used: 0 }
    }

    // The lines that wait.
    pub fn waiting(&self) -> &[u8]
        ensures { result.now ≡ take self.now.used self.now.buffer.now }
    {
        waiting(self.buffer, self.used)
    }

    // How many more bytes there is room for.
    pub fn room(&self) -> usize
        ensures { result ≡ length self.now.buffer.now - self.now.used }
    {
        room(self.buffer, self.used)
    }

    pub fn append_line(&mut self, line: Line)
        ensures used { self.new.used ≡ used_after self.old.buffer.now self.old.used (line_text line) }
        ensures buffer { self.new.buffer.now ≡ appended self.old.buffer.now self.old.used (line_text line) }
        ensures same_buffer { self.new.buffer.ghost_name ≡ self.old.buffer.ghost_name }
    {
        let text = line.text();
        let end = self.used.saturating_add(text.len());
        if self.buffer.len() < end {
            return;
        }
        self.buffer[self.used..end].copy_from_slice(text.as_bytes());
        self.used = end;
    }

    // A row, one hex digit a dot. Not by a text as in `append_line`: it goes straight into the buffer, as there are 240 a frame.
    #[tactic(auto, using(crate::proofs::Rows::row_steps))]
    pub fn append_row(&mut self, dots: &[u8])
        ensures used { self.new.used ≡ used_after self.old.buffer.now self.old.used (row_line dots.now) }
        ensures buffer { self.new.buffer.now ≡ appended self.old.buffer.now self.old.used (row_line dots.now) }
        ensures same_buffer { self.new.buffer.ghost_name ≡ self.old.buffer.ghost_name }
    {
        let end = self.used.saturating_add(dots.len());
        if self.buffer.len() <= end {
            return;
        }
        // In variables: behind `self` each store might change them, and the loop would go dot by dot.
        let used = self.used;
        let buffer = &mut *self.buffer;
        for (i, &dot) in dots.iter().enumerate() {
            buffer[used + i] = hex_digit(dot);
        }
        buffer[end] = b'\n';
        self.used = end + 1;
    }
}
