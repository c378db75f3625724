// Buffered lines on standard output. Once a write fails nothing more is written.
ghost use Rattle.std.specs.Prelude.{◌≡◌, ◌-◌, true, [], ◌∷◌, length, take};
ghost use Rattle.registers.specs.Refusals.{number, reply, read_reply};
ghost use Rattle.lines.specs.Lines.{line_text, refused_line, row_line};
ghost use Rattle.session.specs.Output.{is_full, used_before, OpenAfter};
ghost use Rattle.session.specs.Records.{buffer_of, write_reply_lines, read_reply_lines};
ghost use Rattle.session.specs.Carrying.{kept, live, Prints};

use crate::{LentStep, Output};
use lines::{Line, Lines};
use registers::Refusal;

// The longest line: a row of 640 dots and its end.
const LONGEST_LINE: usize = 641;

impl<P: Print> LentStep<'_, '_, '_, P> {
    // What waits in the buffer.
    fn waiting(&self) -> &[u8]
        ensures { result.now ≡ take self.now.step.session.output.used self.now.out.now }
    {
        let used = self.step.session.output.used;
        lines::waiting(self.out, used)
    }

    // Writes it out, and answers whether the output takes more.
    fn write_out(&self) -> bool
        ensures { OpenAfter self.now.step.session.output.open true result }
    {
        self.step.session.output.open && self.rt.write_all(self.waiting()).is_ok()
    }

    pub(crate) fn flush(&mut self)
        ensures kept { kept self.new ≡ kept self.old }
        ensures controller { self.new.step.session.controller ≡ self.old.step.session.controller }
        ensures memory { self.new.memory.now ≡ self.old.memory.now }
        ensures bytes { self.new.out.now ≡ self.old.out.now }
        ensures used_value { self.new.step.session.output.used ≡ 0 }
        ensures open_after { OpenAfter self.old.step.session.output.open true self.new.step.session.output.open }
    {
        let open = self.write_out();
        self.step.session.output = Output { used: 0, open };
    }

    // How many more bytes the buffer has room for.
    fn room(&self) -> usize
        ensures { result ≡ length self.now.out.now - self.now.step.session.output.used }
    {
        let used = self.step.session.output.used;
        lines::room(self.out, used)
    }

    // Room for any line: the buffer is written out where it has less.
    #[tactic(auto, unfolding(crate::specs::Output::used_before))]
    fn make_room(&mut self)
        ensures kept { kept self.new ≡ kept self.old }
        ensures controller { self.new.step.session.controller ≡ self.old.step.session.controller }
        ensures memory { self.new.memory.now ≡ self.old.memory.now }
        ensures bytes { self.new.out.now ≡ self.old.out.now }
        ensures used_value { self.new.step.session.output.used ≡ used_before (buffer_of self.old) }
        ensures open_after { OpenAfter self.old.step.session.output.open (is_full (buffer_of self.old)) self.new.step.session.output.open }
    {
        if self.room() < LONGEST_LINE {
            self.flush();
        }
    }

    pub(crate) fn print_line(&mut self, line: Line)
        ensures { Prints (line_text line ∷ []) (live self.old) (live self.new) }
    {
        self.make_room();
        let mut lines = Lines {
            buffer: &mut *self.out,
            used: self.step.session.output.used,
        };
        lines.append_line(line);
        self.step.session.output.used = lines.used;
    }

    pub(crate) fn print_row(&mut self, row: &[u8])
        ensures { Prints (row_line row.now ∷ []) (live self.old) (live self.new) }
    {
        self.make_room();
        let mut lines = Lines {
            buffer: &mut *self.out,
            used: self.step.session.output.used,
        };
        lines.append_row(row);
        self.step.session.output.used = lines.used;
    }

    pub(crate) fn print_refused(&mut self, refusal: Refusal, record: u64, byte: u64)
        ensures { Prints (refused_line «record» byte (number refusal) ∷ []) (live self.old) (live self.new) }
    {
        self.print_line(Line::Refused(record, byte, refusal.into()));
    }

    // What a write is answered: nothing is printed where it is accepted.
    pub(crate) fn print_answer(&mut self, answer: Result<(), Refusal>, record: u64, byte: u64)
        ensures { Prints (write_reply_lines «record» byte (reply answer)) (live self.old) (live self.new) }
    {
        if let Err(refusal) = answer {
            self.print_refused(refusal, record, byte);
        }
    }

    // What a read is answered: its value, or the refusal.
    pub(crate) fn print_read(&mut self, answer: Result<u8, Refusal>, record: u64, index: u64)
        ensures { Prints (read_reply_lines «record» index (read_reply answer)) (live self.old) (live self.new) }
    {
        match answer {
            Ok(value) => self.print_line(Line::Read(record, index, value)),
            Err(refusal) => self.print_refused(refusal, record, index),
        }
    }
}
