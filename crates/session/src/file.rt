// A bus file, record by record.
ghost use Rattle.std.specs.Prelude.{◌≡◌, ℕ, true, List};
ghost use Rattle.busfile.specs.Records.{record_at};
ghost use Rattle.lines.specs.Lines.{end_line};
ghost use Rattle.model.specs.Machine.{machine};
ghost use Rattle.session.specs.Output.{buffer, printed, flushes, OpenAfter};
ghost use Rattle.session.specs.Records.{state, lent, buffer_of};
ghost use Rattle.session.specs.File.{
  progress_with,
  progress,
  start_of,
  following,
  found_lines,
  after_found,
  next_step,
  step_lines,
};

use crate::{LentStep, Output, Session, Step};
use busfile::{Found, Reader};
use lines::Line;
use model::Controller;

// Before the first record: a controller from reset, and nothing printed.
pub fn start() -> Step
    ensures by_index { (memory out : List ℕ) → progress_with result memory out ≡ start_of memory out }
    ensures open_value { result.session.output.open ≡ true }
{
    Step {
        session: Session {
            controller: Controller::reset(),
            output: Output {
                used: 0,
                open: true,
            },
        },
        at: 0,
        good: 0,
        more: true,
    }
}

// The next record of a file that goes on, with what is lent for this record alone; a file that has stopped stays as it is.
pub fn next(
    rt: &impl Print,
    step: Step,
    memory: &mut [u8],
    font: &[u8],
    out: &mut [u8],
    file: &[u8],
) -> Step
    ensures out_after { progress_with result memory.new out.new
        ≡ next_step font.now file.now (progress_with step memory.old out.old) }
    ensures open_after { OpenAfter step.session.output.open
        (flushes (buffer out.old step.session.output.used)
        (step_lines font.now file.now (progress_with step memory.old out.old)))
        result.session.output.open }
{
    let mut lent = step.lend(rt, memory, font, out);
    lent.next(file);
    lent.step
}

// Prints the last line, and writes out what the buffer holds.
pub fn finish(rt: &impl Print, step: Step, out: &mut [u8]) -> Output
    ensures out_after { out.new ≡ (printed (buffer out.old step.session.output.used) (end_line step.good)).bytes }
    ensures used_value { result.used ≡ 0 }
    ensures open_after { OpenAfter step.session.output.open true result.open }
{
    let mut memory = [];
    let mut lent = step.lend(rt, &mut memory, &[], out);
    lent.finish();
    lent.step.session.output
}

impl Step {
    // Goes on from here with what is lent. What was printed and waits stands in the buffer that is lent.
    pub fn lend<'r, 'm, 'w, P: Print>(
        self,
        rt: &'r P,
        memory: &'m mut [u8],
        font: &'r [u8],
        out: &'w mut [u8],
    ) -> LentStep<'r, 'm, 'w, P>
        ensures value { progress result ≡ progress_with self memory.old out.old }
        ensures step { result.step ≡ self }
        ensures lent { lent result
            ≡ record { font = font.now; memory = memory.entry.ghost_name; buffer = out.entry.ghost_name } }
    {
        LentStep {
            rt,
            memory,
            font,
            out,
            step: self,
        }
    }
}

impl<'r, 'm, 'w, P: Print> LentStep<'r, 'm, 'w, P> {
    // Before the first record, with what is lent.
    pub fn start(
        rt: &'r P,
        memory: &'m mut [u8],
        font: &'r [u8],
        out: &'w mut [u8],
    ) -> LentStep<'r, 'm, 'w, P>
        ensures value { progress result ≡ start_of memory.old out.old }
        ensures open_value { result.step.session.output.open ≡ true }
        ensures lent { lent result
            ≡ record { font = font.now; memory = memory.entry.ghost_name; buffer = out.entry.ghost_name } }
    {
        start().lend(rt, memory, font, out)
    }

    // Carries out what stands at the step's place. A bad record prints `bad` and stops, and so does the end, silently. A file that has stopped
    // stays as it is.
    #[tactic(auto, unfolding(crate::specs::File::following))]
    pub fn next(&mut self, file: &[u8])
        ensures out_after { progress self.new
            ≡ next_step self.old.font.now file.now (progress self.old) }
        ensures open_after { OpenAfter self.old.step.session.output.open
            (flushes (buffer_of self.old)
            (step_lines self.old.font.now file.now (progress self.old)))
            self.new.step.session.output.open }
        ensures lent { lent self.new ≡ lent self.old }
    {
        if !self.step.more {
            return;
        }
        let number = self.step.good.wrapping_add(1);
        let reader = Reader::new(file, self.step.at);
        let found = reader.found();
        if found == Found::End {
            self.step.more = false;
            return;
        }
        let Found::Record(record) = found else {
            self.print_line(Line::Bad(number));
            self.step.more = false;
            return;
        };
        self.run_record(record.kind, reader.payload(record), number);
        self.step.at = record.end;
        self.step.good = number;
    }

    // Prints the last line, and writes out what the buffer holds.
    pub fn finish(&mut self)
        ensures out_after { self.new.out.now
            ≡ (printed (buffer_of self.old) (end_line self.old.step.good)).bytes }
        ensures used_value { self.new.step.session.output.used ≡ 0 }
        ensures open_after { OpenAfter self.old.step.session.output.open true self.new.step.session.output.open }
        ensures memory_unchanged { self.new.memory.now ≡ self.old.memory.now }
        ensures progress_unchanged { (self.new.step.session.controller ≡ self.old.step.session.controller) × (self.new.step.at ≡ self.old.step.at)
            × (self.new.step.good ≡ self.old.step.good) × (self.new.step.more ≡ self.old.step.more) }
        ensures lent { lent self.new ≡ lent self.old }
    {
        self.print_line(Line::End(self.step.good));
        self.flush();
    }
}
