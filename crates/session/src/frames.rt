// A frame shown: its rows are printed, or the refusal of the first.
ghost use Rattle.std.specs.Prelude.{◌≡◌, [], length};
ghost use Rattle.row.specs.Rows.{frame_size, row_outcome, composed_outcome};
ghost use Rattle.session.specs.Records.{state, row_of, row_lines, framed, frame_lines};
ghost use Rattle.session.specs.Carrying.{live, CarriesOut};

use crate::{Frame, LentStep};
use lines::Line;
use registers::Refusal;

impl<P: Print> LentStep<'_, '_, '_, P> {
    // A row of a frame, into a buffer.
    fn row(&self, frame: u32, n: u32, out: &mut [u8]) -> Result<(), Refusal>
        ensures { composed_outcome result out.new ≡ row_outcome self.now.step.session.controller.registers
            self.now.memory.now self.now.font.now frame n out.old }
    {
        self.step
            .session
            .controller
            .row(self.memory, self.font, frame, n, out)
    }

    // The rows of a frame whose first row is accepted.
    fn show_rows(&mut self, row: &mut [u8], frame: Frame)
        requires rows_value { frame.rows ≡ (frame_size self.old.step.session.controller.registers).rows }
        requires row_value { (row_of (state self.old).machine self.old.font.now frame.number (length row.old) 0).refusal ≡ 0 }
        ensures { CarriesOut []
            (row_lines (row_of (state self.old).machine self.old.font.now frame.number (length row.old))
            0 frame.rows.0)
            (live self.old) (live self.new) }
    {
        for n in 0..frame.rows.0 {
            // Accepted, as the first row was.
            let _ = self.row(frame.number, n.into(), row);
            self.print_row(row);
        }
    }

    // A frame, its rows in a buffer, or the refusal of its first row: the others are accepted or refused with it.
    fn show_frame(&mut self, row: &mut [u8], frame: Frame)
        requires { frame.rows ≡ (frame_size self.old.step.session.controller.registers).rows }
        ensures { CarriesOut []
            (framed frame.«record» frame.number (length row.old) frame.rows.0
            (row_of (state self.old).machine self.old.font.now frame.number (length row.old)))
            (live self.old) (live self.new) }
    {
        match self.row(frame.number, 0, row) {
            Err(refusal) => self.print_refused(refusal, frame.record, 0),
            Ok(()) => {
                let head = Line::Frame(frame.record, frame.number, row.len(), frame.rows.0);
                self.print_line(head);
                self.show_rows(row, frame);
            }
        }
    }

    // A frame number to show. 640 dots are enough: a wider frame is refused before 17 is tested.
    pub(crate) fn show(&mut self, number: u32, record: u64)
        ensures { CarriesOut [] (frame_lines «record» (state self.old).machine self.old.font.now number)
            (live self.old) (live self.new) }
    {
        let mut row = [0u8; 640];
        let size = row::frame_size(self.step.session.controller.registers);
        let width = row.len().min(size.width.into());
        let frame = Frame {
            record,
            number,
            rows: size.rows,
        };
        self.show_frame(&mut row[..width], frame);
    }
}
