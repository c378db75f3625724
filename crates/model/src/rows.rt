// Rows of dots.
ghost use Rattle.std.specs.Prelude.{◌≡◌};
ghost use Rattle.row.specs.Rows.{composed_outcome, row_outcome};

use crate::Controller;
use registers::Refusal;

impl Controller {
    // A row of the frame into a buffer of a byte a dot. It changes nothing but the buffer, and that only where it is accepted.
    pub fn row(
        &self,
        memory: &[u8],
        font: &[u8],
        frame: u32,
        row: u32,
        out: &mut [u8],
    ) -> Result<(), Refusal>
        ensures { composed_outcome result out.new
            ≡ row_outcome self.now.registers memory.now font.now frame row out.old }
    {
        row::compose(self.registers, memory, font, frame, row, out)
    }
}
