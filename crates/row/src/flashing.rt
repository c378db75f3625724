// Flashing, by the frame number.
ghost use Rattle.std.specs.Prelude.{◌≡◌, ◌<◌, ◌≤◌};
ghost use Rattle.row.specs.Flashing.{is_on, flashing, flash_code, is_lit};

use crate::Block;

#[tactic(auto, unfolding(crate::specs::Flashing::is_on))]
fn is_on(period: u32, frame: u32) -> bool
    requires { (0 < period) × (period ≤ 64) }
    ensures { result ≡ is_on period frame }
{
    10 * (frame % period) < 7 * period
}

// Whether what has a code of FP or FC shows; code 3 is of the period given. The code is a number, as registers hold it: this match is all that an
// enum of the codes would be for.
#[tactic(auto, unfolding(crate::specs::Flashing::flashing))]
pub fn flashes(code: u8, period: u32, frame: u32) -> bool
    requires { (0 < period) × (period ≤ 64) }
    ensures { result ≡ flashing code period frame }
{
    match code {
        0 => false,
        1 => true,
        2 => is_on(32, frame),
        _ => is_on(period, frame),
    }
}

impl Block {
    // Its code in FP.
    fn flash_code(self, fp: u8) -> u8
        ensures { result ≡ flash_code fp self }
    {
        match self {
            Block::One => fp % 4,
            Block::Two | Block::Four => fp / 4 % 4,
            Block::Three => fp / 16 % 4,
        }
    }

    // Whether FP shows it.
    #[tactic(auto, unfolding(crate::specs::Flashing::is_lit))]
    pub(crate) fn is_lit(self, fp: u8, frame: u32) -> bool
        ensures { result ≡ is_lit fp self frame }
    {
        flashes(self.flash_code(fp), 4, frame)
    }
}
