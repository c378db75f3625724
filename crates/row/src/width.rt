// How wide a row is.
ghost use Rattle.std.specs.Prelude.{◌≡◌, ◌*◌, ◌<◌, ◌≤◌};
ghost use Rattle.registers.specs.Counts.{⁅◌⁆};
ghost use Rattle.dots.specs.Bytes.{depth_code};
ghost use Rattle.row.specs.Dots.{dots_per_column, shown_columns, width};

use dots::Depth;
use registers::{Code, Registers};

// The contracts here say that the grey code is below 3, and not the type: `Registers` are any that a caller hands in.
#[tactic(auto, using(dots::proofs::CodeLaws::depth_codes))]
pub fn depth(r: &Registers) -> Depth
    requires { r.now.grey < 3 }
    ensures { depth_code result ≡ r.now.grey }
{
    r.grey.into()
}

// By the code: by its Depth a row that is refused costs a tenth more.
#[tactic(auto, unfolding(crate::specs::Dots::dots_per_column))]
pub fn dots_per_column(grey: u8, fx: Code) -> usize
    requires { grey < 3 }
    ensures { (result ≡ dots_per_column grey fx) × (result ≤ 256) }
{
    match grey {
        0 => usize::from(fx.count().0),
        1 => 4,
        _ => 2,
    }
}

pub fn columns(cr: Code) -> usize
    ensures { (result ≡ ⁅ cr ⁆) × (result ≤ 256) }
{
    usize::from(cr.count().0)
}

// The columns that a row shows.
#[tactic(auto, unfolding(crate::specs::Dots::shown_columns))]
pub fn shown_columns(hdot: u8, cr: Code) -> usize
    ensures { (result ≡ shown_columns hdot cr) × (result ≤ 256) }
{
    let count = columns(cr);
    if hdot == 0 { count } else { count - 1 }
}

// How many dots they have.
#[tactic(auto, unfolding(crate::specs::Dots::width))]
pub fn row_width(r: &Registers) -> usize
    requires { r.now.grey < 3 }
    ensures { result ≡ width r.now }
{
    shown_columns(r.hdot, r.system.cr) * dots_per_column(r.grey, r.system.fx)
}
