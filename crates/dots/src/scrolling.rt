// Stages 4 and 5 of a row: its bytes moved left by n dots, at one bit a dot, and expanded.
ghost use Rattle.std.specs.Prelude.{◌+◌, ◌*◌, ◌<◌, ◌≤◌, ◌≡◌, length};
ghost use Rattle.dots.specs.Tables.{table};
ghost use Rattle.dots.specs.Bytes.{depth_code, bits_per_dot};
ghost use Rattle.dots.specs.Expanded.{expanded_dot, DotsFit};
ghost use Rattle.dots.specs.Scrolled.{scrolled_byte, scrolled};

use crate::Depth;
use crate::expanding::expand;

// Eight dots from dot n of a on, which go on with those of b after the first `per`.
#[tactic(auto, unfolding(crate::specs::Scrolled::scrolled_byte))]
fn scrolled_byte(per: usize, n: usize, a: u8, b: u8) -> u8
    requires { (n < per) × (per ≤ 8) }
    ensures { result ≡ scrolled_byte per n a b }
{
    let pair = u16::from_be_bytes([a >> (8 - per), b]);
    // The low byte, cut out as in the definition.
    ((pair >> (per - n)) % 256) as u8
}

// Scrolled by 0 dots a line stands, in grey too. What comes in at the last column's end is nothing; that column is not shown.
#[tactic(auto, unfolding(crate::specs::Scrolled::scrolled))]
fn scroll(per: usize, n: usize, line: &mut [u8])
    requires { (n < per) × (per ≤ 8) }
    ensures { line.new ≡ scrolled per n line.old }
{
    if n == 0 {
        return;
    }
    // By the place: what is written comes from this byte and the next.
    for i in 1..line.len() {
        line[i - 1] = scrolled_byte(per, n, line[i - 1], line[i]);
    }
    if let Some(last) = line.last_mut() {
        *last = scrolled_byte(per, n, *last, 0);
    }
}

// The dots of the columns shown, from dot n of the line on.
pub fn expand_scrolled(
    depth: Depth,
    per: usize,
    n: usize,
    shown: usize,
    line: &mut [u8],
    out: &mut [u8],
)
    requires { DotsFit (depth_code depth) per × (n < per) × ((n ≡ 0 → ⊥) → depth_code depth ≡ 0) × (shown ≤ length line.old)
        × (length out.old ≡ shown * per) }
    ensures line_after { line.new ≡ scrolled per n line.old }
    ensures out_after { out.new ≡ table (shown * per) (λ x. expanded_dot (bits_per_dot (depth_code depth)) per line.old (x + n)) }
{
    scroll(per, n, line);
    expand(depth, per, &line[..shown], out);
}
