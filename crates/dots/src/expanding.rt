// Stage 5 of a row: bytes expanded to dots, one byte a dot.
ghost use Rattle.std.specs.Prelude.{◌+◌, ◌*◌, ◌/◌, ◌^◌, ◌≤◌, ◌<◌, ◌≡◌, length};
ghost use Rattle.dots.specs.Tables.{table};
ghost use Rattle.dots.specs.Bytes.{depth_code, bits_per_dot, dot_of, FillByte};
ghost use Rattle.dots.specs.Expanded.{expanded_dot, DotsFit};

use crate::Depth;

// A dot of a byte.
#[tactic(auto, unfolding(crate::specs::Bytes::dot_of))]
pub fn dot<const BITS: usize>(b: u8, j: usize) -> u8
    requires { FillByte BITS × (j < 8 / BITS) }
    ensures { result ≡ dot_of BITS b j }
{
    (b >> (8 - BITS * (j + 1))) % (1 << BITS)
}

// The first dots of a byte.
fn spread<const BITS: usize>(b: u8, out: &mut [u8])
    requires { FillByte BITS × (length out.old ≤ 8 / BITS) }
    ensures { out.new ≡ table (length out.old) (dot_of BITS b) }
{
    for (j, place) in out.iter_mut().enumerate() {
        *place = dot::<BITS>(b, j);
    }
}

// The dots of all columns in grey. No `chunks_exact_mut`, of whose writes std says nothing.
fn expand_grey<const BITS: usize>(line: &[u8], out: &mut [u8])
    requires { FillByte BITS × (length out.old ≡ length line.now * (8 / BITS)) }
    ensures { out.new ≡ table (length line.now * (8 / BITS)) (expanded_dot BITS (8 / BITS) line.now) }
{
    let per = 8 / BITS;
    for (c, b) in line.iter().enumerate() {
        spread::<BITS>(*b, &mut out[c * per..(c + 1) * per]);
    }
}

// The four dots of each half of a byte. A `const` is built anew where a loop names it.
static HALVES: [[u8; 4]; 16] = [
    [0, 0, 0, 0],
    [0, 0, 0, 1],
    [0, 0, 1, 0],
    [0, 0, 1, 1],
    [0, 1, 0, 0],
    [0, 1, 0, 1],
    [0, 1, 1, 0],
    [0, 1, 1, 1],
    [1, 0, 0, 0],
    [1, 0, 0, 1],
    [1, 0, 1, 0],
    [1, 0, 1, 1],
    [1, 1, 0, 0],
    [1, 1, 0, 1],
    [1, 1, 1, 0],
    [1, 1, 1, 1],
];

#[tactic(auto, using(crate::proofs::Halves::half_dots))]
fn half_dots(half: u8) -> [u8; 4]
    requires { half < 16 }
    ensures { result ≡ table 4 (dot_of 1 (half * 16)) }
{
    HALVES[half as usize]
}

// All eight dots of a byte.
fn eight_dots(b: u8) -> [u8; 8]
    ensures { result ≡ table 8 (dot_of 1 b) }
{
    let [d0, d1, d2, d3] = half_dots(b / 16);
    let [d4, d5, d6, d7] = half_dots(b % 16);
    [d0, d1, d2, d3, d4, d5, d6, d7]
}

// The dots of all columns at one bit a dot. A byte gives all its eight dots, and the next column's go over those past its own; the last
// columns, behind which eight have no room, give their own alone. By one loop with a test for room a row costs a tenth more.
fn expand_bits(per: usize, line: &[u8], out: &mut [u8])
    requires { (per ≤ 8) × (length out.old ≡ length line.now * per) }
    ensures { out.new ≡ table (length line.now * per) (expanded_dot 1 per line.now) }
{
    if per == 0 {
        return;
    }
    let roomy = line.len().saturating_sub(7 / per);
    for (c, b) in line[..roomy].iter().enumerate() {
        let at = c * per;
        out[at..at + 8].copy_from_slice(&eight_dots(*b));
    }
    for c in roomy..line.len() {
        spread::<1>(line[c], &mut out[c * per..(c + 1) * per]);
    }
}

// The dots of all columns.
pub fn expand(depth: Depth, per: usize, line: &[u8], out: &mut [u8])
    requires { DotsFit (depth_code depth) per × (length out.old ≡ length line.now * per) }
    ensures { out.new ≡ table (length line.now * per) (expanded_dot (bits_per_dot (depth_code depth)) per line.now) }
{
    match depth {
        Depth::One => expand_bits(per, line, out),
        Depth::Two => expand_grey::<2>(line, out),
        Depth::Four => expand_grey::<4>(line, out),
    }
}
