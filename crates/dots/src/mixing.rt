// Stage 3 of a row: the layers' bytes mixed. Each dot of a mixed byte is the mix of that dot of the bytes.
ghost use Rattle.std.specs.Prelude.{◌≡◌, ℕ, ◌*◌, ◌/◌, ◌<◌, length, get_or};
ghost use Rattle.dots.specs.Tables.{table};
ghost use Rattle.dots.specs.Mixing.{mix_code, first_of};
ghost use Rattle.dots.specs.Bytes.{depth_code, FillByte};
ghost use Rattle.dots.specs.MixedBytes.{first_dots, first_byte, mix_byte, third_mix};

use crate::expanding::dot;
use crate::{Depth, Mix};

// The first that is not 0.
#[tactic(auto, unfolding(crate::specs::Mixing::first_of))]
fn first_of(a: u8, b: u8) -> u8
    ensures { result ≡ first_of a b 0 }
{
    if a == 0 { b } else { a }
}

// Of each dot the first that is not 0.
fn first_dots<const BITS: usize>(a: u8, b: u8) -> u8
    requires { FillByte BITS }
    ensures { result ≡ first_dots BITS (8 / BITS) a b }
{
    let mut mixed = 0;
    for j in 0..8 / BITS {
        mixed = (mixed << BITS) | first_of(dot::<BITS>(a, j), dot::<BITS>(b, j));
    }
    mixed
}

// The bytes of a layer mixed into those before it, by a loop of its own for each closure. No `zip`, of whose writes std says nothing.
fn mix_with<F: Fn(u8, u8) -> u8>(line: &mut [u8], layer: &[u8], mix: F)
    requires callable { F.IsAlwaysCallable mix }
    requires long { length layer.now ≡ length line.old }
    ensures { (c : ℕ) → c < length line.old → F.post mix (get_or line.old c 0) (get_or layer.now c 0) (get_or line.new c 0) }
{
    for (c, byte) in line.iter_mut().enumerate() {
        *byte = mix(*byte, layer[c]);
    }
}

// At one bit a dot the first that is not 0 is the OR.
fn mix_first(depth: Depth, line: &mut [u8], layer: &[u8])
    requires { length layer.now ≡ length line.old }
    ensures { line.new ≡ table (length line.old)
        (λ c. first_byte (depth_code depth) (get_or line.old c 0) (get_or layer.now c 0)) }
{
    match depth {
        Depth::One => mix_with(line, layer, |a, b| a | b),
        Depth::Two => mix_with(line, layer, |a, b| first_dots::<2>(a, b)),
        Depth::Four => mix_with(line, layer, |a, b| first_dots::<4>(a, b)),
    }
}

// The bytes of a layer mixed into those before it.
#[tactic(auto, unfolding(crate::specs::MixedBytes::mix_byte))]
pub fn mix_bytes(mix: Mix, depth: Depth, line: &mut [u8], layer: &[u8])
    requires { length layer.now ≡ length line.old }
    ensures { line.new ≡ table (length line.old)
        (λ c. mix_byte (mix_code mix) (depth_code depth) (get_or line.old c 0) (get_or layer.now c 0)) }
{
    match mix {
        Mix::Or => mix_with(line, layer, |a, b| a | b),
        Mix::Xor => mix_with(line, layer, |a, b| a ^ b),
        Mix::And => mix_with(line, layer, |a, b| a & b),
        Mix::Priority => mix_first(depth, line, layer),
    }
}

// How layer 3 is mixed into the mix of layers 1 and 2, by the code of MX, whatever it is.
#[tactic(auto, unfolding(crate::specs::MixedBytes::third_mix))]
pub fn third_mix(mx: u8) -> u8
    ensures { result ≡ third_mix mx }
{
    if mx < 3 { 0 } else { mx }
}

impl Mix {
    // The same, by name.
    #[tactic(auto, unfolding(crate::specs::MixedBytes::third_mix))]
    pub fn third(self) -> Mix
        ensures { mix_code result ≡ third_mix (mix_code self) }
    {
        match self {
            Mix::Priority => Mix::Priority,
            Mix::Or | Mix::Xor | Mix::And => Mix::Or,
        }
    }
}
