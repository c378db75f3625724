// The codes of MX and of GRAY SCALE. A code past the last counts as the last, as in `mix_byte`; a row's registers have none such (`in_layout`).
ghost use Rattle.std.specs.Prelude.{◌≡◌};
ghost use Rattle.dots.specs.Mixing.{mix_of};
ghost use Rattle.dots.specs.Bytes.{depth_of};

use crate::{Depth, Mix};

impl From<u8> for Mix {
    ghost from_gives = { λ mx mix. mix ≡ mix_of mx };

    fn from(mx: u8) -> Mix {
        match mx {
            0 => Mix::Or,
            1 => Mix::Xor,
            2 => Mix::And,
            _ => Mix::Priority,
        }
    }
}

impl From<u8> for Depth {
    ghost from_gives = { λ grey depth. depth ≡ depth_of grey };

    fn from(grey: u8) -> Depth {
        match grey {
            0 => Depth::One,
            1 => Depth::Two,
            _ => Depth::Four,
        }
    }
}
