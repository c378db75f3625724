// The number of a refusal. A match, and not discriminants, which could not be equal: that the numbers differ is a statement of its own (proofs/Numbers),
// which must-fail/two_refusals_one_number breaks.
ghost use Rattle.std.specs.Prelude.{◌≡◌};
ghost use Rattle.registers.specs.Refusals.{number};

use crate::Refusal;

impl From<Refusal> for u8 {
    ghost from_gives = { λ refusal n. n ≡ number refusal };

    fn from(refusal: Refusal) -> u8 {
        match refusal {
            Refusal::MemorySize => 1,
            Refusal::UnknownCommand => 2,
            Refusal::NothingWanted => 3,
            Refusal::NotAllowed => 4,
            Refusal::Asleep => 5,
            Refusal::NothingToRead => 6,
            Refusal::OutsideMemory => 7,
            Refusal::FontSize => 8,
            Refusal::GreyMode => 9,
            Refusal::CharacterWidth => 10,
            Refusal::RowWidth => 11,
            Refusal::OddLines => 12,
            Refusal::ShortLine => 13,
            Refusal::LayerOrder => 14,
            Refusal::CursorShape => 15,
            Refusal::RowNumber => 16,
            Refusal::BufferSize => 17,
            Refusal::SmoothScroll => 18,
            Refusal::DisplayOff => 19,
        }
    }
}
