// What a parameter sets in the group of its command. A place is counted from 0; past the end of a list nothing is set.
// Bits are cut out by / and %, as the definitions do it: with masks the check found no proof.
ghost use Rattle.std.specs.Prelude.{◌≡◌};
ghost use Rattle.registers.specs.Parameters.{with_low, with_high, store_word, store_system, store_display, store_blocks, store_form, store_overlay, system_allows, form_allows};

use crate::{Blocks, CursorForm, Display, Overlay, System};

// The two-byte register x with b as its low byte.
#[tactic(auto, unfolding(crate::specs::Parameters::with_low))]
fn set_low(x: &mut u16, b: u8)
    ensures { x.new ≡ with_low x.old b }
{
    let [_, high] = x.to_le_bytes();
    *x = u16::from_le_bytes([b, high]);
}

// The two-byte register x with b as its high byte.
#[tactic(auto, unfolding(crate::specs::Parameters::with_high))]
fn set_high(x: &mut u16, b: u8)
    ensures { x.new ≡ with_high x.old b }
{
    let [low, _] = x.to_le_bytes();
    *x = u16::from_le_bytes([low, b]);
}

// The two-byte register x after a parameter of a command that has no other.
pub(crate) fn store_word(x: &mut u16, place: u8, b: u8)
    ensures { x.new ≡ store_word 0 place b x.old }
{
    match place {
        0 => set_low(x, b),
        1 => set_high(x, b),
        _ => {}
    }
}

impl System {
    #[tactic(auto, unfolding(crate::specs::Parameters::store_system))]
    pub(crate) fn store(&mut self, place: u8, b: u8)
        ensures { self.new ≡ store_system place b self.old }
    {
        match place {
            0 => {
                self.iv = b / 32 % 2 == 1;
                self.ws = b / 8 % 2 == 1;
                self.m2 = b / 4 % 2 == 1;
                self.m0 = b % 2 == 1;
            }
            1 => {
                self.wf = b / 128 % 2 == 1;
                self.fx.0 = b % 16;
            }
            2 => self.fy.0 = b % 16,
            3 => self.cr.0 = b,
            4 => self.tcr.0 = b,
            5 => self.lf.0 = b,
            6 => set_low(&mut self.ap, b),
            7 => set_high(&mut self.ap, b),
            _ => {}
        }
    }

    #[tactic(auto, unfolding(crate::specs::Parameters::system_allows))]
    pub(crate) fn allows(place: u8, b: u8) -> bool
        ensures { result ≡ system_allows place b }
    {
        match place {
            0 => b / 64 % 4 == 0 && b / 16 % 2 == 1 && b / 2 % 2 == 0,
            1 => b / 16 % 8 == 0,
            2 => b / 16 % 16 == 0,
            _ => true,
        }
    }
}

impl Display {
    #[tactic(auto, unfolding(crate::specs::Parameters::store_display))]
    pub(crate) fn store(&mut self, place: u8, b: u8)
        ensures { self.new ≡ store_display place b self.old }
    {
        if place == 0 {
            self.fp = b / 4 % 64;
            self.fc = b % 4;
        }
    }
}

impl Blocks {
    #[tactic(auto, unfolding(crate::specs::Parameters::store_blocks))]
    pub(crate) fn store(&mut self, place: u8, b: u8)
        ensures { self.new ≡ store_blocks place b self.old }
    {
        match place {
            0 => set_low(&mut self.sad1, b),
            1 => set_high(&mut self.sad1, b),
            2 => self.sl1.0 = b,
            3 => set_low(&mut self.sad2, b),
            4 => set_high(&mut self.sad2, b),
            5 => self.sl2.0 = b,
            6 => set_low(&mut self.sad3, b),
            7 => set_high(&mut self.sad3, b),
            8 => set_low(&mut self.sad4, b),
            9 => set_high(&mut self.sad4, b),
            _ => {}
        }
    }
}

impl CursorForm {
    #[tactic(auto, unfolding(crate::specs::Parameters::store_form))]
    pub(crate) fn store(&mut self, place: u8, b: u8)
        ensures { self.new ≡ store_form place b self.old }
    {
        match place {
            0 => self.crx.0 = b % 16,
            1 => {
                self.cm = b / 128 % 2 == 1;
                self.cry.0 = b % 16;
            }
            _ => {}
        }
    }

    #[tactic(auto, unfolding(crate::specs::Parameters::form_allows))]
    pub(crate) fn allows(place: u8, b: u8) -> bool
        ensures { result ≡ form_allows place b }
    {
        match place {
            0 => b / 16 % 16 == 0,
            1 => b / 16 % 8 == 0 && b % 16 != 0,
            _ => true,
        }
    }
}

impl Overlay {
    #[tactic(auto, unfolding(crate::specs::Parameters::store_overlay))]
    pub(crate) fn store(&mut self, place: u8, b: u8)
        ensures { self.new ≡ store_overlay place b self.old }
    {
        if place == 0 {
            self.ov = b / 16 % 2 == 1;
            self.dm2 = b / 8 % 2 == 1;
            self.dm1 = b / 4 % 2 == 1;
            self.mx = b % 4;
        }
    }
}
