// What commands and their parameters do to the registers.
ghost use Rattle.std.specs.Prelude.{◌≡◌};
ghost use Rattle.registers.specs.Parameters.{store, begin, direction_of, allowed, reset_registers};

use crate::groups::store_word;
use crate::{
    Blocks, Code, Command, Cursor, CursorForm, Direction, Display, Overlay, Registers, System,
};

impl Direction {
    // The direction of a command byte from 4C to 4F; any other counts as the last. A saved direction is read otherwise, from 0 to 3, and `From` could be but
    // one of the two.
    #[tactic(auto, unfolding(crate::specs::Parameters::direction_of))]
    pub fn of(b: u8) -> Direction
        ensures { result ≡ direction_of b }
    {
        match b {
            0x4C => Direction::Right,
            0x4D => Direction::Left,
            0x4E => Direction::Up,
            _ => Direction::Down,
        }
    }
}

impl Command {
    // Whether b is allowed as the parameter at a place of its list.
    #[tactic(auto, unfolding(crate::specs::Parameters::allowed))]
    pub fn allows(self, place: u8, b: u8) -> bool
        ensures { result ≡ allowed self place b }
    {
        match self {
            Command::SystemSet => System::allows(place, b),
            Command::CsrForm => CursorForm::allows(place, b),
            Command::Ovlay => b / 32 % 8 == 0,
            Command::HdotScr => b / 8 % 32 == 0,
            Command::GrayScale => b / 4 % 64 == 0 && b != 3,
            Command::SleepIn
            | Command::Disp
            | Command::Scroll
            | Command::CsrDir
            | Command::CgramAdr
            | Command::Csrw
            | Command::Csrr
            | Command::Mwrite
            | Command::Mread => true,
        }
    }
}

impl Registers {
    pub fn reset() -> Registers
        ensures { result ≡ reset_registers }
    {
        Registers::default()
    }

    // What the byte b of a command sets at once.
    #[tactic(auto, unfolding(crate::specs::Parameters::begin))]
    pub fn begin(&mut self, command: Command, b: u8)
        ensures { self.new ≡ begin command b self.old }
    {
        match command {
            Command::SleepIn => self.asleep = true,
            Command::Disp => self.display.on = b == 0x59,
            Command::CsrDir => self.cursor.direction = Direction::of(b),
            Command::SystemSet
            | Command::Scroll
            | Command::CsrForm
            | Command::Ovlay
            | Command::CgramAdr
            | Command::HdotScr
            | Command::GrayScale
            | Command::Csrw
            | Command::Csrr
            | Command::Mwrite
            | Command::Mread => {}
        }
    }

    // The parameter b at a place of a command's list, stored.
    #[tactic(auto, unfolding(crate::specs::Parameters::store))]
    pub fn store(&mut self, command: Command, place: u8, b: u8)
        ensures { self.new ≡ store command place b self.old }
    {
        match command {
            Command::SystemSet => {
                self.system.store(place, b);
                // It wakes the chip, and the display stays off until DISP ON.
                if place == 0 && self.asleep {
                    self.asleep = false;
                    self.display.on = false;
                }
            }
            Command::Disp => self.display.store(place, b),
            Command::Scroll => self.blocks.store(place, b),
            Command::CsrForm => self.form.store(place, b),
            Command::Ovlay => self.overlay.store(place, b),
            Command::CgramAdr => store_word(&mut self.cgram, place, b),
            Command::HdotScr => {
                if place == 0 {
                    self.hdot = b % 8;
                }
            }
            Command::GrayScale => {
                if place == 0 {
                    self.grey = b % 4;
                }
            }
            Command::Csrw => store_word(&mut self.cursor.address, place, b),
            Command::SleepIn | Command::CsrDir | Command::Csrr | Command::Mwrite | Command::Mread =>
                {}
        }
    }
}
