// The cursor's movement.
ghost use Rattle.std.specs.Prelude.{◌≡◌, ◌+◌, ◌-◌, ◌%◌};
ghost use Rattle.registers.specs.Cursor.{next_cursor, move_cursor};

use crate::{Cursor, Direction, Registers};

// The address so many bytes on. It wraps on purpose. A function of its own, and `back` too, for a clause in the words of the definition.
fn forward(address: u16, step: u16) -> u16
    ensures { result ≡ (address + step) % 65536 }
{
    address.wrapping_add(step)
}

// The address so many bytes back.
fn back(address: u16, step: u16) -> u16
    ensures { result ≡ (address + 65536 - step) % 65536 }
{
    address.wrapping_sub(step)
}

impl Cursor {
    // The cursor after a memory access.
    #[tactic(auto, unfolding(crate::specs::Cursor::next_address))]
    fn advance(&mut self, ap: u16)
        ensures { self.new ≡ next_cursor ap self.old }
    {
        self.address = match self.direction {
            Direction::Right => forward(self.address, 1),
            Direction::Left => back(self.address, 1),
            Direction::Up => back(self.address, ap),
            Direction::Down => forward(self.address, ap),
        };
    }
}

impl Registers {
    // The registers after a memory access.
    pub fn move_cursor(&mut self)
        ensures { self.new ≡ move_cursor self.old }
    {
        self.cursor.advance(self.system.ap);
    }
}
