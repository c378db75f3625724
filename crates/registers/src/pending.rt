// What is pending: a command, or none, which has a code that is no command's and sets nothing.
ghost use Rattle.std.specs.Prelude.{◌≡◌};
ghost use Rattle.registers.specs.Pending.{pending_code, pending_parameters, pending_allowed, begin_pending, store_pending};

use crate::{Command, Registers};

// Its code, the first of a range; 0 of none.
pub fn pending_code(pending: Option<Command>) -> u8
    ensures { result ≡ pending_code pending }
{
    pending.map_or(0, u8::from)
}

// How many parameters it takes.
pub fn pending_parameters(pending: Option<Command>) -> u8
    ensures { result ≡ pending_parameters pending }
{
    pending.map_or(0, Command::parameters)
}

// Whether b is allowed as the parameter at a place of its list.
pub fn pending_allows(pending: Option<Command>, place: u8, b: u8) -> bool
    ensures { result ≡ pending_allowed pending place b }
{
    match pending {
        Some(command) => command.allows(place, b),
        None => true,
    }
}

impl Registers {
    // What its byte b sets at once.
    pub fn begin_pending(&mut self, pending: Option<Command>, b: u8)
        ensures { self.new ≡ begin_pending pending b self.old }
    {
        if let Some(command) = pending {
            self.begin(command, b);
        }
    }

    // The parameter b at a place of its list, stored.
    pub fn store_pending(&mut self, pending: Option<Command>, place: u8, b: u8)
        ensures { self.new ≡ store_pending pending place b self.old }
    {
        if let Some(command) = pending {
            self.store(command, place, b);
        }
    }
}
