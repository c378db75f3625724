// Command bytes.
ghost use Rattle.std.specs.Prelude.{◌≡◌, ok_or};
ghost use Rattle.registers.specs.declared.Refusal.TheVariants.{UnknownCommand};
ghost use Rattle.registers.specs.Commands.{command_of, code, parameters};

use crate::{Command, Refusal};

// The command of a byte, where it is one of the 18 codes.
impl TryFrom<u8> for Command {
    type Error = Refusal;

    ghost try_from_gives = { λ b result. result ≡ ok_or (command_of b) UnknownCommand };

    #[tactic(auto, unfolding(crate::specs::Commands::command_of))]
    fn try_from(b: u8) -> Result<Command, Refusal> {
        match b {
            0x40 => Ok(Command::SystemSet),
            0x53 => Ok(Command::SleepIn),
            0x58..=0x59 => Ok(Command::Disp),
            0x44 => Ok(Command::Scroll),
            0x5D => Ok(Command::CsrForm),
            0x4C..=0x4F => Ok(Command::CsrDir),
            0x5B => Ok(Command::Ovlay),
            0x5C => Ok(Command::CgramAdr),
            0x5A => Ok(Command::HdotScr),
            0x60 => Ok(Command::GrayScale),
            0x46 => Ok(Command::Csrw),
            0x47 => Ok(Command::Csrr),
            0x42 => Ok(Command::Mwrite),
            0x43 => Ok(Command::Mread),
            _ => Err(Refusal::UnknownCommand),
        }
    }
}

impl From<Command> for u8 {
    ghost from_gives = { λ command b. b ≡ code command };

    fn from(command: Command) -> u8 {
        command as u8
    }
}

impl Command {
    // How many parameters it takes.
    pub fn parameters(self) -> u8
        ensures { result ≡ parameters self }
    {
        match self {
            Command::SystemSet => 8,
            Command::Scroll => 10,
            Command::CsrForm | Command::CgramAdr | Command::Csrw => 2,
            Command::Disp | Command::Ovlay | Command::HdotScr | Command::GrayScale => 1,
            Command::SleepIn | Command::CsrDir | Command::Csrr | Command::Mwrite | Command::Mread =>
                0,
        }
    }
}
