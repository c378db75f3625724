// Calls of the bus.
ghost use Rattle.std.specs.Prelude.{◌≡◌, ℕ, ◌<◌, List, Err};
ghost use Rattle.model.specs.Machine.{reset_controller, machine, ended, written_outcome, read_outcome, with_pending};
ghost use Rattle.model.specs.Bus.{ignored, display_off, served, ◌serves◌, command_write, write_parameter, data_write, cursor_reads, address_byte, data_read};
ghost use Rattle.model.specs.WriteRun.{run_outcome, write_run_outcome};

use crate::{Controller, Pending};
use registers::{Command, MEMORY_SIZE, Refusal, Registers};

// Whether a command is neither taken nor served: asleep, any but SYSTEM SET.
#[tactic(auto, unfolding(crate::specs::Bus::ignored))]
fn ignored(command: Command, asleep: bool) -> bool
    ensures { result ≡ ignored command asleep }
{
    command != Command::SystemSet && asleep
}

// Whether a command is SLEEP IN with the display off: it is to be on before sleep.
#[tactic(auto, unfolding(crate::specs::Bus::display_off))]
fn display_off(command: Command, on: bool) -> bool
    ensures { result ≡ display_off command on }
{
    command == Command::SleepIn && !on
}

// How many reads a command gives, but for MREAD, whose reads have no end.
#[tactic(auto, unfolding(crate::specs::Bus::cursor_reads))]
fn cursor_reads(command: Command) -> u8
    ensures { result ≡ cursor_reads command }
{
    if command == Command::Csrr { 2 } else { 0 }
}

// The byte of the cursor address that CSRR's read at a place gives.
#[tactic(auto, unfolding(crate::specs::Bus::address_byte))]
fn address_byte(address: u16, place: u8) -> u8
    ensures { result ≡ address_byte address place }
{
    let [low, high] = address.to_le_bytes();
    if place == 0 { low } else { high }
}

impl Controller {
    pub fn reset() -> Controller
        ensures { result ≡ reset_controller }
    {
        Controller {
            registers: Registers::reset(),
            pending: Pending::default(),
        }
    }

    // Another command pending, or none, from the start of its list however far the one before had come.
    fn set_pending(&mut self, command: Option<Command>)
        ensures { self.new ≡ with_pending command self.old }
    {
        self.pending = Pending { command, place: 0 };
    }

    // Refused, and the pending command ended.
    fn end_refused(&mut self, refusal: Refusal) -> Result<(), Refusal>
        ensures controller { self.new ≡ ended self.old }
        ensures answer { result ≡ Err refusal }
    {
        self.set_pending(None);
        Err(refusal)
    }

    // The pending command that data writes and reads go to.
    #[tactic(auto, unfolding(crate::specs::Bus::served))]
    fn served(&self) -> Option<Command>
        ensures { result ≡ served self.now }
    {
        match self.pending.command {
            Some(command) if !ignored(command, self.registers.asleep) => Some(command),
            _ => None,
        }
    }

    fn serves(&self, command: Command) -> bool
        ensures { result ≡ (served self.now serves command) }
    {
        self.served() == Some(command)
    }

    // The calls in place, for a caller that holds the controller in a struct: by the calls by value a short record took 2.6 times the instructions.

    #[tactic(auto, unfolding(crate::specs::Bus::command_write, crate::specs::Bus::take_command))]
    pub fn command_write_in_place(&mut self, b: u8) -> Result<(), Refusal>
        ensures { (memory : List ℕ) → written_outcome self.new result memory ≡ command_write (machine self.old memory) b }
    {
        let Ok(command) = Command::try_from(b) else {
            return self.end_refused(Refusal::UnknownCommand);
        };
        if ignored(command, self.registers.asleep) {
            return self.end_refused(Refusal::Asleep);
        }
        if display_off(command, self.registers.display.on) {
            return self.end_refused(Refusal::DisplayOff);
        }
        self.registers.begin(command, b);
        self.set_pending(Some(command));
        Ok(())
    }

    // A parameter of the pending command.
    #[tactic(auto, unfolding(crate::specs::Bus::write_parameter))]
    fn write_parameter(&mut self, command: Command, b: u8) -> Result<(), Refusal>
        requires { self.old.pending.place < 255 }
        ensures { (memory : List ℕ) → written_outcome self.new result memory ≡ write_parameter command (machine self.old memory) b }
    {
        let place = self.pending.place;
        if !command.allows(place, b) {
            return self.end_refused(Refusal::NotAllowed);
        }
        self.registers.store(command, place, b);
        self.pending.place = place + 1;
        Ok(())
    }

    #[tactic(auto, unfolding(crate::specs::Bus::data_write, crate::specs::Bus::write_data))]
    pub fn data_write_in_place(&mut self, memory: &mut [u8], b: u8) -> Result<(), Refusal>
        ensures { written_outcome self.new result memory.new ≡ data_write (machine self.old memory.old) b }
    {
        if memory.len() != MEMORY_SIZE {
            return Err(Refusal::MemorySize);
        }
        match self.served() {
            Some(Command::Mwrite) => self.write_memory(memory, b),
            Some(command) if self.pending.place < command.parameters() => {
                self.write_parameter(command, b)
            }
            _ => Err(Refusal::NothingWanted),
        }
    }

    #[tactic(auto, unfolding(crate::specs::Bus::data_read, crate::specs::Bus::read_data, crate::specs::Bus::read_cursor))]
    pub fn data_read_in_place(&mut self, memory: &[u8]) -> Result<u8, Refusal>
        ensures { read_outcome self.new result memory.now ≡ data_read (machine self.old memory.now) }
    {
        if memory.len() != MEMORY_SIZE {
            return Err(Refusal::MemorySize);
        }
        let place = self.pending.place;
        match self.served() {
            Some(Command::Mread) => self.read_memory(memory),
            Some(command) if place < cursor_reads(command) => {
                self.pending.place = place + 1;
                Ok(address_byte(self.registers.cursor.address, place))
            }
            _ => Err(Refusal::NothingToRead),
        }
    }

    #[tactic(auto, using(crate::proofs::WriteRuns::no_run), unfolding(crate::specs::WriteRun::stores))]
    pub fn write_run_in_place(&mut self, memory: &mut [u8], bytes: &[u8]) -> usize
        ensures { write_run_outcome self.new result memory.new ≡ run_outcome (machine self.old memory.old) bytes.now }
    {
        let Some(memory) = memory.as_mut_array::<MEMORY_SIZE>() else {
            return 0;
        };
        if self.serves(Command::Mwrite) {
            self.write_memory_run(memory, bytes)
        } else {
            0
        }
    }

    // The calls by value, as the scope of the project has them: each hands back the controller and the answer.

    pub fn command_write(mut self, b: u8) -> (Controller, Result<(), Refusal>)
        ensures { (memory : List ℕ) → written_outcome result.0 result.1 memory ≡ command_write (machine self memory) b }
    {
        let answer = self.command_write_in_place(b);
        (self, answer)
    }

    pub fn data_write(mut self, memory: &mut [u8], b: u8) -> (Controller, Result<(), Refusal>)
        ensures { written_outcome result.0 result.1 memory.new ≡ data_write (machine self memory.old) b }
    {
        let answer = self.data_write_in_place(memory, b);
        (self, answer)
    }

    pub fn data_read(mut self, memory: &[u8]) -> (Controller, Result<u8, Refusal>)
        ensures { read_outcome result.0 result.1 memory.now ≡ data_read (machine self memory.now) }
    {
        let answer = self.data_read_in_place(memory);
        (self, answer)
    }

    // The data writes of as many bytes, from the first on, as go into memory and are accepted; how many they are.
    pub fn write_run(mut self, memory: &mut [u8], bytes: &[u8]) -> (Controller, usize)
        ensures { write_run_outcome result.0 result.1 memory.new ≡ run_outcome (machine self memory.old) bytes.now }
    {
        let length = self.write_run_in_place(memory, bytes);
        (self, length)
    }
}
