// Accesses to display memory at the cursor, which then moves.
ghost use Rattle.std.specs.Prelude.{◌≡◌, ℕ, ◌+◌, ◌%◌, true, length};
ghost use Rattle.registers.specs.declared.Command.TheVariants.{Mwrite};
ghost use Rattle.registers.specs.Cursor.{next_address};
ghost use Rattle.registers.specs.Sizes.{memory_size};
ghost use Rattle.model.specs.Machine.{machine, written_outcome, read_outcome};
ghost use Rattle.model.specs.Bus.{served, ◌serves◌, write_memory, read_memory};
ghost use Rattle.model.specs.WriteRun.{run_outcome, write_run_outcome};
ghost use Rattle.model.specs.Strides.{stored_outcome, stored_from, InRoom, Fitting};

use crate::Controller;
use registers::{Direction, MEMORY_SIZE, Refusal};

// The last address of memory.
const LAST_ADDRESS: u16 = (MEMORY_SIZE - 1) as u16;

// The address behind bytes that were stored, and how many they are. A struct, as the numbers of a pair have no names.
#[derive(Clone, Copy)]
struct Stored {
    address: u16,
    length: usize,
}

// How far each access moves the cursor, modulo 65,536.
#[tactic(auto, unfolding(registers::specs::Cursor::next_address))]
fn stride(direction: Direction, ap: u16) -> u16
    ensures { (address : ℕ) → next_address direction ap address ≡ (address + result) % 65536 }
{
    match direction {
        Direction::Right => 1,
        Direction::Left => 65535,
        Direction::Up => ap.wrapping_neg(),
        Direction::Down => ap,
    }
}

// Bytes stored at addresses one after the other: one copy, up to memory's end.
#[tactic(auto, using(crate::proofs::Strides::none_stored))]
fn store_adjacent(memory: &mut [u8; MEMORY_SIZE], bytes: &[u8], address: u16) -> Stored
    ensures { stored_outcome result memory.new ≡ stored_from 1 0 address memory.old bytes.now }
{
    let at = usize::from(address);
    if memory.len() <= at {
        return Stored { address, length: 0 };
    }
    let n = bytes.len().min(memory.len() - at);
    let end = at + n;
    memory[at..end].copy_from_slice(&bytes[..n]);
    Stored {
        address: end as u16,
        length: n,
    }
}

// How many accesses stay in so much room, each a step further, at most all.
fn in_room(room: u16, step: u16, all: usize) -> usize
    ensures { InRoom room step all result }
{
    if step == 0 {
        all
    } else {
        all.min(usize::from(room / step) + 1)
    }
}

// How many accesses a stride apart come before the first past memory's end, at most all. Memory is the lower half of all addresses, so no
// stride leads over the upper: one below 8000h moves forward, the others back.
fn fitting(address: u16, stride: u16, all: usize) -> usize
    ensures { Fitting address stride all result }
{
    if LAST_ADDRESS < address {
        return 0;
    }
    if stride < 32768 {
        return in_room(LAST_ADDRESS - address, stride, all);
    }
    in_room(address, stride.wrapping_neg(), all)
}

// Bytes stored a stride apart, up to the first address past memory's end. How many is found first, so that the loop tests nothing else; and
// it carries the address alone: a controller by value costs more than a store.
fn store_strided(memory: &mut [u8; MEMORY_SIZE], bytes: &[u8], address: u16, stride: u16) -> Stored
    ensures { stored_outcome result memory.new ≡ stored_from stride 0 address memory.old bytes.now }
{
    let count = fitting(address, stride, bytes.len());
    let mut next = address;
    for byte in &bytes[..count] {
        memory[usize::from(next)] = *byte;
        next = next.wrapping_add(stride);
    }
    Stored {
        address: next,
        length: count,
    }
}

// Bytes stored from an address on.
fn store_from(memory: &mut [u8; MEMORY_SIZE], bytes: &[u8], address: u16, stride: u16) -> Stored
    ensures { stored_outcome result memory.new ≡ stored_from stride 0 address memory.old bytes.now }
{
    if stride == 1 {
        store_adjacent(memory, bytes, address)
    } else {
        store_strided(memory, bytes, address, stride)
    }
}

impl Controller {
    // The byte b stored at the cursor.
    #[tactic(auto, unfolding(crate::specs::Bus::write_memory))]
    pub(crate) fn write_memory(&mut self, memory: &mut [u8], b: u8) -> Result<(), Refusal>
        ensures { written_outcome self.new result memory.new ≡ write_memory (machine self.old memory.old) b }
    {
        let at = usize::from(self.registers.cursor.address);
        self.registers.move_cursor();
        if memory.len() <= at {
            return Err(Refusal::OutsideMemory);
        }
        memory[at] = b;
        Ok(())
    }

    // Bytes stored from the cursor on while it is inside memory; how many they are.
    #[tactic(auto, using(crate::proofs::WriteRuns::run_strided))]
    pub(crate) fn write_memory_run(&mut self, memory: &mut [u8; MEMORY_SIZE], bytes: &[u8]) -> usize
        requires serves_mwrite { served self.old serves Mwrite ≡ true }
        ensures { write_run_outcome self.new result memory.new ≡ run_outcome (machine self.old memory.old) bytes.now }
    {
        let cursor = self.registers.cursor;
        let step = stride(cursor.direction, self.registers.system.ap);
        let stored = store_from(memory, bytes, cursor.address, step);
        self.registers.cursor.address = stored.address;
        stored.length
    }

    // The byte at the cursor.
    #[tactic(auto, unfolding(crate::specs::Bus::read_memory))]
    pub(crate) fn read_memory(&mut self, memory: &[u8]) -> Result<u8, Refusal>
        ensures { read_outcome self.new result memory.now ≡ read_memory (machine self.old memory.now) }
    {
        let at = usize::from(self.registers.cursor.address);
        self.registers.move_cursor();
        memory.get(at).copied().ok_or(Refusal::OutsideMemory)
    }
}
