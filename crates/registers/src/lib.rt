// The registers of one S1D13700: its commands, the register groups that their parameters set, and the answers of a call.
#![tactic(auto)]

mod commands;
mod groups;
mod layout;
mod movement;
mod pending;
mod refusals;
mod store;

ghost use Rattle.std.specs.Prelude.{◌≡◌};
ghost use Rattle.registers.specs.Counts.{count};

pub use pending::{pending_allows, pending_code, pending_parameters};

// How many bytes display memory has, and the font.
pub const MEMORY_SIZE: usize = 32768;

pub const FONT_SIZE: usize = 1280;

// A code n as the manual stores it.
#[derive(Clone, Copy, Default)]
pub struct Code(pub u8);

// The count [n] = n + 1 that a code n stands for.
#[derive(Clone, Copy)]
pub struct Count(pub u16);

impl Code {
    pub fn count(self) -> Count
        ensures { result ≡ count self }
    {
        Count(u16::from(self.0) + 1)
    }
}

// A command of the command table, and its code, the first of a range.
#[derive(Clone, Copy, PartialEq, Eq, Debug)]
pub enum Command {
    SystemSet = 0x40,
    SleepIn = 0x53,
    Disp = 0x58,
    Scroll = 0x44,
    CsrForm = 0x5D,
    CsrDir = 0x4C,
    Ovlay = 0x5B,
    CgramAdr = 0x5C,
    HdotScr = 0x5A,
    GrayScale = 0x60,
    Csrw = 0x46,
    Csrr = 0x47,
    Mwrite = 0x42,
    Mread = 0x43,
}

// SYSTEM SET.
#[derive(Clone, Copy, Default)]
pub struct System {
    pub iv: bool,
    pub ws: bool,
    pub m2: bool,
    pub m0: bool,
    pub wf: bool,
    pub fx: Code,
    pub fy: Code,
    pub cr: Code,
    pub tcr: Code,
    pub lf: Code,
    pub ap: u16,
}

// DISP OFF and DISP ON: D, which waking clears too, and the flashing of the blocks and of the cursor.
#[derive(Clone, Copy, Default)]
pub struct Display {
    pub on: bool,
    pub fp: u8,
    pub fc: u8,
}

// SCROLL: where the four screen blocks start, and the lines of blocks 1 and 2.
#[derive(Clone, Copy, Default)]
pub struct Blocks {
    pub sad1: u16,
    pub sl1: Code,
    pub sad2: u16,
    pub sl2: Code,
    pub sad3: u16,
    pub sad4: u16,
}

// CSRFORM.
#[derive(Clone, Copy, Default)]
pub struct CursorForm {
    pub crx: Code,
    pub cm: bool,
    pub cry: Code,
}

// OVLAY.
#[derive(Clone, Copy, Default)]
pub struct Overlay {
    pub ov: bool,
    pub dm2: bool,
    pub dm1: bool,
    pub mx: u8,
}

#[derive(Clone, Copy, Default)]
pub enum Direction {
    #[default]
    Right,
    Left,
    Up,
    Down,
}

// CSRW and CSRDIR.
#[derive(Clone, Copy, Default)]
pub struct Cursor {
    pub address: u16,
    pub direction: Direction,
}

// All that the controller stores but the pending command. Fields of some bits (MX, grey, FP, FC) are numbers here: a saved controller may hold
// any byte there, and reading and saving it are proved to undo each other for all of them (`SavedForm`).
#[derive(Clone, Copy, Default)]
pub struct Registers {
    pub system: System,
    pub display: Display,
    pub blocks: Blocks,
    pub form: CursorForm,
    pub overlay: Overlay,
    pub cgram: u16,
    pub hdot: u8,
    pub grey: u8,
    pub cursor: Cursor,
    pub asleep: bool,
}

// The refusals, in the order of their numbers: the error of a call that is refused.
#[derive(Clone, Copy, PartialEq, Eq, Debug)]
pub enum Refusal {
    MemorySize,
    UnknownCommand,
    NothingWanted,
    NotAllowed,
    Asleep,
    NothingToRead,
    OutsideMemory,
    FontSize,
    GreyMode,
    CharacterWidth,
    RowWidth,
    OddLines,
    ShortLine,
    LayerOrder,
    CursorShape,
    RowNumber,
    BufferSize,
    SmoothScroll,
    DisplayOff,
}
