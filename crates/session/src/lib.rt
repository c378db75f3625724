// The records of a bus file carried out on a controller, and the lines that they print.
#![tactic(auto)]

mod file;
mod frames;
mod printing;
mod run;

pub use file::{finish, next, start};
use model::Controller;
use registers::Count;

// How many bytes of the output's buffer wait, and whether the output still takes them. That is a flag, since lines are put into the buffer of a closed
// output too (`printed`).
#[derive(Clone, Copy)]
pub struct Output {
    pub used: usize,
    pub open: bool,
}

// A controller, and how far its output is.
#[derive(Clone, Copy)]
pub struct Session {
    pub controller: Controller,
    pub output: Output,
}

// How far a file is: where the next record stands, how many were good, and whether the file goes on. That is a flag beside the place, since
// `Progress`, `next_step` and `Ran` speak of it after the last record too. The state alone, which can be copied, kept and gone on from later.
#[derive(Clone, Copy)]
pub struct Step {
    pub session: Session,
    pub at: usize,
    pub good: u64,
    pub more: bool,
}

// A step with what it is lent, which does the work. Flat, and with a lifetime for each `&mut`, so that
// the check knows memory and buffer when the loan has ended (`next`).
#[derive(Drop)]
pub struct LentStep<'r, 'm, 'w, P> {
    pub rt: &'r P,
    pub memory: &'m mut [u8],
    pub font: &'r [u8],
    pub out: &'w mut [u8],
    pub step: Step,
}

// A frame to show: the number of its record, its own, and how many rows it has.
#[derive(Clone, Copy)]
struct Frame {
    record: u64,
    number: u32,
    rows: Count,
}
