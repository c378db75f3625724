// One S1D13700 in indirect mode: a controller by value beside display memory that the caller lends.
#![tactic(auto)]

mod bus;
mod memory;
mod rows;

use registers::{Command, Registers};

// The pending command, if any, and how many of its parameters or reads were taken.
#[derive(Clone, Copy, Default)]
pub struct Pending {
    pub command: Option<Command>,
    pub place: u8,
}

#[derive(Clone, Copy)]
pub struct Controller {
    pub registers: Registers,
    pub pending: Pending,
}
