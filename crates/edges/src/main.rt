// 'Both sides of each edge', the case that is run and not proved: with [L/F] 2 row 1 answers, and row 2 gets 16. It prints
// the refusal of each row from 0 to 2, 0 where there is none.
#![tactic(auto)]

use model::Controller;
use registers::{FONT_SIZE, MEMORY_SIZE, Refusal};

// SYSTEM SET for one column of 8 dots and [L/F] 2.
fn two_lines(memory: &mut [u8]) -> Result<Controller, Refusal> {
    let (mut c, answer) = Controller::reset().command_write(0x40);
    answer?;
    for parameter in [0x10, 7, 7, 0, 4, 1] {
        let (next, answer) = c.data_write(memory, parameter);
        answer?;
        c = next;
    }
    Ok(c)
}

// The number of an answer, as `host` has it, on which this program does not stand.
fn print_answer(rt: &impl Print, answer: Result<(), Refusal>) {
    let number = match answer {
        Ok(()) => 0,
        Err(refusal) => u8::from(refusal),
    };
    // The gate compares what arrives, so a write that fails shows there.
    let _ = println!(rt; "{number}");
}

fn main(rt: HostRuntime) {
    let mut memory = [0u8; MEMORY_SIZE];
    let font = [0u8; FONT_SIZE];
    match two_lines(&mut memory) {
        Ok(c) => {
            for row in 0..3 {
                let mut out = [0u8; 8];
                print_answer(&rt, c.row(&memory, &font, 0, row, &mut out));
            }
        }
        Err(refusal) => print_answer(&rt, Err(refusal)),
    }
}
