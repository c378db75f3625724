// Single calls. Each answers with the number of the refusal, 0 where there is none; or with NO_CONTROLLER, and then it changes
// nothing. A data read answers with its value too, times 256. The size of a frame has no refusal, and is 0 in place of NO_CONTROLLER.
// The first calls read, call and save alike: a closure over the call would hold the lent memory, and be no shorter. They go in place: by value a data
// write took twice as long.
ghost use Rattle.std.specs.Prelude.{ℕ, List, ◌≡◌};
ghost use Rattle.registers.specs.Refusals.{reply, read_reply};
ghost use Rattle.model.specs.Calls.{command, write, read};
ghost use Rattle.host.specs.Calls.{returned, answer_of, after_reset, after_call, after_row, row_returned, frame_size_returned};

use crate::saved::{read, write};
use crate::{NO_CONTROLLER, SAVED_LENGTH};
use model::Controller;
use registers::Refusal;

// C has no Result: an answer is a number.
pub fn number(answer: Result<(), Refusal>) -> u8
    ensures { result ≡ (reply answer).refusal }
{
    match answer {
        Ok(()) => 0,
        Err(refusal) => refusal.into(),
    }
}

fn read_number(answer: Result<u8, Refusal>) -> u32
    ensures { result ≡ answer_of (read_reply answer) }
{
    match answer {
        Ok(value) => 256 * u32::from(value),
        Err(refusal) => u32::from(u8::from(refusal)),
    }
}

#[unsafe(no_mangle)]
pub extern "C" fn granivolche_reset(controller: &mut [u8]) -> u32
    ensures { (memory : List ℕ) → returned result controller.new memory ≡ after_reset controller.old memory }
{
    if controller.len() != SAVED_LENGTH {
        return NO_CONTROLLER;
    }
    write(&Controller::reset(), controller);
    0
}

#[unsafe(no_mangle)]
#[tactic(auto, using(crate::proofs::Outcomes::read_length, crate::proofs::Outcomes::call_unread, crate::proofs::Outcomes::call_saved, crate::proofs::Outcomes::number_alone))]
pub extern "C" fn granivolche_command_write(controller: &mut [u8], byte: u8) -> u32
    ensures { (memory : List ℕ) → returned result controller.new memory
        ≡ after_call controller.old memory (command byte) }
{
    let Some(mut c) = read(controller) else {
        return NO_CONTROLLER;
    };
    let answer = c.command_write_in_place(byte);
    write(&c, controller);
    u32::from(number(answer))
}

#[unsafe(no_mangle)]
#[tactic(auto, using(crate::proofs::Outcomes::read_length, crate::proofs::Outcomes::call_unread, crate::proofs::Outcomes::call_saved, crate::proofs::Outcomes::number_alone))]
pub extern "C" fn granivolche_data_write(controller: &mut [u8], memory: &mut [u8], byte: u8) -> u32
    ensures { returned result controller.new memory.new
        ≡ after_call controller.old memory.old (write byte) }
{
    let Some(mut c) = read(controller) else {
        return NO_CONTROLLER;
    };
    let answer = c.data_write_in_place(memory, byte);
    write(&c, controller);
    u32::from(number(answer))
}

#[unsafe(no_mangle)]
#[tactic(auto, using(crate::proofs::Outcomes::read_length, crate::proofs::Outcomes::call_unread, crate::proofs::Outcomes::call_saved))]
pub extern "C" fn granivolche_data_read(controller: &mut [u8], memory: &[u8]) -> u32
    ensures { returned result controller.new memory.now
        ≡ after_call controller.old memory.now read }
{
    let Some(mut c) = read(controller) else {
        return NO_CONTROLLER;
    };
    let answer = c.data_read_in_place(memory);
    write(&c, controller);
    read_number(answer)
}

#[unsafe(no_mangle)]
pub extern "C" fn granivolche_row(
    controller: &[u8],
    memory: &[u8],
    font: &[u8],
    frame: u32,
    row: u32,
    dots: &mut [u8],
) -> u32
    ensures { row_returned result dots.new
        ≡ after_row controller.now memory.now font.now frame row dots.old }
{
    let Some(c) = read(controller) else {
        return NO_CONTROLLER;
    };
    u32::from(number(c.row(memory, font, frame, row, dots)))
}

#[unsafe(no_mangle)]
pub extern "C" fn granivolche_frame_size(controller: &[u8]) -> u32
    ensures { result ≡ frame_size_returned controller.now }
{
    let Some(c) = read(controller) else {
        return 0;
    };
    let size = row::frame_size(c.registers);
    u32::from(size.width) + 65536 * u32::from(size.rows.0)
}
