// A record of kind 1: a command byte and its data writes, with an answer byte for each.
ghost use Rattle.std.specs.Prelude.{◌<◌, ◌≡◌, length};
ghost use Rattle.registers.specs.Refusals.{reply};
ghost use Rattle.model.specs.Machine.{machine};
ghost use Rattle.host.specs.Calls.{returned};
ghost use Rattle.host.specs.Sending.{fits, refusal_count, nothing_sent, send_outcome, sent_outcome, send_returned, after_send};

use crate::NOTHING_SENT;
use crate::calls::number;
use crate::saved::{read, write};
use dots::clear;
use model::Controller;
use registers::Refusal;

// 1 where a call is refused.
fn refusal_count(answer: Result<(), Refusal>) -> u32
    ensures { result ≡ refusal_count (reply answer).refusal }
{
    u32::from(answer.is_err())
}

// The first data writes that go into memory are one run, and answered by the zeros that are there already.
fn send(c: Controller, memory: &mut [u8], bytes: &[u8], answers: &mut [u8]) -> (Controller, u32)
    requires { (0 < length bytes.now) × (length bytes.now < nothing_sent) × (length answers.old ≡ length bytes.now) }
    ensures { sent_outcome result.0 result.1 memory.new answers.new
        ≡ send_outcome (machine c memory.old) bytes.now }
{
    clear(answers);
    let (c, first) = c.command_write(bytes[0]);
    answers[0] = number(first);
    let mut refused = refusal_count(first);
    let (mut c, taken) = c.write_run(memory, &bytes[1..]);
    // By the place: of what is written through `zip` std says nothing.
    for i in 1 + taken..bytes.len() {
        let (next, answer) = c.data_write(memory, bytes[i]);
        c = next;
        answers[i] = number(answer);
        refused += refusal_count(answer);
    }
    (c, refused)
}

// Whether bytes can be sent, with an answer for each.
fn fits(bytes: &[u8], answers: &[u8]) -> bool
    ensures { result ≡ fits bytes.now answers.now }
{
    answers.len() == bytes.len() && !bytes.is_empty() && bytes.len() < NOTHING_SENT as usize
}

#[unsafe(no_mangle)]
#[tactic(auto, using(crate::proofs::Outcomes::read_length, crate::proofs::SentBytes::unfit_unsent, crate::proofs::SentBytes::unread_unsent))]
pub extern "C" fn granivolche_send(
    controller: &mut [u8],
    memory: &mut [u8],
    bytes: &[u8],
    answers: &mut [u8],
) -> u32
    ensures { send_returned (returned result controller.new memory.new) answers.new
        ≡ after_send controller.old memory.old bytes.now answers.old }
{
    if !fits(bytes, answers) {
        return NOTHING_SENT;
    }
    let Some(c) = read(controller) else {
        return NOTHING_SENT;
    };
    let (c, refused) = send(c, memory, bytes, answers);
    write(&c, controller);
    refused
}
