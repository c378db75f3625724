// The text of a line.
//
// Not by `write!` and Display: those answer a Result, and no clause says when it is Ok, so that no line could be promised.
ghost use Rattle.std.specs.Prelude.{◌+◌, ◌/◌, ◌<◌, ◌≤◌, [], ◌∷◌, ◌++◌, ◌≡◌, length};
ghost use Rattle.arrayvec.specs.ArrayString.{array_string_len};
ghost use Rattle.lines.specs.Lines.{hex_digit, decimal, line_text};
ghost use Rattle.lines.specs.Pieces.{with_numbers};

use crate::Line;
use arrayvec::ArrayString;

// A name, four numbers, each a blank and at most 20 digits, and an end.
const LONGEST: usize = 7 + 4 * 21 + 4;

// Upper case, of the low four bits: `char::from_digit` gives lower case, and an Option.
#[tactic(auto, using(crate::proofs::Digits::digit_code))]
pub fn hex_digit(n: u8) -> u8
    ensures value { result ≡ hex_digit n }
    ensures ascii { result < 128 }
{
    match n % 16 {
        digit @ 0..=9 => b'0' + digit,
        digit => b'A' - 10 + digit,
    }
}

// A name, numbers, and what stands behind them.
#[tactic(auto, using(crate::proofs::Digits::number_text, crate::proofs::Digits::number_length))]
fn numbered(name: &str, numbers: &[u64], end: &str) -> ArrayString<LONGEST>
    requires { (length name.now ≤ 7) × (length numbers.now ≤ 4) × (length end.now ≤ 1) }
    ensures text { result.bytes ≡ with_numbers name.now numbers.now ++ end.now }
    ensures len { array_string_len result + 3 ≤ LONGEST }
{
    let mut line = ArrayString::new();
    line.push_str(name);
    for &n in numbers {
        line.push_str(" ");
        line.push_str(itoa::Buffer::new().format(n));
    }
    line.push_str(end);
    line
}

// A number in two hex digits behind a line.
#[tactic(auto, using(crate::proofs::Digits::encode_ascii))]
fn push_hex(line: &mut ArrayString<LONGEST>, n: u8)
    requires { array_string_len line.old + 2 ≤ LONGEST }
    ensures { line.new.bytes ≡ line.old.bytes ++ hex_digit (n / 16) ∷ hex_digit n ∷ [] }
{
    line.push(char::from(hex_digit(n / 16)));
    line.push(char::from(hex_digit(n)));
}

impl Line {
    pub(crate) fn text(self) -> ArrayString<LONGEST>
        ensures { result.bytes ≡ line_text self }
    {
        match self {
            Line::Refused(record, byte, number) => {
                numbered("refused", &[record, byte, u64::from(number)], "\n")
            }
            Line::Read(record, index, value) => {
                let mut line = numbered("read", &[record, index], " ");
                push_hex(&mut line, value);
                line.push_str("\n");
                line
            }
            Line::Frame(record, frame, width, rows) => {
                let numbers = [record, u64::from(frame), width as u64, u64::from(rows)];
                numbered("frame", &numbers, "\n")
            }
            Line::Bad(record) => numbered("bad", &[record], "\n"),
            Line::End(count) => numbered("end", &[count], "\n"),
        }
    }
}
