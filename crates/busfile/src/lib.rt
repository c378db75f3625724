// Records of a bus file: payload length and kind, two bytes each, and the payload; little-endian.
#![tactic(auto)]

mod reading;
mod records;

pub use records::{compact, double_word, part, suffices, word};

// Kind 1: a command byte, then its data writes. Kind 2: a count of reads. Kind 3: a frame to show.
#[derive(Clone, Copy, PartialEq, Eq, Debug)]
pub enum Kind {
    Bus,
    Reads,
    Frame,
}

// A record's payload starts at start and ends at end, where the next record stands.
#[derive(Clone, Copy, PartialEq, Eq, Debug)]
pub struct Record {
    pub kind: Kind,
    pub start: usize,
    pub end: usize,
}

// What stands at a place of a bus file. Three cases, as the format has them: `Option<Result<Record, BadRecord>>` would name them no plainer.
#[derive(Clone, Copy, PartialEq, Eq, Debug)]
pub enum Found {
    Record(Record),
    Bad,
    End,
}

// A bus file and a place in it: the reader shows each payload as the part of the lent bytes that it is.
#[derive(Clone, Copy)]
pub struct Reader<'a> {
    pub bytes: &'a [u8],
    pub at: usize,
}
