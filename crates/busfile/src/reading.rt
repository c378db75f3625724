// A thin reader over lent bytes: what stands at its place, and the payload of what it found, each by a function on a plain slice.
ghost use Rattle.std.specs.Prelude.{◌≡◌};
ghost use Rattle.busfile.specs.Records.{shape_of, record_at, part_of};

use crate::records::{part, rest, word};
use crate::{Found, Kind, Reader, Record};

// The kind with that number, as the file has it, where a payload of that length goes with it.
#[tactic(auto, unfolding(crate::specs::Records::shape_of))]
fn shape_of(kind: u16, size: u16) -> Option<Kind>
    ensures { result ≡ shape_of kind size }
{
    match (kind, size) {
        (1, 1..=65532) => Some(Kind::Bus),
        (2, 2) => Some(Kind::Reads),
        (3, 4) => Some(Kind::Frame),
        _ => None,
    }
}

// What stands at a place.
#[tactic(auto, unfolding(crate::specs::Records::record_at))]
fn record_at(s: &[u8], at: usize) -> Found
    ensures { result ≡ record_at s.now at }
{
    let left = rest(s, at);
    if left.is_empty() {
        return Found::End;
    }
    if left.len() < 4 {
        return Found::Bad;
    }
    let size = word(left);
    let Some(kind) = shape_of(word(rest(left, 2)), size) else {
        return Found::Bad;
    };
    let length = usize::from(size);
    if left.len() - 4 < length {
        return Found::Bad;
    }
    let start = at + 4;
    Found::Record(Record {
        kind,
        start,
        end: start + length,
    })
}

impl<'a> Reader<'a> {
    pub fn new(bytes: &'a [u8], at: usize) -> Reader<'a>
        ensures bytes { result.bytes ≡ bytes.entry }
        ensures at { result.at ≡ at }
    {
        Reader { bytes, at }
    }

    // What stands at the reader's place.
    pub fn found(self) -> Found
        ensures { result ≡ record_at self.entry.bytes.now self.entry.at }
    {
        record_at(self.bytes, self.at)
    }

    // A record's payload, as the part of the lent bytes that it is: no copy.
    pub fn payload(self, record: Record) -> &'a [u8]
        ensures { result.now ≡ part_of self.entry.bytes.now «record».start «record».end }
    {
        part(self.bytes, record.start, record.end)
    }
}
