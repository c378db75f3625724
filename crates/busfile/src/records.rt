// Parts of a bus file, and the numbers that stand in it.
ghost use Rattle.std.specs.Prelude.{◌+◌, ◌≡◌, drop, get_or, length};
ghost use Rattle.busfile.specs.Records.{word_of, double_word_of, part_of, compacted};
ghost use Rattle.busfile.specs.Parts.{longest_record};
ghost use Rattle.choice.specs.Choice.{◌≤?◌};

const LONGEST_RECORD: usize = 65536;

// The byte at a place, 0 past the end.
fn byte(s: &[u8], at: usize) -> u8
    ensures { result ≡ get_or s.now at 0 }
{
    s.get(at).copied().unwrap_or(0)
}

// The number that the first two bytes are.
#[tactic(auto, unfolding(crate::specs::Records::word_of))]
pub fn word(s: &[u8]) -> u16
    ensures { result ≡ word_of s.now }
{
    u16::from_le_bytes([byte(s, 0), byte(s, 1)])
}

// The number that the first four bytes are.
#[tactic(auto, unfolding(crate::specs::Records::double_word_of, crate::specs::Records::word_of))]
pub fn double_word(s: &[u8]) -> u32
    ensures { result ≡ double_word_of s.now }
{
    u32::from_le_bytes([byte(s, 0), byte(s, 1), byte(s, 2), byte(s, 3)])
}

// What stands from a place on.
pub fn rest(s: &[u8], at: usize) -> &[u8]
    ensures { result.now ≡ drop at s.now }
{
    s.get(at..).unwrap_or(&[])
}

// The part of s from start to end, as far as s goes.
pub fn part(s: &[u8], start: usize, end: usize) -> &[u8]
    ensures { result.now ≡ part_of s.now start end }
{
    let end = end.min(s.len());
    s.get(start..end).unwrap_or(&[])
}

// Whether a part of a file has from a place on as many bytes as the longest record: what stands there is then known without what follows.
pub fn suffices(part: &[u8], at: usize) -> bool
    ensures { result ≡ (at + longest_record ≤? length part.now) }
{
    LONGEST_RECORD <= part.len().saturating_sub(at)
}

// Moves the part of a buffer from start to end, as far as the buffer goes, to its front, and answers how long the part is.
pub fn compact(buffer: &mut [u8], start: usize, end: usize) -> usize
    ensures part_length { result ≡ length (part_of buffer.old start end) }
    ensures moved_to_front { buffer.new ≡ compacted buffer.old start end }
{
    let end = end.min(buffer.len());
    let start = start.min(end);
    buffer.copy_within(start..end, 0);
    end - start
}
