// The part of the memory that a segment occupies.

#![tactic(auto)]

ghost use Rattle.std.specs.Prelude.{◌≡◌, ◌+◌, ◌≤◌, length};
ghost use Rattle.segments.specs.Segment.{segment_check, segment_number, segment_part, part_start, part_size, word_place};
ghost use Rattle.words.specs.Refusal.{answer_of, status};

use soundness::sound;
use state::bases::bases;
use state::record::Machine;
use words::refusal::Refusal;

// Whether there is such a part of a memory of size words, and else why not.
#[tactic(auto, unfolding(crate::specs::Segment::segment_check))]
fn judge(m: Machine, size: usize, number: u8) -> Result<(), Refusal>
    ensures { answer_of result ≡ segment_check m size number }
{
    if !sound(m) {
        return Err(Refusal::NotSound);
    }
    if size < 8192 {
        return Err(Refusal::MemoryTooShort);
    }
    if m.layout.segments <= number {
        return Err(Refusal::NoWord);
    }
    Ok(())
}

// Whether the host gets a segment; else why not: the record is not sound, then the memory is too short, then there is no such segment.
pub fn segment_number(m: Machine, words: &[u32], number: u8) -> Result<(), Refusal>
    ensures { status result ≡ segment_number m words.now number }
{
    judge(m, words.len(), number)
}

// Where the words of a segment begin and end, counted in words of the memory.
#[derive(Clone, Copy)]
pub struct Bounds {
    pub from: usize,
    pub to: usize,
}

// The bounds of a segment in a memory of size words, which need not be lent; 0 and 0 where segment_number refuses.
pub fn span(m: Machine, size: usize, number: u8) -> Bounds
    ensures from_value { (result.from ≡ part_start m size number) × (result.to ≡ part_start m size number + part_size m size number) }
    ensures to_le_size { result.to ≤ size }
{
    if judge(m, size, number).is_err() {
        return Bounds { from: 0, to: 0 };
    }
    let i = number as usize;
    let lengths = m.layout.lengths;
    let places = bases(&lengths);
    let from = places[i] as usize;
    let to = from + lengths[i] as usize;
    Bounds { from, to }
}

// The words of a segment; none where segment_number refuses. The part lies at its place in the memory that is lent.
pub fn segment(m: Machine, words: &[u32], number: u8) -> &[u32]
    ensures result_value { result.now ≡ segment_part m words.now number }
    ensures ref_ptr_value { result.ref_ptr ≡ word_place words.entry.ref_ptr (part_start m (length words.now) number) }
{
    let s = span(m, words.len(), number);
    &words[s.from..s.to]
}

// The same words, to be written.
pub fn segment_mut(m: Machine, words: &mut [u32], number: u8) -> &mut [u32]
    ensures result_value { result.now ≡ segment_part m words.old number }
    ensures ref_ptr_value { result.ref_ptr ≡ word_place words.entry.ref_ptr (part_start m (length words.old) number) }
{
    let s = span(m, words.len(), number);
    &mut words[s.from..s.to]
}
