// The signed offset of an instruction, and what is added up with it.
ghost use Rattle.std.specs.Prelude.{◌≡◌, pos};
ghost use Rattle.words.specs.Offset.{displaced_of, literal_of};
ghost use Rattle.words.specs.Refusal.{answer_of};

use crate::refusal::Refusal;

// A word number plus an offset.
pub fn displace(word: u16, offset: i32) -> Result<u16, Refusal>
    ensures { answer_of result ≡ displaced_of word offset }
{
    if offset < -65535 {
        return Err(Refusal::OutOfRange);
    }
    if 4095 < offset {
        return Err(Refusal::OutOfRange);
    }
    let at = word as i32 + offset;
    if at < 0 {
        return Err(Refusal::OutOfRange);
    }
    if 4095 < at {
        return Err(Refusal::OutOfRange);
    }
    Ok(at as u16)
}

// A word number plus a count.
pub fn climb(word: u16, count: u16) -> Result<u16, Refusal>
    ensures { answer_of result ≡ displaced_of word (pos count) }
{
    let sum = word as u32 + count as u32;
    if 4095 < sum {
        return Err(Refusal::OutOfRange);
    }
    Ok(sum as u16)
}

// An offset modulo 2^32.
pub fn literal(offset: i32) -> u32
    ensures { result ≡ literal_of offset }
{
    if offset < 0 {
        (offset as i64 + 4294967296) as u32
    } else {
        offset as u32
    }
}
