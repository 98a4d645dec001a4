// Pointers, and the words that hold them.
ghost use Rattle.std.specs.Prelude.{◌≡◌};
ghost use Rattle.words.specs.PointerWord.{pointer_of, pointer_word};
ghost use Rattle.words.specs.Refusal.{answer_of};

use crate::bits::bits;
use crate::refusal::Refusal;

// A tag, a segment number 0-15 and a word number 0-4,095. 4 bytes.
#[derive(Clone, Copy, PartialEq, Eq)]
pub struct Pointer {
    pub word: u16,
    pub segment: u8,
    pub tag: bool,
}

impl Pointer {
    // What an unused register or row holds: word 0 of segment 0, untagged.
    pub const NOWHERE: Pointer = Pointer {
        word: 0,
        segment: 0,
        tag: false,
    };
}

// The pointer that a word holds.
pub fn unpack(word: u32) -> Result<Pointer, Refusal>
    ensures { answer_of result ≡ pointer_of word }
{
    if bits(word, 16, 15) != 0 {
        return Err(Refusal::BadPointer);
    }
    Ok(Pointer {
        word: bits(word, 0, 12) as u16,
        segment: bits(word, 12, 4) as u8,
        tag: bits(word, 31, 1) == 1,
    })
}

// The word that holds a pointer. Of a number that has no place in it the low bits are kept.
pub fn pack(p: Pointer) -> u32
    ensures { result ≡ pointer_word p }
{
    let word = p.word as u32 & 4095;
    let segment = p.segment as u32 & 15;
    (p.tag as u32) << 31 | segment << 12 | word
}
