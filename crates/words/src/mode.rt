// Mode words: what an argument's pointer word covers, and the flags asked for it.
ghost use Rattle.std.specs.Prelude.{◌≡◌};
ghost use Rattle.words.specs.ModeWord.{mode_of};
ghost use Rattle.words.specs.Refusal.{answer_of};

use crate::bits::bits;
use crate::refusal::Refusal;

// A length 1-4,096 and at least one flag. 4 bytes.
#[derive(Clone, Copy)]
pub struct Mode {
    pub length: u16,
    pub read: bool,
    pub write: bool,
}

// The mode that a word holds, for an argument that starts at word number `start`.
pub fn unpack(word: u32, start: u16) -> Result<Mode, Refusal>
    ensures { answer_of result ≡ mode_of word start }
{
    let length = bits(word, 0, 13);
    if length == 0 {
        return Err(Refusal::BadArgument);
    }
    if 4096 < length {
        return Err(Refusal::BadArgument);
    }
    if bits(word, 13, 17) != 0 {
        return Err(Refusal::BadArgument);
    }
    if bits(word, 30, 2) == 0 {
        return Err(Refusal::BadArgument);
    }
    if 4096 < start as u32 + length {
        return Err(Refusal::BadArgument);
    }
    Ok(Mode {
        length: length as u16,
        read: bits(word, 30, 1) == 1,
        write: bits(word, 31, 1) == 1,
    })
}
