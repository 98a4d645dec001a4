// Chunks of an image.
ghost use Rattle.std.specs.Prelude.{◌≡◌, drop};
ghost use Rattle.words.specs.Refusal.{answer_of};
ghost use Rattle.image_format.specs.Chunk.{header_of, chunk_of, exactly};
ghost use Rattle.image_reader.specs.Private.{chunk_answer};

use crate::bytes::{left, pair};
use words::refusal::Refusal;

// The header at a place, of the kind that is due: the length of its body.
pub fn header(image: &[u8], at: usize, kind: u16) -> Result<u16, Refusal>
    ensures { answer_of result ≡ header_of kind (drop at image.now) }
{
    if left(image, at) < 4 {
        return Err(Refusal::CutShort);
    }
    if pair(image, at + 2) != kind {
        return Err(Refusal::WrongKind);
    }
    Ok(pair(image, at))
}

// The chunk at a place, of the kind that is due and the one length that it may have.
pub fn exact(image: &[u8], at: usize, kind: u16, length: u16) -> Result<(), Refusal>
    ensures { chunk_answer length (drop at image.now) result ≡ chunk_of kind (exactly length) (drop at image.now) }
{
    let found = header(image, at, kind)?;
    if found != length {
        return Err(Refusal::WrongLength);
    }
    if left(image, at) < 4 + length as usize {
        return Err(Refusal::CutShort);
    }
    Ok(())
}
