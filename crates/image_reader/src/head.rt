// Kind 1: the counts and the start.
ghost use Rattle.std.specs.Prelude.{◌≡◌};
ghost use Rattle.words.specs.PointerWord.{pointer_of};
ghost use Rattle.words.specs.Refusal.{answer_of};
ghost use Rattle.image_format.specs.Head.{located, head_fields, head_of};
ghost use Rattle.image_reader.specs.Private.{head_answer};

use crate::bytes::word;
use crate::chunk::exact;
use image_format::Head;
use state::record::Start;
use words::pointer::{Pointer, unpack};
use words::refusal::Refusal;

// A pointer word that is untagged and names a segment that exists.
fn start_pointer(segments: u8, location: u32) -> Result<Pointer, Refusal>
    ensures { answer_of result ≡ located segments (pointer_of location) }
{
    let Ok(p) = unpack(location) else {
        return Err(Refusal::BadField);
    };
    if p.tag {
        return Err(Refusal::BadField);
    }
    if segments <= p.segment {
        return Err(Refusal::BadField);
    }
    Ok(p)
}

// The fields of a head, judged.
fn fields(segments: u8, domains: u8, domain: u8, unused: u8, location: u32) -> Result<Head, Refusal>
    ensures { answer_of result ≡ head_fields segments domains domain unused location }
{
    if segments < 1 {
        return Err(Refusal::BadField);
    }
    if 16 < segments {
        return Err(Refusal::BadField);
    }
    if domains < 1 {
        return Err(Refusal::BadField);
    }
    if 8 < domains {
        return Err(Refusal::BadField);
    }
    if domains <= domain {
        return Err(Refusal::BadField);
    }
    if unused != 0 {
        return Err(Refusal::BadField);
    }
    let p = start_pointer(segments, location)?;
    let start = Start {
        word: p.word,
        segment: p.segment,
        domain,
    };
    Ok(Head {
        start,
        segments,
        domains,
    })
}

// The chunk of kind 1, at the start of an image.
pub fn head_chunk(image: &[u8]) -> Result<Head, Refusal>
    ensures { head_answer image.now result ≡ head_of image.now }
{
    exact(image, 0, 1, 8)?;
    fields(image[4], image[5], image[6], image[7], word(image, 8))
}
