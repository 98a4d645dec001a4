// The reader of images.

#![tactic(auto)]

mod bytes;
mod chunk;
mod domain;
mod head;
mod judge;
mod segment;
mod store;

ghost use Rattle.std.specs.Prelude.{◌≡◌};
ghost use Rattle.words.specs.Answer.{number_of};
ghost use Rattle.words.specs.Refusal.{status};
ghost use Rattle.image_reader.specs.Reader.{read_image, machine_after, memory_after};

use crate::judge::judge;
use crate::store::store;
use fresh::fresh;
use state::record::Machine;
use words::refusal::Refusal;

// Reads an image into a machine and its memory. Refused, both are as they were.
pub fn read(image: &[u8], m: &mut Machine, words: &mut [u32]) -> Result<(), Refusal>
    ensures value { status result ≡ number_of (read_image image.now words.old) }
    ensures machine_after { m.new ≡ machine_after m.old (read_image image.now words.old) }
    ensures words_after { words.new ≡ memory_after words.old (read_image image.now words.old) }
{
    if words.len() < 8192 {
        return Err(Refusal::MemoryTooShort);
    }
    let layout = judge(image)?;
    store(image, &layout, words);
    *m = fresh(layout);
    Ok(())
}
