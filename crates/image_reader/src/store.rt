// The words of an image that is passed, stored in the memory.
ghost use Rattle.std.specs.Prelude.{◌≡◌, ◌+◌, ◌*◌, ◌≤◌, length, drop};
ghost use Rattle.std.proofs.Math.Seq.{paste};
ghost use Rattle.words.specs.Answer.{ok};
ghost use Rattle.image_format.specs.Bytes.{words_of};
ghost use Rattle.image_format.specs.Image.{image_of, layout_of};
ghost use Rattle.image_reader.specs.Reader.{mapped, memory_after};

use crate::bytes::word;
use state::record::Layout;

// The n words at a place of the image, stored from base on.
fn segment_words(image: &[u8], at: usize, words: &mut [u32], base: usize, n: usize)
    requires { (at + 4 * n ≤ length image.now) × (base + n ≤ length words.old) }
    ensures { words.new ≡ paste words.old base (words_of n (drop at image.now)) n }
{
    for j in 0..n {
        words[base + j] = word(image, at + 4 * j);
    }
}

// The words of all segments of an image whose layout is known.
pub fn store(image: &[u8], layout: &Layout, words: &mut [u32])
    requires { (mapped layout_of (image_of image.now) ≡ ok layout.now) × (8192 ≤ length words.old) }
    ensures { words.new ≡ memory_after words.old (image_of image.now) }
{
    let mut at = 12;
    let mut base = 0;
    for i in 0..layout.segments as usize {
        let n = layout.lengths[i] as usize;
        segment_words(image, at + 8, words, base, n);
        at += 8 + 4 * n;
        base += n;
    }
}
