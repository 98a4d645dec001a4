// Little-endian numbers written into an output.
ghost use Rattle.std.specs.Prelude.{◌≡◌, ◌++◌, ◌+◌, ◌*◌, ◌≤◌};
ghost use lib.ListN.{length};
ghost use Rattle.image_format.specs.Bytes.{pair_bytes, word_bytes, words_bytes};
ghost use Rattle.image_format.specs.Output.{written};

pub fn put_pair(output: &mut [u8], at: usize, x: u16)
    requires { at + 2 ≤ length output.old }
    ensures { output.new ≡ written output.old at (pair_bytes x) }
{
    output[at..at + 2].copy_from_slice(&x.to_le_bytes());
}

pub fn put_word(output: &mut [u8], at: usize, w: u32)
    requires { at + 4 ≤ length output.old }
    ensures { output.new ≡ written output.old at (word_bytes w) }
{
    output[at..at + 4].copy_from_slice(&w.to_le_bytes());
}

// A chunk's header.
pub fn put_header(output: &mut [u8], at: usize, length: u16, kind: u16)
    requires { at + 4 ≤ lib.ListN.length output.old }
    ensures { output.new ≡ written output.old at (pair_bytes length ++ pair_bytes kind) }
{
    put_pair(output, at, length);
    put_pair(output, at + 2, kind);
}

// Words, one after the other.
pub fn put_words(output: &mut [u8], at: usize, words: &[u32])
    requires { at + 4 * length words.now ≤ length output.old }
    ensures { output.new ≡ written output.old at (words_bytes words.now) }
{
    let mut place = at;
    for &word in words {
        put_word(output, place, word);
        place += 4;
    }
}
