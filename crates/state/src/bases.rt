// Where the segments lie in the memory.
ghost use Rattle.std.specs.Prelude.{◌≡◌};
ghost use Rattle.state.specs.Bases.{bases_of, words_in};

// How many words the segments have together.
pub fn words_in(lengths: &[u16; 16]) -> u32
    ensures { result ≡ words_in lengths.now }
{
    let mut sum = 0;
    for &length in lengths.as_slice() {
        sum += length as u32;
    }
    sum
}

// For each segment, how many words lie before it.
pub fn bases(lengths: &[u16; 16]) -> [u32; 16]
    ensures { result ≡ bases_of lengths.now }
{
    let lengths = lengths.as_slice();
    let mut sums = [0; 16];
    for i in 1..16 {
        sums[i] = sums[i - 1] + lengths[i - 1] as u32;
    }
    sums
}
