// Fields of a word.
ghost use Rattle.std.specs.Prelude.{◌≡◌, ◌^◌, ◌<◌};
ghost use Rattle.words.specs.Field.{field};

// The `width` bits of `word` from bit `low` up.
pub fn bits(word: u32, low: u32, width: u32) -> u32
    requires { (low < 32) × (width < 32) }
    ensures { (result ≡ field low width word) × (result < 2 ^ width) }
{
    (word >> low) & ((1 << width) - 1)
}
