// Sums and differences in A, which wrap at 2^32.
ghost use Rattle.std.specs.Prelude.{◌≡◌};
ghost use Rattle.words.specs.Arithmetic.{sum_of, difference_of};

pub fn sum(a: u32, b: u32) -> u32
    ensures { result ≡ sum_of a b }
{
    std::num::wrapping_add_u32(a, b)
}

pub fn difference(a: u32, b: u32) -> u32
    ensures { result ≡ difference_of a b }
{
    std::num::wrapping_sub_u32(a, b)
}
