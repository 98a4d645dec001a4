// Numbers in decimal, put into an output.
ghost use Rattle.std.specs.Prelude.{◌≡◌, ◌+◌, ◌≤◌, length};
ghost use Rattle.image_format.specs.Output.{written};
ghost use Rattle.text.specs.Text.{decimal};

// How many digits a number has.
pub fn width(n: u32) -> usize
    ensures { result ≡ length (decimal n) }
{
    if n < 10 {
        return 1;
    }
    width(n / 10) + 1
}

// The digits of a number, from a place on; the place after them.
pub fn put_digits(output: &mut [u8], at: usize, n: u32) -> usize
    requires { at + length (decimal n) ≤ length output.old }
    ensures value { result ≡ at + length (decimal n) }
    ensures output_after { output.new ≡ written output.old at (decimal n) }
{
    if n < 10 {
        output[at] = 48 + n as u8;
        return at + 1;
    }
    let next = put_digits(output, at, n / 10);
    output[next] = 48 + (n % 10) as u8;
    next + 1
}
