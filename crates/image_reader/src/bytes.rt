// Little-endian numbers in an image.
ghost use Rattle.std.specs.Prelude.{◌≡◌, ◌+◌, ◌≤◌, length, drop};
ghost use Rattle.image_format.specs.Bytes.{pair_of, word_of};

// How many bytes there are from a place on.
pub fn left(image: &[u8], at: usize) -> usize
    ensures { result ≡ length (drop at image.now) }
{
    image.len().saturating_sub(at)
}

// The number in the two bytes at a place.
pub fn pair(image: &[u8], at: usize) -> u16
    requires { at + 2 ≤ length image.now }
    ensures { result ≡ pair_of (drop at image.now) }
{
    u16::from_le_bytes([image[at], image[at + 1]])
}

// The word in the four bytes at a place.
pub fn word(image: &[u8], at: usize) -> u32
    requires { at + 4 ≤ length image.now }
    ensures { result ≡ word_of (drop at image.now) }
{
    u32::from_le_bytes([image[at], image[at + 1], image[at + 2], image[at + 3]])
}
