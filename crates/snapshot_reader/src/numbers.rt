// Numbers in bytes, alone and in rows.
ghost use Rattle.std.specs.Prelude.{◌≡◌, ◌+◌, ◌≤◌, length};
ghost use Rattle.snapshot_format.specs.Format.{byte_form, pair_form, quad_form, rows_of};

pub fn pair(bytes: &[u8], i: usize) -> u16
    requires { (i + 2 ≤ 1079) × (1079 ≤ length bytes.now) }
    ensures { result ≡ pair_form.value bytes.now i }
{
    u16::from_le_bytes([bytes[i], bytes[i + 1]])
}

pub fn quad(bytes: &[u8], i: usize) -> u32
    requires { (i + 4 ≤ 1079) × (1079 ≤ length bytes.now) }
    ensures { result ≡ quad_form.value bytes.now i }
{
    u32::from_le_bytes([bytes[i], bytes[i + 1], bytes[i + 2], bytes[i + 3]])
}

// The N bytes from a place on.
pub fn row<const N: usize>(bytes: &[u8], i: usize) -> [u8; N]
    requires { (i + N ≤ 1079) × (1079 ≤ length bytes.now) }
    ensures { result ≡ (rows_of N byte_form).value bytes.now i }
{
    let mut numbers = [0; N];
    numbers.copy_from_slice(&bytes[i..i + N]);
    numbers
}
