// Numbers put into bytes, alone and in rows.
ghost use Rattle.std.specs.Prelude.{◌≡◌, ◌+◌, ◌*◌, ◌≤◌, length, replicate};
ghost use Rattle.std.proofs.lemmas.List.Edits.{sets};
ghost use Rattle.snapshot_format.specs.Format.{byte_form, pair_form, quad_form, rows_of};

pub fn put_pair(output: &mut [u8], i: usize, n: u16)
    requires { (i + 2 ≤ 1079) × (1079 ≤ length output.old) }
    ensures { output.new ≡ sets output.old i (pair_form.bytes n) }
{
    let to = i + 2;
    output[i..to].copy_from_slice(&n.to_le_bytes());
}

pub fn put_quad(output: &mut [u8], i: usize, n: u32)
    requires { (i + 4 ≤ 1079) × (1079 ≤ length output.old) }
    ensures { output.new ≡ sets output.old i (quad_form.bytes n) }
{
    let to = i + 4;
    output[i..to].copy_from_slice(&n.to_le_bytes());
}

pub fn put_bytes(output: &mut [u8], from: usize, numbers: &[u8])
    requires { (from + length numbers.now ≤ 1079) × (1079 ≤ length output.old) }
    ensures { output.new ≡ sets output.old from ((rows_of (length numbers.now) byte_form).bytes numbers.now) }
{
    let to = from + numbers.len();
    output[from..to].copy_from_slice(numbers);
}

pub fn put_pairs(output: &mut [u8], from: usize, numbers: &[u16])
    requires { (from + length numbers.now * 2 ≤ 1079) × (1079 ≤ length output.old) }
    ensures { output.new ≡ sets output.old from ((rows_of (length numbers.now) pair_form).bytes numbers.now) }
{
    for (k, &n) in numbers.iter().enumerate() {
        put_pair(output, from + k * 2, n);
    }
}

pub fn put_zeros(output: &mut [u8], from: usize, n: usize)
    requires { (from + n ≤ 1079) × (1079 ≤ length output.old) }
    ensures { output.new ≡ sets output.old from (replicate n 0) }
{
    let to = from + n;
    output[from..to].fill(0);
}
