// Whether bytes are those of a record: flags are 0 or 1, and rows not in use are zeros.
ghost use Rattle.std.specs.Prelude.{◌≡◌, ◌+◌, ◌≤◌, length};
ghost use Rattle.state.specs.Record.{no_capability, free_frame};
ghost use Rattle.snapshot_format.specs.Format.{zeros, rows_of, counted};
ghost use Rattle.snapshot_format.specs.RecordForm.{pointer_form, capability_form, frame_form, register_form};

// Whether n bytes from a place on are zero. There is no early end, so that the compiler takes many bytes at a time.
fn all_zero(bytes: &[u8], from: usize, n: usize) -> bool
    requires { (from + n ≤ 1079) × (1079 ≤ length bytes.now) }
    ensures { result ≡ zeros bytes.now from n }
{
    let mut highest = 0u8;
    let to = from + n;
    for &b in &bytes[from..to] {
        highest = highest.max(b);
    }
    highest == 0
}

fn capability_proper(bytes: &[u8], i: usize) -> bool
    requires { (i + 8 ≤ 1079) × (1079 ≤ length bytes.now) }
    ensures { result ≡ capability_form.proper bytes.now i }
{
    let read = i + 2 + 2 + 1 + 1;
    bytes[read] <= 1 && bytes[read + 1] <= 1
}

fn capabilities_proper(bytes: &[u8], i: usize) -> bool
    requires { (i + 82 ≤ 1079) × (1079 ≤ length bytes.now) }
    ensures { result ≡ (counted 9 no_capability capability_form).proper bytes.now i }
{
    let used = bytes[i] as usize;
    if 9 < used {
        return false;
    }
    let first = i + 1;
    (0..used).all(|k| capability_proper(bytes, first + k * 8))
        && all_zero(bytes, first + used * 8, (9 - used) * 8)
}

fn pointer_proper(bytes: &[u8], i: usize) -> bool
    requires { (i + 4 ≤ 1079) × (1079 ≤ length bytes.now) }
    ensures { result ≡ pointer_form.proper bytes.now i }
{
    let tag = i + 2 + 1;
    bytes[tag] <= 1
}

fn frame_proper(bytes: &[u8], i: usize) -> bool
    requires { (i + 82 ≤ 1079) × (1079 ≤ length bytes.now) }
    ensures { result ≡ frame_form.proper bytes.now i }
{
    let s = i + 73;
    capabilities_proper(bytes, i) && pointer_proper(bytes, s) && pointer_proper(bytes, s + 4)
}

pub fn frames_proper(bytes: &[u8]) -> bool
    requires { 1079 ≤ length bytes.now }
    ensures { result ≡ (counted 8 free_frame frame_form).proper bytes.now 262 }
{
    let used = bytes[262] as usize;
    if 8 < used {
        return false;
    }
    (0..used).all(|k| frame_proper(bytes, 263 + k * 82))
        && all_zero(bytes, 263 + used * 82, (8 - used) * 82)
}

pub fn tags_proper(bytes: &[u8]) -> bool
    requires { 1079 ≤ length bytes.now }
    ensures { result ≡ (rows_of 8 pointer_form).proper bytes.now 230 }
{
    (0..8).all(|k| pointer_proper(bytes, 230 + k * 4))
}

pub fn recent_proper(bytes: &[u8]) -> bool
    requires { 1079 ≤ length bytes.now }
    ensures { result ≡ (rows_of 16 register_form).proper bytes.now 919 }
{
    (0..16).all(|k| capability_proper(bytes, 919 + k * 10))
}
