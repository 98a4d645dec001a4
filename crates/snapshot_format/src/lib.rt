// The formats of a machine record as bytes: definitions and laws, and how many of some rows are in use.

#![tactic(auto)]

ghost use Rattle.std.specs.Prelude.{◌≡◌, ◌≤◌, min};

// How many of most rows a byte says are in use.
pub fn rows_used(used: u8, most: usize) -> usize
    ensures value { result ≡ min used most }
    ensures within { result ≤ most }
{
    usize::from(used).min(most)
}
