// The search of a frame's capabilities, handed over as a run of records, in order.

#![tactic(auto)]

ghost use Rattle.std.specs.Prelude.{◌≡◌, ◌≤◌, take};
ghost use Rattle.capabilities.specs.Search.{covers_of, first_of, capability_answer};

use capabilities::covers;
use state::record::Capability;

// The first capability of a run that covers the words with the flags asked. A frame has nine rows, and no more of a run are looked at: with that bound the compiler unrolls the loop, and the rows that are lent need no copy in memory.
pub fn first(
    capabilities: &[Capability],
    segment: u8,
    word: u16,
    length: u16,
    read: bool,
    write: bool,
) -> Option<Capability>
    ensures { capability_answer result ≡ first_of (covers_of segment word length read write) (take 9 capabilities.now) }
{
    capabilities
        .iter()
        .take(9)
        .find(|c| covers(**c, segment, word, length, read, write))
        .copied()
}

// The first n of a frame's rows are handed over.
fn hand_over(
    capabilities: [Capability; 9],
    n: usize,
    segment: u8,
    word: u16,
    length: u16,
    read: bool,
    write: bool,
) -> Option<Capability>
    requires { n ≤ 9 }
    ensures { capability_answer result ≡ first_of (covers_of segment word length read write) (take n capabilities) }
{
    first(&capabilities[..n], segment, word, length, read, write)
}

// The first of a frame's count capabilities that covers the words with the flags asked.
pub fn search(
    capabilities: [Capability; 9],
    count: u8,
    segment: u8,
    word: u16,
    length: u16,
    read: bool,
    write: bool,
) -> Option<Capability>
    ensures { capability_answer result ≡ first_of (covers_of segment word length read write) (take count capabilities) }
{
    let n = usize::from(count.min(9));
    hand_over(capabilities, n, segment, word, length, read, write)
}
