// The search of a frame's capabilities, in order.

#![tactic(auto)]

ghost use Rattle.std.specs.Prelude.{◌≡◌, take};
ghost use Rattle.capabilities.specs.Search.{granted, covers_of, first_of, capability_answer};

use state::record::Capability;

// A flag that is asked is there.
fn is_granted(asked: bool, there: bool) -> bool
    ensures { result ≡ granted asked there }
{
    !asked || there
}

// Whether a capability is on the segment, covers length words from word up, and has the flags asked.
pub fn covers(c: Capability, segment: u8, word: u16, length: u16, read: bool, write: bool) -> bool
    ensures { result ≡ covers_of segment word length read write c }
{
    is_granted(read, c.read)
        && is_granted(write, c.write)
        && c.word <= word
        && c.segment == segment
        && u32::from(word) + u32::from(length) <= u32::from(c.word) + u32::from(c.length)
}

// The first of a frame's count capabilities that covers the words with the flags asked.
pub fn search(
    capabilities: [Capability; 9],
    count: u8,
    segment: u8,
    word: u16,
    length: u16,
    read: bool,
    write: bool,
) -> Option<Capability>
    ensures { capability_answer result ≡ first_of (covers_of segment word length read write) (take count capabilities) }
{
    capabilities
        .iter()
        .take(usize::from(count))
        .find(|c| covers(**c, segment, word, length, read, write))
        .copied()
}
