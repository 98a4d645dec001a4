// What a host learns of the record that its bytes hold: the check of a reference, and where a segment lies.
ghost use Rattle.std.specs.Prelude.{◌≡◌, length};
ghost use Rattle.words.specs.Answer.{number_of};
ghost use Rattle.held_runs.specs.Opened.{code_of, given};
ghost use Rattle.host.specs.Looks.{checked_on, segment_on};

// The index of the word that the executing domain refers to, or 0x10000 plus the number of the refusal.
#[unsafe(no_mangle)]
pub extern "C" fn zenkorv_check(bytes: &[u8], write: u8, tag: u8, segment: u8, word: u16) -> u32
    ensures { result ≡ code_of (checked_on bytes.now write tag segment word) }
{
    host::looks::zenkorv_check(bytes, write, tag, segment, word)
}

// Puts where a segment begins in the memory, and how many words it has. Gives 0, or the number of the refusal.
#[unsafe(no_mangle)]
pub extern "C" fn zenkorv_segment(
    bytes: &[u8],
    words: &[u32],
    segment: u8,
    first: &mut u16,
    count: &mut u16,
) -> u8
    ensures number { result ≡ number_of (segment_on bytes.now (length words.now) segment) }
    ensures first { first.new ≡ given (λ s. s.0) first.old (segment_on bytes.now (length words.now) segment) }
    ensures count { count.new ≡ given (λ s. s.1) count.old (segment_on bytes.now (length words.now) segment) }
{
    host::looks::zenkorv_segment(bytes, words, segment, first, count)
}
