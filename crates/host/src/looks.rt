// What a host learns of the record that its bytes hold: the check of a reference, and where a segment lies.
ghost use Rattle.std.specs.Prelude.{◌≡◌, length};
ghost use Rattle.words.specs.Answer.{number_of};
ghost use Rattle.words.specs.Refusal.{answer_of};
ghost use Rattle.held_runs.specs.Opened.{code_of, given};
ghost use Rattle.host.specs.Looks.{access_of, checked_on, segment_on};

use crate::numbers::code;
use record_checks::reference::check_reference;
use references::flag::Access;
use segments::{segment_number, span};
use snapshot_reader::{form_number, record_or_empty};
use words::pointer::Pointer;
use words::refusal::Refusal;

fn access(write: u8) -> Access
    ensures { result ≡ access_of write }
{
    if write == 0 {
        Access::Read
    } else {
        Access::Write
    }
}

// The index of the word that the executing domain refers to.
fn check(bytes: &[u8], write: u8, tag: u8, segment: u8, word: u16) -> Result<usize, Refusal>
    ensures { answer_of result ≡ checked_on bytes.now write tag segment word }
{
    form_number(bytes)?;
    let m = record_or_empty(bytes);
    let p = Pointer {
        word,
        segment,
        tag: tag != 0,
    };
    check_reference(m, access(write), p)
}

// The index of the word that the executing domain refers to, or 0x10000 plus the number of the refusal.
pub fn zenkorv_check(bytes: &[u8], write: u8, tag: u8, segment: u8, word: u16) -> u32
    ensures { result ≡ code_of (checked_on bytes.now write tag segment word) }
{
    code(check(bytes, write, tag, segment, word))
}

// Where a segment begins in the memory, and how many words it has.
fn place(bytes: &[u8], words: &[u32], segment: u8) -> Result<(u16, u16), Refusal>
    ensures { answer_of result ≡ segment_on bytes.now (length words.now) segment }
{
    form_number(bytes)?;
    let m = record_or_empty(bytes);
    segment_number(m, words, segment)?;
    let s = span(m, words.len(), segment);
    Ok((s.from as u16, (s.to - s.from) as u16))
}

// Puts where a segment begins in the memory, and how many words it has. Gives 0, or the number of the refusal.
pub fn zenkorv_segment(
    bytes: &[u8],
    words: &[u32],
    segment: u8,
    first: &mut u16,
    count: &mut u16,
) -> u8
    ensures number { result ≡ number_of (segment_on bytes.now (length words.now) segment) }
    ensures first { first.new ≡ given (λ s. s.0) first.old (segment_on bytes.now (length words.now) segment) }
    ensures count { count.new ≡ given (λ s. s.1) count.old (segment_on bytes.now (length words.now) segment) }
{
    match place(bytes, words, segment) {
        Err(refusal) => refusal.number(),
        Ok((start, size)) => {
            *first = start;
            *count = size;
            0
        }
    }
}
