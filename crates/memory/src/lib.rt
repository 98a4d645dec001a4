// Words fetched, read and stored, each after its check.

#![tactic(auto)]

ghost use Rattle.std.specs.Prelude.{◌≡◌, ℕ, ◌<◌, get_or, set, Ok};
ghost use Rattle.words.specs.Refusal.{answer_of, status};
ghost use Rattle.references.specs.Reference.{verdict_of};
ghost use Rattle.references.specs.declared.flag.Access.TheVariants as access;
ghost use Rattle.lent_registers.specs.Columns.{registers_of};
ghost use Rattle.memory.specs.Reader.{read_of, fetch_of, written_of};

use references::flag::{Access, Flag};
use references::reference::{locate, reference};
use references::view::View;
use state::rows::of_segment;
use words::pointer::Pointer;
use words::refusal::Refusal;

fn word_at(words: &[u32], i: usize) -> u32
    ensures { result ≡ get_or words.now i 0 }
{
    if i < words.len() { words[i] } else { 0 }
}

fn put_at(words: &mut [u32], i: usize, value: u32)
    ensures { words.new ≡ set words.old i value }
{
    if i < words.len() {
        words[i] = value;
    }
}

// A word read under a pointer's tag.
pub fn read(
    view: &View,
    words: &[u32],
    domain: u8,
    recent: &[u8; 160],
    p: Pointer,
) -> Result<u32, Refusal>
    ensures { answer_of result ≡ read_of view.now.layout.lengths view.now.layout.rights view.now.bases words.now domain (registers_of recent.now) view.now.depth view.now.frame p }
{
    let i = reference(view, domain, recent, Access::Read, p)?;
    Ok(word_at(words, i))
}

// A word stored under a pointer's tag.
pub fn write(
    view: &View,
    words: &mut [u32],
    domain: u8,
    recent: &[u8; 160],
    p: Pointer,
    value: u32,
) -> Result<(), Refusal>
    ensures value { status result ≡ verdict_of view.now.layout.lengths view.now.layout.rights domain (registers_of recent.now) view.now.depth view.now.frame access.Write p }
    ensures words_after { words.new ≡ written_of view.now.layout.lengths view.now.layout.rights view.now.bases words.old domain (registers_of recent.now) view.now.depth view.now.frame p value }
{
    let i = reference(view, domain, recent, Access::Write, p)?;
    put_at(words, i, value);
    Ok(())
}

// The word at the location, fetched as an instruction. There is a word number after one that exists.
pub fn fetch(view: &View, words: &[u32], domain: u8, segment: u8, word: u16) -> Result<u32, Refusal>
    ensures result_value { answer_of result ≡ fetch_of view.now.layout.lengths view.now.layout.rights view.now.bases words.now domain segment word }
    ensures by_index { (w : ℕ) → result ≡ Ok w → word < 65535 }
{
    if of_segment(&view.layout.lengths, segment) <= word {
        return Err(Refusal::NoWord);
    }
    let i = locate(view, domain, Flag::Execute, segment, word)?;
    Ok(word_at(words, i))
}
