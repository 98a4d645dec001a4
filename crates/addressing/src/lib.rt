// Effective pointers.

#![tactic(auto)]

ghost use Rattle.std.specs.Prelude.{◌≡◌};
ghost use Rattle.words.specs.Refusal.{answer_of};
ghost use Rattle.lent_registers.specs.Columns.{registers_of};
ghost use Rattle.memory.specs.Reader.{read_of};
ghost use Rattle.addressing.specs.Effective.{through_of, effective_of};

use memory::read;
use pointer_registers::pointer_at;
use references::view::View;
use words::instruction::Instruction;
use words::offset::displace;
use words::pointer::{Pointer, unpack};
use words::refusal::Refusal;

// The pointer in the word at a pointer, its tag set on if the first was on.
fn through(
    view: &View,
    words: &[u32],
    domain: u8,
    recent: &[u8; 160],
    p: Pointer,
) -> Result<Pointer, Refusal>
    ensures { answer_of result ≡ through_of (read_of view.now.layout.lengths view.now.layout.rights view.now.bases words.now domain (registers_of recent.now) view.now.depth view.now.frame) p }
{
    let w = read(view, words, domain, recent, p)?;
    let q = unpack(w)?;
    Ok(Pointer {
        word: q.word,
        segment: q.segment,
        tag: p.tag || q.tag,
    })
}

// The base register's pointer plus the offset; if indirect, the pointer that is read there.
pub fn effective(
    view: &View,
    words: &[u32],
    domain: u8,
    recent: &[u8; 160],
    pointers: [Pointer; 8],
    i: Instruction,
) -> Result<Pointer, Refusal>
    ensures { answer_of result ≡ effective_of (read_of view.now.layout.lengths view.now.layout.rights view.now.bases words.now domain (registers_of recent.now) view.now.depth view.now.frame) pointers i }
{
    let base = pointer_at(pointers, i.base);
    let p = Pointer {
        word: displace(base.word, i.offset)?,
        segment: base.segment,
        tag: base.tag,
    };
    if i.indirect {
        through(view, words, domain, recent, p)
    } else {
        Ok(p)
    }
}
