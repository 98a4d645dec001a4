// The check of a reference by the pointer's tag, and where the word lies.
ghost use Rattle.std.specs.Prelude.{◌≡◌, ◌+◌};
ghost use Rattle.words.specs.Refusal.{answer_of};
ghost use Rattle.references.specs.Reference.{locate_of, live_reference_of, reference_of};
ghost use Rattle.lent_registers.specs.Columns.{registers_of};

use crate::flag::{Access, Flag, asked};
use crate::live::live_check;
use crate::statics::static_check;
use crate::view::View;
use words::pointer::Pointer;
use words::refusal::Refusal;

fn index(base: u32, word: u16) -> usize
    ensures { result ≡ base + word }
{
    base as usize + word as usize
}

// The static check, and where the word lies.
pub fn locate(view: &View, domain: u8, flag: Flag, segment: u8, word: u16) -> Result<usize, Refusal>
    ensures { answer_of result ≡ locate_of view.now.layout.lengths view.now.layout.rights view.now.bases domain flag segment word }
{
    static_check(&view.layout, domain, flag, segment, word)?;
    let i = segment as usize;
    Ok(index(view.bases[i], word))
}

// The live check, and where the word lies. A run and the check on a record both call it: so the compiler keeps it out of the run's loop.
pub fn live_reference(
    view: &View,
    recent: &[u8; 160],
    access: Access,
    p: Pointer,
) -> Result<usize, Refusal>
    ensures { answer_of result ≡ live_reference_of view.now.layout.lengths view.now.layout.rights view.now.bases (registers_of recent.now) view.now.depth view.now.frame access p.segment p.word }
{
    live_check(view, recent, access, p.segment, p.word)?;
    let i = p.segment as usize;
    Ok(index(view.bases[i], p.word))
}

// The check of a reference, and where the word lies: live for a tagged pointer, static for another.
pub fn reference(
    view: &View,
    domain: u8,
    recent: &[u8; 160],
    access: Access,
    p: Pointer,
) -> Result<usize, Refusal>
    ensures { answer_of result ≡ reference_of view.now.layout.lengths view.now.layout.rights view.now.bases domain (registers_of recent.now) view.now.depth view.now.frame access p }
{
    if p.tag {
        live_reference(view, recent, access, p)
    } else {
        locate(view, domain, asked(access), p.segment, p.word)
    }
}
