// The live check (dynamic access validation), and arguments that are passed on.
ghost use Rattle.std.specs.Prelude.{◌≡◌};
ghost use Rattle.words.specs.Refusal.{answer_of, status};
ghost use Rattle.references.specs.Live.{live_through, passed_of};
ghost use Rattle.references.specs.Private.{found_source};
ghost use Rattle.lent_registers.specs.Columns.{registers_of};

use crate::flag::{Access, asked, is_read};
use crate::statics::static_check;
use crate::view::View;
use lent_registers::lookup::held;
use slice_search::search;
use words::refusal::Refusal;

// The source of the first capability of the live frame that covers a whole argument with all flags asked; NoMatch where none does or there is no frame.
pub fn pass_on(
    view: &View,
    segment: u8,
    word: u16,
    length: u16,
    read: bool,
    write: bool,
) -> Result<u8, Refusal>
    ensures { answer_of result ≡ passed_of view.now.depth view.now.frame segment word length read write }
{
    if view.depth == 0 {
        return Err(Refusal::NoMatch);
    }
    let frame = view.frame;
    match search(
        frame.capabilities,
        frame.count,
        segment,
        word,
        length,
        read,
        write,
    ) {
        None => Err(Refusal::NoMatch),
        Some(c) => Ok(c.source),
    }
}

// The source behind a reference to a word: of the lowest register that holds a match, else of the live frame's first match; NoMatch where there is none, or no frame.
fn found_source(
    view: &View,
    recent: &[u8; 160],
    segment: u8,
    word: u16,
    read: bool,
) -> Result<u8, Refusal>
    ensures { answer_of result ≡ found_source (registers_of recent.now) view.now.depth view.now.frame segment word read }
{
    if view.depth == 0 {
        return Err(Refusal::NoMatch);
    }
    match held(recent, view.depth, segment, word, read) {
        Some(i) => Ok(recent[48 + i]),
        None => pass_on(view, segment, word, 1, read, !read),
    }
}

// The live check of a word, through the registers: NoMatch where no capability of the live frame matches or there is no frame, SourceFails where the match's source fails its static check.
pub fn live_check(
    view: &View,
    recent: &[u8; 160],
    access: Access,
    segment: u8,
    word: u16,
) -> Result<(), Refusal>
    ensures { status result ≡ live_through view.now.layout.lengths view.now.layout.rights (registers_of recent.now) view.now.depth view.now.frame access segment word }
{
    let source = found_source(view, recent, segment, word, is_read(access))?;
    match static_check(&view.layout, source, asked(access), segment, word) {
        Ok(()) => Ok(()),
        Err(_) => Err(Refusal::SourceFails),
    }
}
