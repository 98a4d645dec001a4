// What crossings make of the registers.
ghost use Rattle.std.specs.Prelude.{◌≡◌, ◌+◌, ◌*◌, ◌-◌, ◌≤◌};
ghost use Rattle.lent_registers.specs.Columns.{registers_of};
ghost use Rattle.references.specs.Made.{renewed_all};
ghost use Rattle.arguments.specs.ArgumentList.{list_made};
ghost use Rattle.crossings.specs.Crossing.{called_recent, left_recent};
ghost use Rattle.runs.specs.Private.{word_made};

use lent_registers::renewal::{clear, enter_list};
use references::flag::Access;
use references::renewal::renew;
use references::view::View;
use state::record::Frame;
use words::offset::climb;
use words::pointer::Pointer;

// The reference to word i of the list at a; word 2 is not read.
fn renew_word(recent: &mut [u8; 160], view: &View, a: Pointer, i: u16)
    ensures { registers_of recent.new ≡ renewed_all (registers_of recent.old) view.now.depth view.now.frame (word_made a i) }
{
    if i == 2 {
        return;
    }
    if let Ok(word) = climb(a.word, i) {
        renew(recent, view, Access::Read, Pointer { word, ..a });
    }
}

// The references to the first k words of the list at a.
fn renew_list(recent: &mut [u8; 160], view: &View, a: Pointer, k: u16)
    ensures { registers_of recent.new ≡ renewed_all (registers_of recent.old) view.now.depth view.now.frame (list_made a k 0) }
{
    if !a.tag {
        return;
    }
    for i in 0..k {
        renew_word(recent, view, a, i);
    }
}

// How many words a list has whose frame has so many capabilities, the list's own among them.
fn list_words(count: u8) -> u16
    ensures { result ≡ 3 + 2 * (count - 1) }
{
    3 + 2 * u16::from(count.saturating_sub(1))
}

// A call that made a frame: the references to its list at a, then the list capability.
pub fn renew_call(recent: &mut [u8; 160], view: &View, a: Pointer, made: Frame)
    requires { view.now.depth ≤ 8 }
    ensures { registers_of recent.new ≡ called_recent (registers_of recent.old) view.now.depth view.now.frame a made }
{
    renew_list(recent, view, a, list_words(made.count));
    enter_list(recent, view.depth + 1, made);
}

// A return by an instruction with its indirect word at q: that reference, then the frame's registers are cleared.
pub fn renew_return(recent: &mut [u8; 160], view: &View, q: Pointer)
    ensures { registers_of recent.new ≡ left_recent (registers_of recent.old) view.now.depth view.now.frame q }
{
    renew(recent, view, Access::Read, q);
    clear(recent, view.depth);
}
