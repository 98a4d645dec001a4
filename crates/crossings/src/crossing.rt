// Calls through a gate and returns across domains (cross-domain calls and returns).
ghost use Rattle.std.specs.Prelude.{◌≡◌, get_or};
ghost use Rattle.words.specs.Refusal.{status};
ghost use Rattle.state.specs.Record.{no_pointer, of_segment};
ghost use Rattle.lent_registers.specs.Columns.{registers_of};
ghost use Rattle.memory.specs.Reader.{read_of};
ghost use Rattle.arguments.specs.ArgumentList.{frame_of};
ghost use Rattle.crossings.specs.Crossing.{same_place, at_place, with_tag, leave_check};
ghost use Rattle.crossings.specs.Parts.{crossed_answer, enter_parts, leave_parts};

use arguments::make_frame;
use pointer_registers::{pointer_at, stack_of, with_base, with_pointer};
use references::flag::Flag;
use references::statics::static_check;
use references::view::View;
use state::frames::free_frame;
use state::record::{Frame, Registers};
use words::pointer::Pointer;
use words::refusal::Refusal;

// What changes at a crossing: the registers, the pointers, and the frame's row.
#[derive(Clone, Copy)]
pub struct Crossed {
    pub frame: Frame,
    pub pointers: [Pointer; 8],
    pub registers: Registers,
}

// The gate domain of a segment; 0 past the sixteenth.
fn gate_domain_of(gatedomains: &[u8; 16], segment: u8) -> u8
    ensures { result ≡ of_segment gatedomains.now segment }
{
    if 16 <= segment {
        return 0;
    }
    let i = segment as usize;
    gatedomains[i]
}

// Two pointers are the same place, tags aside.
fn same_place(p: Pointer, q: Pointer) -> bool
    ensures { result ≡ same_place p q }
{
    p.segment == q.segment && p.word == q.word
}

// The registers at a place, executing a domain.
fn at_place(r: Registers, p: Pointer, domain: u8) -> Registers
    ensures { result ≡ at_place r p domain }
{
    Registers {
        word: p.word,
        segment: p.segment,
        domain,
        ..r
    }
}

// The registers with the tag of a on.
fn with_tag(pointers: [Pointer; 8]) -> [Pointer; 8]
    ensures { result ≡ with_tag pointers }
{
    let on = Pointer {
        tag: true,
        ..pointer_at(pointers, 0)
    };
    with_pointer(pointers, 0, on)
}

// CALL through the gate at p.
pub fn enter(
    view: &View,
    words: &[u32],
    recent: &[u8; 160],
    r: Registers,
    pointers: [Pointer; 8],
    p: Pointer,
) -> Result<Crossed, Refusal>
    ensures { crossed_answer result ≡ enter_parts view.now.layout.gatedomains view.now.layout.stacks r pointers p (frame_of (read_of view.now.layout.lengths view.now.layout.rights view.now.bases words.now r.domain (registers_of recent.now) view.now.depth view.now.frame) (get_or pointers 0 no_pointer) (get_or pointers 1 no_pointer) r.domain view.now.depth view.now.frame) }
{
    let frame = make_frame(
        view,
        words,
        r.domain,
        recent,
        pointer_at(pointers, 0),
        pointer_at(pointers, 1),
    )?;
    let domain = gate_domain_of(&view.layout.gatedomains, p.segment);
    let stack = stack_of(&view.layout.stacks, domain);
    Ok(Crossed {
        frame,
        pointers: with_base(with_tag(pointers), stack),
        registers: at_place(r, p, domain),
    })
}

// A return's checks against the live frame.
fn leave_check(view: &View, s: Pointer, p: Pointer) -> Result<(), Refusal>
    ensures { status result ≡ leave_check view.now.layout.lengths view.now.layout.rights view.now.depth view.now.frame s p }
{
    if view.depth < 1 {
        return Err(Refusal::BadReturn);
    }
    if !same_place(p, view.frame.back) {
        return Err(Refusal::BadReturn);
    }
    if !same_place(s, view.frame.s) {
        return Err(Refusal::BadReturn);
    }
    static_check(
        &view.layout,
        view.frame.domain,
        Flag::Execute,
        p.segment,
        p.word,
    )
}

// RET to p across domains.
pub fn leave(
    view: &View,
    r: Registers,
    pointers: [Pointer; 8],
    p: Pointer,
) -> Result<Crossed, Refusal>
    ensures { crossed_answer result ≡ leave_parts view.now.layout.stacks r pointers p view.now.frame (leave_check view.now.layout.lengths view.now.layout.rights view.now.depth view.now.frame (get_or pointers 1 no_pointer) p) }
{
    leave_check(view, pointer_at(pointers, 1), p)?;
    let frame = view.frame;
    let restored = with_pointer(pointers, 1, frame.s);
    let stack = stack_of(&view.layout.stacks, frame.domain);
    Ok(Crossed {
        frame: free_frame(),
        pointers: with_base(restored, stack),
        registers: at_place(r, p, frame.domain),
    })
}
