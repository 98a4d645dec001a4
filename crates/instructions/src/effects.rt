// The effects of loads, stores and calls, and where an instruction goes on.
ghost use Rattle.std.specs.Prelude.{◌≡◌, [], ◌∷◌, ◌<◌, ◌+◌};
ghost use Rattle.state.specs.Record.{no_pointer};
ghost use Rattle.lent_registers.specs.Columns.{registers_of};
ghost use Rattle.memory.specs.Reader.{read_of, written_of};
ghost use Rattle.instructions.specs.Plan.{store};
ghost use Rattle.transfers.specs.Transfer.{call_way};
ghost use Rattle.instructions.specs.Instruction.{operate_of};
ghost use Rattle.pointer_registers.specs.Stack.{stack_of};
ghost use Rattle.instructions.specs.Cycle.{settled, moved_registers, Stays};
ghost use Rattle.instructions.specs.Private.{Cycles, loaded, called, Reached, Renews};
ghost use Rattle.references.specs.Made.{made_read, made_write, renewed_all};

use crate::cycle::{Cycle, Event};
use crate::made::note;
use memory::{read, write};
use pointer_registers::stack_of;
use references::flag::Access;
use references::view::View;
use state::record::Registers;
use transfers::{Way, call_way};
use words::arithmetic::{difference, sum};
use words::pointer::Pointer;

// On to the next word with another A. Here and below the registers are put together field by field: a copy of the struct would be made whole and taken apart again at each instruction.
pub fn onward(r: Registers, a: u32, event: Event) -> Cycle
    requires { r.word < 65535 }
    ensures { result ≡ record { registers = moved_registers r a r.segment (r.word + 1); event = event } }
{
    let word = r.word + 1;
    let registers = Registers {
        a,
        word,
        segment: r.segment,
        domain: r.domain,
    };
    Cycle { registers, event }
}

// On to a place.
pub fn go_to(r: Registers, p: Pointer, event: Event) -> Cycle
    ensures { result ≡ record { registers = moved_registers r r.a p.segment p.word; event = event } }
{
    let registers = Registers {
        a: r.a,
        word: p.word,
        segment: p.segment,
        domain: r.domain,
    };
    Cycle { registers, event }
}

// Nothing moves.
pub fn stay(r: Registers, event: Event) -> Cycle
    ensures { result ≡ record { registers = r; event = event } }
{
    let registers = Registers {
        a: r.a,
        word: r.word,
        segment: r.segment,
        domain: r.domain,
    };
    Cycle { registers, event }
}

// What LOAD, ADD and SUB make of A and a word.
pub fn operate(opcode: u8, a: u32, w: u32) -> u32
    ensures { result ≡ operate_of opcode a w }
{
    if opcode == 1 {
        return w;
    }
    if opcode == 3 {
        return sum(a, w);
    }
    difference(a, w)
}

// LOAD, ADD and SUB; q is the place of the indirect word.
pub fn load(
    view: &View,
    words: &[u32],
    recent: &mut [u8; 160],
    r: Registers,
    opcode: u8,
    q: Pointer,
    p: Pointer,
) -> Cycle
    requires { (r.word < 65535) × Reached q p }
    ensures cycles { Cycles result (λ ps. loaded r ps opcode (read_of view.now.layout.lengths view.now.layout.rights view.now.bases words.now r.domain (registers_of recent.old) view.now.depth view.now.frame p)) }
    ensures stays { Stays r result }
    ensures renews { Renews result (registers_of recent.new) (registers_of recent.old) (renewed_all (registers_of recent.old) view.now.depth view.now.frame (made_read q ∷ made_read p ∷ [])) }
{
    match read(view, words, r.domain, recent, p) {
        Err(refusal) => stay(r, Event::Faulted(refusal)),
        Ok(w) => {
            note(recent, view, q, Access::Read, p);
            onward(r, operate(opcode, r.a, w), Event::Moved)
        }
    }
}

// STORE and SPP; q is the place of the indirect word.
pub fn save(
    view: &View,
    words: &mut [u32],
    recent: &mut [u8; 160],
    r: Registers,
    q: Pointer,
    p: Pointer,
    value: u32,
) -> Cycle
    requires { (r.word < 65535) × Reached q p }
    ensures cycles { Cycles result (λ ps. settled view.now.layout.lengths view.now.layout.rights view.now.bases words.old (registers_of recent.old) view.now.depth view.now.frame r ps no_pointer (store p value)) }
    ensures words_after { words.new ≡ written_of view.now.layout.lengths view.now.layout.rights view.now.bases words.old r.domain (registers_of recent.old) view.now.depth view.now.frame p value }
    ensures stays { Stays r result }
    ensures renews { Renews result (registers_of recent.new) (registers_of recent.old) (renewed_all (registers_of recent.old) view.now.depth view.now.frame (made_read q ∷ made_write p ∷ [])) }
{
    match write(view, words, r.domain, recent, p, value) {
        Err(refusal) => stay(r, Event::Faulted(refusal)),
        Ok(()) => {
            note(recent, view, q, Access::Write, p);
            onward(r, r.a, Event::Moved)
        }
    }
}

// CALL, up to the argument list.
pub fn call(view: &View, r: Registers, p: Pointer) -> Cycle
    ensures cycles { Cycles result (λ ps. called r ps (stack_of view.now.layout.stacks r.domain) p (call_way view.now.layout.lengths view.now.layout.gates view.now.layout.rights r.domain view.now.depth p)) }
    ensures stays { Stays r result }
{
    match call_way(&view.layout, r.domain, view.depth, p) {
        Err(refusal) => stay(r, Event::Faulted(refusal)),
        Ok(Way::Gate) => stay(r, Event::Entering(p)),
        Ok(Way::Inside) => {
            let base = Pointer {
                segment: stack_of(&view.layout.stacks, r.domain),
                ..Pointer::NOWHERE
            };
            go_to(r, p, Event::Pointed(2, base))
        }
    }
}
