// One instruction, but for a crossing.
ghost use Rattle.std.specs.Prelude.{◌≡◌, ◌<◌, ◌∷◌};
ghost use Rattle.lent_registers.specs.Columns.{registers_of};
ghost use Rattle.references.specs.Made.{made_read, renewed_all};
ghost use Rattle.memory.specs.Reader.{read_of};
ghost use Rattle.instructions.specs.Instruction.{value_of, effect_of, execute_of};
ghost use Rattle.instructions.specs.Cycle.{Stays, cycle_answer, cycle_of, cycle_words, cycle_recent, settled_words, recent_by};
ghost use Rattle.instructions.specs.Made.{indirect_place, operand_made, made_by};
ghost use Rattle.instructions.specs.Private.{jumps_of, settled_answer, Reached};

use crate::effects::{call, go_to, load, onward, save, stay};
use crate::made::{indirect_place, note_indirect};
use crate::opcodes::{is_load, is_store};
use addressing::effective;
use memory::fetch;
use pointer_registers::pointer_at;
use references::view::View;
use state::record::Registers;
use transfers::jump_check;
use words::instruction::{Instruction, decode};
use words::offset::literal;
use words::pointer::{Pointer, pack};
use words::refusal::Refusal;

// Where an instruction came to.
#[derive(Clone, Copy)]
pub enum Event {
    Moved,
    // moved on, with pointer register i set
    Pointed(u8, Pointer),
    Halted,
    Entering(Pointer),
    // to the first pointer, by an instruction with its indirect word at the second, untagged where it has none
    Leaving(Pointer, Pointer),
    Faulted(Refusal),
}

#[derive(Clone, Copy)]
pub struct Cycle {
    pub registers: Registers,
    pub event: Event,
}

// The word that STORE or SPP stores.
fn value(opcode: u8, a: u32, pointers: [Pointer; 8], register: u8) -> u32
    ensures { result ≡ value_of opcode a pointers register }
{
    if opcode == 2 {
        return a;
    }
    pack(pointer_at(pointers, register))
}

// Whether JUMP, RET, JZ or JM jumps to an effective pointer of this tag.
fn jumps(opcode: u8, a: u32, tag: bool) -> bool
    ensures { result ≡ jumps_of opcode a tag }
{
    match opcode {
        7 => true,
        9 => !tag,
        10 => a == 0,
        11 => 2147483648 <= a,
        _ => false,
    }
}

// The effect of an opcode at an effective pointer; q is the place of the indirect word. Where it moves on, its live references are noted in the registers.
fn effect(
    view: &View,
    words: &mut [u32],
    recent: &mut [u8; 160],
    r: Registers,
    pointers: [Pointer; 8],
    i: Instruction,
    q: Pointer,
    p: Pointer,
) -> Cycle
    requires { (r.word < 65535) × Reached q p }
    ensures result_value { cycle_answer pointers result ≡ settled_answer view.now.layout.lengths view.now.layout.rights view.now.bases words.old (registers_of recent.old) view.now.depth view.now.frame r pointers q (effect_of view.now.layout.lengths view.now.layout.gates view.now.layout.rights view.now.layout.stacks view.now.depth r pointers (read_of view.now.layout.lengths view.now.layout.rights view.now.bases words.old r.domain (registers_of recent.old) view.now.depth view.now.frame) i.opcode i.register p) }
    ensures words_after { words.new ≡ settled_words view.now.layout.lengths view.now.layout.rights view.now.bases words.old (registers_of recent.old) view.now.depth view.now.frame r pointers (effect_of view.now.layout.lengths view.now.layout.gates view.now.layout.rights view.now.layout.stacks view.now.depth r pointers (read_of view.now.layout.lengths view.now.layout.rights view.now.bases words.old r.domain (registers_of recent.old) view.now.depth view.now.frame) i.opcode i.register p) }
    ensures stays { Stays r result }
    ensures recent_after { registers_of recent.new ≡ recent_by (registers_of recent.old) (renewed_all (registers_of recent.old) view.now.depth view.now.frame (made_read q ∷ operand_made i.opcode p)) (cycle_answer pointers result) }
{
    let opcode = i.opcode;
    if is_load(opcode) {
        return load(view, words, recent, r, opcode, q, p);
    }
    if is_store(opcode) {
        let v = value(opcode, r.a, pointers, i.register);
        return save(view, words, recent, r, q, p, v);
    }
    if jumps(opcode, r.a, p.tag) {
        return match jump_check(&view.layout, r.domain, p) {
            Err(refusal) => stay(r, Event::Faulted(refusal)),
            Ok(()) => go_to(r, p, Event::Moved),
        };
    }
    match opcode {
        5 => {
            note_indirect(recent, view, q);
            onward(r, r.a, Event::Pointed(i.register, p))
        }
        8 => call(view, r, p),
        9 => stay(r, Event::Leaving(p, q)),
        _ => {
            note_indirect(recent, view, q);
            onward(r, r.a, Event::Moved)
        }
    }
}

// An instruction: HALT and LIT form no effective pointer.
fn perform(
    view: &View,
    words: &mut [u32],
    recent: &mut [u8; 160],
    r: Registers,
    pointers: [Pointer; 8],
    i: Instruction,
) -> Cycle
    requires { r.word < 65535 }
    ensures result_value { cycle_answer pointers result ≡ settled_answer view.now.layout.lengths view.now.layout.rights view.now.bases words.old (registers_of recent.old) view.now.depth view.now.frame r pointers (indirect_place pointers i) (execute_of view.now.layout.lengths view.now.layout.gates view.now.layout.rights view.now.layout.stacks view.now.depth r pointers (read_of view.now.layout.lengths view.now.layout.rights view.now.bases words.old r.domain (registers_of recent.old) view.now.depth view.now.frame) i) }
    ensures words_after { words.new ≡ settled_words view.now.layout.lengths view.now.layout.rights view.now.bases words.old (registers_of recent.old) view.now.depth view.now.frame r pointers (execute_of view.now.layout.lengths view.now.layout.gates view.now.layout.rights view.now.layout.stacks view.now.depth r pointers (read_of view.now.layout.lengths view.now.layout.rights view.now.bases words.old r.domain (registers_of recent.old) view.now.depth view.now.frame) i) }
    ensures stays { Stays r result }
    ensures recent_after { registers_of recent.new ≡ recent_by (registers_of recent.old) (renewed_all (registers_of recent.old) view.now.depth view.now.frame (made_by (read_of view.now.layout.lengths view.now.layout.rights view.now.bases words.old r.domain (registers_of recent.old) view.now.depth view.now.frame) pointers i)) (cycle_answer pointers result) }
{
    let opcode = i.opcode;
    if opcode == 0 {
        return stay(r, Event::Halted);
    }
    if opcode == 12 {
        return onward(r, literal(i.offset), Event::Moved);
    }
    match effective(view, words, r.domain, recent, pointers, i) {
        Err(refusal) => stay(r, Event::Faulted(refusal)),
        Ok(p) => effect(
            view,
            words,
            recent,
            r,
            pointers,
            i,
            indirect_place(pointers, i),
            p,
        ),
    }
}

// The instruction at the location.
pub fn run_cycle(
    view: &View,
    words: &mut [u32],
    recent: &mut [u8; 160],
    r: Registers,
    pointers: [Pointer; 8],
) -> Cycle
    ensures result_value { cycle_answer pointers result ≡ cycle_of view.now.layout.lengths view.now.layout.gates view.now.layout.rights view.now.layout.stacks view.now.bases words.old (registers_of recent.old) view.now.depth view.now.frame r pointers }
    ensures words_after { words.new ≡ cycle_words view.now.layout.lengths view.now.layout.gates view.now.layout.rights view.now.layout.stacks view.now.bases words.old (registers_of recent.old) view.now.depth view.now.frame r pointers }
    ensures stays { Stays r result }
    ensures recent_after { registers_of recent.new ≡ cycle_recent view.now.layout.lengths view.now.layout.gates view.now.layout.rights view.now.layout.stacks view.now.bases words.old (registers_of recent.old) view.now.depth view.now.frame r pointers }
{
    match fetch(view, words, r.domain, r.segment, r.word) {
        Err(refusal) => stay(r, Event::Faulted(refusal)),
        Ok(w) => match decode(w) {
            Err(refusal) => stay(r, Event::Faulted(refusal)),
            Ok(i) => perform(view, words, recent, r, pointers, i),
        },
    }
}
