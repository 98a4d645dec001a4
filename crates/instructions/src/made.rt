// The references of a completed instruction, noted in the registers.
ghost use Rattle.std.specs.Prelude.{◌≡◌, [], ◌∷◌};
ghost use Rattle.lent_registers.specs.Columns.{registers_of};
ghost use Rattle.references.specs.Made.{made_read, renewed, renewed_all};
ghost use Rattle.instructions.specs.Made.{indirect_place};
ghost use Rattle.instructions.specs.Private.{Reached};

use pointer_registers::pointer_at;
use references::flag::Access;
use references::renewal::renew;
use references::view::View;
use words::instruction::Instruction;
use words::offset::displace;
use words::pointer::Pointer;

// The place of an instruction's indirect word; an untagged one where there is none.
pub fn indirect_place(pointers: [Pointer; 8], i: Instruction) -> Pointer
    ensures { result ≡ indirect_place pointers i }
{
    if !i.indirect {
        return Pointer::NOWHERE;
    }
    let base = pointer_at(pointers, i.base);
    match displace(base.word, i.offset) {
        Err(_) => Pointer::NOWHERE,
        Ok(word) => Pointer {
            word,
            segment: base.segment,
            tag: base.tag,
        },
    }
}

// The references of an instruction with its indirect word at q and no operand. The tag is tested here, so that an untagged one costs no call.
pub fn note_indirect(recent: &mut [u8; 160], view: &View, q: Pointer)
    ensures { registers_of recent.new ≡ renewed (registers_of recent.old) view.now.depth view.now.frame (made_read q) }
{
    if q.tag {
        renew(recent, view, Access::Read, q);
    }
}

// An indirect word at q, then an operand at p.
fn note_both(recent: &mut [u8; 160], view: &View, q: Pointer, access: Access, p: Pointer)
    ensures { registers_of recent.new ≡ renewed_all (registers_of recent.old) view.now.depth view.now.frame (made_read q ∷ record { access = access; pointer = p } ∷ []) }
{
    note_indirect(recent, view, q);
    renew(recent, view, access, p);
}

// Those of one with its indirect word at q and its operand at p.
pub fn note(recent: &mut [u8; 160], view: &View, q: Pointer, access: Access, p: Pointer)
    requires { Reached q p }
    ensures { registers_of recent.new ≡ renewed_all (registers_of recent.old) view.now.depth view.now.frame (made_read q ∷ record { access = access; pointer = p } ∷ []) }
{
    if p.tag {
        note_both(recent, view, q, access, p);
    }
}
