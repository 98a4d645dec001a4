// References, noted in the registers.
ghost use Rattle.std.specs.Prelude.{◌≡◌};
ghost use Rattle.lent_registers.specs.Columns.{registers_of};
ghost use Rattle.references.specs.Made.{renewed};

use crate::flag::{Access, is_read};
use crate::view::View;
use lent_registers::renewal::refer;
use words::pointer::Pointer;

// A reference through a pointer; an untagged one does not use the registers.
pub fn renew(recent: &mut [u8; 160], view: &View, access: Access, p: Pointer)
    ensures { registers_of recent.new ≡ renewed (registers_of recent.old) view.now.depth view.now.frame (record { access = access; pointer = p }) }
{
    if p.tag {
        refer(
            recent,
            view.depth,
            view.frame,
            p.segment,
            p.word,
            is_read(access),
        );
    }
}
