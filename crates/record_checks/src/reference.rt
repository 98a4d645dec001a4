// The check of a reference by the executing domain, on a whole record.
ghost use Rattle.std.specs.Prelude.{◌≡◌};
ghost use Rattle.words.specs.Refusal.{answer_of};
ghost use Rattle.record_checks.specs.Judged.{judged_check};

use crate::view::view_of;
use lent_registers::columns::spread;
use references::flag::{Access, asked};
use references::reference::{live_reference, locate};
use soundness::sound;
use state::record::Machine;
use words::pointer::Pointer;
use words::refusal::Refusal;

// The check of a reference by the executing domain, live for a tagged pointer, static for another; NotSound for a record that is not sound.
pub fn check_reference(m: Machine, access: Access, p: Pointer) -> Result<usize, Refusal>
    ensures { answer_of result ≡ judged_check m access p }
{
    if !sound(m) {
        return Err(Refusal::NotSound);
    }
    let view = view_of(m);
    if !p.tag {
        return locate(&view, m.registers.domain, asked(access), p.segment, p.word);
    }
    let recent = spread(m.recent);
    live_reference(&view, &recent, access, p)
}
