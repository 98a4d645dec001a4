// The static check of a domain, on a whole record.
ghost use Rattle.std.specs.Prelude.{◌≡◌};
ghost use Rattle.words.specs.Refusal.{answer_of};
ghost use Rattle.record_checks.specs.Judged.{judged_static};

use crate::view::view_of;
use references::flag::Flag;
use references::reference::locate;
use soundness::sound;
use state::record::Machine;
use words::refusal::Refusal;

// The static check of a domain; NotSound for a record that is not sound.
pub fn check_static(
    m: Machine,
    domain: u8,
    flag: Flag,
    segment: u8,
    word: u16,
) -> Result<usize, Refusal>
    ensures { answer_of result ≡ judged_static m domain flag segment word }
{
    if !sound(m) {
        return Err(Refusal::NotSound);
    }
    locate(&view_of(m), domain, flag, segment, word)
}
