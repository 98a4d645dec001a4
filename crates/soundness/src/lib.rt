// When a machine record is sound (well-formed).

#![tactic(auto)]

pub mod frames;
pub mod registers;
mod rows;

ghost use Rattle.std.specs.Prelude.{◌≡◌};
ghost use Rattle.soundness.specs.Sound.{sound_test};

use crate::frames::frames_sound;
use crate::registers::{pointers_sound, registers_sound};
use layout_soundness::layout_sound;
use state::record::Machine;

// Whether a record is sound, for any record.
#[tactic(auto, unfolding(crate::specs::Sound::sound_test))]
pub fn sound(m: Machine) -> bool
    ensures { result ≡ sound_test m }
{
    layout_sound(m.layout)
        && registers_sound(m.layout.domains, m.registers)
        && pointers_sound(m.pointers)
        && frames_sound(m.layout.domains, m.depth, m.frames)
        && recent::registers::registers_sound(m.depth, m.frames, m.recent)
}
