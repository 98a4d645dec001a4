// When A, the location, the executing domain and the pointer registers are sound.
ghost use Rattle.std.specs.Prelude.{◌≡◌};
ghost use Rattle.soundness.specs.Sound.{registers_test, pointer_test, pointers_test, empty_pointer};

use state::record::Registers;
use words::pointer::Pointer;

#[tactic(auto, unfolding(crate::specs::Sound::registers_test))]
pub fn registers_sound(domains: u8, r: Registers) -> bool
    ensures { result ≡ registers_test domains r }
{
    r.domain < domains && r.segment <= 15 && r.word <= 4096
}

#[tactic(auto, unfolding(crate::specs::Sound::pointer_test))]
pub fn pointer_sound(p: Pointer) -> bool
    ensures { result ≡ pointer_test p }
{
    p.segment <= 15 && p.word <= 4095
}

#[tactic(auto, unfolding(crate::specs::Sound::empty_pointer))]
pub fn pointer_empty(p: Pointer) -> bool
    ensures { result ≡ empty_pointer p }
{
    p == Pointer::NOWHERE
}

#[tactic(auto, using(layout_soundness::proofs::All::turns), unfolding(crate::specs::Sound::pointers_test))]
pub fn pointers_sound(pointers: [Pointer; 8]) -> bool
    ensures { result ≡ pointers_test pointers }
{
    for &p in &pointers {
        if !pointer_sound(p) {
            return false;
        }
    }
    true
}
