// When the capabilities of a frame are sound.
ghost use Rattle.std.specs.Prelude.{◌≡◌, ltb, get_or, if◌then◌else◌};
ghost use Rattle.state.specs.Record.{no_capability};
ghost use Rattle.layout_soundness.specs.SoundLayout.{all_from};
ghost use Rattle.soundness.specs.Sound.{capability_test, empty_capability};

use state::record::Capability;

#[tactic(auto, unfolding(crate::specs::Sound::capability_test))]
fn capability_sound(domains: u8, c: Capability) -> bool
    ensures { result ≡ capability_test domains c }
{
    c.segment <= 15
        && 1 <= c.length
        && c.length <= 4096
        && c.word as u32 + c.length as u32 <= 4096
        && c.source < domains
        && (c.read || c.write)
}

#[tactic(auto, unfolding(crate::specs::Sound::empty_capability))]
fn capability_empty(c: Capability) -> bool
    ensures { result ≡ empty_capability c }
{
    c == Capability::NONE
}

// Whether the capability in row j of a frame that holds count of them is as it must be.
fn row_sound(domains: u8, count: u8, j: usize, c: Capability) -> bool
    ensures { result ≡ (if ltb j count then capability_test domains c else empty_capability c) }
{
    if j < count as usize {
        capability_sound(domains, c)
    } else {
        capability_empty(c)
    }
}

#[tactic(auto, using(layout_soundness::proofs::All::turns))]
pub fn rows_sound(domains: u8, count: u8, capabilities: &[Capability; 9]) -> bool
    ensures { result ≡ all_from 9 0 (λ j. (if ltb j count then capability_test domains (get_or capabilities.now j no_capability) else empty_capability (get_or capabilities.now j no_capability))) }
{
    for (j, &c) in capabilities.iter().enumerate() {
        if !row_sound(domains, count, j, c) {
            return false;
        }
    }
    true
}

#[tactic(auto, using(layout_soundness::proofs::All::turns))]
pub fn rows_empty(capabilities: &[Capability; 9]) -> bool
    ensures { result ≡ all_from 9 0 (λ j. empty_capability (get_or capabilities.now j no_capability)) }
{
    for &c in capabilities {
        if !capability_empty(c) {
            return false;
        }
    }
    true
}
