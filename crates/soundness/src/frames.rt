// When frames are sound.
ghost use Rattle.std.specs.Prelude.{◌≡◌, ltb, if◌then◌else◌};
ghost use Rattle.soundness.specs.Sound.{empty_frame, frame_test, frames_test};

use crate::registers::{pointer_empty, pointer_sound};
use crate::rows::{rows_empty, rows_sound};
use state::record::Frame;

#[tactic(auto, unfolding(crate::specs::Sound::frame_test))]
pub fn frame_sound(domains: u8, f: Frame) -> bool
    ensures { result ≡ frame_test domains f }
{
    1 <= f.count
        && f.count <= 9
        && f.domain < domains
        && pointer_sound(f.s)
        && pointer_sound(f.back)
        && !f.back.tag
        && rows_sound(domains, f.count, &f.capabilities)
}

#[tactic(auto, unfolding(crate::specs::Sound::empty_frame))]
fn frame_empty(f: Frame) -> bool
    ensures { result ≡ empty_frame f }
{
    f.count == 0
        && f.domain == 0
        && pointer_empty(f.s)
        && pointer_empty(f.back)
        && rows_empty(&f.capabilities)
}

// Whether frame i of a machine with depth frames in use is as it must be.
fn place_sound(domains: u8, depth: u8, i: usize, f: Frame) -> bool
    ensures { result ≡ (if ltb i depth then frame_test domains f else empty_frame f) }
{
    if i < depth as usize {
        frame_sound(domains, f)
    } else {
        frame_empty(f)
    }
}

#[tactic(auto, using(layout_soundness::proofs::All::turns), unfolding(crate::specs::Sound::frames_test))]
pub fn frames_sound(domains: u8, depth: u8, frames: [Frame; 8]) -> bool
    ensures { result ≡ frames_test domains depth frames }
{
    if 8 < depth {
        return false;
    }
    for (i, &f) in frames.iter().enumerate() {
        if !place_sound(domains, depth, i, f) {
            return false;
        }
    }
    true
}
