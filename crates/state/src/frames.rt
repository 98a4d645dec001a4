// The frames of a record.
ghost use Rattle.std.specs.Prelude.{◌≡◌, ◌≤◌, ◌<◌, ◌-◌};
ghost use Rattle.state.specs.Record.{free_frame, in_use, live_frame};

use crate::record::{Capability, Frame};
use words::pointer::Pointer;

// A frame that is not in use.
pub fn free_frame() -> Frame
    ensures { result ≡ free_frame }
{
    Frame {
        capabilities: [Capability::NONE; 9],
        s: Pointer::NOWHERE,
        back: Pointer::NOWHERE,
        count: 0,
        domain: 0,
    }
}

// How many frames are in use; a depth past eight, which no sound record has, counts as none.
pub fn in_use(depth: u8) -> u8
    ensures { (result ≡ in_use depth) × (result ≤ 8) }
{
    if depth <= 8 { depth } else { 0 }
}

// The row of the newest frame in use, the live frame; row 0 where none is in use.
pub fn live_row(depth: u8) -> usize
    ensures { (result ≡ in_use depth - 1) × (result < 8) }
{
    let n = in_use(depth);
    if n == 0 {
        return 0;
    }
    (n - 1) as usize
}

// The newest frame in use, the live frame; frame 0 where none is in use.
pub fn live_frame(frames: [Frame; 8], depth: u8) -> Frame
    ensures { result ≡ live_frame depth frames }
{
    let n = in_use(depth);
    if n == 0 {
        return frames[0];
    }
    let k = (n - 1) as usize;
    frames[k]
}
