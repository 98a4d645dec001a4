// Registers of a fresh machine, and when registers are sound.
ghost use Rattle.std.specs.Prelude.{◌≡◌, drop};
ghost use Rattle.state.specs.Record.{no_capability};
ghost use Rattle.recent.specs.Registers.{register, fresh_registers};
ghost use Rattle.recent.specs.SoundRegisters.{absent, numbers_test, register_test, contents_test, recent_test};

use crate::entering::may_enter;
use state::record::{Capability, Frame, Register};

// An empty register with a recency number.
fn empty(recency: u8) -> Register
    ensures { result ≡ register no_capability 0 recency }
{
    Register {
        capability: Capability::NONE,
        frame: 0,
        recency,
    }
}

// The registers of a fresh machine.
pub fn fresh_registers() -> [Register; 16]
    ensures { result ≡ fresh_registers }
{
    let mut registers = [empty(0); 16];
    for i in 0..16u8 {
        registers[usize::from(i)] = empty(i);
    }
    registers
}

// No register from place i on has this number.
fn is_absent(recent: [Register; 16], from: usize, n: u8) -> bool
    ensures { result ≡ absent n (drop from recent) }
{
    recent.iter().skip(from).all(|r| r.recency != n)
}

// The sixteen recency numbers are different, from 0 to 15.
fn numbers_sound(recent: [Register; 16]) -> bool
    ensures { result ≡ numbers_test recent }
{
    for i in 0..16 {
        let r = recent[i];
        if 15 < r.recency || !is_absent(recent, i + 1, r.recency) {
            return false;
        }
    }
    true
}

// Whether a register is sound; f is the frame that it names.
fn register_sound(depth: u8, f: &Frame, r: Register) -> bool
    ensures { result ≡ register_test depth f.now r }
{
    if r.frame == 0 {
        return r.capability == Capability::NONE;
    }
    r.frame <= depth && may_enter(f.capabilities, f.count, r.capability)
}

// Every register is sound.
fn contents_sound(depth: u8, frames: [Frame; 8], recent: [Register; 16]) -> bool
    ensures { result ≡ contents_test depth frames recent }
{
    for &r in recent.as_slice() {
        // the row of the frame that the register names; row 0 for none
        let k = usize::from(r.frame.saturating_sub(1));
        if 8 <= k {
            return false;
        }
        let f = &frames[k];
        if !register_sound(depth, f, r) {
            return false;
        }
    }
    true
}

// Whether the registers are sound, for any frames.
pub fn registers_sound(depth: u8, frames: [Frame; 8], recent: [Register; 16]) -> bool
    ensures { result ≡ recent_test depth frames recent }
{
    numbers_sound(recent) && contents_sound(depth, frames, recent)
}
