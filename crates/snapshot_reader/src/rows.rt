// Rows of structs in bytes: pointers, the capabilities of a frame, frames, recent capabilities.
ghost use Rattle.std.specs.Prelude.{◌≡◌, ◌+◌, ◌≤◌, length};
ghost use Rattle.state.specs.Record.{no_capability, free_frame};
ghost use Rattle.snapshot_format.specs.Format.{rows_of, counted};
ghost use Rattle.snapshot_format.specs.RecordForm.{pointer_form, capability_form, frame_form, register_form};

use crate::parts::{capability, pointer, register};
use state::frames::free_frame;
use state::record::{Capability, Frame, Register};
use std::array;
use words::pointer::Pointer;

pub fn pointers(bytes: &[u8]) -> [Pointer; 8]
    requires { 1079 ≤ length bytes.now }
    ensures { result ≡ (rows_of 8 pointer_form).value bytes.now 230 }
{
    array::from_fn(|k| pointer(bytes, 230 + k * 4))
}

// The capabilities of a frame that begins at i.
fn capabilities(bytes: &[u8], i: usize) -> [Capability; 9]
    requires { (i + 82 ≤ 1079) × (1079 ≤ length bytes.now) }
    ensures { result ≡ ((counted 9 no_capability capability_form).value bytes.now i).1 }
{
    let used = bytes[i] as usize;
    let first = i + 1;
    array::from_fn(|k| {
        if k < used {
            capability(bytes, first + k * 8)
        } else {
            Capability::NONE
        }
    })
}

fn frame(bytes: &[u8], i: usize) -> Frame
    requires { (i + 82 ≤ 1079) × (1079 ≤ length bytes.now) }
    ensures { result ≡ frame_form.value bytes.now i }
{
    let capabilities = capabilities(bytes, i);
    let s = i + 73;
    let back = s + 4;
    let domain = back + 4;
    Frame {
        capabilities,
        s: pointer(bytes, s),
        back: pointer(bytes, back),
        count: bytes[i],
        domain: bytes[domain],
    }
}

pub fn frames(bytes: &[u8]) -> [Frame; 8]
    requires { 1079 ≤ length bytes.now }
    ensures { result ≡ ((counted 8 free_frame frame_form).value bytes.now 262).1 }
{
    let used = bytes[262] as usize;
    array::from_fn(|k| {
        if k < used {
            frame(bytes, 263 + k * 82)
        } else {
            free_frame()
        }
    })
}

pub fn recent(bytes: &[u8]) -> [Register; 16]
    requires { 1079 ≤ length bytes.now }
    ensures { result ≡ (rows_of 16 register_form).value bytes.now 919 }
{
    array::from_fn(|k| register(bytes, 919 + k * 10))
}
