// Rows of structs put into bytes: pointers, the capabilities of a frame, frames, recent capabilities.
ghost use Rattle.std.specs.Prelude.{◌≡◌, ◌+◌, ◌≤◌, length};
ghost use Rattle.std.proofs.lemmas.List.Edits.{sets};
ghost use Rattle.state.specs.Record.{no_capability, free_frame};
ghost use Rattle.snapshot_format.specs.Format.{rows_of, counted};
ghost use Rattle.snapshot_format.specs.RecordForm.{pointer_form, capability_form, frame_form, register_form};

use crate::numbers::put_zeros;
use crate::parts::{put_capability, put_pointer, put_register};
use snapshot_format::rows_used;
use state::record::{Capability, Frame, Register};
use words::pointer::Pointer;

pub fn put_pointers(output: &mut [u8], pointers: &[Pointer; 8])
    requires { 1079 ≤ length output.old }
    ensures { output.new ≡ sets output.old 230 ((rows_of 8 pointer_form).bytes pointers.now) }
{
    for (k, &p) in pointers.iter().enumerate() {
        put_pointer(output, 230 + k * 4, p);
    }
}

fn put_capabilities(output: &mut [u8], i: usize, count: u8, capabilities: &[Capability; 9])
    requires { (i + 82 ≤ 1079) × (1079 ≤ length output.old) }
    ensures { output.new ≡ sets output.old i ((counted 9 no_capability capability_form).bytes (count, capabilities.now)) }
{
    output[i] = count;
    let used = rows_used(count, 9);
    let first = i + 1;
    for k in 0..used {
        put_capability(output, first + k * 8, capabilities[k]);
    }
    put_zeros(output, first + used * 8, (9 - used) * 8);
}

fn put_frame(output: &mut [u8], i: usize, f: Frame)
    requires { (i + 82 ≤ 1079) × (1079 ≤ length output.old) }
    ensures { output.new ≡ sets output.old i (frame_form.bytes f) }
{
    put_capabilities(output, i, f.count, &f.capabilities);
    put_pointer(output, i + 73, f.s);
    put_pointer(output, i + 77, f.back);
    output[i + 81] = f.domain;
}

pub fn put_frames(output: &mut [u8], depth: u8, frames: [Frame; 8])
    requires { 1079 ≤ length output.old }
    ensures { output.new ≡ sets output.old 262 ((counted 8 free_frame frame_form).bytes (depth, frames)) }
{
    output[262] = depth;
    let used = rows_used(depth, 8);
    for k in 0..used {
        put_frame(output, 263 + k * 82, frames[k]);
    }
    put_zeros(output, 263 + used * 82, (8 - used) * 82);
}

pub fn put_recent(output: &mut [u8], recent: &[Register; 16])
    requires { 1079 ≤ length output.old }
    ensures { output.new ≡ sets output.old 919 ((rows_of 16 register_form).bytes recent.now) }
{
    for (k, &r) in recent.iter().enumerate() {
        put_register(output, 919 + k * 10, r);
    }
}
