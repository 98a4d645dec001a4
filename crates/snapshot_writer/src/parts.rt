// Parts of a record put into bytes.
ghost use Rattle.std.specs.Prelude.{◌≡◌, ◌+◌, ◌≤◌, length};
ghost use Rattle.std.proofs.lemmas.List.Edits.{sets};
ghost use Rattle.snapshot_format.specs.RecordForm.{pointer_form, capability_form, start_form, layout_form, registers_form, register_form};

use crate::numbers::{put_bytes, put_pair, put_pairs, put_quad};
use state::record::{Capability, Layout, Register, Registers, Start};
use words::pointer::Pointer;

pub fn put_pointer(output: &mut [u8], i: usize, p: Pointer)
    requires { (i + 4 ≤ 1079) × (1079 ≤ length output.old) }
    ensures { output.new ≡ sets output.old i (pointer_form.bytes p) }
{
    put_pair(output, i, p.word);
    output[i + 2] = p.segment;
    output[i + 3] = u8::from(p.tag);
}

pub fn put_capability(output: &mut [u8], i: usize, c: Capability)
    requires { (i + 8 ≤ 1079) × (1079 ≤ length output.old) }
    ensures { output.new ≡ sets output.old i (capability_form.bytes c) }
{
    put_pair(output, i, c.word);
    put_pair(output, i + 2, c.length);
    output[i + 4] = c.segment;
    output[i + 5] = c.source;
    output[i + 6] = u8::from(c.read);
    output[i + 7] = u8::from(c.write);
}

pub fn put_register(output: &mut [u8], i: usize, r: Register)
    requires { (i + 10 ≤ 1079) × (1079 ≤ length output.old) }
    ensures { output.new ≡ sets output.old i (register_form.bytes r) }
{
    put_capability(output, i, r.capability);
    output[i + 8] = r.frame;
    output[i + 9] = r.recency;
}

fn put_start(output: &mut [u8], s: Start)
    requires { 1079 ≤ length output.old }
    ensures { output.new ≡ sets output.old 64 (start_form.bytes s) }
{
    put_pair(output, 64, s.word);
    output[66] = s.segment;
    output[67] = s.domain;
}

pub fn put_layout(output: &mut [u8], l: Layout)
    requires { 1079 ≤ length output.old }
    ensures { output.new ≡ sets output.old 0 (layout_form.bytes l) }
{
    put_pairs(output, 0, &l.lengths);
    put_pairs(output, 32, &l.gates);
    put_start(output, l.start);
    put_bytes(output, 68, &l.gatedomains);
    put_bytes(output, 84, &l.stacks);
    put_bytes(output, 92, &l.rights);
    output[220] = l.segments;
    output[221] = l.domains;
}

pub fn put_registers(output: &mut [u8], r: Registers)
    requires { 1079 ≤ length output.old }
    ensures { output.new ≡ sets output.old 222 (registers_form.bytes r) }
{
    put_quad(output, 222, r.a);
    put_pair(output, 226, r.word);
    output[228] = r.segment;
    output[229] = r.domain;
}
