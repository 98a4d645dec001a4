// Parts of a record in bytes.
ghost use Rattle.std.specs.Prelude.{◌≡◌, ◌+◌, ◌≤◌, length};
ghost use Rattle.snapshot_format.specs.RecordForm.{pointer_form, capability_form, start_form, layout_form, registers_form, register_form};

use crate::numbers::{pair, quad, row};
use state::record::{Capability, Layout, Register, Registers, Start};
use std::array;
use words::pointer::Pointer;

pub fn pointer(bytes: &[u8], i: usize) -> Pointer
    requires { (i + 4 ≤ 1079) × (1079 ≤ length bytes.now) }
    ensures { result ≡ pointer_form.value bytes.now i }
{
    let at = i + 2;
    Pointer {
        word: pair(bytes, i),
        segment: bytes[at],
        tag: bytes[at + 1] == 1,
    }
}

pub fn capability(bytes: &[u8], i: usize) -> Capability
    requires { (i + 8 ≤ 1079) × (1079 ≤ length bytes.now) }
    ensures { result ≡ capability_form.value bytes.now i }
{
    let second = i + 2;
    let segment = second + 2;
    let source = segment + 1;
    let read = source + 1;
    Capability {
        word: pair(bytes, i),
        length: pair(bytes, second),
        segment: bytes[segment],
        source: bytes[source],
        read: bytes[read] == 1,
        write: bytes[read + 1] == 1,
    }
}

pub fn register(bytes: &[u8], i: usize) -> Register
    requires { (i + 10 ≤ 1079) × (1079 ≤ length bytes.now) }
    ensures { result ≡ register_form.value bytes.now i }
{
    let at = i + 8;
    Register {
        capability: capability(bytes, i),
        frame: bytes[at],
        recency: bytes[at + 1],
    }
}

fn start(bytes: &[u8]) -> Start
    requires { 1079 ≤ length bytes.now }
    ensures { result ≡ start_form.value bytes.now 64 }
{
    Start {
        word: pair(bytes, 64),
        segment: bytes[66],
        domain: bytes[67],
    }
}

pub fn layout(bytes: &[u8]) -> Layout
    requires { 1079 ≤ length bytes.now }
    ensures { result ≡ layout_form.value bytes.now 0 }
{
    Layout {
        lengths: array::from_fn(|k| pair(bytes, k * 2)),
        gates: array::from_fn(|k| pair(bytes, 32 + k * 2)),
        start: start(bytes),
        gatedomains: row(bytes, 68),
        stacks: row(bytes, 84),
        rights: row(bytes, 92),
        segments: bytes[220],
        domains: bytes[221],
    }
}

pub fn registers(bytes: &[u8]) -> Registers
    requires { 1079 ≤ length bytes.now }
    ensures { result ≡ registers_form.value bytes.now 222 }
{
    Registers {
        a: quad(bytes, 222),
        word: pair(bytes, 226),
        segment: bytes[228],
        domain: bytes[229],
    }
}
