// Sixteen registers laid out in columns of bytes, and taken from there.
ghost use Rattle.std.specs.Prelude.{◌≡◌};
ghost use Rattle.lent_registers.specs.Columns.{registers_of};

use crate::cells::{put, register_at};
use state::record::Register;

// The columns of sixteen registers.
pub fn spread(registers: [Register; 16]) -> [u8; 160]
    ensures { registers_of result ≡ registers }
{
    let mut recent = [0u8; 160];
    for i in 0..16 {
        put(&mut recent, i, registers[i]);
    }
    recent
}

// The sixteen registers of columns.
pub fn gathered(recent: &[u8; 160]) -> [Register; 16]
    ensures { result ≡ registers_of recent.now }
{
    let first = register_at(recent, 0);
    let mut registers = [first; 16];
    for i in 0..16 {
        registers[i] = register_at(recent, i);
    }
    registers
}
