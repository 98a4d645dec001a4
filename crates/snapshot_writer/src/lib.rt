// The bytes of a machine record.

#![tactic(auto)]

mod numbers;
mod parts;
mod rows;

ghost use Rattle.std.specs.Prelude.{◌≡◌};
ghost use Rattle.snapshot_format.specs.RecordForm.{with_record};

use crate::parts::{put_layout, put_registers};
use crate::rows::{put_frames, put_pointers, put_recent};
use state::record::Machine;

// Puts a record in place of the first 1,079 bytes; fewer stay as they were.
pub fn put_record(m: Machine, output: &mut [u8])
    ensures { output.new ≡ with_record output.old m }
{
    if output.len() < 1079 {
        return;
    }
    put_layout(output, m.layout);
    put_registers(output, m.registers);
    put_pointers(output, &m.pointers);
    put_frames(output, m.depth, m.frames);
    put_recent(output, &m.recent);
}
