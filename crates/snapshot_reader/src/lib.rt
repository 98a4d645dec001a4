// The machine record that bytes hold, and whether they are a record's bytes.

#![tactic(auto)]

mod numbers;
mod parts;
mod proper;
mod rows;

ghost use Rattle.std.specs.Prelude.{◌≡◌};
ghost use Rattle.words.specs.Answer.{number_of};
ghost use Rattle.words.specs.Refusal.{status};
ghost use Rattle.snapshot_reader.specs.Formed.{formed, record_or};

use crate::parts::{layout, registers};
use crate::proper::{frames_proper, recent_proper, tags_proper};
use crate::rows::{frames, pointers, recent};
use fresh::{empty_layout, fresh};
use state::record::Machine;
use words::refusal::Refusal;

// Whether bytes hold a record: they do not where they are too few, or no record has them.
pub fn form_number(bytes: &[u8]) -> Result<(), Refusal>
    ensures { status result ≡ number_of (formed bytes.now) }
{
    if bytes.len() < 1079 {
        return Err(Refusal::OutputTooShort);
    }
    if !tags_proper(bytes) || !frames_proper(bytes) || !recent_proper(bytes) {
        return Err(Refusal::NotSound);
    }
    Ok(())
}

// The record in bytes; the empty one where they are too few.
pub fn record_or_empty(bytes: &[u8]) -> Machine
    ensures { result ≡ record_or bytes.now }
{
    if bytes.len() < 1079 {
        let none = empty_layout();
        return fresh(none);
    }
    let layout = layout(bytes);
    let registers = registers(bytes);
    let pointers = pointers(bytes);
    let frames = frames(bytes);
    let recent = recent(bytes);
    Machine {
        layout,
        registers,
        pointers,
        frames,
        recent,
        depth: bytes[262],
    }
}
