// Fresh machines, and the layout with nothing in it.

#![tactic(auto)]

ghost use Rattle.std.specs.Prelude.{◌≡◌};
ghost use Rattle.fresh.specs.Fresh.{fresh_of, empty_layout};

use recent::registers::fresh_registers;
use state::frames::free_frame;
use state::record::{Layout, Machine, Registers, Start};
use words::pointer::Pointer;

// The machine of a layout before its first instruction.
pub fn fresh(layout: Layout) -> Machine
    ensures { result ≡ fresh_of layout }
{
    let start = layout.start;
    let stack = layout
        .stacks
        .get(start.domain as usize)
        .copied()
        .unwrap_or(0);
    let mut pointers = [Pointer::NOWHERE; 8];
    pointers[2] = Pointer {
        segment: stack,
        ..Pointer::NOWHERE
    };
    Machine {
        layout,
        registers: Registers {
            a: 0,
            word: start.word,
            segment: start.segment,
            domain: start.domain,
        },
        pointers,
        frames: [free_frame(); 8],
        recent: fresh_registers(),
        depth: 0,
    }
}

// The layout with nothing in it.
pub fn empty_layout() -> Layout
    ensures { result ≡ empty_layout }
{
    Layout {
        lengths: [0; 16],
        gates: [0; 16],
        start: Start {
            word: 0,
            segment: 0,
            domain: 0,
        },
        gatedomains: [0; 16],
        stacks: [0; 8],
        rights: [0; 128],
        segments: 0,
        domains: 0,
    }
}
