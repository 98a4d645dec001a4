// A local run: instructions inside the executing domain, up to the first that ends a run or crosses.

#![tactic(auto)]

ghost use Rattle.std.specs.Prelude.{◌≡◌, ◌-◌};
ghost use Rattle.lent_registers.specs.Columns.{registers_of};
ghost use Rattle.local_runs.specs.LocalRun.{stop_of, local_from};

use instructions::cycle::{Event, run_cycle};
use pointer_registers::with_pointer;
use references::view::View;
use state::record::Registers;
use words::pointer::Pointer;

// Where a local run pauses: before the instruction that the event tells, or at the limit (Moved), after count completed ones.
#[derive(Clone, Copy)]
pub struct Pause {
    pub pointers: [Pointer; 8],
    pub registers: Registers,
    pub event: Event,
    pub count: u16,
}

// Instructions from the one after `from` completed ones on, up to the limit. The frame is the live one: it changes at a crossing only. The registers lie in locals of their own, so that each is kept in a register.
pub fn run_local(
    view: &View,
    words: &mut [u32],
    recent: &mut [u8; 160],
    from: u16,
    limit: u16,
    r: Registers,
    ps: [Pointer; 8],
) -> Pause
    ensures value { stop_of result ≡ (local_from view.now.layout.lengths view.now.layout.gates view.now.layout.rights view.now.layout.stacks view.now.bases view.now.depth view.now.frame (limit - from) from r ps words.old (registers_of recent.old)).stop }
    ensures words_after { words.new ≡ (local_from view.now.layout.lengths view.now.layout.gates view.now.layout.rights view.now.layout.stacks view.now.bases view.now.depth view.now.frame (limit - from) from r ps words.old (registers_of recent.old)).words }
    ensures recent_after { registers_of recent.new ≡ (local_from view.now.layout.lengths view.now.layout.gates view.now.layout.rights view.now.layout.stacks view.now.bases view.now.depth view.now.frame (limit - from) from r ps words.old (registers_of recent.old)).recent }
{
    let mut a = r.a;
    let mut word = r.word;
    let mut segment = r.segment;
    let mut domain = r.domain;
    let mut pointers = ps;
    let mut n = from;
    while n < limit {
        let t = run_cycle(
            view,
            words,
            recent,
            Registers {
                a,
                word,
                segment,
                domain,
            },
            pointers,
        );
        let event = t.event;
        match event {
            Event::Moved => {
                a = t.registers.a;
                word = t.registers.word;
                segment = t.registers.segment;
                domain = t.registers.domain;
                n += 1;
            }
            Event::Pointed(i, p) => {
                a = t.registers.a;
                word = t.registers.word;
                segment = t.registers.segment;
                domain = t.registers.domain;
                let pointed = with_pointer(pointers, i, p);
                pointers = pointed;
                n += 1;
            }
            other => {
                return Pause {
                    pointers,
                    registers: Registers {
                        a,
                        word,
                        segment,
                        domain,
                    },
                    event: other,
                    count: n,
                };
            }
        }
    }
    Pause {
        pointers,
        registers: Registers {
            a,
            word,
            segment,
            domain,
        },
        event: Event::Moved,
        count: n,
    }
}
