// The loop that runs a machine.
ghost use Rattle.std.specs.Prelude.{◌≡◌, ◌≤◌};
ghost use Rattle.runs.specs.Run.{run_from, ran_answer};

use crate::outcome::{End, Outcome};
use crate::resume::{Resumption, renew_crossing, resume};
use lent_registers::columns::{gathered, spread};
use local_runs::run_local;
use references::view::View;
use state::bases::bases;
use state::frames::live_row;
use state::record::{Frame, Layout, Machine, Register, Registers};
use words::pointer::Pointer;

// The outcome of a run whose record lies in parts.
fn outcome(
    layout: Layout,
    registers: Registers,
    pointers: [Pointer; 8],
    frames: [Frame; 8],
    recent: [Register; 16],
    depth: u8,
    count: u16,
    end: End,
) -> Outcome
    ensures { result ≡ record { machine = record { layout = layout; registers = registers; pointers = pointers; frames = frames; recent = recent; depth = depth }; count = count; end = end } }
{
    let machine = Machine {
        layout,
        registers,
        pointers,
        frames,
        recent,
        depth,
    };
    Outcome {
        machine,
        count,
        end,
    }
}

// At most limit instructions; a stretch ends at its first crossing. The record lies in locals of its own, so that only a crossing copies parts of it.
pub fn run_on(m: Machine, words: &mut [u32], limit: u16, stretch: bool) -> Outcome
    requires { m.depth ≤ 8 }
    ensures { ran_answer result words.new ≡ run_from stretch limit 0 m words.old }
{
    let mut frames = m.frames;
    let mut view = View {
        layout: m.layout,
        bases: bases(&m.layout.lengths),
        frame: frames[0],
        depth: m.depth,
    };
    let mut registers = m.registers;
    let mut pointers = m.pointers;
    let mut recent = spread(m.recent);
    let mut n = 0u16;
    loop {
        view.frame = frames[live_row(view.depth)];
        let t = run_local(&view, words, &mut recent, n, limit, registers, pointers);
        match resume(
            &view,
            words,
            &recent,
            t.registers,
            t.pointers,
            t.count,
            t.event,
        ) {
            Resumption::Ends(r, ps, count, end) => {
                let kept = gathered(&recent);
                return outcome(view.layout, r, ps, frames, kept, view.depth, count, end);
            }
            Resumption::Goes(count, row, depth, changes) => {
                renew_crossing(&mut recent, &view, t.pointers, changes.frame, t.event);
                frames[row as usize] = changes.frame;
                view.depth = depth;
                registers = changes.registers;
                pointers = changes.pointers;
                n = count;
            }
        }
        if stretch {
            let kept = gathered(&recent);
            return outcome(
                view.layout,
                registers,
                pointers,
                frames,
                kept,
                view.depth,
                n,
                End::Crossed,
            );
        }
    }
}
