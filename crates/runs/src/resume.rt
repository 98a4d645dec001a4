// What a run comes to after a local run: it ends, or it goes on from a crossing.
ghost use Rattle.std.specs.Prelude.{◌≡◌, ◌<◌, ◌≤◌};
ghost use Rattle.instructions.specs.Stages.{stage_of};
ghost use Rattle.lent_registers.specs.Columns.{registers_of};
ghost use Rattle.crossings.specs.Parts.{crossed_answer};
ghost use Rattle.runs.specs.Private.{resume_answer, resume_after, resume_of, crossed_recent, Countable};

use crate::outcome::End;
use crate::renewal::{renew_call, renew_return};
use crossings::crossing::{Crossed, enter, leave};
use instructions::cycle::Event;
use pointer_registers::pointer_at;
use references::view::View;
use state::record::{Frame, Registers};
use words::pointer::Pointer;
use words::refusal::Refusal;

#[derive(Clone, Copy)]
pub enum Resumption {
    // with these registers and pointers, after so many instructions
    Ends(Registers, [Pointer; 8], u16, End),
    // after so many instructions, with the row of the crossing's frame, the frames in use after it, and what it changes
    Goes(u16, u8, u8, Crossed),
}

// A crossing that was made or refused after n instructions.
fn resume_crossed(
    crossing: Result<Crossed, Refusal>,
    r: Registers,
    pointers: [Pointer; 8],
    n: u16,
    row: u8,
    depth: u8,
) -> Resumption
    requires { n < 65535 }
    ensures { resume_answer result ≡ resume_after r pointers n row depth (crossed_answer crossing) }
{
    match crossing {
        Err(refusal) => Resumption::Ends(r, pointers, n, End::Faulted(refusal)),
        Ok(changes) => Resumption::Goes(n + 1, row, depth, changes),
    }
}

// What a run resumes as after n instructions and a local run that pauses at an event.
pub fn resume(
    view: &View,
    words: &[u32],
    recent: &[u8; 160],
    r: Registers,
    pointers: [Pointer; 8],
    n: u16,
    event: Event,
) -> Resumption
    requires countable { Countable n (stage_of event) }
    requires depth_bound { view.now.depth ≤ 8 }
    ensures { resume_answer result ≡ resume_of view.now.layout.lengths view.now.layout.rights view.now.bases view.now.layout.gatedomains view.now.layout.stacks words.now (registers_of recent.now) view.now.depth view.now.frame r pointers n (stage_of event) }
{
    match event {
        Event::Entering(p) => {
            let crossing = enter(view, words, recent, r, pointers, p);
            resume_crossed(crossing, r, pointers, n, view.depth, view.depth + 1)
        }
        Event::Leaving(p, _) => {
            let crossing = leave(view, r, pointers, p);
            let less = view.depth.saturating_sub(1);
            resume_crossed(crossing, r, pointers, n, less, less)
        }
        Event::Moved => Resumption::Ends(r, pointers, n, End::Spent),
        Event::Pointed(_, _) => Resumption::Ends(r, pointers, n, End::Spent),
        Event::Halted => Resumption::Ends(r, pointers, n + 1, End::Halted),
        Event::Faulted(refusal) => Resumption::Ends(r, pointers, n, End::Faulted(refusal)),
    }
}

// What the crossing at an event makes of the registers; made is the frame that a call made.
pub fn renew_crossing(
    recent: &mut [u8; 160],
    view: &View,
    pointers: [Pointer; 8],
    made: Frame,
    event: Event,
)
    requires { view.now.depth ≤ 8 }
    ensures { registers_of recent.new ≡ crossed_recent (registers_of recent.old) view.now.depth view.now.frame pointers made (stage_of event) }
{
    match event {
        Event::Entering(p) => {
            renew_call(recent, view, pointer_at(pointers, 0), made);
        }
        Event::Leaving(p, q) => {
            renew_return(recent, view, q);
        }
        Event::Moved => {}
        Event::Pointed(i, p) => {}
        Event::Halted => {}
        Event::Faulted(refusal) => {}
    }
}
