// The checks of JUMP, and of CALL up to the argument list.

#![tactic(auto)]

ghost use Rattle.std.specs.Prelude.{◌≡◌};
ghost use Rattle.words.specs.Refusal.{status};
ghost use Rattle.transfers.specs.Transfer.{jump_check, call_way, call_answer};

use references::flag::Flag;
use references::statics::static_check;
use state::record::Layout;
use state::rows::of_segment;
use words::pointer::Pointer;
use words::refusal::Refusal;

// A call inside the domain, or one through a gate.
#[derive(Clone, Copy, PartialEq, Eq)]
pub enum Way {
    Inside,
    Gate,
}

// Whether a domain may jump to a pointer.
pub fn jump_check(layout: &Layout, domain: u8, p: Pointer) -> Result<(), Refusal>
    ensures { status result ≡ jump_check layout.now.lengths layout.now.rights domain p }
{
    if p.tag {
        Err(Refusal::TaggedTransfer)
    } else {
        static_check(layout, domain, Flag::Execute, p.segment, p.word)
    }
}

// The way of a call to a pointer, with so many frames in use.
pub fn call_way(layout: &Layout, domain: u8, depth: u8, p: Pointer) -> Result<Way, Refusal>
    ensures { call_answer result ≡ call_way layout.now.lengths layout.now.gates layout.now.rights domain depth p }
{
    if p.tag {
        return Err(Refusal::TaggedTransfer);
    }
    if static_check(layout, domain, Flag::Execute, p.segment, p.word).is_ok() {
        return Ok(Way::Inside);
    }
    static_check(layout, domain, Flag::Gate, p.segment, p.word)?;
    if of_segment(&layout.gates, p.segment) <= p.word {
        return Err(Refusal::NotGate);
    }
    if 8 <= depth {
        return Err(Refusal::NoFreeFrame);
    }
    Ok(Way::Gate)
}
