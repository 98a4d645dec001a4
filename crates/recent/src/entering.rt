// Which capabilities of a frame may be entered in a register.
ghost use Rattle.std.specs.Prelude.{◌≡◌, take};
ghost use Rattle.recent.specs.Entering.{shares, yields, all_yield, may_enter};

use state::record::Capability;

// Two capabilities have a word in common.
fn share(c: Capability, d: Capability) -> bool
    ensures { result ≡ shares c d }
{
    c.segment == d.segment
        && u32::from(c.word) < u32::from(d.word) + u32::from(d.length)
        && u32::from(d.word) < u32::from(c.word) + u32::from(c.length)
}

// An earlier capability does not keep a later one out.
fn is_yielding(earlier: Capability, c: Capability) -> bool
    ensures { result ≡ yields earlier c }
{
    earlier.source == c.source || !share(earlier, c)
}

// None of the first n of a frame's rows keeps c out.
pub fn all_yield(capabilities: [Capability; 9], n: u8, c: Capability) -> bool
    ensures { result ≡ all_yield (take n capabilities) c }
{
    capabilities
        .iter()
        .take(usize::from(n))
        .all(|x| is_yielding(*x, c))
}

// A frame with these count capabilities has c, and c may be entered.
pub fn may_enter(capabilities: [Capability; 9], count: u8, c: Capability) -> bool
    ensures { result ≡ may_enter (take count capabilities) c }
{
    for &x in capabilities.iter().take(usize::from(count)) {
        if x == c {
            return true;
        }
        if !is_yielding(x, c) {
            return false;
        }
    }
    false
}
