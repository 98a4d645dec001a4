// The static check: the segment and word exist, then the domain has the flag.
ghost use Rattle.std.specs.Prelude.{◌≡◌};
ghost use Rattle.words.specs.Refusal.{status};
ghost use Rattle.references.specs.Static.{static_of};

use crate::flag::{Flag, allows};
use state::record::Layout;
use words::refusal::Refusal;

// Whether a domain may refer to a word with a flag: NoWord where there is no such segment or word, FlagMissing where the flag is missing.
pub fn static_check(
    layout: &Layout,
    domain: u8,
    flag: Flag,
    segment: u8,
    word: u16,
) -> Result<(), Refusal>
    ensures { status result ≡ static_of layout.now.lengths layout.now.rights domain flag segment word }
{
    if 16 <= segment {
        return Err(Refusal::NoWord);
    }
    let i = segment as usize;
    if layout.lengths[i] <= word {
        return Err(Refusal::NoWord);
    }
    if 8 <= domain {
        return Err(Refusal::FlagMissing);
    }
    let k = domain as usize * 16 + i;
    if allows(layout.rights[k], flag) {
        Ok(())
    } else {
        Err(Refusal::FlagMissing)
    }
}
