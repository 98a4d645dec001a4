// What the executing domain may see and could write.

#![tactic(auto)]

ghost use Rattle.std.specs.Prelude.{◌≡◌};
ghost use Rattle.isolation.specs.Visible.{by_static, by_live, may_see, could_write};

use references::flag::{Access, Flag, asked, is_read};
use references::live::pass_on;
use references::statics::static_check;
use references::view::View;
use state::bases::bases;
use state::frames::{in_use, live_frame};
use state::record::Machine;

// Whether the executing domain passes the static check.
fn by_static(m: Machine, flag: Flag, segment: u8, word: u16) -> bool
    ensures { result ≡ by_static m flag segment word }
{
    let domain = m.registers.domain;
    static_check(&m.layout, domain, flag, segment, word).is_ok()
}

// Whether the live frame passes the live check, with no registers.
fn by_live(m: Machine, access: Access, segment: u8, word: u16) -> bool
    ensures { result ≡ by_live m access segment word }
{
    let view = View {
        layout: m.layout,
        bases: bases(&m.layout.lengths),
        frame: live_frame(m.frames, m.depth),
        depth: in_use(m.depth),
    };
    let read = is_read(access);
    match pass_on(&view, segment, word, 1, read, !read) {
        Err(_) => false,
        Ok(source) => static_check(&m.layout, source, asked(access), segment, word).is_ok(),
    }
}

// Whether the executing domain may execute a word, or read it by either check.
#[tactic(auto, unfolding(crate::specs::Visible::may_see))]
pub fn may_see(m: Machine, segment: u8, word: u16) -> bool
    ensures { result ≡ may_see m segment word }
{
    by_static(m, Flag::Execute, segment, word)
        || by_static(m, Flag::Read, segment, word)
        || by_live(m, Access::Read, segment, word)
}

// Whether the executing domain could write a word: either check passes W.
#[tactic(auto, unfolding(crate::specs::Visible::could_write))]
pub fn could_write(m: Machine, segment: u8, word: u16) -> bool
    ensures { result ≡ could_write m segment word }
{
    by_static(m, Flag::Write, segment, word) || by_live(m, Access::Write, segment, word)
}
