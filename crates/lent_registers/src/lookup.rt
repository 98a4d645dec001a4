// The lookup of a match in the registers.
ghost use Rattle.std.specs.Prelude.{◌≡◌, not, ◌<◌, IfSome};
ghost use Rattle.capabilities.specs.Search.{covers_of};
ghost use Rattle.recent.specs.Found.{holds, held_of};
ghost use Rattle.lent_registers.specs.Columns.{register_at, registers_of};
ghost use Rattle.lent_registers.specs.Lent.{held_answer};

use crate::cells::register_at;
use capabilities::covers;

// Whether register i holds a capability of the live frame that covers the word with the flag asked.
fn is_held(recent: &[u8; 160], i: usize, depth: u8, segment: u8, word: u16, read: bool) -> bool
    requires { i < 16 }
    ensures { result ≡ holds depth (covers_of segment word 1 read (not read)) (register_at recent.now i) }
{
    if recent[16 + i] != depth {
        return false;
    }
    let r = register_at(recent, i);
    covers(r.capability, segment, word, 1, read, !read)
}

// The place of the lowest register that holds a match.
pub fn held(recent: &[u8; 160], depth: u8, segment: u8, word: u16, read: bool) -> Option<usize>
    ensures result_value { held_answer recent.now result ≡ held_of depth (covers_of segment word 1 read (not read)) (registers_of recent.now) }
    ensures upper_bound { IfSome result (λ i. i < 16) }
{
    for i in 0..16 {
        if is_held(recent, i, depth, segment, word, read) {
            return Some(i);
        }
    }
    None
}
