// Single registers in columns of sixteen bytes: recency, frame, segment, source, read, write, and word and length, low byte and high byte.
ghost use Rattle.std.specs.Prelude.{◌≡◌, ◌<◌, length, set};
ghost use Rattle.lent_registers.specs.Columns.{register_at};
ghost use Rattle.lent_registers.specs.Private.{put_at};

use state::record::{Capability, Register};

// Register i.
pub fn register_at(recent: &[u8; 160], i: usize) -> Register
    requires { i < 16 }
    ensures { result ≡ register_at recent.now i }
{
    let capability = Capability {
        word: u16::from_le_bytes([recent[96 + i], recent[112 + i]]),
        length: u16::from_le_bytes([recent[128 + i], recent[144 + i]]),
        segment: recent[32 + i],
        source: recent[48 + i],
        read: recent[64 + i] == 1,
        write: recent[80 + i] == 1,
    };
    Register {
        capability,
        frame: recent[16 + i],
        recency: recent[i],
    }
}

// Another number for register i.
pub fn renumber(recent: &mut [u8], i: usize, n: u8)
    requires { (i < 16) × (length recent.old ≡ 160) }
    ensures { recent.new ≡ set recent.old i n }
{
    recent[i] = n;
}

// Puts a register in place i.
pub fn put(recent: &mut [u8], i: usize, r: Register)
    requires { (i < 16) × (length recent.old ≡ 160) }
    ensures { recent.new ≡ put_at recent.old i r }
{
    let c = r.capability;
    let word = c.word.to_le_bytes();
    let length = c.length.to_le_bytes();
    recent[i] = r.recency;
    recent[16 + i] = r.frame;
    recent[32 + i] = c.segment;
    recent[48 + i] = c.source;
    recent[64 + i] = u8::from(c.read);
    recent[80 + i] = u8::from(c.write);
    recent[96 + i] = word[0];
    recent[112 + i] = word[1];
    recent[128 + i] = length[0];
    recent[144 + i] = length[1];
}
