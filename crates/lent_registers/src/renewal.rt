// What references, calls and returns make of the registers.
ghost use Rattle.std.specs.Prelude.{◌≡◌, not, ◌<◌, ◌≤◌, ◌-◌, length, get_or, ltb};
ghost use Rattle.state.specs.Record.{no_capability};
ghost use Rattle.capabilities.specs.Search.{covers_of};
ghost use Rattle.recent.specs.Entering.{capabilities_of};
ghost use Rattle.recent.specs.Found.{registers_after, searched, referred_to};
ghost use Rattle.words.specs.Bit.{bit};
ghost use Rattle.recent.specs.Registers.{risen, touched, with_entry, order_of, before, cleared, listed};
ghost use Rattle.lent_registers.specs.Columns.{register_at, registers_of};
ghost use Rattle.lent_registers.specs.Private.{entered_at, Ranks, cleared_at};

use crate::cells::{put, renumber};
use crate::lookup::held;
use recent::entering::{all_yield, may_enter};
use slice_search::search;
use state::record::{Capability, Frame, Register};

// A number after the match whose number was old.
fn number_risen(old: u8, n: u8) -> u8
    ensures { result ≡ risen old n }
{
    if n == old {
        return 15;
    }
    if old < n {
        return n - 1;
    }
    n
}

// A match whose number was old gets 15, and every number above falls by one.
fn touch(recent: &mut [u8], old: u8)
    requires { length recent.old ≡ 160 }
    ensures { registers_of recent.new ≡ touched old (registers_of recent.old) }
{
    if old == 15 {
        return;
    }
    for i in 0..16 {
        let n = recent[i];
        renumber(recent, i, number_risen(old, n));
    }
}

// The entry in place i if the number there is 0, else one less.
fn enter_one(recent: &mut [u8], i: usize, entry: Register)
    requires { (i < 16) × (length recent.old ≡ 160) }
    ensures { recent.new ≡ entered_at recent.old i entry }
{
    let n = recent[i];
    if n == 0 {
        put(recent, i, entry);
    } else {
        renumber(recent, i, n - 1);
    }
}

// A new entry replaces the register at 0 and gets 15, and all others fall by one.
fn enter(recent: &mut [u8], c: Capability, frame: u8)
    requires { length recent.old ≡ 160 }
    ensures { registers_of recent.new ≡ with_entry c frame (registers_of recent.old) }
{
    let entry = Register {
        capability: c,
        frame,
        recency: 15,
    };
    for i in 0..16 {
        enter_one(recent, i, entry);
    }
}

// The place of register i in the order after a return from a frame.
fn order(recent: &[u8; 160], i: usize, frame: u8) -> u16
    requires { i < 16 }
    ensures { result ≡ order_of frame (register_at recent.now i) }
{
    let recent = recent.as_slice();
    let n = u16::from(recent[i]);
    if recent[16 + i] == frame { n } else { n + 16 }
}

// 1 where register i comes before a place of that order, else 0.
fn counted(recent: &[u8; 160], i: usize, frame: u8, place: u16) -> u8
    requires { i < 16 }
    ensures { (result ≡ bit (ltb (order_of frame (register_at recent.now i)) place)) × (result ≤ 1) }
{
    u8::from(order(recent, i, frame) < place)
}

// How many registers come before a place of that order.
fn rank(recent: &[u8; 160], frame: u8, place: u16) -> u8
    ensures { result ≡ before frame place (registers_of recent.now) }
{
    let mut n = 0u8;
    for i in 0..16 {
        n += counted(recent, i, frame, place);
    }
    n
}

// The numbers of all registers after a return from a frame.
fn ranks(recent: &[u8; 160], frame: u8) -> [u8; 16]
    ensures { Ranks frame recent.now result }
{
    let mut numbers = [0u8; 16];
    for i in 0..16 {
        let place = order(recent, i, frame);
        numbers[i] = rank(recent, frame, place);
    }
    numbers
}

// Empties register i if it is of the frame, and gives it another number.
fn clear_one(recent: &mut [u8], i: usize, frame: u8, n: u8)
    requires { (i < 16) × (length recent.old ≡ 160) }
    ensures { recent.new ≡ cleared_at recent.old i frame n }
{
    if recent[16 + i] == frame {
        let empty = Register {
            capability: Capability::NONE,
            frame: 0,
            recency: n,
        };
        put(recent, i, empty);
    } else {
        renumber(recent, i, n);
    }
}

// All registers with these numbers, those of the frame emptied.
fn clear_all(recent: &mut [u8], frame: u8, numbers: [u8; 16])
    requires { (length recent.old ≡ 160) × Ranks frame recent.old numbers }
    ensures { registers_of recent.new ≡ cleared frame (registers_of recent.old) }
{
    for i in 0..16 {
        clear_one(recent, i, frame, numbers[i]);
    }
}

// A return from a frame: its registers become empty and the next replaced, and the others follow, each in their old order.
pub fn clear(recent: &mut [u8; 160], frame: u8)
    ensures { registers_of recent.new ≡ cleared frame (registers_of recent.old) }
{
    let numbers = ranks(recent, frame);
    clear_all(recent, frame, numbers);
}

// The full search of the live frame: its first match is entered if it may be.
fn search_frame(recent: &mut [u8], depth: u8, frame: Frame, segment: u8, word: u16, read: bool)
    requires { length recent.old ≡ 160 }
    ensures { registers_of recent.new ≡ registers_after (registers_of recent.old) (searched depth (covers_of segment word 1 read (not read)) (capabilities_of frame) (registers_of recent.old)) }
{
    let capabilities = frame.capabilities;
    if let Some(c) = search(capabilities, frame.count, segment, word, 1, read, !read) {
        if may_enter(capabilities, frame.count, c) {
            enter(recent, c, depth);
        }
    }
}

// A live reference to a word: a registered match rises, else the full search's match is entered if it may be.
pub fn refer(recent: &mut [u8; 160], depth: u8, frame: Frame, segment: u8, word: u16, read: bool)
    ensures { registers_of recent.new ≡ referred_to (registers_of recent.old) depth frame segment word read }
{
    if depth == 0 {
        return;
    }
    if let Some(i) = held(recent, depth, segment, word, read) {
        let old = recent[i];
        touch(recent, old);
    } else {
        search_frame(recent, depth, frame, segment, word, read);
    }
}

// Row n of a frame; past the ninth, nothing.
fn row(capabilities: [Capability; 9], n: u8) -> Capability
    ensures { result ≡ get_or capabilities n no_capability }
{
    capabilities
        .get(usize::from(n))
        .copied()
        .unwrap_or(Capability::NONE)
}

// A call that made a frame: its last capability, that of the list, is entered if none of the rows before keeps it out.
pub fn enter_list(recent: &mut [u8; 160], depth: u8, frame: Frame)
    ensures { registers_of recent.new ≡ listed depth frame (registers_of recent.old) }
{
    let capabilities = frame.capabilities;
    let last = frame.count.saturating_sub(1);
    let c = row(capabilities, last);
    if all_yield(capabilities, last, c) {
        enter(recent, c, depth);
    }
}
