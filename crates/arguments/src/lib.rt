// The argument list of a call through a gate, and the frame made of it.

#![tactic(auto)]

ghost use Rattle.std.specs.Prelude.{◌≡◌, ◌≤◌, replicate, set};
ghost use Rattle.words.specs.Refusal.{answer_of};
ghost use Rattle.state.specs.Record.{no_capability};
ghost use Rattle.lent_registers.specs.Columns.{registers_of};
ghost use Rattle.memory.specs.Reader.{read_of};
ghost use Rattle.arguments.specs.ArgumentList.{list_word, source_of, capability_on, capability_of, argument_of, arguments_from, list_mode, filled_of, frame_after, frame_of};

use memory::read;
use references::live::pass_on;
use references::view::View;
use state::record::{Capability, Frame};
use words::mode::Mode;
use words::offset::climb;
use words::pointer::Pointer;
use words::refusal::Refusal;

// Word k of the list at pointer a.
fn list_word(
    view: &View,
    words: &[u32],
    domain: u8,
    recent: &[u8; 160],
    a: Pointer,
    k: u16,
) -> Result<u32, Refusal>
    ensures { answer_of result ≡ list_word (read_of view.now.layout.lengths view.now.layout.rights view.now.bases words.now domain (registers_of recent.now) view.now.depth view.now.frame) a k }
{
    let p = Pointer {
        word: climb(a.word, k)?,
        segment: a.segment,
        tag: a.tag,
    };
    read(view, words, domain, recent, p)
}

// An untagged argument's source is the caller; a tagged one's is passed on. The list itself counts as an argument, at a.
fn source(view: &View, caller: u8, p: Pointer, m: Mode) -> Result<u8, Refusal>
    ensures { answer_of result ≡ source_of caller view.now.depth view.now.frame p m }
{
    if p.tag {
        pass_on(view, p.segment, p.word, m.length, m.read, m.write)
    } else {
        Ok(caller)
    }
}

// The capability on the words that a pointer and a mode name.
fn capability_on(p: Pointer, m: Mode, source: u8) -> Capability
    ensures { result ≡ capability_on p m source }
{
    Capability {
        word: p.word,
        length: m.length,
        segment: p.segment,
        source,
        read: m.read,
        write: m.write,
    }
}

// An argument's capability, of its pointer and its mode word.
fn capability(view: &View, caller: u8, p: Pointer, mode: u32) -> Result<Capability, Refusal>
    ensures { answer_of result ≡ capability_of caller view.now.depth view.now.frame p mode }
{
    let m = words::mode::unpack(mode, p.word)?;
    let source = source(view, caller, p, m)?;
    Ok(capability_on(p, m, source))
}

// Argument i of the list.
fn argument(
    view: &View,
    words: &[u32],
    domain: u8,
    recent: &[u8; 160],
    a: Pointer,
    i: u8,
) -> Result<Capability, Refusal>
    ensures { answer_of result ≡ argument_of (read_of view.now.layout.lengths view.now.layout.rights view.now.bases words.now domain (registers_of recent.now) view.now.depth view.now.frame) a domain view.now.depth view.now.frame i }
{
    let at = 3 + 2 * (i as u16);
    let w = list_word(view, words, domain, recent, a, at)?;
    let p = words::pointer::unpack(w)?;
    let v = list_word(view, words, domain, recent, a, at + 1)?;
    capability(view, domain, p, v)
}

// The rows with c in row k. Constant indexes, so that the rows lie in registers.
fn with_row(rows: [Capability; 9], k: u8, c: Capability) -> [Capability; 9]
    requires { k ≤ 8 }
    ensures { result ≡ set rows k c }
{
    let mut next = rows;
    match k {
        0 => next[0] = c,
        1 => next[1] = c,
        2 => next[2] = c,
        3 => next[3] = c,
        4 => next[4] = c,
        5 => next[5] = c,
        6 => next[6] = c,
        7 => next[7] = c,
        _ => next[8] = c,
    }
    next
}

// The n arguments of the list, in its order, in rows that are empty otherwise.
fn arguments(
    view: &View,
    words: &[u32],
    domain: u8,
    recent: &[u8; 160],
    a: Pointer,
    n: u8,
) -> Result<[Capability; 9], Refusal>
    requires { n ≤ 8 }
    ensures { answer_of result ≡ arguments_from (read_of view.now.layout.lengths view.now.layout.rights view.now.bases words.now domain (registers_of recent.now) view.now.depth view.now.frame) a domain view.now.depth view.now.frame n 0 (replicate 9 no_capability) }
{
    let mut rows = [Capability::NONE; 9];
    for i in 0..n {
        let c = argument(view, words, domain, recent, a, i)?;
        let more = with_row(rows, i, c);
        rows = more;
    }
    Ok(rows)
}

// The list as an argument: its whole 3 + 2n words, to read.
fn list_mode(n: u8) -> Mode
    requires { n ≤ 8 }
    ensures { result ≡ list_mode n }
{
    Mode {
        length: 3 + 2 * (n as u16),
        read: true,
        write: false,
    }
}

// The frame with the rows of n arguments, and last the capability for the list itself.
fn filled(
    rows: [Capability; 9],
    list: Capability,
    s: Pointer,
    back: Pointer,
    caller: u8,
    n: u8,
) -> Frame
    requires { n ≤ 8 }
    ensures { result ≡ filled_of rows list s back caller n }
{
    Frame {
        capabilities: with_row(rows, n, list),
        s,
        back,
        count: n + 1,
        domain: caller,
    }
}

// The frame of a call with n arguments, from the return location on, with the list's capability.
fn frame_after(
    view: &View,
    words: &[u32],
    domain: u8,
    recent: &[u8; 160],
    a: Pointer,
    s: Pointer,
    list: Capability,
    n: u8,
) -> Result<Frame, Refusal>
    requires { n ≤ 8 }
    ensures { answer_of result ≡ frame_after (read_of view.now.layout.lengths view.now.layout.rights view.now.bases words.now domain (registers_of recent.now) view.now.depth view.now.frame) a s domain view.now.depth view.now.frame list n }
{
    let w = list_word(view, words, domain, recent, a, 1)?;
    let back = words::pointer::unpack(w)?;
    if back.tag {
        return Err(Refusal::BadArgument);
    }
    climb(a.word, 2)?;
    let rows = arguments(view, words, domain, recent, a, n)?;
    Ok(filled(rows, list, s, back, domain, n))
}

// The frame of a call through a gate, made of the argument list at a.
pub fn make_frame(
    view: &View,
    words: &[u32],
    domain: u8,
    recent: &[u8; 160],
    a: Pointer,
    s: Pointer,
) -> Result<Frame, Refusal>
    ensures { answer_of result ≡ frame_of (read_of view.now.layout.lengths view.now.layout.rights view.now.bases words.now domain (registers_of recent.now) view.now.depth view.now.frame) a s domain view.now.depth view.now.frame }
{
    let w = list_word(view, words, domain, recent, a, 0)?;
    if 8 < w {
        return Err(Refusal::BadArgument);
    }
    let n = w as u8;
    let mode = list_mode(n);
    let source = source(view, domain, a, mode)?;
    let list = capability_on(a, mode, source);
    frame_after(view, words, domain, recent, a, s, list, n)
}
