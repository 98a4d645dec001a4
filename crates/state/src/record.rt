// The machine record. The fields of each struct stand so that there is no padding but at the end of Machine.
use words::pointer::Pointer;

// Where a fresh machine starts. 4 bytes.
#[derive(Clone, Copy)]
pub struct Start {
    pub word: u16,
    pub segment: u8,
    pub domain: u8,
}

// What an image fixes; no run changes it. Rows past the counts of segments and domains are zero. 222 bytes.
#[derive(Clone, Copy)]
pub struct Layout {
    // for each segment: its words, its gates (word numbers below are gates), the domain they lead into
    pub lengths: [u16; 16],
    pub gates: [u16; 16],
    pub start: Start,
    pub gatedomains: [u8; 16],
    // for each domain: its stack segment, and at 16 * domain + segment its rights
    pub stacks: [u8; 8],
    pub rights: [u8; 128],
    pub segments: u8,
    pub domains: u8,
}

// An argument's words, the flags given on them, and the domain whose static rights stand behind them. 8 bytes.
#[derive(Clone, Copy, PartialEq, Eq)]
pub struct Capability {
    pub word: u16,
    pub length: u16,
    pub segment: u8,
    pub source: u8,
    pub read: bool,
    pub write: bool,
}

impl Capability {
    // What an unused row holds.
    pub const NONE: Capability = Capability {
        word: 0,
        length: 0,
        segment: 0,
        source: 0,
        read: false,
        write: false,
    };
}

// A call through a gate (a dynamic access stack frame): its capabilities, register s and the return location, and the calling domain. 82 bytes.
#[derive(Clone, Copy)]
pub struct Frame {
    pub capabilities: [Capability; 9],
    pub s: Pointer,
    pub back: Pointer,
    pub count: u8,
    pub domain: u8,
}

// A, the location and the executing domain. 8 bytes.
#[derive(Clone, Copy)]
pub struct Registers {
    pub a: u32,
    pub word: u16,
    pub segment: u8,
    pub domain: u8,
}

// A capability that was used lately, its frame's number (that many frames are in use while it is the live one; 0 where the register is empty), and how lately: 15 is last. 10 bytes.
#[derive(Clone, Copy)]
pub struct Register {
    pub capability: Capability,
    pub frame: u8,
    pub recency: u8,
}

// The frames in use are the first depth ones; the newest is the live frame. 1,080 bytes.
#[derive(Clone, Copy)]
pub struct Machine {
    pub layout: Layout,
    pub registers: Registers,
    pub pointers: [Pointer; 8],
    pub frames: [Frame; 8],
    pub recent: [Register; 16],
    pub depth: u8,
}
