// The eight pointer registers.

#![tactic(auto)]

ghost use Rattle.std.specs.Prelude.{◌≡◌, get_or, set};
ghost use Rattle.state.specs.Record.{no_pointer};
ghost use Rattle.pointer_registers.specs.Stack.{stack_of, with_base};

use words::pointer::Pointer;

// Register k; a register that does not exist holds nothing. Constant indexes, so that the registers need not be copied.
pub fn pointer_at(pointers: [Pointer; 8], k: u8) -> Pointer
    ensures { result ≡ get_or pointers k no_pointer }
{
    if 8 <= k {
        return Pointer::NOWHERE;
    }
    match k {
        0 => pointers[0],
        1 => pointers[1],
        2 => pointers[2],
        3 => pointers[3],
        4 => pointers[4],
        5 => pointers[5],
        6 => pointers[6],
        _ => pointers[7],
    }
}

// The registers with p in register k.
pub fn with_pointer(pointers: [Pointer; 8], k: u8, p: Pointer) -> [Pointer; 8]
    ensures { result ≡ set pointers k p }
{
    let mut next = pointers;
    if 8 <= k {
        return next;
    }
    match k {
        0 => next[0] = p,
        1 => next[1] = p,
        2 => next[2] = p,
        3 => next[3] = p,
        4 => next[4] = p,
        5 => next[5] = p,
        6 => next[6] = p,
        _ => next[7] = p,
    }
    next
}

// The stack segment of a domain; 0 past the eighth.
pub fn stack_of(stacks: &[u8; 8], domain: u8) -> u8
    ensures { result ≡ stack_of stacks.now domain }
{
    if 8 <= domain {
        return 0;
    }
    let i = domain as usize;
    stacks[i]
}

// The registers with b at word 0 of a stack segment.
pub fn with_base(pointers: [Pointer; 8], stack: u8) -> [Pointer; 8]
    ensures { result ≡ with_base pointers stack }
{
    let b = Pointer {
        word: 0,
        segment: stack,
        tag: false,
    };
    with_pointer(pointers, 2, b)
}
