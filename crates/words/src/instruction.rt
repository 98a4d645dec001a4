// Instruction words.
ghost use Rattle.std.specs.Prelude.{◌≡◌, ◌<◌};
ghost use Rattle.words.specs.Offset.{signed_of};
ghost use Rattle.words.specs.InstructionWord.{instruction_of};
ghost use Rattle.words.specs.Refusal.{answer_of};
ghost use Rattle.words.specs.Private.{HasMask};

use crate::bits::bits;
use crate::refusal::Refusal;

// An instruction taken apart. 8 bytes.
#[derive(Clone, Copy)]
pub struct Instruction {
    pub offset: i32,
    pub opcode: u8,
    pub register: u8,
    pub base: u8,
    pub indirect: bool,
}

// Twelve bits in two's complement.
fn signed(offset: u32) -> i32
    requires { offset < 4096 }
    ensures { result ≡ signed_of offset }
{
    ((offset + 2048) % 4096) as i32 - 2048
}

// The instruction that a word holds, given its opcode's mask: the bits that must be 0.
fn decode_under(word: u32, mask: u32) -> Result<Instruction, Refusal>
    requires { HasMask word mask }
    ensures { answer_of result ≡ instruction_of word }
{
    if word & mask != 0 {
        return Err(Refusal::BadInstruction);
    }
    Ok(Instruction {
        offset: signed(bits(word, 0, 12)),
        opcode: bits(word, 24, 8) as u8,
        register: bits(word, 16, 3) as u8,
        base: bits(word, 12, 3) as u8,
        indirect: bits(word, 15, 1) == 1,
    })
}

// The instruction that a word holds.
pub fn decode(word: u32) -> Result<Instruction, Refusal>
    ensures { answer_of result ≡ instruction_of word }
{
    let opcode = bits(word, 24, 8);
    match opcode {
        // HALT
        0 => decode_under(word, 0x00FFFFFF),
        // LOAD, STORE, ADD, SUB; JUMP, CALL, RET, JZ, JM
        1..=4 | 7..=11 => decode_under(word, 0x00FF0000),
        // EPP, SPP
        5 | 6 => decode_under(word, 0x00F80000),
        // LIT
        12 => decode_under(word, 0x00FFF000),
        _ => Err(Refusal::BadInstruction),
    }
}
