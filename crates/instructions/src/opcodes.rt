// Classes of opcodes.
ghost use Rattle.std.specs.Prelude.{◌≡◌};
ghost use Rattle.instructions.specs.Instruction.{is_load, is_store};

// The opcodes that read into A, and those that store.
pub fn is_load(opcode: u8) -> bool
    ensures { result ≡ is_load opcode }
{
    if opcode == 1 {
        return true;
    }
    if opcode == 3 {
        return true;
    }
    opcode == 4
}

pub fn is_store(opcode: u8) -> bool
    ensures { result ≡ is_store opcode }
{
    if opcode == 2 {
        return true;
    }
    opcode == 6
}
