// The numbers that results are in C.
ghost use Rattle.std.specs.Prelude.{◌≡◌, ◌<◌, ℕ};
ghost use Rattle.words.specs.Answer.{ok};
ghost use Rattle.words.specs.Refusal.{answer_of, status};
ghost use Rattle.held_runs.specs.Opened.{code_of};

use words::refusal::Refusal;

// 0, or the number of the refusal.
pub fn status(r: Result<(), Refusal>) -> u8
    ensures { result ≡ status r }
{
    match r {
        Ok(()) => 0,
        Err(refusal) => refusal.number(),
    }
}

// The value, or 0x10000 plus the number of the refusal.
pub fn code(r: Result<usize, Refusal>) -> u32
    requires { (n : ℕ) → answer_of r ≡ ok n → n < 0x100000000 }
    ensures { result ≡ code_of (answer_of r) }
{
    match r {
        Ok(n) => n as u32,
        Err(refusal) => 0x10000 + refusal.number() as u32,
    }
}
