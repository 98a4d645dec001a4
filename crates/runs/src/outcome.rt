// What a run answers.
ghost use Rattle.std.specs.Prelude.{◌≡◌, ℕ};
ghost use Rattle.words.specs.Refusal.{number};

use state::record::Machine;
use words::refusal::Refusal;

// What tells why a run ended, by its number: a refusal, or any byte.
pub trait Reason: Copy {
    ghost number: { Self → ℕ };

    fn number(self) -> u8
        ensures { result ≡ number self };
}

impl Reason for Refusal {
    ghost number = { number };

    fn number(self) -> u8 {
        self.number()
    }
}

impl Reason for u8 {
    ghost number = { λ n. n };

    fn number(self) -> u8 {
        self
    }
}

// How a run ends, with the reason, which is a refusal in every answer. Only a stretch ends as crossed; a refused call runs nothing.
#[derive(Clone, Copy, PartialEq, Eq)]
pub enum End<N = Refusal> {
    Halted,
    Faulted(N),
    Spent,
    Crossed,
    Refused(N),
}

#[derive(Clone, Copy)]
pub struct Outcome {
    pub machine: Machine,
    pub count: u16,
    pub end: End,
}
