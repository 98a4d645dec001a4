// Why a call is refused or an instruction faults, each with its fixed number.
ghost use Rattle.std.specs.Prelude.{◌≡◌};
ghost use Rattle.words.specs.Refusal.{number};

#[derive(Clone, Copy, Debug, PartialEq, Eq)]
pub enum Refusal {
    // Of images, buffers and records.
    CutShort = 1,
    WrongKind = 2,
    WrongLength = 3,
    BadField = 4,
    TooManyWords = 5,
    BytesLeft = 6,
    MemoryTooShort = 7,
    OutputTooShort = 8,
    NotSound = 9,
    DeadGate = 10,
    // Of references and instructions.
    NoWord = 21,
    FlagMissing = 22,
    OutOfRange = 23,
    NoMatch = 24,
    SourceFails = 25,
    BadPointer = 26,
    BadInstruction = 27,
    TaggedTransfer = 28,
    NotGate = 29,
    BadArgument = 30,
    NoFreeFrame = 31,
    BadReturn = 32,
}

impl Refusal {
    // The number that a caller in C sees.
    pub fn number(self) -> u8
        ensures { result ≡ number self }
    {
        self as u8
    }
}
