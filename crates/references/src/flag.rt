// Rights flags, and the two of them that a reference asks.
ghost use Rattle.std.specs.Prelude.{◌≡◌};
ghost use Rattle.references.specs.Flag.{has, flag_of, is_read};

#[derive(Clone, Copy)]
pub enum Flag {
    Read,
    Write,
    Execute,
    Gate,
}

#[derive(Clone, Copy)]
pub enum Access {
    Read,
    Write,
}

// Whether a rights byte has a flag.
pub fn allows(rights: u8, flag: Flag) -> bool
    ensures { result ≡ has rights flag }
{
    match flag {
        Flag::Read => rights % 2 == 1,
        Flag::Write => rights / 2 % 2 == 1,
        Flag::Execute => rights / 4 % 2 == 1,
        Flag::Gate => rights / 8 % 2 == 1,
    }
}

// The flag that an access asks.
pub fn asked(access: Access) -> Flag
    ensures { result ≡ flag_of access }
{
    match access {
        Access::Read => Flag::Read,
        Access::Write => Flag::Write,
    }
}

// Whether an access reads.
pub fn is_read(access: Access) -> bool
    ensures { result ≡ is_read access }
{
    match access {
        Access::Read => true,
        Access::Write => false,
    }
}
