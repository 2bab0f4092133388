// Why a linear file is not written.
ghost use Rattle.std.specs.Prelude.{◌≡◌};
ghost use Rattle.linear_write.specs.Laid.{write_number};

#[derive(Clone, Copy, PartialEq, Eq, Debug)]
pub enum WriteFault {
    // the output buffer is too short
    Short,
}

impl WriteFault {
    // The refusal's number.
    pub fn number(self) -> u16
        ensures answer { result ≡ write_number self }
    {
        match self {
            WriteFault::Short => 16,
        }
    }
}
