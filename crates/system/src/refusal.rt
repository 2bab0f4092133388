// Why a question or a call is refused.
ghost use Rattle.std.specs.Prelude.{◌≡◌};
ghost use Rattle.system.specs.Refusals.{refusal_number};

use std::error::Error;

#[derive(Clone, Copy, PartialEq, Eq, Debug)]
pub enum Refusal {
    OutsideSet = 10,
    NoMove = 11,
    NoOutcome = 12,
    WrongBuffer = 13,
    TrailFull = 14,
    TrailEmpty = 15,
    TooManyStates = 17,
}

impl Error for Refusal {}

impl Refusal {
    pub fn number(self) -> u16
        ensures answer { result ≡ refusal_number self }
    {
        self as u16
    }
}
