// Why a linear file is refused, and where.
ghost use Rattle.std.specs.Prelude.{◌≡◌};
ghost use Rattle.linear.specs.Faults.{number_of, group_of, summand_of, place_of, linear_fault};

use words::HeaderFault;

// The parts of a linear file, by their numbers.
#[derive(Clone, Copy, PartialEq, Eq, Debug)]
pub enum Group {
    Head = 0,
    Actions = 1,
    Delays = 2,
}

// A summand of a group, as it is reported: 0 where no summand is meant.
#[derive(Clone, Copy, PartialEq, Eq, Debug)]
pub struct Place {
    pub group: Group,
    pub summand: u16,
}

// The head of the file, or the file as a whole.
pub const HEAD: Place = Place {
    group: Group::Head,
    summand: 0,
};

#[derive(Clone, Copy, PartialEq, Eq, Debug)]
pub enum LinearFault {
    // the version byte is missing or not 1
    Version,
    // the header, a word or a list is cut, the length is wrong, or bytes are left over
    Length(Place),
    // a count, size, number of counters or start value is off its limits
    Limit(Place),
    // a program counter, variable, action or entry is none, or a variable is chosen twice
    Misnamed(Place),
    // the sizes of the sums' variables multiply to more than 65,536
    Product(Place),
}

impl LinearFault {
    // The refusal's number.
    pub fn number(self) -> u16
        ensures answer { result ≡ number_of self }
    {
        match self {
            LinearFault::Version => 1,
            LinearFault::Length(_) => 2,
            LinearFault::Limit(_) => 3,
            LinearFault::Misnamed(_) => 18,
            LinearFault::Product(_) => 8,
        }
    }

    // The place it speaks of.
    fn place(self) -> Place
        ensures answer { result ≡ place_of self }
    {
        match self {
            LinearFault::Version => HEAD,
            LinearFault::Length(place)
            | LinearFault::Limit(place)
            | LinearFault::Misnamed(place)
            | LinearFault::Product(place) => place,
        }
    }

    // The group it speaks of: 0 for the head, 1 for the actions, 2 for the delays.
    pub fn group(self) -> u16
        ensures answer { result ≡ group_of self }
    {
        self.place().group as u16
    }

    // The summand it speaks of, or 0.
    pub fn summand(self) -> u16
        ensures answer { result ≡ summand_of self }
    {
        self.place().summand
    }
}

impl From<HeaderFault> for LinearFault {
    ghost from_gives = { λ fault x. x ≡ linear_fault fault };

    fn from(fault: HeaderFault) -> LinearFault {
        match fault {
            HeaderFault::Version => LinearFault::Version,
            HeaderFault::Length => LinearFault::Length(HEAD),
        }
    }
}
