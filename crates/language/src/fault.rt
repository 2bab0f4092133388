// Why a data file is refused.
ghost use Rattle.std.specs.Prelude.{◌≡◌};
ghost use Rattle.language.specs.Faults.{number_of, record_of};
ghost use Rattle.language.specs.Files.{data_fault};

use words::HeaderFault;

#[derive(Clone, Copy, Debug, PartialEq, Eq)]
pub enum DataFault {
    // the version byte is missing or not 1
    Version,
    // this record is cut; with record 0 also a header or count that is cut, or a length that is not the file's
    Length(u16),
    // a count, or a field of this record, is off its rules
    Rule(u16),
}

impl DataFault {
    // The refusal's number.
    pub fn number(self) -> u16
        ensures answer { result ≡ number_of self }
    {
        match self {
            DataFault::Version => 31,
            DataFault::Length(_) => 32,
            DataFault::Rule(_) => 33,
        }
    }

    // The record it speaks of, or 0.
    pub fn record(self) -> u16
        ensures answer { result ≡ record_of self }
    {
        match self {
            DataFault::Version => 0,
            DataFault::Length(record) | DataFault::Rule(record) => record,
        }
    }
}

impl From<HeaderFault> for DataFault {
    ghost from_gives = { λ fault r. r ≡ data_fault fault };

    fn from(fault: HeaderFault) -> DataFault {
        match fault {
            HeaderFault::Version => DataFault::Version,
            HeaderFault::Length => DataFault::Length(0),
        }
    }
}
