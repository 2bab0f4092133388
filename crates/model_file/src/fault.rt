// Why a model file is refused. Sections count from 1, records from 0, as they are reported: 0 where none is meant.
ghost use Rattle.std.specs.Prelude.{◌≡◌};
ghost use Rattle.model_file.specs.Faults.{code_of, of_header};

use words::HeaderFault;

#[derive(Clone, Copy, Debug, PartialEq, Eq)]
pub enum ModelFault {
    // the version byte is missing or not 1
    Version,
    // the header or a record is cut, the length is wrong, or bytes are left over
    Cut { section: u16, record: u16 },
    // a count, a size, the parameters or the start is off its limits
    Limit { section: u16, record: u16 },
    // a body, kind, field or child names nothing, a child is not higher, or an unused field is not 0
    Unnamed { section: u16, record: u16 },
    // a node is not placed once, or a variable not bound once
    NotOnce { section: u16, record: u16 },
    // a call is not the child of an action or a delay
    CallElsewhere { node: u16 },
    // a way down from this resting place passes the limits
    WaysDown { node: u16 },
}

// A fault as it is reported: its number and its place, 0 where there is none.
#[derive(Clone, Copy, Debug, PartialEq, Eq)]
pub struct FaultCode {
    pub number: u16,
    pub section: u16,
    pub record: u16,
}

impl ModelFault {
    pub fn code(self) -> FaultCode
        ensures answer { result ≡ code_of self }
    {
        let (number, section, record) = match self {
            ModelFault::Version => (1, 0, 0),
            ModelFault::Cut { section, record } => (2, section, record),
            ModelFault::Limit { section, record } => (3, section, record),
            ModelFault::Unnamed { section, record } => (4, section, record),
            ModelFault::NotOnce { section, record } => (5, section, record),
            ModelFault::CallElsewhere { node } => (7, 5, node),
            ModelFault::WaysDown { node } => (8, 5, node),
        };
        FaultCode {
            number,
            section,
            record,
        }
    }
}

impl From<HeaderFault> for ModelFault {
    ghost from_gives = { λ x y. y ≡ of_header x };

    fn from(fault: HeaderFault) -> ModelFault {
        match fault {
            HeaderFault::Version => ModelFault::Version,
            HeaderFault::Length => ModelFault::Cut {
                section: 0,
                record: 0,
            },
        }
    }
}
