// Why an input is refused, and the line that says so.
ghost use Rattle.std.specs.Prelude.{◌≡◌, Some};
ghost use Rattle.report.specs.Refusals.{refusal_text, of_data, of_model, of_memory};

use language::DataFault;
use model_file::ModelFault;
use std::alloc::AllocError;
use std::fmt;

// The file that was refused, and its fault.
#[derive(Clone, Copy, Debug, PartialEq, Eq)]
pub enum Refusal {
    Model(ModelFault),
    Data(DataFault),
}

// The line `refused STAGE NUMBER SECTION RECORD`; the records of a data file are in no section.
impl fmt::Display for Refusal {
    ghost output = { λ refusal. Some (refusal_text refusal) };

    fn fmt<W: fmt::Write>(&self, f: &mut fmt::Formatter<W>) -> fmt::Result {
        match *self {
            Refusal::Model(fault) => {
                let code = fault.code();
                let number = code.number;
                let section = code.section;
                let record = code.record;
                writeln!(f, "refused model {number} {section} {record}")
            }
            Refusal::Data(fault) => {
                let number = fault.number();
                let record = fault.record();
                writeln!(f, "refused data {number} 0 {record}")
            }
        }
    }
}

// Why there is no text.
#[derive(Clone, Copy, Debug, PartialEq, Eq)]
pub enum ReportFault {
    // the input is refused, which ends a program with status 1
    Refused(Refusal),
    OutOfMemory(AllocError),
}

impl From<DataFault> for ReportFault {
    ghost from_gives = { λ x y. y ≡ of_data x };

    fn from(fault: DataFault) -> ReportFault {
        ReportFault::Refused(Refusal::Data(fault))
    }
}

impl From<ModelFault> for ReportFault {
    ghost from_gives = { λ x y. y ≡ of_model x };

    fn from(fault: ModelFault) -> ReportFault {
        ReportFault::Refused(Refusal::Model(fault))
    }
}

impl From<AllocError> for ReportFault {
    ghost from_gives = { λ x y. y ≡ of_memory x };

    fn from(error: AllocError) -> ReportFault {
        ReportFault::OutOfMemory(error)
    }
}
