// Why a language does not fit a model: the first node at fault.
ghost use Rattle.std.specs.Prelude.{◌≡◌};
ghost use Rattle.fit.specs.Faults.{code_of};

use model_file::FaultCode;

#[derive(Clone, Copy, Debug, PartialEq, Eq)]
pub enum FitFault {
    // the node uses an expression that the language does not have
    Expression(u16),
    // the node uses an expression that names a variable out of scope
    Variable(u16),
}

impl FitFault {
    // Nodes are the records of section 5.
    pub fn code(self) -> FaultCode
        ensures answer { result ≡ code_of self }
    {
        match self {
            FitFault::Expression(node) => FaultCode {
                number: 9,
                section: 5,
                record: node,
            },
            FitFault::Variable(node) => FaultCode {
                number: 6,
                section: 5,
                record: node,
            },
        }
    }
}
