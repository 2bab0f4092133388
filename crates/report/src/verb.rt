// What the program `mapa` can be asked.
ghost use Rattle.std.specs.Prelude.{◌≡◌, Ok, IfOk, IfErr, string_bytes};
ghost use Rattle.report.specs.Refusals.{Refuses};
ghost use Rattle.report.specs.Verbs.{verb_told};

use crate::data::data_report;
use crate::refusal::ReportFault;
use crate::summary::model_report;
use formula::Formula;
use std::alloc::Global;
use table::Table;

#[derive(Clone, Copy, Debug, PartialEq, Eq)]
pub enum DataLanguage {
    Formula,
    Table,
}

#[derive(Clone, Copy, Debug, PartialEq, Eq)]
pub enum Verb {
    // a data file: each expression, its value with all variables 0, the variables it names
    Data(DataLanguage),
    // a model file: what it has, section by section
    Model,
}

// What a verb tells of its input: a text, or the refusal of the input.
pub fn run(verb: Verb, input: &[u8], heap: Global) -> Result<String, ReportFault>
    ensures answer { IfOk result (λ s. verb_told verb input.now ≡ Ok (string_bytes s)) }
    ensures refusal { IfErr result (Refuses (verb_told verb input.now)) }
{
    match verb {
        Verb::Data(DataLanguage::Formula) => data_report::<Formula>(input, heap),
        Verb::Data(DataLanguage::Table) => data_report::<Table>(input, heap),
        Verb::Model => model_report(input, heap),
    }
}
