// `mapa data`: each expression of a data file, its value with all variables 0, and the variables it names.
ghost use Rattle.std.specs.Prelude.{◌≡◌, ◌++◌, Ok, IfOk, IfErr, string_bytes, OnOk};
ghost use Rattle.report.specs.Data.{names_below, line_of, lines_below, data_told};
ghost use Rattle.report.specs.Refusals.{Refuses};

use crate::refusal::ReportFault;
use language::{FileLanguage, Language};
use std::alloc::{AllocError, Global};
use std::fmt::Write;

const VARIABLES: u16 = 16;

// The variables that an expression names, upwards, each behind a space.
fn put_names<L: Language>(
    text: &mut String,
    language: &L,
    expression: u16,
) -> Result<(), AllocError>
    ensures leaves { OnOk result (string_bytes text.new ≡ string_bytes text.old ++ names_below ((L.Language.meaning language.now).names expression) 16) }
{
    for variable in 0..VARIABLES {
        if language.names(expression, variable) {
            write!(text, " {variable}")?;
        }
    }
    Ok(())
}

// The line of an expression.
fn put_line<L: Language>(text: &mut String, language: &L, expression: u16) -> Result<(), AllocError>
    ensures leaves { OnOk result (string_bytes text.new ≡ string_bytes text.old ++ line_of (L.Language.meaning language.now) expression) }
{
    let value = language.value(expression, &[]);
    write!(text, "{expression} {value}")?;
    put_names(text, language, expression)?;
    text.push_str("\n")
}

// A line for each expression, under a heading.
fn lines<L: Language>(language: &L, heap: Global) -> Result<String, AllocError>
    ensures answer { IfOk result (λ s. string_bytes s ≡ lines_below (L.Language.meaning language.now) (L.Language.meaning language.now).count) }
{
    let mut text = String::from_str(heap, "expression value names\n")?;
    for expression in 0..language.count() {
        put_line(&mut text, language, expression)?;
    }
    Ok(text)
}

// What `mapa data` tells of a data file of the language `L`.
pub(crate) fn data_report<L: FileLanguage + Drop>(
    bytes: &[u8],
    heap: Global,
) -> Result<String, ReportFault>
    ensures answer { IfOk result (λ s. data_told (L.FileLanguage.file bytes.now) ≡ Ok (string_bytes s)) }
    ensures refusal { IfErr result (Refuses (data_told (L.FileLanguage.file bytes.now))) }
{
    let mut language = L::empty();
    language.fill(bytes)?;
    Ok(lines(&language, heap)?)
}
