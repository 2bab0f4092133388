// A linear equation from its file.
ghost use Rattle.std.specs.Prelude.{◌≡◌, Ok, Err, MatchResult, OnOk};
ghost use Rattle.linear.specs.Laws.{IsFile};
ghost use Rattle.linear.specs.Layout.{file_of};
ghost use Rattle.linear.specs.Reading.{table_in, linear_file, answer_of, Leaves};
ghost use Rattle.linear.specs.declared.equation.Equation.{Equation};
ghost use Rattle.words.specs.Headers.{Iff};

use crate::checks::{check_names, check_products};
use crate::reader::Reader;
use linear::{Equation, Group, HEAD, LinearFault, Table};

// The tables of a file that keeps its limits.
fn table_in(bytes: &[u8]) -> Result<Table, LinearFault>
    ensures answer { result ≡ table_in bytes.now }
{
    let mut reader = Reader::new(bytes)?;
    let (sizes, counters, first) = reader.head()?;
    let actions = reader.section(Group::Actions, 256)?;
    let delays = reader.section(Group::Delays, 256 - actions.len() as u16)?;
    if !reader.is_done() {
        return Err(LinearFault::Length(HEAD));
    }
    Ok(Table {
        sizes,
        counters,
        first,
        actions,
        delays,
    })
}

// The equation of a file, or the file's first fault.
fn equation_in(bytes: &[u8]) -> Result<Equation, LinearFault>
    ensures answer { MatchResult result (λ e. linear_file bytes.now ≡ Ok e.table) (λ x. linear_file bytes.now ≡ Err x) }
{
    let table = table_in(bytes)?;
    check_names(&table)?;
    check_products(&table)?;
    Ok(Equation { table })
}

// Becomes the equation of a file; a refusal, the file's first fault, leaves the one before.
pub fn read(bytes: &[u8], into: &mut Equation) -> Result<(), LinearFault>
    ensures answer { result ≡ answer_of (linear_file bytes.now) }
    ensures leaves { Leaves (linear_file bytes.now) (λ (e : Equation). e.table) into.old into.new }
    ensures rules { Iff (result ≡ Ok tt) (IsFile bytes.now) }
    ensures trips { OnOk result (file_of into.new.table ≡ bytes.now) }
{
    let equation = equation_in(bytes)?;
    *into = equation;
    Ok(())
}
