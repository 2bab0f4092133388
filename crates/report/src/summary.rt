// `mapa model`: what a model file has, in a few lines.
ghost use Rattle.std.specs.Prelude.{◌≡◌, ◌++◌, Ok, IfOk, IfErr, string_bytes, OnOk};
ghost use Rattle.model.specs.Accept.{judged};
ghost use Rattle.model.specs.Flat.{flat};
ghost use Rattle.report.specs.Refusals.{Refuses};
ghost use Rattle.report.specs.Summaries.{line_text, parts_text, kinds_text, summary_text, model_told};

use crate::kinds::{Kinds, count_kinds};
use crate::refusal::ReportFault;
use model::{Model, accept, open};
use std::alloc::{AllocError, Global};
use std::fmt::Write;

// A line of a name and its number.
fn put_line(text: &mut String, name: &str, number: u64) -> Result<(), AllocError>
    ensures leaves { OnOk result (string_bytes text.new ≡ string_bytes text.old ++ line_text name.now number) }
{
    writeln!(text, "{name} {number}")
}

fn parts(model: &Model<'_>, heap: Global) -> Result<String, AllocError>
    ensures answer { IfOk result (λ s. string_bytes s ≡ parts_text (flat model.now.bytes.now)) }
{
    let mut text = String::new(heap);
    put_line(&mut text, "variables", u64::from(model.variable_count()))?;
    put_line(&mut text, "processes", u64::from(model.process_count()))?;
    put_line(&mut text, "actions", u64::from(model.action_count()))?;
    put_line(&mut text, "nodes", u64::from(model.node_count()))?;
    Ok(text)
}

fn kind_lines(kinds: Kinds, heap: Global) -> Result<String, AllocError>
    ensures answer { IfOk result (λ s. string_bytes s ≡ kinds_text kinds) }
{
    let mut text = String::new(heap);
    put_line(&mut text, "call nodes", kinds.calls)?;
    put_line(&mut text, "condition nodes", kinds.conditions)?;
    put_line(&mut text, "choice nodes", kinds.choices)?;
    put_line(&mut text, "sum nodes", kinds.sums)?;
    put_line(&mut text, "action nodes", kinds.actions)?;
    put_line(&mut text, "delay nodes", kinds.delays)?;
    Ok(text)
}

fn summary(model: &Model<'_>, heap: Global) -> Result<String, AllocError>
    ensures answer { IfOk result (λ s. string_bytes s ≡ summary_text (flat model.now.bytes.now)) }
{
    let mut text = parts(model, heap)?;
    text.push_str(kind_lines(count_kinds(model), heap)?.as_str())?;
    put_line(&mut text, "footprint", model.footprint() as u64)?;
    Ok(text)
}

// What `mapa model` tells of a model file.
pub(crate) fn model_report(bytes: &[u8], heap: Global) -> Result<String, ReportFault>
    ensures answer { IfOk result (λ s. model_told (judged bytes.now) (flat bytes.now) ≡ Ok (string_bytes s)) }
    ensures refusal { IfErr result (Refuses (model_told (judged bytes.now) (flat bytes.now))) }
{
    let mut model = Model::smallest();
    accept(open(bytes), &mut model)?;
    Ok(summary(&model, heap)?)
}
