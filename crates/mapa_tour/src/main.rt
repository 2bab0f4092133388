// Every verb of `mapa` on built-in examples, so that one run shows them all.
#![tactic(auto)]

use report::{DataLanguage, ReportFault, Verb, run};
use std::io::Write;

// A queue of at most two: its length, the limit 2, whether there is room, 1, one more, and its rate 3.
const QUEUE: &[u8; 55] = b"\x01\x00\x00\x00\x32\x00\x06\
    \x00\x01\x00\x00\x00\x00\x00\x00\
    \x00\x00\x00\x02\x00\x00\x00\x00\
    \x00\x06\x00\x00\x00\x01\x00\x00\
    \x00\x00\x00\x01\x00\x00\x00\x00\
    \x00\x02\x00\x00\x00\x03\x00\x00\
    \x00\x00\x00\x03\x00\x00\x00\x00";

// Two records over variables 3 and 1, and their four values.
const WEIGHTS: &[u8; 33] = b"\x01\x00\x00\x00\x1c\x00\x02\
    \x00\x03\x00\x01\x00\x02\x00\x00\
    \x00\x01\x00\x01\x00\x01\x00\x03\
    \x00\x04\x00\x07\x00\x01\x00\x03\x00\x09";

// A sum whose operands are not cells before it.
const DAMAGED: &[u8; 15] = b"\x01\x00\x00\x00\x0a\x00\x01\
    \x00\x02\x00\x00\x00\x00\x00\x00";

// The queue's model: while there is room, a request arrives at rate 3.
const QUEUE_MODEL: &[u8; 67] = b"\x01\x00\x00\x00\x3e\
    \x00\x01\x00\x03\
    \x00\x01\x00\x00\x00\x01\x00\x00\
    \x00\x00\x00\x00\
    \x00\x01\x00\x00\
    \x00\x03\
    \x00\x02\x00\x02\x00\x01\x00\x00\x00\x00\x00\x00\
    \x00\x06\x00\x05\x00\x02\x00\x00\x00\x00\x00\x00\
    \x00\x01\x00\x00\x00\x00\x00\x00\x00\x00\x00\x00\
    \x00\x01\x00\x04";

fn show(rt: &HostRuntime, title: &str, verb: Verb, input: &[u8]) -> anyhow::Result<()> {
    println!(rt; "{title}")?;
    match run(verb, input, rt.alloc()) {
        Ok(text) => rt.stdout().write_all(text.as_bytes())?,
        Err(ReportFault::Refused(refusal)) => print!(rt; "{refusal}")?,
        Err(ReportFault::OutOfMemory(error)) => return Err(error.into()),
    }
    Ok(())
}

fn main(rt: HostRuntime) -> anyhow::Result<()> {
    let formula = Verb::Data(DataLanguage::Formula);
    let table = Verb::Data(DataLanguage::Table);
    show(&rt, "mapa data formula, of a queue:", formula, QUEUE)?;
    show(&rt, "mapa data table, of weights:", table, WEIGHTS)?;
    show(
        &rt,
        "mapa data formula, of a damaged file:",
        formula,
        DAMAGED,
    )?;
    show(&rt, "mapa model, of the queue:", Verb::Model, QUEUE_MODEL)?;
    show(&rt, "mapa model, of a data file:", Verb::Model, WEIGHTS)
}
