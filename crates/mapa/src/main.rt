// Looks at the product's files, one on standard input: `mapa data formula|table`, `mapa model`.
#![tactic(auto)]

use report::{DataLanguage, ReportFault, Verb, run};
use std::env;
use std::io::{Read, Write};
use std::process::ExitCode;

const USAGE: &str = "usage: mapa data formula|table < FILE, or mapa model < FILE";

// The verb that the words after the program's name give.
fn verb_of(words: &[String]) -> Option<Verb> {
    match words {
        [_, model] if model.as_str() == "model" => Some(Verb::Model),
        [_, data, language] if data.as_str() == "data" => match language.as_str() {
            "formula" => Some(Verb::Data(DataLanguage::Formula)),
            "table" => Some(Verb::Data(DataLanguage::Table)),
            _ => None,
        },
        _ => None,
    }
}

fn main(rt: HostRuntime) -> anyhow::Result<ExitCode> {
    let words: Vec<String> = env::args(&rt)?.collect(rt.alloc())?;
    let Some(verb) = verb_of(words.as_slice()) else {
        rt.eprintln(USAGE)?;
        return Ok(ExitCode::FAILURE);
    };
    let mut input = Vec::new(rt.alloc());
    rt.stdin().read_to_end(&mut input)?;
    match run(verb, input.as_slice(), rt.alloc()) {
        Ok(text) => {
            rt.stdout().write_all(text.as_bytes())?;
            Ok(ExitCode::SUCCESS)
        }
        Err(ReportFault::Refused(refusal)) => {
            print!(rt; "{refusal}")?;
            Ok(ExitCode::FAILURE)
        }
        Err(ReportFault::OutOfMemory(error)) => Err(error.into()),
    }
}
