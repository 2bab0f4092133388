// The sections in file order: the first record that is cut or off its limits.
ghost use Rattle.std.specs.Prelude.{◌≡◌, ◌+◌, ◌*◌, ◌^◌, ◌<◌, ◌≤◌, Ok};
ghost use Rattle.model_file.specs.Sections.{section_of, place_of, record_fault, records_fault, section_fault, start_fault, sections_fault, sectioned};
ghost use Rattle.model_file.specs.declared.fault.ModelFault.TheVariants.{Cut, Limit};
ghost use Rattle.model_file.specs.Limits.{InLimits};
ghost use Rattle.words.specs.Headers.{Iff};

use crate::fault::ModelFault;
use crate::file::ModelFile;
use crate::part::Part;
use words::{check_header, word_at};

// Two functions for two faults: one that took the fault as a closure would be longer.
impl Part {
    fn cut(self, index: u16) -> ModelFault
        ensures answer { result ≡ Cut (section_of self) (place_of self index) }
    {
        ModelFault::Cut {
            section: self.section(),
            record: self.place(index),
        }
    }

    fn off_limits(self, index: u16) -> ModelFault
        ensures answer { result ≡ Limit (section_of self) (place_of self index) }
    {
        ModelFault::Limit {
            section: self.section(),
            record: self.place(index),
        }
    }

    fn check_record(self, bytes: &[u8], at: usize, index: u16) -> Result<(), ModelFault>
        requires { at < 2 ^ 50 }
        ensures answer { result ≡ record_fault bytes.now self at index }
    {
        if bytes.len() < at + self.width() {
            return Err(self.cut(index));
        }
        if !self.keeps_limits(bytes, at, index) {
            return Err(self.off_limits(index));
        }
        Ok(())
    }

    // The first fault of `count` records from `from` on.
    fn check_records(self, bytes: &[u8], from: usize, count: u16) -> Result<(), ModelFault>
        requires { from < 2 ^ 40 }
        ensures answer { result ≡ records_fault bytes.now self count 0 from }
    {
        let width = self.width();
        for i in 0..count {
            self.check_record(bytes, from + width * usize::from(i), i)?;
        }
        Ok(())
    }

    // A section: a count and its records.
    fn check_section(self, bytes: &[u8], from: u32) -> Result<(), ModelFault>
        ensures answer { result ≡ section_fault bytes.now self from }
    {
        let at = from as usize;
        if bytes.len() < at + 2 {
            return Err(self.cut(0));
        }
        let count = word_at(bytes, at);
        if !(self.fewest()..=self.most()).contains(&count) {
            return Err(self.off_limits(0));
        }
        self.check_records(bytes, at + 2, count)
    }
}

// The start: a process, and one value below its size for each parameter.
fn check_start(file: &ModelFile<'_>) -> Result<(), ModelFault>
    ensures answer { result ≡ start_fault file.now.bytes.now file.now.layout }
{
    let at = file.layout.start as usize;
    if file.bytes.len() < at + 2 {
        return Err(ModelFault::Cut {
            section: 3,
            record: 0,
        });
    }
    let process = file.start();
    if process >= file.process_count() {
        return Err(ModelFault::Limit {
            section: 3,
            record: 0,
        });
    }
    let sizes = 7 + 2 * u32::from(file.first(process));
    Part::Value { sizes }.check_records(file.bytes, at + 2, file.number(process))
}

// The six sections in their order, and nothing after them.
fn check_in_order(file: &ModelFile<'_>) -> Result<(), ModelFault>
    ensures answer { result ≡ sections_fault file.now.bytes.now file.now.layout }
{
    let ModelFile { bytes, layout } = *file;
    let variables = file.variable_count();
    Part::Size.check_section(bytes, 5)?;
    Part::Process { variables }.check_section(bytes, layout.processes)?;
    check_start(file)?;
    Part::Arity.check_section(bytes, layout.actions)?;
    Part::Node.check_section(bytes, layout.nodes)?;
    Part::Argument.check_section(bytes, layout.arguments)?;
    if file.end() != bytes.len() {
        return Err(ModelFault::Cut {
            section: 0,
            record: 0,
        });
    }
    Ok(())
}

// Whether the bytes are the header and the six sections, each within its limits, and nothing more.
pub fn check_sections(bytes: &[u8]) -> Result<(), ModelFault>
    ensures answer { result ≡ sectioned bytes.now }
    ensures rules { Iff (result ≡ Ok tt) (InLimits bytes.now) }
{
    check_header(bytes)?;
    check_in_order(&ModelFile::new(bytes))
}
