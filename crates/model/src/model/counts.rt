// What a model has, section by section. A getter of one number answers 0 where there is nothing, as its clause says: by an
// `Option` it would promise something else.
#![tactic(auto, using(crate::proofs::Numbered::places))]

ghost use Rattle.std.specs.Prelude.{◌≡◌, ◌+◌, ◌*◌, length, slice_index};
ghost use Rattle.std.specs.List.{slice_get};
ghost use Rattle.model_file.specs.Layouts.{layout_of};
ghost use Rattle.model.specs.Flat.{flat, footprint_of};

use super::Model;
use crate::node::Process;
use model_file::ModelFile;

impl<'a> Model<'a> {
    fn file(&self) -> ModelFile<'a>
        ensures bytes { result.bytes.now ≡ self.now.bytes.now }
        ensures layout { result.layout ≡ layout_of self.now.bytes.now }
    {
        ModelFile {
            bytes: self.bytes,
            layout: self.layout,
        }
    }

    pub fn variable_count(&self) -> u16
        ensures answer { result ≡ length (flat self.now.bytes.now).sizes }
    {
        self.file().variable_count()
    }

    // The size of a variable; 0 where there is none.
    pub fn size(&self, variable: u16) -> u16
        ensures answer { result ≡ slice_index (flat self.now.bytes.now).sizes variable }
    {
        let file = self.file();
        if variable < file.variable_count() {
            file.size(variable)
        } else {
            0
        }
    }

    pub fn process_count(&self) -> u16
        ensures answer { result ≡ length (flat self.now.bytes.now).processes }
    {
        self.file().process_count()
    }

    pub fn process(&self, process: u16) -> Option<Process>
        ensures answer { result ≡ slice_get (flat self.now.bytes.now).processes process }
    {
        let file = self.file();
        if process >= file.process_count() {
            return None;
        }
        Some(Process {
            first: file.first(process),
            number: file.number(process),
            body: file.body(process),
        })
    }

    pub fn start_process(&self) -> u16
        ensures answer { result ≡ (flat self.now.bytes.now).start }
    {
        self.file().start()
    }

    // The start value of a parameter, which the start process counts from 0; 0 where there is none.
    pub fn start_value(&self, parameter: u16) -> u16
        ensures answer { result ≡ slice_index (flat self.now.bytes.now).values parameter }
    {
        let file = self.file();
        if parameter < file.number(file.start()) {
            file.value(parameter)
        } else {
            0
        }
    }

    pub fn action_count(&self) -> u16
        ensures answer { result ≡ length (flat self.now.bytes.now).arities }
    {
        self.file().action_count()
    }

    // The number of arguments of an action; 0 where there is none.
    pub fn arity(&self, action: u16) -> u16
        ensures answer { result ≡ slice_index (flat self.now.bytes.now).arities action }
    {
        let file = self.file();
        if action < file.action_count() {
            file.arity(action)
        } else {
            0
        }
    }

    pub fn node_count(&self) -> u16
        ensures answer { result ≡ length (flat self.now.bytes.now).nodes }
    {
        self.file().node_count()
    }

    // A number of bytes that no linear file of the model exceeds.
    pub fn footprint(&self) -> usize
        ensures answer { result ≡ footprint_of (flat self.now.bytes.now) }
    {
        let variables = usize::from(self.variable_count());
        let nodes = usize::from(self.node_count());
        5 + 2 * (5 + 2 * variables + nodes * (28 + 2 * variables))
    }
}
