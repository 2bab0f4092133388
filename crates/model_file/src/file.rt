// The words of a model file by the names that they have in it.
ghost use Rattle.std.specs.Prelude.{◌≡◌};
ghost use Rattle.model_file.specs.Fields.{variable_count, size_of, process_count, first_of, number_of, body_of, start_of, value_of, action_count, arity_of, node_count, argument_count};
ghost use Rattle.model_file.specs.Layouts.{layout_of, end_at};

use crate::layout::{Layout, locate};
use words::word_at;

// The bytes of a file, and where its sections begin. Every word is there to be read: a byte beyond the end counts as 0.
#[derive(Clone, Copy)]
pub struct ModelFile<'a> {
    pub bytes: &'a [u8],
    pub layout: Layout,
}

impl<'a> ModelFile<'a> {
    // The file of these bytes, whatever they are.
    pub fn new(bytes: &'a [u8]) -> ModelFile<'a>
        ensures bytes { result.bytes.now ≡ bytes.now }
        ensures layout { result.layout ≡ layout_of bytes.now }
    {
        ModelFile {
            bytes,
            layout: locate(bytes),
        }
    }

    pub fn variable_count(&self) -> u16
        ensures answer { result ≡ variable_count self.now.bytes.now }
    {
        word_at(self.bytes, 5)
    }

    pub fn size(&self, variable: u16) -> u16
        ensures answer { result ≡ size_of self.now.bytes.now variable }
    {
        word_at(self.bytes, Layout::size(variable))
    }

    pub fn process_count(&self) -> u16
        ensures answer { result ≡ process_count self.now.bytes.now self.now.layout }
    {
        word_at(self.bytes, self.layout.processes as usize)
    }

    // The first parameter of a process.
    pub fn first(&self, process: u16) -> u16
        ensures answer { result ≡ first_of self.now.bytes.now self.now.layout process }
    {
        word_at(self.bytes, self.layout.process(process))
    }

    // The number of parameters of a process.
    pub fn number(&self, process: u16) -> u16
        ensures answer { result ≡ number_of self.now.bytes.now self.now.layout process }
    {
        word_at(self.bytes, self.layout.process(process) + 2)
    }

    pub fn body(&self, process: u16) -> u16
        ensures answer { result ≡ body_of self.now.bytes.now self.now.layout process }
    {
        word_at(self.bytes, self.layout.process(process) + 4)
    }

    // The process that the start is in.
    pub fn start(&self) -> u16
        ensures answer { result ≡ start_of self.now.bytes.now self.now.layout }
    {
        word_at(self.bytes, self.layout.start as usize)
    }

    // The start value of a parameter.
    pub fn value(&self, parameter: u16) -> u16
        ensures answer { result ≡ value_of self.now.bytes.now self.now.layout parameter }
    {
        word_at(self.bytes, self.layout.value(parameter))
    }

    pub fn action_count(&self) -> u16
        ensures answer { result ≡ action_count self.now.bytes.now self.now.layout }
    {
        word_at(self.bytes, self.layout.actions as usize)
    }

    // The number of arguments of an action.
    pub fn arity(&self, action: u16) -> u16
        ensures answer { result ≡ arity_of self.now.bytes.now self.now.layout action }
    {
        word_at(self.bytes, self.layout.arity(action))
    }

    pub fn node_count(&self) -> u16
        ensures answer { result ≡ node_count self.now.bytes.now self.now.layout }
    {
        word_at(self.bytes, self.layout.nodes as usize)
    }

    pub fn argument_count(&self) -> u16
        ensures answer { result ≡ argument_count self.now.bytes.now self.now.layout }
    {
        word_at(self.bytes, self.layout.arguments as usize)
    }

    // Where the file ends.
    pub(crate) fn end(&self) -> usize
        ensures answer { result ≡ end_at self.now.bytes.now self.now.layout }
    {
        self.layout.arguments as usize + 2 + 2 * usize::from(self.argument_count())
    }
}
