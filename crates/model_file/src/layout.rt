// Where the sections of a model file begin, and their records.
ghost use Rattle.std.specs.Prelude.{◌≡◌, ◌+◌, ◌*◌, ◌^◌, ◌<◌};
ghost use Rattle.words.specs.Words.{word_at};
ghost use Rattle.model_file.specs.Layouts.{layout_of, size_at, process_at, value_at, arity_at, node_at, argument_at};

use words::word_at;

// The variables section begins at 5, after the header.
#[derive(Clone, Copy, Debug, PartialEq, Eq)]
pub struct Layout {
    pub processes: u32,
    pub start: u32,
    pub actions: u32,
    pub nodes: u32,
    pub arguments: u32,
}

impl Layout {
    // Where the size of a variable stands.
    pub fn size(variable: u16) -> usize
        ensures answer { result ≡ size_at variable }
        ensures small { result < 2 ^ 40 }
    {
        7 + 2 * usize::from(variable)
    }

    // Where the record of a process begins: first parameter, number of parameters, body.
    pub fn process(self, process: u16) -> usize
        ensures answer { result ≡ process_at self process }
        ensures small { result < 2 ^ 40 }
    {
        self.processes as usize + 2 + 6 * usize::from(process)
    }

    // Where a start value stands.
    pub fn value(self, parameter: u16) -> usize
        ensures answer { result ≡ value_at self parameter }
        ensures small { result < 2 ^ 40 }
    {
        self.start as usize + 2 + 2 * usize::from(parameter)
    }

    // Where an action's number of arguments stands.
    pub fn arity(self, action: u16) -> usize
        ensures answer { result ≡ arity_at self action }
        ensures small { result < 2 ^ 40 }
    {
        self.actions as usize + 2 + 2 * usize::from(action)
    }

    // Where the record of a node begins: its kind and five fields.
    pub fn node(self, node: u16) -> usize
        ensures answer { result ≡ node_at self node }
        ensures small { result < 2 ^ 40 }
    {
        self.nodes as usize + 2 + 12 * usize::from(node)
    }

    // Where an argument stands.
    pub fn argument(self, argument: u16) -> usize
        ensures answer { result ≡ argument_at self argument }
        ensures small { result < 2 ^ 40 }
    {
        self.arguments as usize + 2 + 2 * usize::from(argument)
    }
}

// The count of the section that begins at `at`.
fn count_at(bytes: &[u8], at: u32) -> u32
    ensures answer { result ≡ word_at bytes.now at }
    ensures small { result < 65536 }
{
    u32::from(word_at(bytes, at as usize))
}

// The layout that the counts of these bytes give, whatever the bytes are.
pub fn locate(bytes: &[u8]) -> Layout
    ensures answer { result ≡ layout_of bytes.now }
{
    let processes = 5 + 2 + 2 * count_at(bytes, 5);
    let start = processes + 2 + 6 * count_at(bytes, processes);
    let process = count_at(bytes, start);
    let actions = start + 2 + 2 * count_at(bytes, processes + 2 + 6 * process + 2);
    let nodes = actions + 2 + 2 * count_at(bytes, actions);
    let arguments = nodes + 2 + 12 * count_at(bytes, nodes);
    Layout {
        processes,
        start,
        actions,
        nodes,
        arguments,
    }
}
