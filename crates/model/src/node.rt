// What a model hands out: processes, and nodes with their arguments.
use model_rules::Shape;

// A process: its parameters are `number` variables from `first` on.
#[derive(Clone, Copy, Debug, PartialEq, Eq)]
pub struct Process {
    pub first: u16,
    pub number: u16,
    pub body: u16,
}

// A node. The arguments are two bytes each, high byte first, and a part of the model file.
pub type Node<'a> = Shape<&'a [u8]>;
