// What a system's questions answer, and what is called on a walk.
ghost use Rattle.std.specs.Prelude.{◌≡◌, take};

#[derive(Clone, Copy, PartialEq, Eq, Debug)]
pub struct Weight(pub u64);

#[derive(Clone, Copy, PartialEq, Eq, Debug)]
pub struct Rate(pub u16);

// An action with its arguments: the first `count` values, 0 after them.
// A label is copied with each step of a walk and the library allocates nothing, so its values have a fixed size.
#[derive(Clone, Copy, PartialEq, Eq, Debug)]
pub struct Label {
    pub action: u16,
    pub count: usize,
    pub values: [u16; 4],
}

impl Label {
    pub(crate) fn arguments(&self) -> &[u16]
        ensures { result.now ≡ take self.now.count self.now.values }
    {
        &self.values[..self.count.min(4)]
    }
}

// What a walk did: an action with its arguments and the number of the outcome, or a delay.
#[derive(Clone, Copy, PartialEq, Eq, Debug)]
pub enum Step {
    Acted(Label, u64),
    Waited(Rate),
}

// Act takes the numbers of a move and of its outcome, wait that of a delay.
#[derive(Clone, Copy, PartialEq, Eq, Debug)]
pub enum Call {
    Act(u64, u64),
    Wait(u64),
    Back,
    Restart,
}
