// A set of nodes, which are numbered below 256.
ghost use Rattle.std.specs.Prelude.{◌≡◌, length};

// It has a fixed size, since the library works within fixed memory.
#[derive(Clone, Copy)]
pub struct NodeSet {
    pub(crate) flags: [bool; 256],
    ghost full: { length flags ≡ 256 },
}
