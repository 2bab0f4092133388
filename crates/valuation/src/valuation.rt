// One value for each of up to 16 variables.
ghost use Rattle.std.specs.Prelude.{◌≡◌, ◌≤◌, length};

pub const MOST_VARIABLES: usize = 16;

// The first `width` values count. It is copied with each frame of a cursor, so it has a fixed size and no heap.
#[derive(Clone, Copy)]
pub struct Valuation {
    pub(crate) width: usize,
    pub(crate) values: [u16; 16],
    ghost narrow: { width ≤ 16 },
    ghost full: { length values ≡ 16 },
}
