// Program counters number the resting places from 1 in node order.
ghost use Rattle.std.specs.Prelude.{◌≡◌, ℕ, ◌<◌, length, None, slice_index_or};
ghost use Rattle.model_file.specs.Layouts.{layout_of};
ghost use Rattle.model_rules.specs.Tallies.{resting};
ghost use Rattle.model.specs.Flat.{flat};
ghost use Rattle.source.specs.Counters.{counter_at, Counts};

use crate::places::place_nodes;
use model::Model;

#[derive(Clone, Copy, Debug, PartialEq, Eq)]
pub struct Counter(pub u16);

// The program counter of each node that is a resting place; the others have none.
pub fn counters(model: &Model) -> [Option<Counter>; 256]
    ensures answer { (n : ℕ) → n < length (flat model.now.bytes.now).nodes → slice_index_or result n None ≡ counter_at (resting model.now.bytes.now (layout_of model.now.bytes.now)) n }
    ensures rules { Counts model.now.bytes.now (layout_of model.now.bytes.now) result }
{
    let places = place_nodes(model);
    let mut counters: [Option<Counter>; 256] = [None; 256];
    // Counted by hand: only the resting places are numbered, and of what is written through `zip` with `iter_mut` nothing is known.
    let mut next = 1;
    for (node, counter) in counters.iter_mut().enumerate() {
        if !places.flags[node] {
            continue;
        }
        *counter = Some(Counter(next));
        next += 1;
    }
    counters
}
