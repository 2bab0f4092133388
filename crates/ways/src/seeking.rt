// The leaves of a node that count, by number.
ghost use Rattle.std.specs.Prelude.{◌≡◌, ◌+◌, length, IfOk, IfErr, Some};
ghost use Rattle.std.specs.List.{slice_get};
ghost use Rattle.valuation.specs.Valuations.{listed};
ghost use Rattle.ways.specs.Leaves.{living, leaf_of};

use crate::branch::{Asked, Found};
use crate::cursor::Cursor;
use crate::nodes::Nodes;
use language::Language;
use valuation::Valuation;

// The leaf of this number. Where they are too few, the number less how many they are, so that a look goes on among the
// leaves of another node.
pub fn seek<N: Nodes, L: Language>(
    nodes: &N,
    language: &L,
    asked: Asked,
    node: u16,
    valuation: Valuation,
    number: u64,
) -> Result<Found, u64>
    ensures found { IfOk result (λ f. slice_get (living (N.Nodes.lives nodes.now asked) (L.Language.meaning language.now) (N.Nodes.sizes nodes.now) (N.Nodes.tree nodes.now node) (listed valuation)) number ≡ Some (leaf_of f)) }
    ensures left { IfErr result (λ n. n + length (living (N.Nodes.lives nodes.now asked) (L.Language.meaning language.now) (N.Nodes.sizes nodes.now) (N.Nodes.tree nodes.now node) (listed valuation)) ≡ number) }
{
    let mut left = number;
    let mut cursor = Cursor::new(node, valuation);
    // No `Iterator`: such a cursor would hold the nodes and the language, with two parameters and two lifetimes more.
    while let Some(found) = cursor.next(nodes, language) {
        if nodes.lives(asked, language, &found) {
            if left == 0 {
                return Ok(found);
            }
            left -= 1;
        }
    }
    Err(left)
}
