// How many leaves of a node count for what is asked.
ghost use Rattle.std.specs.Prelude.{◌≡◌, ◌≤◌, length};
ghost use Rattle.valuation.specs.Valuations.{listed};
ghost use Rattle.ways.specs.Leaves.{living, most_leaves};

use crate::branch::Asked;
use crate::cursor::Cursor;
use crate::nodes::Nodes;
use language::Language;
use valuation::Valuation;

pub fn count<N: Nodes, L: Language>(
    nodes: &N,
    language: &L,
    asked: Asked,
    node: u16,
    valuation: Valuation,
) -> u64
    ensures answer { result ≡ length (living (N.Nodes.lives nodes.now asked) (L.Language.meaning language.now) (N.Nodes.sizes nodes.now) (N.Nodes.tree nodes.now node) (listed valuation)) }
    ensures small { result ≤ most_leaves }
{
    let mut cursor = Cursor::new(node, valuation);
    let mut number = 0;
    // No `Iterator`: such a cursor would hold the nodes and the language, with two parameters and two lifetimes more.
    while let Some(found) = cursor.next(nodes, language) {
        if nodes.lives(asked, language, &found) {
            number += 1;
        }
    }
    number
}
