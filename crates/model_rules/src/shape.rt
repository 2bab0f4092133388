// Nodes by their kind.
ghost use Rattle.std.specs.Prelude.{◌≡◌};
ghost use Rattle.model_rules.specs.Shapes.{shape_of, shape_at};

use model_file::ModelFile;
use words::word_at;

// A node. `arguments` is the number of the first, or what stands for all of them.
#[derive(Clone, Copy, Debug, PartialEq, Eq)]
pub enum Shape<A = u16> {
    Call {
        process: u16,
        arguments: A,
    },
    Condition {
        expression: u16,
        child: u16,
    },
    Choice {
        left: u16,
        right: u16,
    },
    Sum {
        variable: u16,
        child: u16,
    },
    Action {
        action: u16,
        arguments: A,
        variable: u16,
        weight: u16,
        child: u16,
    },
    Delay {
        rate: u16,
        child: u16,
    },
}

// The node of this kind and these fields; none where there is no such kind, or a field that it does not list is not 0.
fn decode(kind: u16, a: u16, b: u16, c: u16, d: u16, e: u16) -> Option<Shape>
    ensures answer { result ≡ shape_of kind a b c d e }
{
    match kind {
        1 if c == 0 && d == 0 && e == 0 => Some(Shape::Call {
            process: a,
            arguments: b,
        }),
        2 if c == 0 && d == 0 && e == 0 => Some(Shape::Condition {
            expression: a,
            child: b,
        }),
        3 if c == 0 && d == 0 && e == 0 => Some(Shape::Choice { left: a, right: b }),
        4 if c == 0 && d == 0 && e == 0 => Some(Shape::Sum {
            variable: a,
            child: b,
        }),
        5 => Some(Shape::Action {
            action: a,
            arguments: b,
            variable: c,
            weight: d,
            child: e,
        }),
        6 if c == 0 && d == 0 && e == 0 => Some(Shape::Delay { rate: a, child: b }),
        _ => None,
    }
}

// The node whose record is the one of this number, whether or not the file has so many.
pub fn shape_at(file: &ModelFile<'_>, node: u16) -> Option<Shape>
    ensures answer { result ≡ shape_at file.now.bytes.now file.now.layout node }
{
    let at = file.layout.node(node);
    decode(
        word_at(file.bytes, at),
        word_at(file.bytes, at + 2),
        word_at(file.bytes, at + 4),
        word_at(file.bytes, at + 6),
        word_at(file.bytes, at + 8),
        word_at(file.bytes, at + 10),
    )
}
