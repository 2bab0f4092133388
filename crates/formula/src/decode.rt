// The cells of a formula file.
ghost use Rattle.formula.specs.Files.{decoded};

use crate::cell::{Cell, Operation};
use language::FileRecord;

impl FileRecord for Cell {
    ghost decoded = { decoded };

    fn decode(k: u16, words: [u16; 4]) -> Option<Cell> {
        let [operation, a, b, c] = words;
        match operation {
            0 if b == 0 && c == 0 => Some(Cell::Constant(a)),
            1 if a < 16 && b == 0 && c == 0 => Some(Cell::Variable(a)),
            2 if a < k && b < k && c == 0 => Some(Cell::Binary(Operation::Sum, a, b)),
            3 if a < k && b < k && c == 0 => Some(Cell::Binary(Operation::Difference, a, b)),
            4 if a < k && b < k && c == 0 => Some(Cell::Binary(Operation::Product, a, b)),
            5 if a < k && b < k && c == 0 => Some(Cell::Binary(Operation::Equal, a, b)),
            6 if a < k && b < k && c == 0 => Some(Cell::Binary(Operation::Less, a, b)),
            7 if a < k && b < k && c < k => Some(Cell::Choose(a, b, c)),
            _ => None,
        }
    }
}
