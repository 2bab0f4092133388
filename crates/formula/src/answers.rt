// The answers of cells to a question, each found once: a shared cell is not worked out again.
ghost use Rattle.std.specs.Prelude.{◌≡◌, ℕ, ◌<◌, ◌≤◌, true, length, replicate, None};
ghost use Rattle.arrayvec.specs.ArrayVec.{array_vec_len};
ghost use Rattle.formula.specs.Answers.{Kept, Solves, Chosen};
ghost use Rattle.formula.specs.Cells.{cell_at, ruled, step_of, reads_of};
ghost use Rattle.formula.specs.declared.cell.Cell.{Cell};
ghost use Rattle.formula.specs.declared.cell.Cell.TheVariants.{Constant, Variable, Binary, Choose};

use crate::cell::{Cell, Operation};
use crate::formula::Formula;
use language::variable_value;

// Which operand a choice is as, once its first is known: where one is, the other is not worked out.
#[derive(Clone, Copy, Debug, PartialEq, Eq)]
pub(crate) enum Choosing {
    Second,
    Third,
    ByBoth,
}

// What each kind of cell answers by the answers of its operands.
pub(crate) trait Question<X> {
    // the answer of a cell, where a function has those of the cells before it
    ghost step: { Self → Cell → (ℕ → X) → X };

    fn constant(&self, a: u16) -> X
        ensures answer { (f : ℕ → X) → result ≡ step self.now (Constant a) f };

    fn variable(&self, x: u16) -> X
        ensures answer { (f : ℕ → X) → result ≡ step self.now (Variable x) f };

    fn operation(&self, operation: Operation, x: X, y: X) -> X
        ensures answer { (f : ℕ → X) (a b : ℕ) → x ≡ f a → y ≡ f b → result ≡ step self.now (Binary operation a b) f };

    fn choosing(&self, x: X) -> Choosing
        ensures answer { (f : ℕ → X) (a b c : ℕ) → x ≡ f a → Chosen result (step self.now (Choose a b c) f) (f b) (f c) };

    fn choice(&self, x: X, y: X, z: X) -> X
        ensures answer { (f : ℕ → X) (a b c : ℕ) → x ≡ f a → y ≡ f b → z ≡ f c → result ≡ step self.now (Choose a b c) f };
}

// The value of a cell under a valuation.
#[derive(Clone, Copy)]
pub(crate) struct Value<'a> {
    pub(crate) valuation: &'a [u16],
}

impl<'a> Question<u16> for Value<'a> {
    ghost step = { λ q cell f. step_of cell q.valuation.now f };

    fn constant(&self, a: u16) -> u16 {
        a
    }

    fn variable(&self, x: u16) -> u16 {
        variable_value(self.valuation, x)
    }

    fn operation(&self, operation: Operation, x: u16, y: u16) -> u16 {
        operation.apply(x, y)
    }

    fn choosing(&self, x: u16) -> Choosing {
        if x != 0 {
            Choosing::Second
        } else {
            Choosing::Third
        }
    }

    fn choice(&self, x: u16, y: u16, z: u16) -> u16 {
        if x != 0 { y } else { z }
    }
}

// Whether a cell names a variable.
#[derive(Clone, Copy)]
pub(crate) struct Names {
    pub(crate) variable: u16,
}

impl Question<bool> for Names {
    ghost step = { λ q cell f. reads_of cell q.variable f };

    fn constant(&self, _a: u16) -> bool {
        false
    }

    fn variable(&self, x: u16) -> bool {
        x == self.variable
    }

    fn operation(&self, _operation: Operation, p: bool, q: bool) -> bool {
        p || q
    }

    fn choosing(&self, _p: bool) -> Choosing {
        Choosing::ByBoth
    }

    fn choice(&self, p: bool, q: bool, s: bool) -> bool {
        p || q || s
    }
}

impl Formula {
    // Cell `e`, whose operands are cells before it.
    fn cell(&self, e: u16) -> Cell
        requires { e < array_vec_len self.now.cells }
        ensures answer { result ≡ cell_at self.now.cells.items e }
        ensures rules { ruled e result ≡ true }
    {
        self.cells[usize::from(e)]
    }

    // The answer of cell `e`; the memo keeps those found on the way.
    fn find<X: Copy, Q: Question<X>>(&self, e: u16, question: &Q, memo: &mut [Option<X>]) -> X
        requires within { e < array_vec_len self.now.cells }
        requires room { array_vec_len self.now.cells ≤ length memo.old }
        requires kept { (f : ℕ → X) → Solves (Q.step question.now) self.now.cells.items f → Kept f memo.old }
        ensures answer { (f : ℕ → X) → Solves (Q.step question.now) self.now.cells.items f → result ≡ f e }
        ensures leaves { (f : ℕ → X) → Solves (Q.step question.now) self.now.cells.items f → Kept f memo.new }
        ensures same { length memo.new ≡ length memo.old }
    {
        let at = usize::from(e);
        if let Some(x) = memo[at] {
            return x;
        }
        let found = match self.cell(e) {
            Cell::Constant(a) => question.constant(a),
            Cell::Variable(x) => question.variable(x),
            Cell::Binary(operation, a, b) => {
                let x = self.find(a, question, memo);
                let y = self.find(b, question, memo);
                question.operation(operation, x, y)
            }
            Cell::Choose(a, b, c) => {
                let x = self.find(a, question, memo);
                match question.choosing(x) {
                    Choosing::Second => self.find(b, question, memo),
                    Choosing::Third => self.find(c, question, memo),
                    Choosing::ByBoth => {
                        let y = self.find(b, question, memo);
                        let z = self.find(c, question, memo);
                        question.choice(x, y, z)
                    }
                }
            }
        };
        memo[at] = Some(found);
        found
    }

    // The answer of `expression`. The memo, which has no answer yet, is the caller's: only there is the size of
    // an answer known.
    pub(crate) fn answer<X: Copy, Q: Question<X>>(
        &self,
        expression: u16,
        question: &Q,
        memo: &mut [Option<X>],
    ) -> X
        requires within { expression < array_vec_len self.now.cells }
        requires blank { memo.old ≡ replicate 256 None }
        ensures answer { (f : ℕ → X) → Solves (Q.step question.now) self.now.cells.items f → result ≡ f expression }
    {
        self.find(expression, question, memo)
    }
}
