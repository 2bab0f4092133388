// The state of a walk and the steps that led there: none, one more, one less.
ghost use Rattle.std.specs.Prelude.{◌≡◌, ℕ, take, length, Ok};
ghost use Rattle.system.specs.Walks.{fresh, step_answer, step_course, back_answer, back_course, step_at};
ghost use Rattle.system.specs.Trails.{course, seen};

use crate::answers::{Rate, Step};
use crate::refusal::Refusal;
use crate::rows::Ahead;
use std::marker::Model;

const MOST_STEPS: usize = 64;

// A step that was taken, and the row of the state before it.
#[derive(Clone, Copy)]
pub(crate) struct Taken {
    step: Step,
    from: [u16; 64],
}

// What fills the places of a trail past its steps.
impl Default for Taken {
    fn default() -> Taken {
        Taken {
            step: Step::Waited(Rate(0)),
            from: [0; 64],
        }
    }
}

// The steps, the oldest first, in the places before `depth`; the row of the present state lies in
// place `depth`, where the next step is put beside it, so that a step back moves no row.
#[derive(Drop)]
pub struct Trail {
    places: [Taken; 65],
    depth: usize,
}

// It is seen as the row of the present state and the steps.
impl Model for Trail {
    ghost use Rattle.std.specs.Prelude.{◌≡◌, ◌≤◌, length, take, slice_index_or};
    ghost use Rattle.system.specs.Places.{Held, no_place};

    ghost Value = { Held };

    ghost view = { λ t. record { here = (slice_index_or t.places t.depth no_place).from; past = take t.depth t.places } };

    ghost invariant = { λ t. (t.depth ≤ 64) × (length t.places ≡ 65) };
}

impl Trail {
    // No step, at the state in a row.
    pub(crate) fn begun(row: [u16; 64]) -> Trail
        ensures answer { (w : ℕ) → course w result ≡ fresh (take w row) }
    {
        let mut places = [Taken::default(); 65];
        places[0].from = row;
        Trail { places, depth: 0 }
    }

    // The row of the present state.
    pub(crate) fn here(&self) -> &[u16; 64]
        ensures answer { result.now ≡ self.now.here }
    {
        &self.places[self.depth].from
    }

    pub(crate) fn len(&self) -> usize
        ensures answer { (w : ℕ) → result ≡ length (course w self.now).past }
    {
        self.depth
    }

    // Step i, the oldest being 0.
    pub(crate) fn step(&self, i: usize) -> Option<Step>
        ensures answer { (w : ℕ) → result ≡ step_at (course w self.now).past i }
    {
        let taken = self.places[..self.depth].get(i)?;
        Some(taken.step)
    }

    // One step more, unless there are 64.
    pub(crate) fn add(&mut self, ahead: Ahead) -> Result<(), Refusal>
        ensures answer { (w : ℕ) → result ≡ step_answer (seen w (Ok ahead)) (course w self.old) }
        ensures leaves { (w : ℕ) → course w self.new ≡ step_course (seen w (Ok ahead)) (course w self.old) }
    {
        let at = self.depth;
        if at >= MOST_STEPS {
            return Err(Refusal::TrailFull);
        }
        let Ahead { step, row } = ahead;
        self.places[at].step = step;
        self.places[at + 1].from = row;
        self.depth = at + 1;
        Ok(())
    }

    // One step less, unless there is none.
    pub(crate) fn pop(&mut self) -> Result<(), Refusal>
        ensures answer { (w : ℕ) → result ≡ back_answer (course w self.old).past }
        ensures leaves { (w : ℕ) → course w self.new ≡ back_course (course w self.old).past (course w self.old) }
    {
        if self.depth == 0 {
            return Err(Refusal::TrailEmpty);
        }
        self.depth -= 1;
        Ok(())
    }
}
