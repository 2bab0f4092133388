// A walk over a system: its present state, and the steps that led there.
ghost use Rattle.std.specs.Prelude.{◌≡◌, length, Ok};
ghost use Rattle.system.specs.Walks.{fresh, step_at};
ghost use Rattle.system.specs.Trails.{course, Called};

use crate::answers::{Call, Step};
use crate::refusal::Refusal;
use crate::rows::{acted, first_row, waited};
use crate::system::Markov;
use crate::trail::Trail;

#[derive(Drop)]
pub struct Walk<S: Markov> {
    system: S,
    trail: Trail,
}

impl<S: Markov> Walk<S> {
    // A walk at the first state, with no step.
    pub fn new(system: S) -> Walk<S>
        ensures answer { course (S.System.meaning system).width result.trail ≡ fresh (S.System.meaning system).start }
        ensures same { result.system ≡ system }
    {
        let row = first_row(&system);
        Walk {
            system,
            trail: Trail::begun(row),
        }
    }

    // The present state.
    pub fn state(&self) -> &[u16]
        ensures answer { result.now ≡ (course (S.System.meaning self.now.system).width self.now.trail).here }
    {
        let width = self.system.width();
        let row = self.trail.here();
        &row[0..width]
    }

    // How many steps led there.
    pub fn trail_length(&self) -> usize
        ensures answer { result ≡ length (course (S.System.meaning self.now.system).width self.now.trail).past }
    {
        self.trail.len()
    }

    // Step i, the oldest being 0.
    pub fn step(&self, i: usize) -> Option<Step>
        ensures answer { result ≡ step_at (course (S.System.meaning self.now.system).width self.now.trail).past i }
    {
        self.trail.step(i)
    }

    // To the target of outcome n of move k.
    pub fn act(&mut self, k: u64, n: u64) -> Result<(), Refusal>
        ensures leaves { Called (S.System.meaning self.old.system) (S.Markov.delays self.old.system) (Call.Act k n) self.old.trail self.new.trail result }
        ensures same { self.new.system ≡ self.old.system }
    {
        let ahead = acted(&self.system, self.state(), k, n)?;
        self.trail.add(ahead)
    }

    // To the target of delay k.
    pub fn wait(&mut self, k: u64) -> Result<(), Refusal>
        ensures leaves { Called (S.System.meaning self.old.system) (S.Markov.delays self.old.system) (Call.Wait k) self.old.trail self.new.trail result }
        ensures same { self.new.system ≡ self.old.system }
    {
        let ahead = waited(&self.system, self.state(), k)?;
        self.trail.add(ahead)
    }

    // To the state before the last step.
    pub fn back(&mut self) -> Result<(), Refusal>
        ensures leaves { Called (S.System.meaning self.old.system) (S.Markov.delays self.old.system) Call.Back self.old.trail self.new.trail result }
        ensures same { self.new.system ≡ self.old.system }
    {
        self.trail.pop()
    }

    // To the first state, with no step.
    pub fn restart(&mut self)
        ensures leaves { Called (S.System.meaning self.old.system) (S.Markov.delays self.old.system) Call.Restart self.old.trail self.new.trail (Ok tt) }
        ensures same { self.new.system ≡ self.old.system }
    {
        let row = first_row(&self.system);
        self.trail = Trail::begun(row);
    }

    pub(crate) fn call(&mut self, call: Call) -> Result<(), Refusal>
        ensures leaves { Called (S.System.meaning self.old.system) (S.Markov.delays self.old.system) call self.old.trail self.new.trail result }
        ensures same { self.new.system ≡ self.old.system }
    {
        match call {
            Call::Act(k, n) => self.act(k, n),
            Call::Wait(k) => self.wait(k),
            Call::Back => self.back(),
            Call::Restart => {
                self.restart();
                Ok(())
            }
        }
    }
}
