// A layer: any system with one action renamed.
ghost use Rattle.std.specs.Prelude.{◌≡◌};
ghost use Rattle.system_example.specs.Renamings.{renamed};
ghost use Rattle.system_example.specs.Renamed.{rename_sound};
ghost use Rattle.std.proofs.Common.{rules};

use crate::action::Action;
use system::{Label, Markov, Rate, Refusal, System, Weight};

#[derive(Drop)]
pub struct Rename<S: Markov> {
    below: S,
    from: u16,
    to: Action,
}

impl<S: Markov> Rename<S> {
    pub fn new(below: S, from: u16, to: Action) -> Rename<S>
        ensures below { result.below ≡ below }
        ensures from { result.from ≡ from }
        ensures to { result.to ≡ to }
    {
        Rename { below, from, to }
    }
}

impl<S: Markov> System for Rename<S> {
    ghost meaning = { λ s. renamed s.from s.to.number (S.System.meaning s.below) };

    ghost sound = { λ s. rename_sound s.from s.to.number s.to.low (S.System.meaning s.below) (S.System.sound s.below) };

    fn width(&self) -> usize {
        self.below.width()
    }

    fn first(&self, target: &mut [u16]) -> Result<(), Refusal> {
        self.below.first(target)
    }

    fn move_count(&self, state: &[u16]) -> Result<u64, Refusal> {
        self.below.move_count(state)
    }

    fn label(&self, state: &[u16], k: u64) -> Result<Label, Refusal> {
        let label = self.below.label(state, k)?;
        if label.action == self.from {
            Ok(Label {
                action: self.to.number,
                ..label
            })
        } else {
            Ok(label)
        }
    }

    fn outcome_count(&self, state: &[u16], k: u64) -> Result<u64, Refusal> {
        self.below.outcome_count(state, k)
    }

    fn outcome(
        &self,
        state: &[u16],
        k: u64,
        n: u64,
        target: &mut [u16],
    ) -> Result<Weight, Refusal> {
        self.below.outcome(state, k, n, target)
    }
}

impl<S: Markov> Markov for Rename<S> {
    ghost delays = { λ s. S.Markov.delays s.below };

    ghost waits = { Prim.search rules };

    fn delay_count(&self, state: &[u16]) -> Result<u64, Refusal> {
        self.below.delay_count(state)
    }

    fn delay(&self, state: &[u16], k: u64, target: &mut [u16]) -> Result<Rate, Refusal> {
        self.below.delay(state, k, target)
    }
}
