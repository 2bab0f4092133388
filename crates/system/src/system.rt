// Systems, and the questions that they answer.
ghost use Rattle.std.specs.Prelude.{◌≡◌, ℕ, ◌<◌, ◌≤◌, true, List, IfOk};
ghost use Rattle.system.specs.Systems.{ceiling, Delay, Meaning, Sound, SoundDelays};
ghost use Rattle.system.specs.Questions.{put, first_answer, move_count_answer, label_answer, outcome_count_answer, outcome_answer, outcome_target, delay_count_answer, delay_answer, delay_target};

use crate::answers::{Label, Rate, Weight};
use crate::refusal::Refusal;

pub trait System {
    // the width, the set of states, the first state and the moves
    ghost meaning: { Self → Meaning };

    fn width(&self) -> usize
        ensures answer { result ≡ (meaning self.now).width };

    fn first(&self, target: &mut [u16]) -> Result<(), Refusal>
        ensures answer { result ≡ first_answer (meaning self.now) target.old }
        ensures leaves { target.new ≡ put result (meaning self.now).start target.old };

    fn move_count(&self, state: &[u16]) -> Result<u64, Refusal>
        ensures answer { result ≡ move_count_answer (meaning self.now) state.now };

    fn label(&self, state: &[u16], k: u64) -> Result<Label, Refusal>
        ensures answer { result ≡ label_answer (meaning self.now) state.now k };

    fn outcome_count(&self, state: &[u16], k: u64) -> Result<u64, Refusal>
        ensures answer { result ≡ outcome_count_answer (meaning self.now) state.now k };

    fn outcome(&self, state: &[u16], k: u64, n: u64, target: &mut [u16]) -> Result<Weight, Refusal>
        ensures answer { result ≡ outcome_answer (meaning self.now) state.now k n target.old }
        ensures leaves { target.new ≡ put result (outcome_target (meaning self.now) state.now k n) target.old };

    ghost sound: { (s : Self) → Sound (meaning s) };
}

// A system that can also wait.
pub trait Markov: System {
    ghost delays: { Self → List ℕ → List Delay };

    fn delay_count(&self, state: &[u16]) -> Result<u64, Refusal>
        ensures answer { result ≡ delay_count_answer (Self.System.meaning self.now) (delays self.now) state.now }
        ensures small { IfOk result (λ n. n ≤ ceiling) };

    // `rules` says two things in one clause: both are of the same answer, and each system proves them together.
    fn delay(&self, state: &[u16], k: u64, target: &mut [u16]) -> Result<Rate, Refusal>
        ensures answer { result ≡ delay_answer (Self.System.meaning self.now) (delays self.now) state.now k target.old }
        ensures leaves { target.new ≡ put result (delay_target (delays self.now) state.now k) target.old }
        ensures rules { IfOk result (λ rate. (0 < rate.0) × ((Self.System.meaning self.now).member target.new ≡ true)) };

    ghost waits: { (s : Self) → SoundDelays (Self.System.meaning s) (delays s) };
}
