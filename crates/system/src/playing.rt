// Any list of calls on a new walk.
ghost use Rattle.std.specs.Prelude.{◌≡◌, slice_set};
ghost use Rattle.system.specs.Walks.{played, played_answers, overlaid};
ghost use Rattle.system.specs.Reaching.{WalkRules, Walked};
ghost use Rattle.system.specs.Trails.{course};

use crate::answers::Call;
use crate::refusal::Refusal;
use crate::system::Markov;
use crate::walk::Walk;

// Puts an answer at place i, if there is one. A proof knows nothing of the elements after a write
// through `get_mut`, nor after `zip` with `iter_mut`, so the place is written by its index.
fn note(answers: &mut [Result<(), Refusal>], i: usize, answer: Result<(), Refusal>)
    ensures leaves { answers.new ≡ slice_set answers.old i answer }
{
    if i < answers.len() {
        answers[i] = answer;
    }
}

// A new walk after a list of calls, refused ones included. Answer i goes to place i of the
// lent list, as far as that goes; places past the calls stay as they were.
pub fn play<S: Markov>(system: S, calls: &[Call], answers: &mut [Result<(), Refusal>]) -> Walk<S>
    ensures answer { course (S.System.meaning system).width result.trail ≡ played (S.System.meaning system) (S.Markov.delays system) calls.now }
    ensures leaves { answers.new ≡ overlaid (played_answers (S.System.meaning system) (S.Markov.delays system) calls.now) answers.old }
    ensures walks { Walked (S.System.meaning system) (S.Markov.delays system) (course (S.System.meaning system).width result.trail) }
    ensures rules { WalkRules (S.System.meaning system) (S.Markov.delays system) }
    ensures same { result.system ≡ system }
{
    let mut walk = Walk::new(system);
    for (i, call) in calls.iter().enumerate() {
        let answer = walk.call(*call);
        note(answers, i, answer);
    }
    walk
}
