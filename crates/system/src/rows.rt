// What a system's questions answer, in rows of 64 words: a state, and 0 after it.
ghost use Rattle.std.specs.Prelude.{◌≡◌, ◌-◌, length, take, drop, replicate};
ghost use Rattle.std.specs.Fn.{FnOnceReturnsAtMut};
ghost use Rattle.system.specs.Questions.{first_row_of};
ghost use Rattle.system.specs.Walks.{acting, waiting};
ghost use Rattle.system.specs.Trails.{seen};

use crate::answers::Step;
use crate::refusal::Refusal;
use crate::system::{Markov, System};

// A step with the row of the state that it leads to.
#[derive(Clone, Copy)]
pub(crate) struct Ahead {
    pub(crate) step: Step,
    pub(crate) row: [u16; 64],
}

// A question's answer, and the row whose first words it was lent.
fn asked<S: System, T, F: FnOnce(&mut [u16]) -> T>(system: &S, question: F) -> (T, [u16; 64])
    requires { F.IsAlwaysCallable question }
    ensures put { let w = (S.System.meaning system.now).width in FnOnceReturnsAtMut F.FnOnce question (replicate w 0) result.0 (take w result.1) }
    ensures rest { let w = (S.System.meaning system.now).width in drop w result.1 ≡ replicate (64 - w) 0 }
{
    let width = system.width();
    let mut row = [0u16; 64];
    let answer = question(&mut row[0..width]);
    (answer, row)
}

pub fn first_row<S: System>(system: &S) -> [u16; 64]
    ensures answer { result ≡ first_row_of (S.System.meaning system.now) }
{
    let (_, row) = asked(system, |target| system.first(target));
    row
}

// Where act leads.
pub(crate) fn acted<S: System>(system: &S, here: &[u16], k: u64, n: u64) -> Result<Ahead, Refusal>
    ensures answer { seen (S.System.meaning system.now).width result ≡ acting (S.System.meaning system.now) k n here.now }
{
    let label = system.label(here, k)?;
    let (weight, row) = asked(system, |target| system.outcome(here, k, n, target));
    if weight?.0 == 0 {
        return Err(Refusal::NoOutcome);
    }
    Ok(Ahead {
        step: Step::Acted(label, n),
        row,
    })
}

// Where wait leads.
pub(crate) fn waited<S: Markov>(system: &S, here: &[u16], k: u64) -> Result<Ahead, Refusal>
    ensures answer { seen (S.System.meaning system.now).width result ≡ waiting (S.System.meaning system.now) (S.Markov.delays system.now) k here.now }
{
    let (rate, row) = asked(system, |target| system.delay(here, k, target));
    Ok(Ahead {
        step: Step::Waited(rate?),
        row,
    })
}
