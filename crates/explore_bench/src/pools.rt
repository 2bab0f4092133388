// Two pools of servers behind one balancer: a state says how many of each are busy.
ghost use Rattle.std.specs.Prelude.{◌≡◌, ◌==◌, ◌<◌, ◌≤◌, [], ◌∷◌, cond, length, slice_index, Ok, Err};
ghost use Rattle.explore_bench.specs.Pooling.{busier, calmer, in_pools, pools, pools_delays};
ghost use Rattle.std.proofs.Common.{rules};

use system::{Label, Markov, Rate, Refusal, System, Weight};

const WIDTH: usize = 2;

// In each pool fewer are busy than its size.
#[derive(Drop)]
pub struct Pools {
    fast: u16,
    slow: u16,
    ghost some_fast: { 0 < fast },
    ghost low_fast: { fast ≤ 4000 },
    ghost some_slow: { 0 < slow },
    ghost low_slow: { slow ≤ 4000 },
}

impl Pools {
    pub(crate) fn new(fast: u16, slow: u16) -> Option<Pools> {
        if fast == 0 || fast > 4000 || slow == 0 || slow > 4000 {
            return None;
        }
        Some(Pools { fast, slow })
    }

    // How many servers are busy in each pool.
    fn busy(&self, state: &[u16]) -> Result<(u16, u16), Refusal>
        ensures { result ≡ cond (in_pools self.now.fast self.now.slow state.now) (Ok (slice_index state.now 0, slice_index state.now 1)) (Err Refusal.OutsideSet) }
    {
        match state {
            [fast, slow] if *fast < self.fast && *slow < self.slow => Ok((*fast, *slow)),
            _ => Err(Refusal::OutsideSet),
        }
    }
}

// One more is busy, if the pool has one.
fn more(busy: u16, size: u16) -> u16
    requires { busy < size }
    ensures is { result ≡ busier size busy }
    ensures low { result < size }
{
    (busy + 1).min(size - 1)
}

// One fewer is busy, if any is.
fn fewer(busy: u16) -> u16
    ensures is { result ≡ calmer busy }
    ensures low { result ≤ busy }
{
    busy.saturating_sub(1)
}

// Refuses a buffer of another width. The failover example has such a test too; to share these lines `system` would have to
// offer them to every caller.
fn fit(target: &[u16]) -> Result<(), Refusal>
    ensures { result ≡ cond (length target.now == 2) (Ok tt) (Err Refusal.WrongBuffer) }
{
    if target.len() == WIDTH {
        Ok(())
    } else {
        Err(Refusal::WrongBuffer)
    }
}

impl System for Pools {
    ghost meaning = { λ s. pools s.fast s.slow };

    ghost sound = { Prim.search rules };

    fn width(&self) -> usize {
        WIDTH
    }

    fn first(&self, target: &mut [u16]) -> Result<(), Refusal> {
        fit(target)?;
        target.copy_from_slice(&[0, 0]);
        Ok(())
    }

    fn move_count(&self, state: &[u16]) -> Result<u64, Refusal> {
        self.busy(state)?;
        Ok(1)
    }

    fn label(&self, state: &[u16], k: u64) -> Result<Label, Refusal> {
        self.busy(state)?;
        if k != 0 {
            return Err(Refusal::NoMove);
        }
        Ok(Label {
            action: 1,
            count: 0,
            values: [0; 4],
        })
    }

    fn outcome_count(&self, state: &[u16], k: u64) -> Result<u64, Refusal> {
        self.busy(state)?;
        if k == 0 { Ok(2) } else { Err(Refusal::NoMove) }
    }

    fn outcome(
        &self,
        state: &[u16],
        k: u64,
        n: u64,
        target: &mut [u16],
    ) -> Result<Weight, Refusal> {
        fit(target)?;
        let (fast, slow) = self.busy(state)?;
        let (weight, next) = match (k, n) {
            (0, 0) => (2, [more(fast, self.fast), slow]),
            (0, 1) => (1, [fast, more(slow, self.slow)]),
            (0, _) => return Err(Refusal::NoOutcome),
            _ => return Err(Refusal::NoMove),
        };
        target.copy_from_slice(&next);
        Ok(Weight(weight))
    }
}

impl Markov for Pools {
    ghost delays = { λ _. pools_delays };

    ghost waits = { Prim.search rules };

    fn delay_count(&self, state: &[u16]) -> Result<u64, Refusal> {
        self.busy(state)?;
        Ok(2)
    }

    fn delay(&self, state: &[u16], k: u64, target: &mut [u16]) -> Result<Rate, Refusal> {
        fit(target)?;
        let (fast, slow) = self.busy(state)?;
        let (rate, next) = match k {
            0 => (5, [fewer(fast), slow]),
            1 => (3, [fast, fewer(slow)]),
            _ => return Err(Refusal::NoMove),
        };
        target.copy_from_slice(&next);
        Ok(Rate(rate))
    }
}
