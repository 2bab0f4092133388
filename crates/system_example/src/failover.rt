// A primary server with a standby: a state says whether each is up.
ghost use Rattle.std.specs.Prelude.{◌≡◌, ◌==◌, [], cond, length, ok_or, Ok, Err};
ghost use Rattle.system.specs.Questions.{label_of};
ghost use Rattle.system_example.specs.Failovers.{failover, failover_delays, mode_of, promoting, routing, words_of};
ghost use Rattle.std.proofs.Common.{rules};

use system::{Label, Markov, Rate, Refusal, System, Weight};

const WIDTH: usize = 2;

// Both servers are up, only the standby, or neither; the primary is never up alone.
#[derive(Clone, Copy)]
pub(crate) enum Mode {
    Both,
    Standby,
    Neither,
}

impl Mode {
    // The first word says whether the primary is up, the second the standby.
    fn words(self) -> [u16; 2]
        ensures { result ≡ words_of self }
    {
        match self {
            Mode::Both => [1, 1],
            Mode::Standby => [0, 1],
            Mode::Neither => [0, 0],
        }
    }
}

fn mode_of(state: &[u16]) -> Result<Mode, Refusal>
    ensures { result ≡ ok_or (mode_of state.now) Refusal.OutsideSet }
{
    match state {
        [1, 1] => Ok(Mode::Both),
        [0, 1] => Ok(Mode::Standby),
        [0, 0] => Ok(Mode::Neither),
        _ => Err(Refusal::OutsideSet),
    }
}

// Refuses a buffer of another width. `explore_bench` has such a test too; to share these lines `system` would have to offer
// them to every caller.
fn fit(target: &[u16]) -> Result<(), Refusal>
    ensures { result ≡ cond (length target.now == 2) (Ok tt) (Err Refusal.WrongBuffer) }
{
    if target.len() == WIDTH {
        Ok(())
    } else {
        Err(Refusal::WrongBuffer)
    }
}

fn put(target: &mut [u16], mode: Mode)
    requires { length target.old ≡ 2 }
    ensures { target.new ≡ words_of mode }
{
    let [primary, standby] = mode.words();
    target[0] = primary;
    target[1] = standby;
}

// Requests go to the primary, or to the standby once the primary is down.
fn route(server: u16) -> Label
    ensures { result ≡ label_of (routing server []) }
{
    Label {
        action: 1,
        count: 1,
        values: [server, 0, 0, 0],
    }
}

// The standby takes the primary's place, and a new standby starts.
fn promote() -> Label
    ensures { result ≡ label_of (promoting []) }
{
    Label {
        action: 2,
        count: 0,
        values: [0; 4],
    }
}

#[derive(Drop)]
pub struct Failover {}

impl System for Failover {
    ghost meaning = { λ _. failover };

    ghost sound = { Prim.search rules };

    fn width(&self) -> usize {
        WIDTH
    }

    fn first(&self, target: &mut [u16]) -> Result<(), Refusal> {
        fit(target)?;
        put(target, Mode::Both);
        Ok(())
    }

    fn move_count(&self, state: &[u16]) -> Result<u64, Refusal> {
        Ok(match mode_of(state)? {
            Mode::Both => 1,
            Mode::Standby => 2,
            Mode::Neither => 0,
        })
    }

    fn label(&self, state: &[u16], k: u64) -> Result<Label, Refusal> {
        match (mode_of(state)?, k) {
            (Mode::Both, 0) => Ok(route(0)),
            (Mode::Standby, 0) => Ok(route(1)),
            (Mode::Standby, 1) => Ok(promote()),
            _ => Err(Refusal::NoMove),
        }
    }

    fn outcome_count(&self, state: &[u16], k: u64) -> Result<u64, Refusal> {
        match (mode_of(state)?, k) {
            (Mode::Both, 0) => Ok(3),
            (Mode::Standby, 0) => Ok(2),
            (Mode::Standby, 1) => Ok(1),
            _ => Err(Refusal::NoMove),
        }
    }

    fn outcome(
        &self,
        state: &[u16],
        k: u64,
        n: u64,
        target: &mut [u16],
    ) -> Result<Weight, Refusal> {
        fit(target)?;
        let (weight, next) = match (mode_of(state)?, k, n) {
            (Mode::Both, 0, 0) => (9, Mode::Both),
            (Mode::Both, 0, 1) => (0, Mode::Neither),
            (Mode::Both, 0, 2) => (1, Mode::Standby),
            (Mode::Standby, 0, 0) => (3, Mode::Standby),
            (Mode::Standby, 0, 1) => (1, Mode::Neither),
            (Mode::Standby, 1, 0) => (1, Mode::Both),
            (Mode::Both, 0, _) | (Mode::Standby, 0, _) | (Mode::Standby, 1, _) => return Err(
                Refusal::NoOutcome,
            ),
            _ => return Err(Refusal::NoMove),
        };
        put(target, next);
        Ok(Weight(weight))
    }
}

impl Markov for Failover {
    ghost delays = { λ _. failover_delays };

    ghost waits = { Prim.search rules };

    fn delay_count(&self, state: &[u16]) -> Result<u64, Refusal> {
        Ok(match mode_of(state)? {
            Mode::Both => 1,
            Mode::Standby => 2,
            Mode::Neither => 1,
        })
    }

    fn delay(&self, state: &[u16], k: u64, target: &mut [u16]) -> Result<Rate, Refusal> {
        fit(target)?;
        let (rate, next) = match (mode_of(state)?, k) {
            (Mode::Both, 0) => (1, Mode::Standby),
            (Mode::Standby, 0) => (5, Mode::Both),
            (Mode::Standby, 1) => (1, Mode::Neither),
            (Mode::Neither, 0) => (3, Mode::Standby),
            _ => return Err(Refusal::NoMove),
        };
        put(target, next);
        Ok(Rate(rate))
    }
}
