// Explores two pools of servers, FAST times SLOW states, and says how many it found.
#![tactic(auto)]

mod pools;

use anyhow::anyhow;
use explore::explore;
use pools::Pools;

fn explore_pools(rt: &HostRuntime, fast: u16, slow: u16) -> anyhow::Result<()> {
    let system = Pools::new(fast, slow).ok_or_else(|| anyhow!("a pool has 1 to 4000 states"))?;
    let states = usize::from(fast) * usize::from(slow);
    let mut rows = vec![in rt.alloc(); 0u16; states * 2]?;
    match explore(&system, &mut rows, rt.alloc()) {
        Ok(count) => println!(rt; "{fast} x {slow}: {count} states")?,
        Err(refusal) => println!(rt; "{fast} x {slow}: {refusal}")?,
    }
    Ok(())
}

fn run(rt: &HostRuntime) -> anyhow::Result<()> {
    let mut args = std::env::args(rt)?;
    let _ = args.next();
    match (args.next(), args.next()) {
        (Some(fast), Some(slow)) => explore_pools(rt, fast.parse::<u16>()?, slow.parse::<u16>()?),
        _ => {
            explore_pools(rt, 400, 250)?;
            explore_pools(rt, 400, 500)
        }
    }
}

fn main(rt: HostRuntime) -> anyhow::Result<()> {
    run(&rt)
}
