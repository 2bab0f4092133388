// Walks over and explores the failover pair, and the same pair with an action renamed.
#![tactic(auto)]

use explore::explore;
use system::{Call, Markov, Refusal, System, Walk, play};
use system_example::{Action, Failover, Rename};

const CALLS: [Call; 8] = [
    Call::Back,
    Call::Act(0, 1),
    Call::Act(0, 2),
    Call::Wait(7),
    Call::Wait(1),
    Call::Back,
    Call::Act(1, 0),
    Call::Wait(0),
];

fn print_words(rt: &HostRuntime, words: &[u16]) -> anyhow::Result<()> {
    for (i, word) in words.iter().enumerate() {
        if i > 0 {
            print!(rt; " ")?;
        }
        print!(rt; "{word}")?;
    }
    println!(rt)?;
    Ok(())
}

fn print_answer(rt: &HostRuntime, answer: Result<(), Refusal>) -> anyhow::Result<()> {
    match answer {
        Ok(()) => println!(rt; "ok")?,
        Err(refusal) => println!(rt; "{refusal}")?,
    }
    Ok(())
}

fn print_walk<S: Markov>(rt: &HostRuntime, walk: &Walk<S>) -> anyhow::Result<()> {
    print!(rt; "state: ")?;
    print_words(rt, walk.state())?;
    print!(rt; "trail:")?;
    for i in 0..walk.trail_length() {
        if let Some(step) = walk.step(i) {
            let before = if i > 0 { "; " } else { " " };
            print!(rt; "{before}{step}")?;
        }
    }
    println!(rt)?;
    Ok(())
}

fn print_rows(rt: &HostRuntime, rows: &[u16], width: usize, count: usize) -> anyhow::Result<()> {
    if width > 0 {
        for row in rows.chunks_exact(width).take(count) {
            print_words(rt, row)?;
        }
    }
    Ok(())
}

fn print_states<S: Markov>(rt: &HostRuntime, system: &S, rows: &mut [u16]) -> anyhow::Result<()> {
    let width = system.width();
    match explore(system, rows, rt.alloc()) {
        Ok(count) => {
            print_rows(rt, rows, width, count)?;
            println!(rt; "{count} states")?;
        }
        Err(refusal) => {
            print_rows(rt, rows, width, rows.len())?;
            println!(rt; "{refusal}")?;
        }
    }
    Ok(())
}

fn tour<S: Markov + Drop>(rt: &HostRuntime, system: S) -> anyhow::Result<()> {
    let mut rows = [9u16; 6];
    print_states(rt, &system, &mut rows)?;
    let mut few = [9u16; 5];
    print_states(rt, &system, &mut few)?;
    let mut answers = [Ok(()); 8];
    let walk = play(system, &CALLS, &mut answers);
    for answer in answers {
        print_answer(rt, answer)?;
    }
    print_walk(rt, &walk)
}

fn run(rt: &HostRuntime) -> anyhow::Result<()> {
    println!(rt; "the failover pair")?;
    tour(rt, Failover {})?;
    if let Some(route) = Action::new(40) {
        println!(rt; "the same with action 1 renamed to 40")?;
        tour(rt, Rename::new(Failover {}, 1, route))?;
    }
    Ok(())
}

fn main(rt: HostRuntime) -> anyhow::Result<()> {
    run(&rt)
}
