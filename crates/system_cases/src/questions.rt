// The failover pair's answers, and the order of refusals: buffer, state, move or delay, outcome.
use system::{Markov, Rate, Refusal, System, Weight};
use system_example::Failover;

const NOWHERE: [u16; 2] = [1, 0];

const FIRST: [u16; 2] = [1, 1];

#[test]
fn outcome_refusals_in_order(rt: HostRuntime) {
    let system = Failover {};
    let mut long = [7u16; 3];
    let mut target = [7u16; 2];
    assert_eq!(rt;
        system
            .outcome(&NOWHERE, 9, 9, &mut long)
            .map_err(Refusal::number),
        Err(13)
    );
    assert_eq!(rt; long, [7, 7, 7]);
    assert_eq!(rt;
        system
            .outcome(&NOWHERE, 9, 9, &mut target)
            .map_err(Refusal::number),
        Err(10)
    );
    assert_eq!(rt;
        system
            .outcome(&FIRST, 9, 9, &mut target)
            .map_err(Refusal::number),
        Err(11)
    );
    assert_eq!(rt;
        system
            .outcome(&FIRST, 0, 9, &mut target)
            .map_err(Refusal::number),
        Err(12)
    );
    assert_eq!(rt; target, [7, 7]);
}

#[test]
fn outcomes_have_weights_and_targets(rt: HostRuntime) {
    let system = Failover {};
    let mut target = [7u16; 2];
    assert_eq!(rt; system.outcome(&FIRST, 0, 1, &mut target), Ok(Weight(0)));
    assert_eq!(rt; target, [0, 0]);
    assert_eq!(rt; system.outcome(&FIRST, 0, 2, &mut target), Ok(Weight(1)));
    assert_eq!(rt; target, [0, 1]);
}

#[test]
fn delay_refusals_in_order(rt: HostRuntime) {
    let system = Failover {};
    let mut short = [7u16; 1];
    let mut target = [7u16; 2];
    assert_eq!(rt;
        system
            .delay(&NOWHERE, 9, &mut short)
            .map_err(Refusal::number),
        Err(13)
    );
    assert_eq!(rt;
        system
            .delay(&NOWHERE, 9, &mut target)
            .map_err(Refusal::number),
        Err(10)
    );
    assert_eq!(rt;
        system
            .delay(&FIRST, 9, &mut target)
            .map_err(Refusal::number),
        Err(11)
    );
    assert_eq!(rt; target, [7, 7]);
    assert_eq!(rt; system.delay(&FIRST, 0, &mut target), Ok(Rate(1)));
    assert_eq!(rt; target, [0, 1]);
}

#[test]
fn counts_and_the_first_state(rt: HostRuntime) {
    let system = Failover {};
    assert_eq!(rt; system.move_count(&FIRST), Ok(1));
    assert_eq!(rt;
        system.move_count(&NOWHERE).map_err(Refusal::number),
        Err(10)
    );
    assert_eq!(rt; system.outcome_count(&FIRST, 0), Ok(3));
    assert_eq!(rt;
        system.outcome_count(&FIRST, 1).map_err(Refusal::number),
        Err(11)
    );
    assert_eq!(rt;
        system.outcome_count(&NOWHERE, 1).map_err(Refusal::number),
        Err(10)
    );
    assert_eq!(rt; system.delay_count(&FIRST), Ok(1));
    assert_eq!(rt;
        system.delay_count(&[1, 1, 1]).map_err(Refusal::number),
        Err(10)
    );
    let mut target = [7u16; 2];
    assert_eq!(rt; system.first(&mut target), Ok(()));
    assert_eq!(rt; target, FIRST);
}
