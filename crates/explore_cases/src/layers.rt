// A layer is a system again: walked, played and explored with no proof of its own.
use explore::explore;
use std::test::Fail;
use system::{Call, Refusal, Step, Walk, play};
use system_example::{Action, Failover, Rename};

fn action(step: Option<Step>) -> Option<u16> {
    match step {
        Some(Step::Acted(label, _)) => Some(label.action),
        _ => None,
    }
}

#[test]
fn a_layer_is_walked(rt: HostRuntime) -> Result<(), Fail> {
    assert!(rt; Action::new(64).is_none());
    let forty = Action::new(40).ok_or("40 is an action")?;
    let mut walk = Walk::new(Rename::new(Failover {}, 1, forty));
    assert_eq!(rt; walk.act(0, 2), Ok(()));
    assert_eq!(rt; walk.act(1, 0), Ok(()));
    assert_eq!(rt; action(walk.step(0)), Some(40));
    assert_eq!(rt; action(walk.step(1)), Some(2));
    assert_eq!(rt; walk.state(), [1, 1].as_slice());
    Ok(())
}

#[test]
fn a_layer_over_a_layer_is_played(rt: HostRuntime) -> Result<(), Fail> {
    let forty = Action::new(40).ok_or("40 is an action")?;
    let two = Action::new(2).ok_or("2 is an action")?;
    let layers = Rename::new(Rename::new(Failover {}, 1, forty), 40, two);
    let mut answers = [Err(Refusal::TooManyStates); 1];
    let walk = play(layers, &[Call::Act(0, 0)], &mut answers);
    assert_eq!(rt; answers, [Ok(())]);
    assert_eq!(rt; action(walk.step(0)), Some(2));
    Ok(())
}

#[test]
fn a_layer_is_explored(rt: HostRuntime) -> Result<(), Fail> {
    let forty = Action::new(40).ok_or("40 is an action")?;
    let layer = Rename::new(Failover {}, 1, forty);
    let mut rows = [7u16; 6];
    assert_eq!(rt; explore(&layer, &mut rows, rt.alloc()), Ok(3));
    assert_eq!(rt; rows, [1, 1, 0, 1, 0, 0]);
    Ok(())
}
