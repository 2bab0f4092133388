// Walks over the failover pair, call by call and played.
use system::{Call, Label, Rate, Refusal, Step, Walk, play};
use system_example::Failover;

#[test]
fn starts_at_the_first_state(rt: HostRuntime) {
    let walk = Walk::new(Failover {});
    assert_eq!(rt; walk.state(), [1, 1].as_slice());
    assert_eq!(rt; walk.trail_length(), 0);
    assert_eq!(rt; walk.step(0), None);
}

#[test]
fn weight_zero_is_no_outcome(rt: HostRuntime) {
    let mut walk = Walk::new(Failover {});
    assert_eq!(rt; walk.act(0, 1).map_err(Refusal::number), Err(12));
    assert_eq!(rt; walk.act(0, 3).map_err(Refusal::number), Err(12));
    assert_eq!(rt; walk.act(1, 0).map_err(Refusal::number), Err(11));
    assert_eq!(rt; walk.wait(1).map_err(Refusal::number), Err(11));
    assert_eq!(rt; walk.state(), [1, 1].as_slice());
    assert_eq!(rt; walk.trail_length(), 0);
}

#[test]
fn steps_say_what_was_done(rt: HostRuntime) {
    let mut walk = Walk::new(Failover {});
    assert_eq!(rt; walk.act(0, 2), Ok(()));
    assert_eq!(rt; walk.wait(1), Ok(()));
    assert_eq!(rt; walk.state(), [0, 0].as_slice());
    assert_eq!(rt; walk.trail_length(), 2);
    let route = Label {
        action: 1,
        count: 1,
        values: [0; 4],
    };
    assert_eq!(rt; walk.step(0), Some(Step::Acted(route, 2)));
    assert_eq!(rt; walk.step(1), Some(Step::Waited(Rate(1))));
    assert_eq!(rt; walk.step(2), None);
}

#[test]
fn back_on_an_empty_trail(rt: HostRuntime) {
    let mut walk = Walk::new(Failover {});
    assert_eq!(rt; walk.back().map_err(Refusal::number), Err(15));
    assert_eq!(rt; walk.wait(0), Ok(()));
    assert_eq!(rt; walk.back(), Ok(()));
    assert_eq!(rt; walk.state(), [1, 1].as_slice());
    assert_eq!(rt; walk.back().map_err(Refusal::number), Err(15));
    assert_eq!(rt; walk.wait(0), Ok(()));
    walk.restart();
    assert_eq!(rt; walk.state(), [1, 1].as_slice());
    assert_eq!(rt; walk.back().map_err(Refusal::number), Err(15));
}

// A walk that waited 64 times, if none was refused.
fn full_walk() -> Walk<Failover> {
    let mut walk = Walk::new(Failover {});
    for _ in 0..64 {
        let _ = walk.wait(0);
    }
    walk
}

#[test]
fn the_trail_holds_64_steps(rt: HostRuntime) {
    let mut walk = full_walk();
    assert_eq!(rt; walk.trail_length(), 64);
    assert_eq!(rt; walk.wait(0).map_err(Refusal::number), Err(14));
    assert_eq!(rt; walk.back(), Ok(()));
    assert_eq!(rt; walk.state(), [0, 1].as_slice());
    assert_eq!(rt; walk.wait(0), Ok(()));
    assert_eq!(rt; walk.trail_length(), 64);
}

#[test]
fn a_full_trail_is_tried_last(rt: HostRuntime) {
    let mut walk = full_walk();
    assert_eq!(rt; walk.act(0, 0).map_err(Refusal::number), Err(14));
    assert_eq!(rt; walk.act(0, 1).map_err(Refusal::number), Err(12));
    assert_eq!(rt; walk.act(9, 0).map_err(Refusal::number), Err(11));
    assert_eq!(rt; walk.wait(9).map_err(Refusal::number), Err(11));
}

#[test]
fn play_answers_each_call(rt: HostRuntime) {
    let calls = [
        Call::Back,
        Call::Act(0, 2),
        Call::Act(0, 2),
        Call::Wait(1),
        Call::Back,
        Call::Wait(0),
    ];
    let mut answers = [Err(Refusal::TooManyStates); 7];
    let walk = play(Failover {}, &calls, &mut answers);
    assert_eq!(rt; walk.state(), [1, 1].as_slice());
    assert_eq!(rt; walk.trail_length(), 2);
    assert_eq!(rt;
        answers.map(|answer| answer.map_err(Refusal::number)),
        [Err(15), Ok(()), Err(12), Ok(()), Ok(()), Ok(()), Err(17),]
    );
}

#[test]
fn play_lets_go_of_answers_past_the_list(rt: HostRuntime) {
    let calls = [Call::Wait(0), Call::Restart, Call::Wait(0), Call::Wait(9)];
    let mut answers = [Err(Refusal::TooManyStates); 2];
    let walk = play(Failover {}, &calls, &mut answers);
    assert_eq!(rt; walk.state(), [0, 1].as_slice());
    assert_eq!(rt; walk.trail_length(), 1);
    assert_eq!(rt; answers, [Ok(()), Ok(())]);
}
