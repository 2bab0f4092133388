// Explorations of the failover pair: its states are 1 1, 0 1 and 0 0, found in that order.
use explore::explore;
use system::Refusal;
use system_example::Failover;

#[test]
fn rows_exactly_enough(rt: HostRuntime) {
    let mut rows = [7u16; 6];
    assert_eq!(rt; explore(&Failover {}, &mut rows, rt.alloc()), Ok(3));
    assert_eq!(rt; rows, [1, 1, 0, 1, 0, 0]);
}

#[test]
fn words_past_the_rows_stay(rt: HostRuntime) {
    let mut rows = [7u16; 9];
    assert_eq!(rt; explore(&Failover {}, &mut rows, rt.alloc()), Ok(3));
    assert_eq!(rt; rows, [1, 1, 0, 1, 0, 0, 7, 7, 7]);
}

#[test]
fn one_row_too_few(rt: HostRuntime) {
    let mut rows = [7u16; 5];
    assert_eq!(rt;
        explore(&Failover {}, &mut rows, rt.alloc()).map_err(Refusal::number),
        Err(17)
    );
    assert_eq!(rt; rows, [1, 1, 0, 1, 7]);
}

#[test]
fn no_row_at_all(rt: HostRuntime) {
    let mut word = [7u16; 1];
    assert_eq!(rt;
        explore(&Failover {}, &mut word, rt.alloc()).map_err(Refusal::number),
        Err(17)
    );
    assert_eq!(rt; word, [7]);
    let mut nothing = [0u16; 0];
    assert_eq!(rt;
        explore(&Failover {}, &mut nothing, rt.alloc()).map_err(Refusal::number),
        Err(17)
    );
}
