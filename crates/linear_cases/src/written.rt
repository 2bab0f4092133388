// Files that come back byte for byte, and a buffer that is too short.
use crate::files::{comes_back, words_come_back};
use linear::Equation;
use linear_write::{WriteFault, write};
use std::test::Fail;

// One variable of size 3, one program counter; a delay while expression 2 holds, at the rate of expression 5.
const QUEUE: [u8; 35] = [
    1, 0, 0, 0, 0x1e, 0, 1, 0, 3, 0, 1, 0, 1, 0, 0, 0, 0, 0, 1, 0, 1, 0, 0, 0, 1, 0, 2, 0, 5, 0, 1,
    0, 2, 0, 4,
];

#[test]
fn the_queue_comes_back(rt: HostRuntime) {
    assert!(rt; comes_back(&QUEUE));
}

#[test]
fn files_come_back(rt: HostRuntime) -> Result<(), Fail> {
    let heap = rt.alloc();
    assert!(rt; words_come_back(heap, &[0, 1, 1, 0, 0])?);
    assert!(rt; words_come_back(heap, &[2, 256, 1, 256, 256, 255, 0, 0, 0])?);
    assert!(rt;
        words_come_back(
            heap,
            &[
                1, 4, 2, 1, 3, 1, 2, 0, 1, 65535, 63, 4, 9, 8, 7, 6, 0, 300, 1, 1, 0, 0,
            ],
        )?
    );
    assert!(rt;
        words_come_back(
            heap,
            &[
                2, 256, 256, 1, 1, 0, 0, 0, 1, 1, 2, 1, 0, 0, 9, 1, 0, 0, 2, 5,
            ],
        )?
    );
    Ok(())
}

#[test]
fn a_short_buffer_is_left(rt: HostRuntime) {
    let mut out = [7; 14];
    let written = write(&Equation::smallest(), &mut out);
    assert_eq!(rt; written.map_err(WriteFault::number), Err(16));
    for byte in out {
        assert_eq!(rt; byte, 7);
    }
}

#[test]
fn the_smallest_fills_its_buffer(rt: HostRuntime) {
    let mut out = [7; 15];
    let written = write(&Equation::smallest(), &mut out);
    assert_eq!(rt; written, Ok(15));
    assert!(rt; comes_back(&out));
}

#[test]
fn a_clone_is_written_alike(rt: HostRuntime) -> Result<(), Fail> {
    let equation = Equation::smallest();
    let copy = equation.clone()?;
    let mut first = [7; 15];
    let mut second = [9; 15];
    assert_eq!(rt; write(&equation, &mut first), Ok(15));
    assert_eq!(rt; write(&copy, &mut second), Ok(15));
    assert_eq!(rt; first, second);
    Ok(())
}
