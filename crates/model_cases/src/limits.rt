// The last value within each limit, and the first past it.
ghost use Rattle.std.specs.Prelude.{◌<◌};

use super::build::*;
use std::alloc::{AllocError, Global};
use std::test::Fail;

// Sixteen variables of this size, eight to each of two processes, the first with so many parameters.
fn two_processes(heap: Global, size: u16, number: u16) -> Result<Verdict, AllocError> {
    let mut words = [16].to_vec(heap)?;
    repeat(&mut words, size, 16)?;
    words.extend_from_slice(&[2, 0, number, 0, 8, 8, 2])?;
    repeat(&mut words, 0, 9)?;
    words.extend_from_slice(&[
        1, 0, 4, 6, 0, 1, 0, 0, 0, 1, 0, 0, 0, 0, 0, 6, 0, 3, 0, 0, 0, 1, 1, 0, 0, 0, 0, 8,
    ])?;
    repeat(&mut words, 0, 8)?;
    of_words(heap, &words)
}

// One process: `nodes` nodes, delays but for the last, which calls it; with so many actions and arguments.
fn delays(heap: Global, nodes: u16, actions: u16, arguments: u16) -> Result<Verdict, AllocError> {
    let mut words = [0, 1, 0, 0, 0, 0, actions].to_vec(heap)?;
    repeat(&mut words, 0, actions)?;
    words.push(nodes)?;
    for i in 1..nodes {
        words.extend_from_slice(&[6, 0, i, 0, 0, 0])?;
    }
    words.extend_from_slice(&[1, 0, 0, 0, 0, 0, arguments])?;
    repeat(&mut words, 0, arguments)?;
    of_words(heap, &words)
}

// Nodes of this kind from number `from` on, each the parent of the next; a sum is over its own variable.
fn nested(words: &mut Vec<u16>, kind: u16, from: u16, count: u16) -> Result<(), AllocError> {
    for i in 0..count {
        words.extend_from_slice(&[
            kind,
            if kind == 4 { i } else { 0 },
            from.wrapping_add(i).wrapping_add(1),
            0,
            0,
            0,
        ])?;
    }
    Ok(())
}

// A delay, and below it sums over variables of this size, the last of another, conditions and a delay.
fn chain(
    heap: Global,
    sums: u16,
    size: u16,
    last: u16,
    conditions: u16,
) -> Result<Verdict, AllocError>
    requires one_sum { 0 < sums }
    requires few_sums { sums < 100 }
    requires few_conditions { conditions < 100 }
{
    let inner = sums + conditions;
    let mut words = [sums].to_vec(heap)?;
    repeat(&mut words, size, sums - 1)?;
    words.extend_from_slice(&[last, 1, 0, 0, 0, 0, 1, 0, inner + 3, 6, 0, 1, 0, 0, 0])?;
    nested(&mut words, 4, 1, sums)?;
    nested(&mut words, 2, sums + 1, conditions)?;
    words.extend_from_slice(&[6, 0, inner + 2, 0, 0, 0, 1, 0, 0, 0, 0, 0, 0])?;
    of_words(heap, &words)
}

#[test]
fn variables_and_parameters(rt: HostRuntime) -> Result<(), Fail> {
    assert_eq!(rt; two_processes(rt.alloc(), 256, 8)?, Ok(()));
    assert_eq!(rt; two_processes(rt.alloc(), 257, 8)?, Err((3, 1, 0)));
    assert_eq!(rt; two_processes(rt.alloc(), 256, 9)?, Err((3, 2, 0)));
    Ok(())
}

#[test]
fn actions_nodes_and_arguments(rt: HostRuntime) -> Result<(), Fail> {
    let heap = rt.alloc();
    assert_eq!(rt; delays(heap, 256, 64, 512)?, Ok(()));
    assert_eq!(rt; delays(heap, 257, 64, 512)?, Err((3, 5, 0)));
    assert_eq!(rt; delays(heap, 256, 65, 512)?, Err((3, 4, 0)));
    assert_eq!(rt; delays(heap, 256, 64, 513)?, Err((3, 6, 0)));
    Ok(())
}

#[test]
fn ways_down(rt: HostRuntime) -> Result<(), Fail> {
    let heap = rt.alloc();
    assert_eq!(rt; chain(heap, 8, 4, 4, 8)?, Ok(()), "product 65,536");
    assert_eq!(rt; chain(heap, 8, 4, 8, 8)?, Err((8, 5, 1)), "product 131,072");
    assert_eq!(rt; chain(heap, 9, 1, 1, 8)?, Err((8, 5, 1)), "nine sums");
    assert_eq!(rt; chain(heap, 8, 1, 1, 9)?, Err((8, 5, 1)), "nine conditions");
    assert_eq!(rt;
        chain(heap, 16, 1, 1, 0)?,
        Err((8, 5, 1)),
        "sixteen variables"
    );
    assert_eq!(rt;
        chain(heap, 17, 1, 1, 0)?,
        Err((3, 1, 0)),
        "seventeen variables"
    );
    Ok(())
}
