// One word of a file changed: the fault that it gives.
use super::build::*;
use std::alloc::{AllocError, Global};
use std::test::Fail;

// What becomes of the file with this word in place of the one there.
fn changed(heap: Global, at: usize, word: u16) -> Result<Verdict, AllocError> {
    let mut words = all_kinds(heap)?;
    if let Some(there) = words.get_mut(at) {
        *there = word;
    }
    of_words(heap, &words)
}

const SECTIONS: [(usize, u16, Verdict); 18] = [
    (0, 17, Err((3, 1, 0))), // 17 variables
    (1, 0, Err((3, 1, 0))), // size 0
    (2, 256, Ok(())), // size 256
    (3, 257, Err((3, 1, 2))), // size 257
    (4, 0, Err((3, 2, 0))), // no process
    (4, 17, Err((3, 2, 0))), // 17 processes
    (6, 9, Err((3, 2, 0))), // 9 parameters
    (5, 3, Err((3, 2, 0))), // parameters past the variables
    (8, 1, Err((3, 2, 1))), // a first parameter where there are none
    (11, 2, Err((3, 3, 0))), // start in no process
    (12, 3, Err((3, 3, 0))), // a start value that is its size
    (13, 0, Err((3, 4, 0))), // no action
    (13, 65, Err((3, 4, 0))), // 65 actions
    (14, 1, Err((3, 4, 0))), // arguments of the internal action
    (15, 5, Err((3, 4, 1))), // 5 arguments
    (16, 0, Err((3, 5, 0))), // no node
    (16, 257, Err((3, 5, 0))), // 257 nodes
    (77, 513, Err((3, 6, 0))), // 513 arguments
];

const NAMES: [(usize, u16, Verdict); 18] = [
    (7, 10, Err((4, 2, 0))), // a body that is no node
    (10, 10, Err((4, 2, 1))), // the same of the second process
    (17, 0, Err((4, 5, 0))), // kind 0
    (71, 7, Err((4, 5, 9))), // kind 7
    (54, 2, Err((4, 5, 6))), // a call of no process
    (55, 3, Err((4, 5, 6))), // arguments past the last
    (73, 1, Err((4, 5, 9))), // a first argument where there are none
    (19, 0, Err((4, 5, 0))), // a child that is not higher
    (19, 10, Err((4, 5, 0))), // a child that is no node
    (24, 1, Err((4, 5, 1))), // a left child that is not higher
    (25, 10, Err((4, 5, 1))), // a right child that is no node
    (30, 3, Err((4, 5, 2))), // a sum over no variable
    (31, 2, Err((4, 5, 2))), // the child of a sum
    (42, 2, Err((4, 5, 4))), // no action
    (43, 1, Err((4, 5, 4))), // arguments past the last
    (44, 3, Err((4, 5, 4))), // an outcome of no variable
    (46, 4, Err((4, 5, 4))), // the child of an action
    (49, 5, Err((4, 5, 5))), // the child of a delay
];

const UNUSED_FIELDS: [(usize, u16, Verdict); 15] = [
    (56, 1, Err((4, 5, 6))), // of a call
    (57, 1, Err((4, 5, 6))), // of a call
    (58, 1, Err((4, 5, 6))), // of a call
    (20, 1, Err((4, 5, 0))), // of a condition
    (21, 1, Err((4, 5, 0))), // of a condition
    (22, 1, Err((4, 5, 0))), // of a condition
    (26, 1, Err((4, 5, 1))), // of a choice
    (27, 1, Err((4, 5, 1))), // of a choice
    (28, 1, Err((4, 5, 1))), // of a choice
    (32, 1, Err((4, 5, 2))), // of a sum
    (33, 1, Err((4, 5, 2))), // of a sum
    (34, 1, Err((4, 5, 2))), // of a sum
    (38, 1, Err((4, 5, 3))), // of a delay
    (39, 1, Err((4, 5, 3))), // of a delay
    (40, 1, Err((4, 5, 3))), // of a delay
];

const ONCE: [(usize, u16, Verdict); 7] = [
    (10, 0, Err((5, 5, 0))), // a node that is two bodies
    (49, 6, Err((5, 5, 6))), // a node that is two children
    (19, 2, Err((5, 5, 1))), // a node that is no child
    (30, 0, Err((5, 1, 0))), // a variable bound by a parameter and a sum
    (44, 1, Err((5, 1, 1))), // a variable bound by a sum and an action
    (30, 2, Err((5, 1, 1))), // a variable that nothing binds
    (35, 2, Err((7, 5, 6))), // a call under a condition
];

#[test]
fn unchanged(rt: HostRuntime) -> Result<(), Fail> {
    let words = all_kinds(rt.alloc())?;
    assert_eq!(rt; of_words(rt.alloc(), &words)?, Ok(()));
    Ok(())
}

#[test]
fn sections_refused(rt: HostRuntime) -> Result<(), Fail> {
    for (at, word, fault) in SECTIONS {
        assert_eq!(rt; changed(rt.alloc(), at, word)?, fault);
    }
    Ok(())
}

#[test]
fn names_refused(rt: HostRuntime) -> Result<(), Fail> {
    for (at, word, fault) in NAMES {
        assert_eq!(rt; changed(rt.alloc(), at, word)?, fault);
    }
    Ok(())
}

#[test]
fn unused_fields_refused(rt: HostRuntime) -> Result<(), Fail> {
    for (at, word, fault) in UNUSED_FIELDS {
        assert_eq!(rt; changed(rt.alloc(), at, word)?, fault);
    }
    Ok(())
}

#[test]
fn once_refused(rt: HostRuntime) -> Result<(), Fail> {
    for (at, word, fault) in ONCE {
        assert_eq!(rt; changed(rt.alloc(), at, word)?, fault);
    }
    Ok(())
}

#[test]
fn calls_elsewhere(rt: HostRuntime) -> Result<(), Fail> {
    let heap = rt.alloc();
    let body = [[4, 0, 1, 0, 0, 0], [6, 0, 2, 0, 0, 0], [1, 0, 0, 0, 0, 0]];
    assert_eq!(rt; of_nodes(heap, 3, &body)?, Ok(()));
    assert_eq!(rt;
        of_nodes(heap, 2, &[[4, 0, 1, 0, 0, 0], [1, 0, 0, 0, 0, 0]])?,
        Err((7, 5, 1)),
        "under a sum"
    );
    let condition = [[4, 0, 1, 0, 0, 0], [2, 0, 2, 0, 0, 0], [1, 0, 0, 0, 0, 0]];
    assert_eq!(rt;
        of_nodes(heap, 3, &condition)?,
        Err((7, 5, 2)),
        "under a condition"
    );
    let choice = [
        [4, 0, 1, 0, 0, 0],
        [3, 2, 3, 0, 0, 0],
        [6, 0, 4, 0, 0, 0],
        [1, 0, 0, 0, 0, 0],
        [1, 0, 0, 0, 0, 0],
    ];
    assert_eq!(rt;
        of_nodes(heap, 5, &choice)?,
        Err((7, 5, 3)),
        "under a choice"
    );
    let bodies = [0, 1, 0, 0, 0, 0, 1, 0, 1, 1, 0, 0, 0, 0, 0, 0];
    assert_eq!(rt; of_words(heap, &bodies)?, Err((7, 5, 0)), "a body");
    Ok(())
}
