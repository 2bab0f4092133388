// Formulas: every operation at its edges, and every refusal at its place.
use crate::files::{verdict, words_verdict};
use formula::Formula;
use language::{FileLanguage, Language};
use std::test::Fail;
use word_files::file_of_words;

// Cells 0 to 5: the constants 3, 5, 65,535, 1, 256 and variable 2; then operations on them.
const OPERATIONS: [u16; 73] = [
    18, //
    0, 3, 0, 0, //
    0, 5, 0, 0, //
    0, 65535, 0, 0, //
    0, 1, 0, 0, //
    0, 256, 0, 0, //
    1, 2, 0, 0, //
    2, 0, 1, 0, //
    2, 2, 3, 0, //
    3, 1, 0, 0, //
    3, 0, 1, 0, //
    4, 0, 1, 0, //
    4, 4, 4, 0, //
    5, 0, 0, 0, //
    5, 0, 1, 0, //
    6, 0, 1, 0, //
    6, 0, 0, 0, //
    7, 5, 0, 1, //
    7, 12, 5, 16, //
];

#[test]
fn operations_at_their_edges(rt: HostRuntime) -> Result<(), Fail> {
    let bytes = file_of_words(rt.alloc(), &OPERATIONS)?;
    let mut formula = Formula::empty();
    assert!(rt; formula.fill(bytes.as_slice()).is_ok());
    assert_eq!(rt; formula.count(), 18);
    let expected: [(u16, u16); 13] = [
        (5, 9),
        (6, 8),
        (7, 65535),
        (8, 2),
        (9, 0),
        (10, 15),
        (11, 65535),
        (12, 1),
        (13, 0),
        (14, 1),
        (15, 0),
        (16, 3),
        (17, 9),
    ];
    for (expression, value) in expected {
        assert_eq!(rt; formula.value(expression, &[7, 8, 9]), value);
    }
    Ok(())
}

#[test]
fn what_is_beyond_counts_as_0(rt: HostRuntime) -> Result<(), Fail> {
    let bytes = file_of_words(rt.alloc(), &OPERATIONS)?;
    let mut formula = Formula::empty();
    assert!(rt; formula.fill(bytes.as_slice()).is_ok());
    assert_eq!(rt; formula.value(5, &[7, 8]), 0);
    assert_eq!(rt; formula.value(16, &[]), 5);
    assert_eq!(rt; formula.value(18, &[7, 8, 9]), 0);
    assert_eq!(rt; formula.value(65535, &[7, 8, 9]), 0);
    assert!(rt; !formula.names(18, 2));
    Ok(())
}

#[test]
fn names_are_those_reached(rt: HostRuntime) -> Result<(), Fail> {
    let bytes = file_of_words(rt.alloc(), &OPERATIONS)?;
    let mut formula = Formula::empty();
    assert!(rt; formula.fill(bytes.as_slice()).is_ok());
    assert!(rt; formula.names(5, 2));
    assert!(rt; !formula.names(5, 1));
    assert!(rt; !formula.names(6, 2));
    assert!(rt; formula.names(16, 2));
    assert!(rt; formula.names(17, 2));
    Ok(())
}

#[test]
fn bytes_that_are_refused(rt: HostRuntime) {
    assert_eq!(rt; verdict::<Formula>(&[]), Err((31, 0)));
    assert_eq!(rt; verdict::<Formula>(&[2, 0, 0, 0, 2, 0, 0]), Err((31, 0)));
    assert_eq!(rt; verdict::<Formula>(&[1, 0, 0, 0]), Err((32, 0)));
    assert_eq!(rt; verdict::<Formula>(&[1, 0, 0, 0, 3, 0, 0]), Err((32, 0)));
    assert_eq!(rt; verdict::<Formula>(&[1, 0, 0, 0, 0]), Err((32, 0)));
    assert_eq!(rt; verdict::<Formula>(&[1, 0, 0, 0, 1, 0]), Err((32, 0)));
    assert_eq!(rt; verdict::<Formula>(&[1, 0, 0, 0, 3, 0, 0, 9]), Err((32, 0)));
    assert_eq!(rt; verdict::<Formula>(&[1, 0, 0, 0, 3, 0, 1, 0]), Err((32, 0)));
    assert_eq!(rt; verdict::<Formula>(&[1, 0, 0, 0, 2, 0, 0]), Ok(()));
}

#[test]
fn words_that_are_refused(rt: HostRuntime) -> Result<(), Fail> {
    let heap = rt.alloc();
    assert_eq!(rt; words_verdict::<Formula>(heap, &[257])?, Err((33, 0)));
    assert_eq!(rt; words_verdict::<Formula>(heap, &[256])?, Err((32, 0)));
    assert_eq!(rt;
        words_verdict::<Formula>(heap, &[2, 0, 1, 0, 0, 0, 1, 0])?,
        Err((32, 1))
    );
    assert_eq!(rt;
        words_verdict::<Formula>(heap, &[1, 0, 1, 0, 0, 0])?,
        Err((32, 0))
    );
    assert_eq!(rt;
        words_verdict::<Formula>(heap, &[1, 8, 0, 0, 0])?,
        Err((33, 0))
    );
    assert_eq!(rt;
        words_verdict::<Formula>(heap, &[1, 1, 16, 0, 0])?,
        Err((33, 0))
    );
    assert_eq!(rt; words_verdict::<Formula>(heap, &[1, 1, 15, 0, 0])?, Ok(()));
    assert_eq!(rt;
        words_verdict::<Formula>(heap, &[2, 0, 1, 0, 0, 0, 1, 1, 0])?,
        Err((33, 1))
    );
    assert_eq!(rt;
        words_verdict::<Formula>(heap, &[2, 0, 1, 0, 0, 0, 1, 0, 1])?,
        Err((33, 1))
    );
    assert_eq!(rt;
        words_verdict::<Formula>(heap, &[2, 0, 1, 0, 0, 2, 0, 1, 0])?,
        Err((33, 1))
    );
    assert_eq!(rt;
        words_verdict::<Formula>(heap, &[2, 0, 1, 0, 0, 2, 0, 0, 1])?,
        Err((33, 1))
    );
    assert_eq!(rt;
        words_verdict::<Formula>(heap, &[2, 0, 1, 0, 0, 7, 0, 0, 1])?,
        Err((33, 1))
    );
    Ok(())
}

#[test]
fn a_refusal_leaves_the_formula(rt: HostRuntime) -> Result<(), Fail> {
    let bytes = file_of_words(rt.alloc(), &OPERATIONS)?;
    let mut formula = Formula::empty();
    assert!(rt; formula.fill(bytes.as_slice()).is_ok());
    assert!(rt; formula.fill(&[]).is_err());
    assert_eq!(rt; formula.count(), 18);
    assert_eq!(rt; formula.value(6, &[]), 8);
    Ok(())
}

// Cell 0 is variable 0, each other cell the sum of the one before it with itself: 2^255 paths.
#[test]
fn a_shared_graph_answers_at_once(rt: HostRuntime) -> Result<(), Fail> {
    let mut words = Vec::new(rt.alloc());
    words.extend_from_slice(&[256, 1, 0, 0, 0])?;
    for k in 0..255u16 {
        words.extend_from_slice(&[2, k, k, 0])?;
    }
    let bytes = file_of_words(rt.alloc(), words.as_slice())?;
    let mut formula = Formula::empty();
    assert!(rt; formula.fill(bytes.as_slice()).is_ok());
    assert_eq!(rt; formula.value(15, &[1]), 32768);
    assert_eq!(rt; formula.value(255, &[1]), 65535);
    assert!(rt; formula.names(255, 0));
    assert!(rt; !formula.names(255, 1));
    Ok(())
}
